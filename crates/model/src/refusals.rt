// The table of "What an answer says": the tests of each call. "The lowest number wins",
// but that 14 is "tested right after 7 wherever 7 is", and that a count of dirty slots which a slot
// tested belies "answers 4" only "right after 6".
use crate::answers::Refusal;
use crate::filter::both_set;
use crate::layouts::*;
use crate::registers::Registers;
use crate::sets::*;
use crate::words::*;

// "1 shape: .. N or L out of range; wrong word count": "Format's shape test reads its arguments and
// the word count only."
pub fn size_good<L: Layout>(board: &[u64], lines: u64, entries: u64) -> bool {
    (1..=MOST_LINES).contains(&lines)
        && (1..=L::MOST_ENTRIES).contains(&entries)
        && board.len() as u64 == line_place(entries, lines)
}

// "2 work: work memory is not 2S + 64 words", which are now "2S + 128 words"; "Make S a multiple of
// 4, from 4 to 256, else refusal 2."
pub fn work_good(work: &[u64]) -> bool {
    let slots = slot_count(work);
    (WAYS..=MOST_SLOTS).contains(&slots)
        && slots % WAYS == 0
        && work.len() as u64 == filter_place(work, FILTER_WORDS)
}

// "1 shape: fewer than 2 board words; 24 bits not zero", which "hold 1 instead of 0" now; "N or L out of
// range; wrong word count; P = 2^24 - 1", which reads 2^40 - 1; "start >= L; length > L". A board of fewer
// than 2 words has no N.
pub fn board_good<L: Layout>(board: &[u64]) -> bool {
    let header = header_of::<L>(board);
    header.leading == L::SHAPE_LEADING
        && header.persisted != L::LAST_EPOCH
        && header.start < header.entries
        && header.length <= header.entries
        && size_good::<L>(board, header.lines, header.entries)
}

// Rows 1 and 2.
pub fn test_memories(board: &[u64], work: &[u64]) -> Result<(), Refusal> {
    if !board_good::<Today>(board) {
        return Err(Refusal::Shape);
    }
    if !work_good(work) {
        return Err(Refusal::Work);
    }
    Ok(())
}

// Whether entry i of the log is proper: "A proper log entry has address < N, ValidFrom < ValidTill, P < ValidTill,
// and a ValidTill not below that of the next older entry", which is 0 for the oldest. "A log entry is now proper only
// if ValidTill <= P + 16 as well."
fn log_entry_proper<L: Layout>(board: &[u64], header: Header, i: u64) -> bool {
    let entry = logged::<L>(board, header, i);
    let older_till = if i == 0 {
        0
    } else {
        logged::<L>(board, header, i - 1).valid_till
    };
    entry.is_proper(header.lines)
        && header.persisted < entry.valid_till
        && older_till <= entry.valid_till
        && entry.valid_till <= header.persisted.wrapping_add(MOST_AHEAD)
}

// "3 entry: a log entry is not proper; value is i of the first, oldest counted 0": that i, if there is one.
pub fn first_improper<L: Layout>(board: &[u64]) -> Option<u64> {
    let header = header_of::<L>(board);
    (0..header.length).find(|&i| !log_entry_proper::<L>(board, header, i))
}

// What a call is tested on: the two lent memories, and the registers that it is given.
#[derive(Clone, Copy)]
pub struct State<'a> {
    board: &'a [u64],
    work: &'a [u64],
    registers: Registers,
}

impl<'a> State<'a> {
    pub fn of(board: &'a [u64], work: &'a [u64], registers: Registers) -> State<'a> {
        State {
            board,
            work,
            registers,
        }
    }

    fn header(self) -> Header {
        header_of::<Today>(self.board)
    }

    // "Proper registers: P < s <= 2^24 - 1", now 2^40 - 1, "s - P <= 16, b <= 31, c <= S, c = 0 where
    // s = P + 1, length + b <= L." "Registers are also improper when the count exceeds S." "Registers are
    // proper with target 0 and c = 0, or with P < target < s": outside a pass, or in one. Where s = P + 1
    // there is no target between them, so that c is 0 by this rule.
    fn registers_proper(self) -> bool {
        let header = self.header();
        let slots = slot_count(self.work);
        let Registers {
            epoch,
            buffered,
            cursor,
            dirty,
            target,
        } = self.registers;
        let target_proper = if target == 0 {
            cursor == 0
        } else {
            header.persisted < target && target < epoch
        };
        header.persisted < epoch
            && epoch <= Today::LAST_EPOCH
            && epoch - header.persisted <= MOST_AHEAD
            && buffered <= MOST_BUFFERED
            && cursor <= slots
            && dirty <= slots
            && header.length.wrapping_add(buffered) <= header.entries
            && target_proper
    }

    // Rows 1, 2 and 4. "Tally now refuses as commit does up to 4": these are all that it refuses by.
    pub fn test_state(self) -> Result<(), Refusal> {
        test_memories(self.board, self.work)?;
        if !self.registers_proper() {
            return Err(Refusal::Registers);
        }
        Ok(())
    }

    // Buffered entry i.
    fn buffered(self, i: u64) -> Entry {
        entry_at::<Today>(self.work, buffer_place(self.work, i))
    }

    // "7 buffer: a buffered entry is not proper", which asks for "ValidTill <= s" too; then 14, "tested
    // right after 7 wherever 7 is": so 7 of any entry comes before 14 of any.
    fn test_buffer(self) -> Result<(), Refusal> {
        let header = self.header();
        let Registers {
            epoch,
            buffered,
            ..
        } = self.registers;
        let proper = |i| {
            let entry = self.buffered(i);
            entry.is_proper(header.lines) && entry.valid_till <= epoch
        };
        if !(0..buffered).all(proper) {
            return Err(Refusal::Buffer);
        }
        if !(0..buffered).all(|i| both_set(self.work, self.buffered(i).address)) {
            return Err(Refusal::Filter);
        }
        Ok(())
    }

    // "A proper slot word is zero, or is valid with the 22 bits zero", of which "6 zero bits" are kept,
    // "address < N, address mod S its slot, and either clean with tag 0 or dirty with P < tag <= s." By
    // request 6/13 "address a belongs in any slot of set a mod S/4, and 6 tests that".
    fn slot_proper(self, k: u64) -> bool {
        if word_at(self.work, slot_place(k)) == EMPTY_SLOT {
            return true;
        }
        let header = self.header();
        let slot = slot_at(self.work, k);
        let tag_proper = if slot.dirty {
            header.persisted < slot.tag && slot.tag <= self.registers.epoch
        } else {
            slot.tag == CLEAN_TAG
        };
        slot.valid
            && slot.zero == 0
            && slot.address < header.lines
            && set_of(self.work, slot.address).contains(&k)
            && tag_proper
    }

    // Test 6 of one slot of a set: it is proper, and no slot before it holds its line, since "a line held
    // twice in it is improper".
    fn way_proper(self, k: u64) -> bool {
        let slot = slot_at(self.work, k);
        self.slot_proper(k) && (!slot.valid || slot_for(self.work, slot.address) == k)
    }

    // "a count of 0 with the visited slot dirty, or of S with it not": of a slot that is proper.
    fn count_belied(self, visited: u64) -> bool {
        if slot_at(self.work, visited).dirty {
            self.registers.dirty == 0
        } else {
            self.registers.dirty == slot_count(self.work)
        }
    }

    // "Load, store and evict now test the whole set by 6": that of an address. Right after it "5/13's count test
    // refuses 0 if any slot of it is dirty, S if any is not".
    fn test_set(self, address: u64) -> Result<(), Refusal> {
        if !set_of(self.work, address).all(|k| self.way_proper(k)) {
            return Err(Refusal::Slot);
        }
        if set_of(self.work, address).any(|k| self.count_belied(k)) {
            return Err(Refusal::Registers);
        }
        Ok(())
    }

    // Load and evict: rows 1, 2 and 4, "5 address: a >= N", 6, the count's test "Right after 6", 7 and 14.
    pub fn test_line(self, address: u64) -> Result<(), Refusal> {
        self.test_state()?;
        if address >= self.header().lines {
            return Err(Refusal::Address);
        }
        self.test_set(address)?;
        self.test_buffer()
    }

    // Store: the rows of load, then "8 room: an undo entry is due and length + b + 1 > L".
    pub fn test_store(self, address: u64) -> Result<(), Refusal> {
        self.test_line(address)?;
        let header = self.header();
        let longer = header
            .length
            .wrapping_add(self.registers.buffered)
            .wrapping_add(1);
        if undo_due(self.work, self.registers, address) && longer > header.entries {
            return Err(Refusal::Room);
        }
        Ok(())
    }

    // Rows 1, 2, 4, 7 and 14 of commit, which are begin's too: "after commit's 1, 2, 4, 7 and 14".
    fn test_epochs(self) -> Result<(), Refusal> {
        self.test_state()?;
        self.test_buffer()
    }

    // Commit: rows 1, 2, 4, 7 and 14; then "9 waiting: s - P = 16"; "10 last: s = 2^24 - 1", now
    // 2^40 - 1.
    pub fn test_commit(self) -> Result<(), Refusal> {
        self.test_epochs()?;
        let epoch = self.registers.epoch;
        if epoch.wrapping_sub(self.header().persisted) == MOST_AHEAD {
            return Err(Refusal::Waiting);
        }
        if epoch == Today::LAST_EPOCH {
            return Err(Refusal::Last);
        }
        Ok(())
    }

    // Begin: rows 1, 2, 4, 7 and 14; then "15 target, a begin call inside a pass or with a target out of
    // range": "A begin call takes a target from P + 1 to s - 1".
    pub fn test_begin(self, target: u64) -> Result<(), Refusal> {
        self.test_epochs()?;
        let in_range = self.header().persisted < target && target < self.registers.epoch;
        if self.registers.target != 0 || !in_range {
            return Err(Refusal::Target);
        }
        Ok(())
    }

    // Scan: rows 1, 2 and 4; "6 slot: the slot visited is not proper: .. slot c if c < S", and the
    // count's test "Right after 6": "The scan keeps visiting and testing single slots"; 7 and 14; then "11
    // none: s = P + 1".
    pub fn test_scan(self) -> Result<(), Refusal> {
        self.test_state()?;
        let visited = self.registers.cursor;
        if visited < slot_count(self.work) {
            if !self.slot_proper(visited) {
                return Err(Refusal::Slot);
            }
            if self.count_belied(visited) {
                return Err(Refusal::Registers);
            }
        }
        self.test_buffer()?;
        if self.registers.epoch == self.header().persisted.wrapping_add(1) {
            return Err(Refusal::None);
        }
        Ok(())
    }
}

// Whether a store makes an undo entry: "a clean line makes the entry P, s ..; a dirty line with
// tag t < s makes t, s ..; tag s makes none." A line not held is loaded first, so it is clean.
pub fn undo_due(work: &[u64], registers: Registers, address: u64) -> bool {
    let k = slot_for(work, address);
    let slot = slot_at(work, k);
    !holds(work, k, address) || !slot.dirty || slot.tag < registers.epoch
}
