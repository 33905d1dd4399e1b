// What the calls do to the two lent memories, once their tests have passed. Behind a cut no board
// store is made, and what is done to the work memory and the registers goes nowhere.
use crate::answers::{Answer, Status};
use crate::filter::*;
use crate::layouts::*;
use crate::refusals::undo_due;
use crate::registers::Registers;
use crate::sets::*;
use crate::words::*;

// A call on its way: the two lent memories, the registers, the board stores due so far, and the
// allowance, "the board stores it may make".
#[derive(Drop)]
pub struct Run<'a> {
    board: &'a mut [u64],
    work: &'a mut [u64],
    pub registers: Registers,
    due: u64,
    allowance: u64,
}

impl<'a> Run<'a> {
    // A call whose tests have passed, with no store due yet.
    pub fn started(
        board: &'a mut [u64],
        work: &'a mut [u64],
        registers: Registers,
        allowance: u32,
    ) -> Run<'a> {
        Run {
            board,
            work,
            registers,
            due: 0,
            allowance: u64::from(allowance),
        }
    }

    // "12 cut: more stores are due than the allowance": "exactly the first stores up to the allowance are
    // on the board, work memory and registers are all zero, value 0, and the stores reported are the
    // allowance. An allowance just enough gives 0."
    pub fn finished(self, value: u64) -> Answer {
        if self.due <= self.allowance {
            return Answer {
                stores: self.due,
                ..Answer::ok(value, self.registers)
            };
        }
        self.work.fill(0);
        Answer {
            status: Status::Cut,
            value: 0,
            stores: self.allowance,
            registers: Registers::default(),
        }
    }

    fn header(&self) -> Header {
        header_of::<Today>(self.board)
    }

    pub fn slot(&self, k: u64) -> Slot {
        slot_at(self.work, k)
    }

    // One board store: "each store of such a call is made by one function that is handed what is left of
    // it", that is of the allowance. It is due in any case.
    fn store_word(&mut self, place: u64, word: u64) {
        if self.due < self.allowance {
            set_word(self.board, place, word);
        }
        self.due = self.due.wrapping_add(1);
    }

    // Both words of slot k. "Keep the count of dirty slots in the registers": one less where the slot was
    // dirty, one more where it is left dirty. The count's tests have seen to it that it passes neither 0
    // nor S.
    fn set_slot(&mut self, k: u64, word: u64, line_data: u64) {
        let before = self.slot(k);
        let place = slot_place(k);
        set_word(self.work, place, word);
        set_word(self.work, place.wrapping_add(DATA_WORD), line_data);
        let after = self.slot(k);
        let others = self.registers.dirty.wrapping_sub(u64::from(before.dirty));
        self.registers.dirty = others.wrapping_add(u64::from(after.dirty));
    }

    // "stores each entry at the ring's end, packed word then data word": buffered entry i, as entry
    // length + i of the log.
    fn log_entry(&mut self, header: Header, i: u64) {
        let from = buffer_place(self.work, i);
        let to = header.log_place(header.length.wrapping_add(i));
        let packed = word_at(self.work, from);
        let old_data = word_at(self.work, from.wrapping_add(DATA_WORD));
        self.store_word(to, packed);
        self.store_word(to.wrapping_add(DATA_WORD), old_data);
    }

    // "A flush with b > 0 stores each entry at the ring's end, .., then the control word with
    // length + b: 2b + 1 stores; then b = 0 and the 64 buffer words are zero. With b = 0 it stores
    // nothing." The entries go "oldest first". And "The filter is cleared at each flush with b > 0": its words follow
    // the buffer's.
    fn flush(&mut self) {
        let buffered = self.registers.buffered;
        if buffered == 0 {
            return;
        }
        let header = self.header();
        // By number: entry i is read at one place and stored at another, round the ring's end.
        for i in 0..buffered {
            self.log_entry(header, i);
        }
        let length = header.length.wrapping_add(buffered);
        self.store_word(
            CONTROL_PLACE,
            control_word(header.persisted, header.start, length),
        );
        let first = buffer_place(self.work, 0) as usize;
        if let Some(behind_slots) = self.work.get_mut(first..) {
            behind_slots.fill(0);
        }
        self.registers.buffered = 0;
    }

    // Writing out the line of slot k, where it is dirty: "A write-out flushes exactly when b > 0 and both
    // bits of its address are set"; "then one store to the line". "an empty or clean slot costs no store".
    fn write_out(&mut self, k: u64) {
        let slot = self.slot(k);
        if !slot.dirty {
            return;
        }
        if both_set(self.work, slot.address) {
            self.flush();
        }
        let place = line_place(self.header().entries, slot.address);
        self.store_word(place, slot.line_data);
    }

    // "Emptying a slot writes a dirty line out, then zeroes both slot words".
    pub fn empty(&mut self, k: u64) {
        self.write_out(k);
        self.set_slot(k, EMPTY_SLOT, 0);
    }

    // "a held line gives its data. Otherwise the slot is emptied, then filled clean from memory": slot k
    // then holds the line.
    pub fn bring_in(&mut self, k: u64, address: u64) {
        if holds(self.work, k, address) {
            return;
        }
        self.empty(k);
        let place = line_place(self.header().entries, address);
        let line = word_at(self.board, place);
        self.set_slot(k, clean_word(address), line);
    }

    // The undo entry of a store to a slot's line: "a clean line makes the entry P, s with the old data; a
    // dirty line with tag t < s makes t, s". "An entry goes to the buffer's end", and "A new entry for
    // address a sets" its two bits of the filter.
    fn buffer_entry(&mut self, slot: Slot) {
        let valid_from = if slot.dirty {
            slot.tag
        } else {
            self.header().persisted
        };
        let buffered = self.registers.buffered;
        let place = buffer_place(self.work, buffered);
        let word = entry_word(slot.address, valid_from, self.registers.epoch);
        set_word(self.work, place, word);
        set_word(self.work, place.wrapping_add(DATA_WORD), slot.line_data);
        set_both(self.work, slot.address);
        self.registers.buffered = buffered.wrapping_add(1);
    }

    // The undo entry of a store to the line that slot k holds, where one is due; "at 32 the buffer is
    // flushed at once".
    fn make_undo(&mut self, k: u64) {
        let slot = self.slot(k);
        let registers = self.registers;
        if !undo_due(self.work, registers, slot.address) {
            return;
        }
        self.buffer_entry(slot);
        if self.registers.buffered == BUFFER_ENTRIES {
            self.flush();
        }
    }

    // "Store (a, value): as load if not held. Then a clean line makes the entry ..; tag s makes none.
    // The line is then dirty with tag s." The slot is chosen in the set as the call found it.
    pub fn store(&mut self, address: u64, value: u64) {
        let k = slot_for(self.work, address);
        self.bring_in(k, address);
        self.make_undo(k);
        self.set_slot(k, dirty_word(address, self.registers.epoch), value);
    }

    // "With c < S it visits slot c: if dirty and tagged with the target, the line is written out and
    // becomes clean, tag 0; c rises by one." Now "the pass then writes out dirty lines with tags up to the
    // target".
    fn scan_slot(&mut self) {
        let k = self.registers.cursor;
        self.registers.cursor = k.wrapping_add(1);
        let slot = self.slot(k);
        if slot.dirty && slot.tag <= self.registers.target {
            self.write_out(k);
            self.set_slot(k, clean_word(slot.address), slot.line_data);
        }
    }

    // "the oldest run of entries with ValidTill <= target": how many they are.
    fn run_length(&self, target: u64) -> u64 {
        let header = self.header();
        (0..header.length)
            .find(|&i| logged::<Today>(self.board, header, i).valid_till > target)
            .unwrap_or(header.length)
    }

    // "With c = S it flushes, then stores one control word with P = target and the oldest run of
    // entries with ValidTill <= target dropped, start going up by their number, mod L; c = 0; value is
    // the new P." The pass is over then, and the target "0 outside a pass".
    fn finish_pass(&mut self) -> u64 {
        let target = self.registers.target;
        self.flush();
        let header = self.header();
        let dropped = self.run_length(target);
        let left = header.length.wrapping_sub(dropped);
        self.store_word(
            CONTROL_PLACE,
            control_word(target, header.ring_place(dropped), left),
        );
        self.registers.cursor = 0;
        self.registers.target = 0;
        target
    }

    // "Scan: .. With c < S it visits slot c .. With c = S it flushes .." "A scan call outside a pass begins
    // one with P + 1." The call that begins a pass visits slot 0 too: it is the first of the S + 1 that
    // persist an epoch. The value of its answer: "Values not named are 0."
    pub fn scan(&mut self) -> u64 {
        if self.registers.target == 0 {
            self.registers.target = self.header().persisted.wrapping_add(1);
        }
        if self.registers.cursor < slot_count(self.work) {
            self.scan_slot();
            return 0;
        }
        self.finish_pass()
    }

    // "from the newest log entry to the oldest, each entry .. has its data stored to its line. Then the
    // control word: same P, start 0, length 0, always stored." "Then work memory all zero".
    pub fn recover(&mut self) {
        let header = self.header();
        // By number: an entry's place in the ring is reckoned from it.
        for i in (0..header.length).rev() {
            let entry = logged::<Today>(self.board, header, i);
            if entry.is_in_force(header.persisted) {
                let place = line_place(header.entries, entry.address);
                self.store_word(place, entry.old_data);
            }
        }
        self.store_word(CONTROL_PLACE, control_word(header.persisted, 0, 0));
        self.work.fill(0);
    }
}
