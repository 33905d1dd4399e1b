// A second model of the cache log, written from the paper "PiCL cache log for loom controller
// boards" and the requests of document 02 alone, for a test program to compare with the library.
// Each call makes its tests in the paper's order and then works on the lent words, which are decoded
// where they are asked for. The comments quote the paper.
#![tactic(auto)]

mod answers;
mod conversion;
mod effects;
mod fields;
mod filter;
mod hex_reading;
mod layouts;
mod old_words;
mod reference_machine;
mod refusals;
mod registers;
mod sets;
mod words;

pub use answers::{Answer, Refusal, Status};
pub use conversion::convert;
use effects::*;
pub use hex_reading::{Reader, take_record};
use layouts::*;
pub use reference_machine::Reference;
use refusals::*;
pub use registers::Registers;
use sets::*;
use words::*;

// "Value 1 if held."
const HELD: u64 = 1;

// "Format (N, L): every board word zero, but for the shape word. Not protected against a cut;
// reports 0 stores."
pub fn format(board: &mut [u64], lines: u64, entries: u64) -> Answer {
    if !size_good::<Today>(board, lines, entries) {
        return Answer::refused(Refusal::Shape, Registers::default());
    }
    board.fill(0);
    set_word(board, SHAPE_PLACE, shape_word(lines, entries));
    Answer::ok(0, Registers::default())
}

// "Power-up: from the newest log entry to the oldest ..", as `Run::recover` says. "Then work memory all
// zero, s = P + 1, b = 0, c = 0." No slot is dirty then, so their count is 0; and no pass has begun, so
// the target is 0. Its rows are 1, 2, 3, "value is i of the first", and 12. Of the registers "Power-up
// takes none and returns them"; refused, it returns them "all zero".
pub fn power_up(board: &mut [u64], work: &mut [u64], allowance: u32) -> Answer {
    if let Err(refusal) = test_memories(board, work) {
        return Answer::refused(refusal, Registers::default());
    }
    if let Some(i) = first_improper::<Today>(board) {
        return Answer::improper(i);
    }
    let registers = Registers {
        epoch: header_of::<Today>(board).persisted.wrapping_add(1),
        ..Registers::default()
    };
    let mut run = Run::started(board, work, registers, allowance);
    run.recover();
    run.finished(0)
}

// "Load (a): a held line gives its data. Otherwise the slot is emptied, then filled clean from
// memory." The slot is chosen in the set as the call found it.
pub fn load(
    board: &mut [u64],
    work: &mut [u64],
    registers: Registers,
    address: u64,
    allowance: u32,
) -> Answer {
    if let Err(refusal) = State::of(board, work, registers).test_line(address) {
        return Answer::refused(refusal, registers);
    }
    let k = slot_for(work, address);
    let mut run = Run::started(board, work, registers, allowance);
    run.bring_in(k, address);
    let line_data = run.slot(k).line_data;
    run.finished(line_data)
}

// Store: its tests, then what `Run::store` says. The memories, the registers and the arguments are six parameters here,
// since each is its caller's own, and goes into a `State` and a `Run` at once.
pub fn store(
    board: &mut [u64],
    work: &mut [u64],
    registers: Registers,
    address: u64,
    value: u64,
    allowance: u32,
) -> Answer {
    if let Err(refusal) = State::of(board, work, registers).test_store(address) {
        return Answer::refused(refusal, registers);
    }
    let mut run = Run::started(board, work, registers, allowance);
    run.store(address, value);
    run.finished(0)
}

// "Evict (a): empties the slot if it holds a; otherwise nothing, value 0. Value 1 if held."
pub fn evict(
    board: &mut [u64],
    work: &mut [u64],
    registers: Registers,
    address: u64,
    allowance: u32,
) -> Answer {
    if let Err(refusal) = State::of(board, work, registers).test_line(address) {
        return Answer::refused(refusal, registers);
    }
    let k = slot_for(work, address);
    if !holds(work, k, address) {
        return Answer::ok(0, registers);
    }
    let mut run = Run::started(board, work, registers, allowance);
    run.empty(k);
    run.finished(HELD)
}

// "Commit: s becomes s + 1." No store is ever due, so that no allowance is too small.
pub fn commit(
    board: &mut [u64],
    work: &mut [u64],
    registers: Registers,
    _allowance: u32,
) -> Answer {
    if let Err(refusal) = State::of(board, work, registers).test_commit() {
        return Answer::refused(refusal, registers);
    }
    let epoch = registers.epoch.wrapping_add(1);
    Answer::ok(0, Registers { epoch, ..registers })
}

// "A begin call takes a target from P + 1 to s - 1; it visits no slot": "The registers gain the
// target". "like every later call without board stores, it takes no allowance and reports 0".
pub fn begin(board: &[u64], work: &[u64], registers: Registers, target: u64) -> Answer {
    if let Err(refusal) = State::of(board, work, registers).test_begin(target) {
        return Answer::refused(refusal, registers);
    }
    Answer::ok(
        0,
        Registers {
            target,
            ..registers
        },
    )
}

// Scan: its tests, then what `Run::scan` says.
pub fn scan(board: &mut [u64], work: &mut [u64], registers: Registers, allowance: u32) -> Answer {
    if let Err(refusal) = State::of(board, work, registers).test_scan() {
        return Answer::refused(refusal, registers);
    }
    let mut run = Run::started(board, work, registers, allowance);
    let value = run.scan();
    run.finished(value)
}

// "the old count", as the tally was before request 5/13: "the number of slot words whose valid and
// dirty bits are both 1, whatever else they hold".
pub fn dirty_count(work: &[u64]) -> u64 {
    let is_dirty = |k| {
        let slot = slot_at(work, k);
        slot.valid && slot.dirty
    };
    (0..slot_count(work)).filter(|&k| is_dirty(k)).count() as u64
}

// Tally: "The tally is then read from the registers". It returns none: those of its answer are zero.
pub fn tally(board: &[u64], work: &[u64], registers: Registers) -> Answer {
    match State::of(board, work, registers).test_state() {
        Ok(()) => Answer::ok(registers.dirty, Registers::default()),
        Err(refusal) => Answer::refused(refusal, Registers::default()),
    }
}

// "A status question gives the number of filter bits set, and refuses only by number 2; like every
// later call without board stores, it takes no allowance and reports 0."
pub fn filter_bits(work: &[u64]) -> Answer {
    if !work_good(work) {
        return Answer::refused(Refusal::Work, Registers::default());
    }
    let count = (0..FILTER_WORDS).fold(0, |count: u64, i| {
        let word = word_at(work, filter_place(work, i));
        count.wrapping_add(u64::from(word.count_ones()))
    });
    Answer::ok(count, Registers::default())
}
