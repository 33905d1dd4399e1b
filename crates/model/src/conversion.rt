// The converter, by document 02's request 9/13, "Epochs beyond half a year", which the comments quote beside
// the paper: "A converter takes a board in the old layout, recovers it by the old rules, and fills a second
// lent memory in the new one".
use crate::answers::{Answer, Refusal};
use crate::layouts::*;
use crate::old_words::Old;
use crate::refusals::{board_good, first_improper, size_good};
use crate::registers::Registers;
use crate::words::*;

// "the same .. P, N and L and an empty log, start 0 and its words zero", and "the same lines", before the old log is
// undone.
fn copy_lines(old: &[u64], board: &mut [u64]) {
    let header = header_of::<Old>(old);
    board.fill(0);
    set_word(board, CONTROL_PLACE, control_word(header.persisted, 0, 0));
    set_word(board, SHAPE_PLACE, shape_word(header.lines, header.entries));
    let first_line = line_place(header.entries, 0) as usize;
    for (line, old_line) in board.iter_mut().zip(old.iter()).skip(first_line) {
        *line = *old_line;
    }
}

// "from the newest log entry to the oldest", "each entry with ValidFrom <= P < ValidTill has its data stored to its
// line".
fn undo_log(old: &[u64], board: &mut [u64]) {
    let header = header_of::<Old>(old);
    // By number: an entry's place in the ring is reckoned from it.
    for i in (0..header.length).rev() {
        let entry = logged::<Old>(old, header, i);
        if entry.is_in_force(header.persisted) {
            let place = line_place(header.entries, entry.address);
            set_word(board, place, entry.old_data);
        }
    }
}

// Row 1 of the old board: "fewer than 2 board words; 24 bits not zero; N or L out of range; wrong word count;
// P = 2^24 - 1; start >= L; length > L"; and "L above 4,095 and a second memory of another size are shape". Then
// "refusal 3 is as at power-up until now". "The old board is never touched, nor the second memory by a refusal." "It
// takes no allowance and reports 0 stores." It has no registers: those of its answer are zero.
pub fn convert(old: &[u64], board: &mut [u64]) -> Answer {
    let header = header_of::<Old>(old);
    if !board_good::<Old>(old) || !size_good::<Today>(board, header.lines, header.entries) {
        return Answer::refused(Refusal::Shape, Registers::default());
    }
    if let Some(i) = first_improper::<Old>(old) {
        return Answer::improper(i);
    }
    copy_lines(old, board);
    undo_log(old, board);
    Answer::ok(0, Registers::default())
}
