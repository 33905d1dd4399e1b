// Boards as lists and cuts leave them, in the old layout: converted as they are, with a fault, or damaged.
use crate::compare::*;
use crate::conversions::*;
use crate::faults::{Fault, with_fault};
use crate::old_damage::damage_old;
use crate::old_packing::{Board, is_old};
use crate::random::{Purpose, Seed};
use crate::rows::Row;
use crate::sides::*;
use model::Reference;

// The last of a board's words against the lines of the reference machine.
pub fn between_lines(board: &Board, wanted: &Reference) -> Option<Difference> {
    let words = board.lent();
    let lines = (wanted.line_count as usize).min(words.len());
    between_words(Part::Line, &words[words.len() - lines..], &wanted.lines)
}

// The board that a call or a cut has left, which has to be accepted and to get the lines of the persisted epoch;
// and the conversion behind it.
pub fn convert_left(
    s: &State,
    wanted: &Reference,
    fault: Fault,
    seed: Seed,
    score: &mut Score,
) -> (Conversion, Outcome) {
    let mut c = Conversion::of(s, seed);
    let outcome = convert(&mut c, score);
    score.note(c.place(), between_lines(&c.board, wanted));
    score.see(Row::OldBoard(fault), outcome.number);
    (c, outcome)
}

// The same, where there is such a board in the old layout.
pub fn as_left(s: &State, wanted: &Reference, fault: Fault, seed: Seed, score: &mut Score) {
    if is_old(&s.board) {
        convert_left(s, wanted, fault, seed, score);
    }
}

fn as_damaged(s: &State, seed: Seed, score: &mut Score) {
    let mut c = Conversion::of(s, seed);
    damage_old(&mut c, seed);
    convert(&mut c, score);
}

// A conversion beside the calls of a list.
pub fn any_conversion(s: &State, wanted: &Reference, seed: Seed, score: &mut Score) {
    if !is_old(&s.board) || seed.once_in(Purpose::Conversion, 2) {
        return as_damaged(s, seed, score);
    }
    match seed.pick(Purpose::Fault, &Fault::ALL) {
        Fault::ByCall | Fault::ByCut => as_left(s, wanted, Fault::ByCall, seed, score),
        fault => with_fault(Conversion::of(s, seed), fault, seed, score),
    }
}
