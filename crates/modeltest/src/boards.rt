// Calls that are compared by a board alone: the converter's, whose board is the second memory, and those on boards
// that are too large for a state.
use crate::compare::*;
use crate::kinds::Call;
use crate::memories::Memory;
use crate::random::Seed;
use crate::rows::Row;
use crate::sides::*;

// The words of the least work memory: that of 4 slots.
const LEAST_WORK: usize = 136;

// The library's board and the model's, which are the same before a call.
#[derive(Clone, Copy)]
pub struct Boards<const ROOM: usize> {
    pub found: Memory<ROOM>,
    pub wanted: Memory<ROOM>,
}

fn called<S: Side>(board: &mut [u64], call: Call) -> Outcome {
    let mut work = [0; LEAST_WORK];
    S::call(board, &mut work, [0; REGISTERS], call)
}

impl<const ROOM: usize> Boards<ROOM> {
    pub fn both(board: Memory<ROOM>) -> Boards<ROOM> {
        let found = board;
        Boards {
            found,
            wanted: board,
        }
    }

    // The model's board as the library's.
    pub fn agree(&mut self) {
        self.wanted.words = self.found.words;
        self.wanted.room.copy_from_slice(&self.found.room);
    }

    // Boards of any words, so many of them lent.
    pub fn fill(&mut self, words: u64, seed: Seed) {
        self.found.words = words;
        self.found.fill(seed);
        self.agree();
    }

    // The answers and the boards of both sides compared, behind a call of a row.
    fn judge(&self, row: Row, found: &Outcome, wanted: &Outcome, score: &mut Score) {
        let difference = between_outcomes(found, wanted).or_else(|| between_words(
            Part::SecondMemory,
            &self.found.room,
            &self.wanted.room,
        ));
        let board = self.found.words;
        score.note(Place::On { row, board }, difference);
        score.count(row, found);
    }

    // An old board, converted. It is lent as `&[u64]`, so that neither side can write it.
    pub fn convert(&mut self, old: &[u64], score: &mut Score) -> Outcome {
        let found = Library::convert(old, self.found.lent_mut());
        let wanted = SecondModel::convert(old, self.wanted.lent_mut());
        self.judge(Row::Convert, &found, &wanted, score);
        found
    }

    // A call with the least work memory, and registers that are zero.
    pub fn call(&mut self, call: Call, score: &mut Score) -> Outcome {
        let found = called::<Library>(self.found.lent_mut(), call);
        let wanted = called::<SecondModel>(self.wanted.lent_mut(), call);
        self.judge(Row::Call(call.kind), &found, &wanted, score);
        found
    }
}
