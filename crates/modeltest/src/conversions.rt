// An old board converted on both sides.
use crate::boards::Boards;
use crate::compare::{Place, Score};
use crate::old_packing::{Board, old_board};
use crate::packing::{CONTROL, Field, SHAPE};
use crate::random::Seed;
use crate::rows::Row;
use crate::sides::{Outcome, State};

// What the converter is lent.
#[derive(Clone, Copy)]
pub struct Conversion {
    pub old: Board,
    pub board: Board,
}

impl Conversion {
    // The board of a state in the old layout, and a second memory of its size, of any words.
    pub fn of(s: &State, seed: Seed) -> Conversion {
        let mut board = s.board;
        board.fill(seed);
        Conversion {
            old: old_board(&s.board),
            board,
        }
    }

    pub fn control(&self, field: Field) -> u64 {
        self.old.field(CONTROL, field)
    }

    pub fn shape(&self, field: Field) -> u64 {
        self.old.field(SHAPE, field)
    }

    pub fn place(&self) -> Place {
        Place::On {
            row: Row::Convert,
            board: self.board.words,
        }
    }
}

// One conversion, made on both sides and compared: the second memory word for word, with the words past the lent
// ones. It becomes the library's.
pub fn convert(c: &mut Conversion, score: &mut Score) -> Outcome {
    let mut boards = Boards::both(c.board);
    let outcome = boards.convert(c.old.lent(), score);
    c.board = boards.found;
    outcome
}
