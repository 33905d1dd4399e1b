// The packed words of a board in the layout before epochs had 40 bits, by this program's own numbers, and a
// board written in it anew. The places on a board are those of `packing`.
use crate::memories::Memory;
use crate::packing::*;

// The epochs of 24 bits, and the last of them.
pub const OLD_EPOCHS: u64 = 0x1000000;

pub const OLD_LAST_EPOCH: u64 = 0xFFFFFF;

pub type Board = Memory<BOARD_ROOM>;

// The layout of those boards.
pub struct Old;

impl Old {
    // Entry: address 16, ValidFrom 24, ValidTill 24.
    pub const ADDRESS: Field = Field {
        shift: 48,
        mask: 0xFFFF,
    };

    pub const FROM: Field = Field {
        shift: 24,
        mask: 0xFFFFFF,
    };

    pub const TILL: Field = Field {
        shift: 0,
        mask: 0xFFFFFF,
    };

    pub const ENTRY: [Field; 3] = [Old::ADDRESS, Old::FROM, Old::TILL];
}

// Control word: P 24, start 20, length 20. Shape word: zero 24, N 20, L 20.
impl Layout for Old {
    const PERSISTED: Field = Field {
        shift: 40,
        mask: 0xFFFFFF,
    };

    const START: Field = Field {
        shift: 20,
        mask: 0xFFFFF,
    };

    const LENGTH: Field = Field {
        shift: 0,
        mask: 0xFFFFF,
    };

    const VERSION: Field = Field {
        shift: 40,
        mask: 0xFFFFFF,
    };

    const LINES: Field = Field {
        shift: 20,
        mask: 0xFFFFF,
    };

    const ENTRIES: Field = Field {
        shift: 0,
        mask: 0xFFFFF,
    };

    const OWN_VERSION: u64 = 0;

    fn entry_word(address: u64, valid_from: u64, valid_till: u64) -> u64 {
        let one = Old::ADDRESS.replaced(0, address);
        Old::TILL.replaced(Old::FROM.replaced(one, valid_from), valid_till)
    }
}

// The packed word of an entry in the old layout.
fn rewritten(word: u64) -> u64 {
    let till = New::TILL.of(word);
    let from = till.wrapping_sub(New::SPAN.of(word));
    Old::entry_word(New::ADDRESS.of(word), from, till)
}

// A board written anew in the old layout: control word, shape word and every place of the ring; epochs modulo
// 2^24. The ring is gone over by numbers: a place past the room is the first.
pub fn old_board(board: &Board) -> Board {
    let control = board.word(CONTROL);
    let shape = board.word(SHAPE);
    let entries = New::ENTRIES.of(shape);
    let mut old = *board;
    old.put(
        CONTROL,
        Old::control_word(
            New::PERSISTED.of(control),
            New::START.of(control),
            New::LENGTH.of(control),
        ),
    );
    old.put(SHAPE, Old::shape_word(New::LINES.of(shape), entries));
    for i in 0..entries {
        let place = entry_place(i);
        old.put(place, rewritten(old.word(place)));
    }
    old
}

// Whether P and every epoch of a board's log have the same bits above the last 24, so that the board is written
// anew with the same order of epochs; and P is not the last epoch then. The newest entry has the latest
// ValidTill, and a ValidFrom is less than 16 below P.
pub fn is_old(board: &Board) -> bool {
    let control = board.word(CONTROL);
    let persisted = New::PERSISTED.of(control);
    let length = New::LENGTH.of(control);
    if persisted % OLD_EPOCHS == OLD_LAST_EPOCH {
        return false;
    }
    if persisted >= OLD_EPOCHS && persisted % OLD_EPOCHS < MOST_AHEAD {
        return false;
    }
    if length == 0 {
        return true;
    }
    let entries = board.field(SHAPE, New::ENTRIES);
    let newest = log_place(New::START.of(control), entries, length - 1);
    board.field(newest, New::TILL) / OLD_EPOCHS == persisted / OLD_EPOCHS
}
