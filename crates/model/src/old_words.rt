// The packed words of a board in "the old layout", as the paper's "The two memories" has them: 24 bits to an
// epoch, 20 to the log's start and length, and both ends of an entry's range. The places on a board have
// not moved, so those of `words` are the old ones too.
use crate::fields::Field;
use crate::layouts::{Entry, Header, Layout};
use crate::words::ENTRY_ADDRESS;

// The three fields of the control word and of the shape word.
const FIRST: Field = Field {
    below: 40,
    width: 24,
};

const SECOND: Field = Field {
    below: 20,
    width: 20,
};

const THIRD: Field = Field {
    below: 0,
    width: 20,
};

const VALID_FROM: Field = Field {
    below: 24,
    width: 24,
};

const VALID_TILL: Field = Field {
    below: 0,
    width: 24,
};

pub struct Old;

impl Layout for Old {
    // "Shape word: zero 24".
    const SHAPE_LEADING: u64 = 0;

    // "EID means epoch number, 0 to 2^24 - 1."
    const LAST_EPOCH: u64 = 0xFFFFFF;

    // "L log entries, 1 to 65,536."
    const MOST_ENTRIES: u64 = 65536;

    // "Control word: P 24, log start 20, log length 20." "Shape word: zero 24, N 20, L 20."
    fn header(control: u64, shape: u64) -> Header {
        Header {
            persisted: FIRST.of(control),
            start: SECOND.of(control),
            length: THIRD.of(control),
            leading: FIRST.of(shape),
            lines: SECOND.of(shape),
            entries: THIRD.of(shape),
        }
    }

    // "L log entries of two words: address 16, ValidFrom 24, ValidTill 24; then the old data."
    fn entry(packed: u64, old_data: u64) -> Entry {
        Entry {
            address: ENTRY_ADDRESS.of(packed),
            valid_from: Some(VALID_FROM.of(packed)),
            valid_till: VALID_TILL.of(packed),
            old_data,
        }
    }
}
