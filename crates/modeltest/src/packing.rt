// The packed words of the two memories and their places, by this program's own numbers and not by
// those of `layout`: a wrong layout must show, not be shared. A layout that changes changes this
// file, and no other of this program.

// A board: the control word, the shape word, the log's entries of two words each, the lines.
pub const CONTROL: u64 = 0;

pub const SHAPE: u64 = 1;

const LOG: u64 = 2;

// A work memory: slots of two words each, then 32 undo entries of two words each, then a filter of
// 64 words.
pub const BUFFER_ENTRIES: u64 = 32;

pub const FILTER_WORDS: u64 = 64;

const BEHIND_SLOTS: u64 = 2 * BUFFER_ENTRIES + FILTER_WORDS;

// The slots of a set, and the most sets that there may be.
const WAYS: u64 = 4;

pub const MOST_SETS: u64 = 64;

pub const MOST_LINES: u64 = 65536;

pub const MOST_ENTRIES: u64 = 4095;

pub const LAST_EPOCH: u64 = 0xFFFFFFFFFF;

// How far s and an entry's ValidTill may be ahead of P, and the longest span of an entry.
pub const MOST_AHEAD: u64 = 16;

pub const MOST_SPAN: u64 = 16;

// The largest board of a test has 300 words, the largest work memory those of 256 slots. Behind both
// there is room for more, which no call may touch that is not lent it.
pub const BOARD_ROOM: usize = 304;

pub const WORK_ROOM: usize = 656;

pub fn board_words(lines: u64, entries: u64) -> u64 {
    entry_place(entries).wrapping_add(lines)
}

pub fn work_words(slots: u64) -> u64 {
    slot_place(slots).wrapping_add(BEHIND_SLOTS)
}

pub fn slots_of(sets: u64) -> u64 {
    sets % (MOST_SETS + 1) * WAYS
}

// S of a work memory of so many words.
pub fn slots_in(words: u64) -> u64 {
    words.saturating_sub(BEHIND_SLOTS) / 2
}

// The place on a board of the packed word of an entry of the ring.
pub fn entry_place(ring_place: u64) -> u64 {
    ring_place.wrapping_add(ring_place).wrapping_add(LOG)
}

// That of entry i of a log that starts at a place of a ring of so many entries.
pub fn log_place(start: u64, entries: u64, i: u64) -> u64 {
    if entries == 0 {
        return LOG;
    }
    entry_place(start.wrapping_add(i) % entries)
}

// The places in a work memory of a slot word, of the packed word of a buffered entry, and of a word of
// the filter.
pub fn slot_place(k: u64) -> u64 {
    k.wrapping_add(k)
}

pub fn buffer_place(slots: u64, i: u64) -> u64 {
    slot_place(slots.wrapping_add(i))
}

pub fn filter_place(slots: u64, i: u64) -> u64 {
    buffer_place(slots, BUFFER_ENTRIES).wrapping_add(i)
}

// A field of a packed word: where it begins, counted from the least significant bit, and its mask.
#[derive(Clone, Copy)]
pub struct Field {
    pub shift: u32,
    pub mask: u64,
}

impl Field {
    pub fn of(self, word: u64) -> u64 {
        word.wrapping_shr(self.shift) & self.mask
    }

    // The word with another value in the field, as far as that fits it.
    pub fn replaced(self, word: u64, value: u64) -> u64 {
        let zeroed = word & !self.mask.wrapping_shl(self.shift);
        zeroed | (value & self.mask).wrapping_shl(self.shift)
    }
}

// The fields of a board's words, and the words made of them.
pub trait Layout {
    // Control word: P, the log's start and its length.
    const PERSISTED: Field;

    const START: Field;

    const LENGTH: Field;

    // Shape word: what tells the layout, N and L.
    const VERSION: Field;

    const LINES: Field;

    const ENTRIES: Field;

    const OWN_VERSION: u64;

    // The packed word of an entry that is valid from an epoch till before another.
    fn entry_word(address: u64, valid_from: u64, valid_till: u64) -> u64;

    // The fields of the control word and of the shape word, from the most significant one.
    fn control_fields() -> [Field; 3] {
        [Self::PERSISTED, Self::START, Self::LENGTH]
    }

    fn shape_fields() -> [Field; 3] {
        [Self::VERSION, Self::LINES, Self::ENTRIES]
    }

    fn control_word(persisted: u64, start: u64, length: u64) -> u64 {
        let epochs = Self::PERSISTED.replaced(0, persisted);
        let ring = Self::START.replaced(epochs, start);
        Self::LENGTH.replaced(ring, length)
    }

    fn shape_word(lines: u64, entries: u64) -> u64 {
        let version = Self::VERSION.replaced(0, Self::OWN_VERSION);
        let sized = Self::LINES.replaced(version, lines);
        Self::ENTRIES.replaced(sized, entries)
    }
}

// The layout of today's boards.
pub struct New;

impl New {
    // Entry: address 16, ValidTill 40, span 8.
    pub const ADDRESS: Field = Field {
        shift: 48,
        mask: 0xFFFF,
    };

    pub const TILL: Field = Field {
        shift: 8,
        mask: 0xFFFFFFFFFF,
    };

    pub const SPAN: Field = Field {
        shift: 0,
        mask: 0xFF,
    };

    pub const ENTRY: [Field; 3] = [New::ADDRESS, New::TILL, New::SPAN];
}

// Control word: P 40, start 12, length 12. Shape word: 1 in 24, N 20, L 20.
impl Layout for New {
    const PERSISTED: Field = Field {
        shift: 24,
        mask: 0xFFFFFFFFFF,
    };

    const START: Field = Field {
        shift: 12,
        mask: 0xFFF,
    };

    const LENGTH: Field = Field {
        shift: 0,
        mask: 0xFFF,
    };

    const VERSION: Field = Field {
        shift: 40,
        mask: 0xFFFFFF,
    };

    const LINES: Field = Field {
        shift: 20,
        mask: 0xFFFFF,
    };

    const ENTRIES: Field = Field {
        shift: 0,
        mask: 0xFFFFF,
    };

    const OWN_VERSION: u64 = 1;

    fn entry_word(address: u64, valid_from: u64, valid_till: u64) -> u64 {
        let span = valid_till.wrapping_sub(valid_from);
        let one = New::ADDRESS.replaced(0, address);
        New::SPAN.replaced(New::TILL.replaced(one, valid_till), span)
    }
}

// Slot: valid 1, dirty 1, address 16, tag 40, zero 6.
pub const SLOT: [Field; 5] = [
    Field { shift: 63, mask: 1 },
    Field { shift: 62, mask: 1 },
    Field {
        shift: 46,
        mask: 0xFFFF,
    },
    Field {
        shift: 6,
        mask: 0xFFFFFFFFFF,
    },
    Field {
        shift: 0,
        mask: 0x3F,
    },
];

// A word of the filter, and a register, is a field as a whole.
pub const WHOLE: [Field; 1] = [Field {
    shift: 0,
    mask: u64::MAX,
}];
