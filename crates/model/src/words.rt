// The packed words of the two memories, by the paper's "The two memories" and by document 02's request
// 9/13, "Epochs beyond half a year": every width, place and limit of the layout stands here, and
// nowhere else. Of the old layout only what is different stands in `old_words`. Once a call's tests have passed, every
// number of the model is far below 2^64; before that a sum of hostile numbers wraps, and nothing rests on it.
ghost use Rattle.std.specs.Prelude.{◌<◌, ◌^◌};

use crate::fields::Field;
use crate::layouts::{Entry, Header, Layout};

// How far an epoch is ahead of P at most: "s - P <= 16" of the proper registers, and "ValidTill <=
// P + 16" of a proper log entry.
pub const MOST_AHEAD: u64 = 16;

// "only spans 1 to 16 arise; another .. makes an entry improper".
const LEAST_SPAN: u64 = 1;

const MOST_SPAN: u64 = 16;

// "N lines, 1 to 65,536."
pub const MOST_LINES: u64 = 65536;

// "Make S a multiple of 4, from 4 to 256"; "Set g is slots 4g to 4g + 3".
pub const WAYS: u64 = 4;

pub const MOST_SLOTS: u64 = 256;

// "then 32 places for undo entries", of two words each.
pub const BUFFER_ENTRIES: u64 = 32;

const BUFFER_WORDS: u64 = 64;

// "b <= 31" of the proper registers: "at 32 the buffer is flushed at once".
pub const MOST_BUFFERED: u64 = 31;

// "4,096 bits as 64 words after the undo places, so the work memory has 2S + 128 words."
pub const FILTER_BITS: u64 = 4096;

pub const FILTER_WORDS: u64 = 64;

pub const WORD_BITS: u64 = 64;

const BEHIND_SLOTS: u64 = BUFFER_WORDS + FILTER_WORDS;

// "Board memory, 2 + 2L + N words, in this order": the control word, the shape word, the log.
pub const CONTROL_PLACE: u64 = 0;

pub const SHAPE_PLACE: u64 = 1;

pub const LOG_PLACE: u64 = 2;

// "A proper slot word is zero, or ..": that of an empty slot.
pub const EMPTY_SLOT: u64 = 0;

// "clean with tag 0".
pub const CLEAN_TAG: u64 = 0;

// A slot and an entry are two words, and the second has the data.
pub const PAIR: u64 = 2;

pub const DATA_WORD: u64 = 1;

// "The control word is P 40, start 12, length 12".
const PERSISTED: Field = Field {
    below: 24,
    width: 40,
};

const START: Field = Field {
    below: 12,
    width: 12,
};

const LENGTH: Field = Field {
    below: 0,
    width: 12,
};

// "Shape word: .. 24, N 20, L 20."
const LEADING: Field = Field {
    below: 40,
    width: 24,
};

const LINES: Field = Field {
    below: 20,
    width: 20,
};

const ENTRIES: Field = Field {
    below: 0,
    width: 20,
};

// "A log entry's first word is address 16, ValidTill 40, span 8".
pub const ENTRY_ADDRESS: Field = Field {
    below: 48,
    width: 16,
};

const VALID_TILL: Field = Field {
    below: 8,
    width: 40,
};

const SPAN: Field = Field { below: 0, width: 8 };

// "per slot a slot word (valid 1, dirty 1, address 16, tag ..) and a data word": the tag has 40 bits,
// and "The slot word keeps 6 zero bits."
const VALID: Field = Field {
    below: 63,
    width: 1,
};

const DIRTY: Field = Field {
    below: 62,
    width: 1,
};

const SLOT_ADDRESS: Field = Field {
    below: 46,
    width: 16,
};

const TAG: Field = Field {
    below: 6,
    width: 40,
};

const SLOT_ZERO: Field = Field { below: 0, width: 6 };

// The layout as it is now.
pub struct Today;

impl Layout for Today {
    // "The shape word's first 24 bits hold 1 instead of 0."
    const SHAPE_LEADING: u64 = 1;

    // "EID means epoch number, 0 to 2^24 - 1", where "Every 2^24 in 01 reads 2^40".
    const LAST_EPOCH: u64 = 0xFFFFFFFFFF;

    // "so L is 1 to 4,095".
    const MOST_ENTRIES: u64 = 4095;

    fn header(control: u64, shape: u64) -> Header {
        Header {
            persisted: PERSISTED.of(control),
            start: START.of(control),
            length: LENGTH.of(control),
            leading: LEADING.of(shape),
            lines: LINES.of(shape),
            entries: ENTRIES.of(shape),
        }
    }

    // "span is ValidTill - ValidFrom", so ValidFrom is the span below ValidTill. "only spans 1 to 16 arise; another, or
    // one above its ValidTill, makes an entry improper": it has no ValidFrom.
    fn entry(packed: u64, old_data: u64) -> Entry {
        let valid_till = VALID_TILL.of(packed);
        let span = SPAN.of(packed);
        let valid_from = match span {
            LEAST_SPAN..=MOST_SPAN => valid_till.checked_sub(span),
            _ => None,
        };
        Entry {
            address: ENTRY_ADDRESS.of(packed),
            valid_from,
            valid_till,
            old_data,
        }
    }
}

// The word at a place of a lent memory, 0 past its end.
pub fn word_at(words: &[u64], place: u64) -> u64 {
    words.get(place as usize).copied().unwrap_or(0)
}

// Writes the word at a place of a lent memory; nothing past its end.
pub fn set_word(words: &mut [u64], place: u64, word: u64) {
    if let Some(at) = words.get_mut(place as usize) {
        *at = word;
    }
}

pub fn control_word(persisted: u64, start: u64, length: u64) -> u64 {
    PERSISTED.word(persisted) | START.word(start) | LENGTH.word(length)
}

pub fn shape_word(lines: u64, entries: u64) -> u64 {
    LEADING.word(Today::SHAPE_LEADING) | LINES.word(lines) | ENTRIES.word(entries)
}

// "span is ValidTill - ValidFrom".
pub fn entry_word(address: u64, valid_from: u64, valid_till: u64) -> u64 {
    let span = valid_till.wrapping_sub(valid_from);
    ENTRY_ADDRESS.word(address) | VALID_TILL.word(valid_till) | SPAN.word(span)
}

// What the two words of a slot say: any words, so that a slot which is not valid may be dirty.
#[derive(Clone, Copy)]
pub struct Slot {
    pub valid: bool,
    pub dirty: bool,
    pub address: u64,
    pub tag: u64,
    pub zero: u64,
    pub line_data: u64,
}

pub fn slot_at(work: &[u64], k: u64) -> Slot {
    let place = slot_place(k);
    let word = word_at(work, place);
    Slot {
        valid: VALID.is_set(word),
        dirty: DIRTY.is_set(word),
        address: SLOT_ADDRESS.of(word),
        tag: TAG.of(word),
        zero: SLOT_ZERO.of(word),
        line_data: word_at(work, place.wrapping_add(DATA_WORD)),
    }
}

// The word of a slot that holds a clean line: valid, with the 6 bits zero.
pub fn clean_word(address: u64) -> u64 {
    VALID.word(1) | SLOT_ADDRESS.word(address) | TAG.word(CLEAN_TAG)
}

// The same of a dirty line.
pub fn dirty_word(address: u64, tag: u64) -> u64 {
    VALID.word(1) | DIRTY.word(1) | SLOT_ADDRESS.word(address) | TAG.word(tag)
}

// The place on the board of a memory line: the lines come after the L log entries. Line N would be
// at the board's end, so that its place is the number of words, "2 + 2L + N".
pub fn line_place(entries: u64, address: u64) -> u64 {
    LOG_PLACE
        .wrapping_add(PAIR.wrapping_mul(entries))
        .wrapping_add(address)
}

// The place in the work memory of a slot word; its data word is one further.
pub fn slot_place(k: u64) -> u64 {
    PAIR.wrapping_mul(k)
}

// S, "being read from its length": of 2S + 128 words.
pub fn slot_count(work: &[u64]) -> u64
    ensures { result < 2 ^ 63 }
{
    (work.len() as u64).saturating_sub(BEHIND_SLOTS) / PAIR
}

// The place in the work memory of the packed word of buffered entry i; its old data is one further.
pub fn buffer_place(work: &[u64], i: u64) -> u64 {
    slot_place(slot_count(work)).wrapping_add(PAIR.wrapping_mul(i))
}

// The place in the work memory of filter word i, "after the undo places". Word 64 would be at the
// memory's end, so that its place is the number of words, "2S + 128".
pub fn filter_place(work: &[u64], i: u64) -> u64 {
    buffer_place(work, BUFFER_ENTRIES).wrapping_add(i)
}
