// What the words of a board say, by the paper's "The two memories", in today's layout (`words`) and in the old one
// (`old_words`).
use crate::words::*;

// "The control word is P 40, start 12, length 12". "Shape word: .. 24, N 20, L 20."
#[derive(Clone, Copy)]
pub struct Header {
    pub persisted: u64,
    pub start: u64,
    pub length: u64,
    pub leading: u64,
    pub lines: u64,
    pub entries: u64,
}

impl Header {
    // "The log is a ring: entry i of the log, 0 the oldest, is at place (start + i) mod L."
    pub fn ring_place(self, i: u64) -> u64 {
        if self.entries == 0 {
            return 0;
        }
        self.start.wrapping_add(i) % self.entries
    }

    // The place on the board of the packed word of entry i of the log; its old data is one further.
    pub fn log_place(self, i: u64) -> u64 {
        LOG_PLACE.wrapping_add(PAIR.wrapping_mul(self.ring_place(i)))
    }
}

// An undo entry: its address, the two ends of its range, and the old data. It has no ValidFrom where its packed word
// has none that a proper entry may have.
#[derive(Clone, Copy)]
pub struct Entry {
    pub address: u64,
    pub valid_from: Option<u64>,
    pub valid_till: u64,
    pub old_data: u64,
}

impl Entry {
    // "A proper log entry has address < N, ValidFrom < ValidTill"; "A proper buffered entry has address <
    // N and ValidFrom < ValidTill".
    pub fn is_proper(self, lines: u64) -> bool {
        self.address < lines && self.valid_from.is_some_and(|from| from < self.valid_till)
    }

    // "each entry with ValidFrom <= P < ValidTill".
    pub fn is_in_force(self, persisted: u64) -> bool {
        self.valid_from.is_some_and(|from| from <= persisted) && persisted < self.valid_till
    }
}

// How the words of a board are packed, and the limits of what is in them.
pub trait Layout {
    // What the shape word's first 24 bits hold.
    const SHAPE_LEADING: u64;

    const LAST_EPOCH: u64;

    const MOST_ENTRIES: u64;

    fn header(control: u64, shape: u64) -> Header;

    fn entry(packed: u64, old_data: u64) -> Entry;
}

pub fn header_of<L: Layout>(board: &[u64]) -> Header {
    L::header(word_at(board, CONTROL_PLACE), word_at(board, SHAPE_PLACE))
}

// The entry at a place of the board, or of the work memory: "undo entries, packed as in the log".
pub fn entry_at<L: Layout>(words: &[u64], place: u64) -> Entry {
    L::entry(
        word_at(words, place),
        word_at(words, place.wrapping_add(DATA_WORD)),
    )
}

// Entry i of the log.
pub fn logged<L: Layout>(board: &[u64], header: Header, i: u64) -> Entry {
    entry_at::<L>(board, header.log_place(i))
}
