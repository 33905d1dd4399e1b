// Boards of the largest N and L, in both layouts, and of one more.
use crate::boards::Boards;
use crate::compare::Score;
use crate::kinds::{Call, Kind};
use crate::memories::Memory;
use crate::old_packing::Old;
use crate::packing::*;
use crate::random::Seed;
use crate::rows::Row;
use std::fmt;

// Room for the largest board, and for some words that are not lent.
const LARGE_ROOM: usize = 65552;

type Large = Memory<LARGE_ROOM>;

// The epoch that a large board has persisted: every entry of its log is valid from it till the next one.
const PERSISTED_EPOCH: u64 = 5;

// The lines that calls are about, and entries too.
const USED_LINES: u64 = 3;

#[derive(Clone, Copy, PartialEq, Eq)]
pub enum Size {
    MostEntries,
    EntryMore,
    MostLines,
    LineMore,
}

impl Size {
    pub const ALL: [Size; 4] = [
        Size::MostEntries,
        Size::EntryMore,
        Size::MostLines,
        Size::LineMore,
    ];

    fn lines(self) -> u64 {
        match self {
            Size::MostEntries | Size::EntryMore => USED_LINES,
            Size::MostLines => MOST_LINES,
            Size::LineMore => MOST_LINES + 1,
        }
    }

    fn entries(self) -> u64 {
        match self {
            Size::MostEntries => MOST_ENTRIES,
            Size::EntryMore => MOST_ENTRIES + 1,
            Size::MostLines | Size::LineMore => USED_LINES,
        }
    }

    fn words(self) -> u64 {
        board_words(self.lines(), self.entries())
    }
}

impl fmt::Display for Size {
    fn fmt<W: fmt::Write>(&self, f: &mut fmt::Formatter<W>) -> fmt::Result {
        f.write_str(match self {
            Size::MostEntries => "L 4095",
            Size::EntryMore => "L 4096",
            Size::MostLines => "N 65536",
            Size::LineMore => "N 65537",
        })
    }
}

// A board whose log fills the ring, from its last place on: every place has a proper entry, whose address goes by its
// number. The lines and the old data are any words.
fn write<L: Layout>(board: &mut Large, lines: u64, entries: u64, seed: Seed) {
    let last = entries.wrapping_sub(1);
    board.fill(seed);
    for i in 0..entries {
        let address = i % USED_LINES;
        let word = L::entry_word(address, PERSISTED_EPOCH, PERSISTED_EPOCH + 1);
        board.put(entry_place(i), word);
    }
    board.put(CONTROL, L::control_word(PERSISTED_EPOCH, last, entries));
    board.put(SHAPE, L::shape_word(lines, entries));
}

// A size, converted.
fn convert(old: &mut Large, boards: &mut Boards<LARGE_ROOM>, size: Size, score: &mut Score) {
    write::<Old>(old, size.lines(), size.entries(), Seed(size.lines()));
    old.words = size.words();
    boards.fill(size.words(), Seed(size as u64));
    let outcome = boards.convert(old.lent(), score);
    score.see(Row::OldSize(size), outcome.number);
}

// A size, formatted.
fn format(boards: &mut Boards<LARGE_ROOM>, size: Size, score: &mut Score) {
    boards.fill(size.words(), Seed(size as u64));
    let outcome = boards.call(Call::format(size.lines(), size.entries()), score);
    score.see(Row::FormatSize(size), outcome.number);
}

// The longest ring, with a log as long that starts at its last place and has a word for its newest entry, is
// powered up.
fn power_up(boards: &mut Boards<LARGE_ROOM>, newest: u64, score: &mut Score) {
    let last = MOST_ENTRIES - 1;
    let board = &mut boards.found;
    write::<New>(board, USED_LINES, MOST_ENTRIES, Seed(newest));
    board.words = board_words(USED_LINES, MOST_ENTRIES);
    board.put(log_place(last, MOST_ENTRIES, last), newest);
    boards.agree();
    let outcome = boards.call(Call::plain(Kind::PowerUp), score);
    score.see(Row::FullLog, outcome.number);
}

// All of it on the same three memories: these are the most that the test has on its stack.
pub fn large_boards(score: &mut Score) {
    let mut old = Memory {
        room: [0; LARGE_ROOM],
        words: 0,
    };
    let mut boards = Boards {
        found: Memory {
            room: [0; LARGE_ROOM],
            words: 0,
        },
        wanted: Memory {
            room: [0; LARGE_ROOM],
            words: 0,
        },
    };
    for size in Size::ALL {
        convert(&mut old, &mut boards, size, score);
        format(&mut boards, size, score);
    }
    let newest = New::entry_word(0, PERSISTED_EPOCH, PERSISTED_EPOCH + 1);
    power_up(&mut boards, newest, score);
    power_up(&mut boards, 0, score);
}
