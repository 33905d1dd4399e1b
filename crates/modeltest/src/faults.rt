// Old boards that are as a list leaves them but for one thing, or for two where one test has to come first: each
// with what the converter has to answer.
use crate::compare::*;
use crate::conversions::*;
use crate::old_packing::*;
use crate::packing::*;
use crate::random::{Purpose, Seed};
use crate::rows::Row;
use std::fmt;

#[derive(Clone, Copy, PartialEq, Eq)]
pub enum Fault {
    // Nothing is wrong: as a call, and as a cut, leaves the board.
    ByCall,
    ByCut,
    // Not of the old shape, or the second memory is of another size. Two of them have an improper entry too.
    NoWord,
    OneWord,
    OtherVersion,
    NoLine,
    LineMore,
    EntryMore,
    WordMore,
    WordLess,
    SecondMore,
    SecondLess,
    LastPersisted,
    StartFar,
    LengthFar,
    EntryAndSecond,
    EntryAndStart,
    // An improper entry, or two.
    AddressFar,
    EmptyRange,
    TillPersisted,
    TillFar,
    TillBelow,
    TwoEntries,
    // The last that is accepted, and what is not tested.
    TillLatest,
    LongRange,
    BehindLog,
    PersistedLatest,
}

impl Fault {
    pub const ALL: [Fault; 27] = [
        Fault::ByCall,
        Fault::ByCut,
        Fault::NoWord,
        Fault::OneWord,
        Fault::OtherVersion,
        Fault::NoLine,
        Fault::LineMore,
        Fault::EntryMore,
        Fault::WordMore,
        Fault::WordLess,
        Fault::SecondMore,
        Fault::SecondLess,
        Fault::LastPersisted,
        Fault::StartFar,
        Fault::LengthFar,
        Fault::EntryAndSecond,
        Fault::EntryAndStart,
        Fault::AddressFar,
        Fault::EmptyRange,
        Fault::TillPersisted,
        Fault::TillFar,
        Fault::TillBelow,
        Fault::TwoEntries,
        Fault::TillLatest,
        Fault::LongRange,
        Fault::BehindLog,
        Fault::PersistedLatest,
    ];

    // Whether the converter refuses an entry.
    fn is_improper(self) -> bool {
        matches!(
            self,
            Fault::AddressFar
                | Fault::EmptyRange
                | Fault::TillPersisted
                | Fault::TillFar
                | Fault::TillBelow
                | Fault::TwoEntries
        )
    }
}

impl fmt::Display for Fault {
    fn fmt<W: fmt::Write>(&self, f: &mut fmt::Formatter<W>) -> fmt::Result {
        f.write_str(match self {
            Fault::ByCall => "as a call leaves it",
            Fault::ByCut => "as a cut leaves it",
            Fault::NoWord => "no word",
            Fault::OneWord => "one word",
            Fault::OtherVersion => "version not 0",
            Fault::NoLine => "N 0",
            Fault::LineMore => "N + 1",
            Fault::EntryMore => "L + 1",
            Fault::WordMore => "one word more",
            Fault::WordLess => "one word less",
            Fault::SecondMore => "second memory one word more",
            Fault::SecondLess => "second memory one word less",
            Fault::LastPersisted => "P 2^24 - 1",
            Fault::StartFar => "start L",
            Fault::LengthFar => "length L + 1",
            Fault::EntryAndSecond => "address N, second memory one word more",
            Fault::EntryAndStart => "address N, start L",
            Fault::AddressFar => "address N",
            Fault::EmptyRange => "ValidFrom = ValidTill",
            Fault::TillPersisted => "ValidTill P",
            Fault::TillFar => "ValidTill P + 17",
            Fault::TillBelow => "ValidTill below the older",
            Fault::TwoEntries => "two improper entries",
            Fault::TillLatest => "ValidTill P + 16",
            Fault::LongRange => "ValidFrom 0, ValidTill above 16",
            Fault::BehindLog => "improper word behind the log",
            Fault::PersistedLatest => "P 2^24 - 2, ValidTill 2^24 - 1",
        })
    }
}

// A fault is an enum and no closure: it is printed, has a row of its own, and is asked beforehand whether a board admits it.
impl Conversion {
    // The place of the packed word of entry i of the old log.
    fn entry(&self, i: u64) -> u64 {
        log_place(self.control(Old::START), self.shape(Old::ENTRIES), i)
    }

    fn till(&self, i: u64) -> u64 {
        self.old.field(self.entry(i), Old::TILL)
    }

    fn put_control(&mut self, field: Field, value: u64) {
        self.old.put_field(CONTROL, field, value);
    }

    fn put_shape(&mut self, field: Field, value: u64) {
        self.old.put_field(SHAPE, field, value);
    }

    fn put_entry(&mut self, i: u64, field: Field, value: u64) {
        let place = self.entry(i);
        self.old.put_field(place, field, value);
    }

    fn put_range(&mut self, i: u64, valid_from: u64, valid_till: u64) {
        self.put_entry(i, Old::FROM, valid_from);
        self.put_entry(i, Old::TILL, valid_till);
    }

    // Entry i gets an address that no line has.
    fn put_astray(&mut self, i: u64) {
        self.put_entry(i, Old::ADDRESS, self.shape(Old::LINES));
    }

    // The latest P there may be, and one entry with the last epoch for its ValidTill.
    fn put_latest(&mut self) {
        self.put_control(Old::PERSISTED, OLD_LAST_EPOCH - 1);
        self.put_control(Old::LENGTH, 1);
        self.put_range(0, OLD_LAST_EPOCH - 1, OLD_LAST_EPOCH);
        self.put_entry(0, Old::ADDRESS, 0);
    }

    // No line, and a board of the size that then is good.
    fn put_no_line(&mut self) {
        let words = board_words(0, self.shape(Old::ENTRIES));
        self.put_shape(Old::LINES, 0);
        self.old.words = words;
        self.board.words = words;
    }

    fn put_size_fault(&mut self, fault: Fault) {
        match fault {
            Fault::NoWord => self.old.words = 0,
            Fault::OneWord => self.old.words = 1,
            Fault::WordMore => self.old.words = self.old.words.wrapping_add(1),
            Fault::WordLess => self.old.words = self.old.words.wrapping_sub(1),
            Fault::SecondLess => self.board.words = self.board.words.wrapping_sub(1),
            _ => self.board.words = self.board.words.wrapping_add(1),
        }
    }

    fn put_shape_fault(&mut self, fault: Fault, seed: Seed) {
        let lines = self.shape(Old::LINES);
        let entries = self.shape(Old::ENTRIES);
        match fault {
            Fault::OtherVersion => {
                self.put_shape(Old::VERSION, 1 << seed.below(Purpose::Bit, 24));
            }
            Fault::NoLine => self.put_no_line(),
            Fault::LineMore => self.put_shape(Old::LINES, lines.wrapping_add(1)),
            Fault::EntryMore => self.put_shape(Old::ENTRIES, entries.wrapping_add(1)),
            Fault::LastPersisted => {
                self.put_control(Old::LENGTH, 0);
                self.put_control(Old::PERSISTED, OLD_LAST_EPOCH);
            }
            Fault::StartFar => self.put_control(Old::START, entries),
            Fault::LengthFar => self.put_control(Old::LENGTH, entries.wrapping_add(1)),
            Fault::EntryAndStart => {
                self.put_astray(0);
                self.put_control(Old::START, entries);
            }
            Fault::EntryAndSecond => {
                self.put_astray(0);
                self.put_size_fault(fault);
            }
            _ => self.put_size_fault(fault),
        }
    }

    // Entry i is changed, or the place behind the log.
    fn put_entry_fault(&mut self, fault: Fault, i: u64, seed: Seed) {
        let persisted = self.control(Old::PERSISTED);
        let till = self.till(i);
        match fault {
            Fault::AddressFar => self.put_astray(i),
            Fault::EmptyRange => self.put_range(i, till, till),
            Fault::TillPersisted => self.put_range(i, persisted.wrapping_sub(1), persisted),
            Fault::TillFar => self.put_entry(i, Old::TILL, persisted.wrapping_add(MOST_AHEAD + 1)),
            Fault::TillBelow => {
                let older = self.till(i.wrapping_sub(1));
                self.put_range(i, persisted, older.wrapping_sub(1));
            }
            Fault::TwoEntries => {
                self.put_astray(i);
                self.put_range(i.wrapping_add(1), till, till);
            }
            Fault::TillLatest => self.put_entry(i, Old::TILL, persisted.wrapping_add(MOST_AHEAD)),
            Fault::LongRange => self.put_entry(i, Old::FROM, 0),
            Fault::BehindLog => self.put_entry(self.control(Old::LENGTH), Old::TILL, 0),
            Fault::PersistedLatest => self.put_latest(),
            _ => self.put_shape_fault(fault, seed),
        }
    }

    // Which entry a fault is about: the oldest, the newest, one that has an older one, one that has a newer one, or
    // any.
    fn place_of(&self, fault: Fault, seed: Seed) -> u64 {
        let length = self.control(Old::LENGTH);
        let last = length.wrapping_sub(1);
        match fault {
            Fault::TillPersisted => 0,
            Fault::TillFar | Fault::TillLatest => last,
            Fault::TillBelow => seed.below(Purpose::Place, last).wrapping_add(1),
            Fault::TwoEntries => seed.below(Purpose::Place, last),
            _ => seed.below(Purpose::Place, length),
        }
    }

    // Whether a board is such that a fault can be made of it which leaves all else proper.
    fn admits(&self, fault: Fault, i: u64) -> bool {
        let persisted = self.control(Old::PERSISTED);
        let length = self.control(Old::LENGTH);
        match fault {
            Fault::EntryAndSecond | Fault::EntryAndStart | Fault::AddressFar | Fault::EmptyRange =>
                length >= 1,
            Fault::TillPersisted => length >= 1 && persisted >= 1,
            Fault::TillFar | Fault::TillLatest => {
                length >= 1 && persisted.wrapping_add(MOST_AHEAD + 1) <= OLD_LAST_EPOCH
            }
            Fault::TillBelow => length >= 2
                && self.till(i.wrapping_sub(1)) > persisted.wrapping_add(1),
            Fault::TwoEntries => length >= 2,
            Fault::LongRange => length >= 1 && self.till(i) > MOST_SPAN,
            Fault::BehindLog => length < self.shape(Old::ENTRIES),
            _ => true,
        }
    }
}

// A fault of an old board, made where it can be, and what the converter answers then. "3 entry": its value is the
// place of the first improper entry, and all others are 0.
pub fn with_fault(mut c: Conversion, fault: Fault, seed: Seed, score: &mut Score) {
    let i = c.place_of(fault, seed);
    if !c.admits(fault, i) {
        return;
    }
    c.put_entry_fault(fault, i, seed);
    let outcome = convert(&mut c, score);
    let wanted = if fault.is_improper() { i } else { 0 };
    score.note(c.place(), between(Part::Value, 0, outcome.value, wanted));
    score.see(Row::OldBoard(fault), outcome.number);
}
