// States that no list leads to: a word of the board, of the slots, of the buffer or of the filter, a
// register or a length is not as the calls have left it.
ghost use Rattle.std.specs.Prelude.{◌<◌, length};

use crate::edges::edges;
use crate::memories::index;
use crate::packing::*;
use crate::random::{Purpose, Seed};
use crate::sides::{BUFFERED, REGISTERS, State};

// What becomes of a word: it is a copy of another, has one bit the other way round, is any word, or has a number
// at which a test turns in one of its fields.
#[derive(Clone, Copy)]
pub struct Damage {
    pub seed: Seed,
    pub field: Field,
    pub edge: u64,
}

impl Damage {
    // Of a word with these fields. They are numbered as those of the word that has most; past its last one a word's
    // last is meant again.
    fn of(s: &State, fields: &[Field], seed: Seed) -> Damage
        requires { 0 < length fields.now }
    {
        let field = seed.below(Purpose::Field, SLOT.len() as u64) as usize;
        Damage {
            seed,
            field: fields[field.min(fields.len() - 1)],
            edge: seed.pick(Purpose::Edge, &edges(s)),
        }
    }

    // To the word at a place; the other has one too.
    pub fn make(self, words: &mut [u64], place: u64, other: u64)
        requires { 0 < length words.old }
    {
        let copy = words[index(other, words.len())];
        let at = index(place, words.len());
        words[at] = match self.seed.below(Purpose::Change, 10) {
            0 => copy,
            1 | 2 => self.seed.flipped(words[at]),
            3 => self.seed.word(Purpose::Bit),
            _ => self.field.replaced(words[at], self.edge),
        };
    }
}

fn damage_entry(s: &mut State, seed: Seed) {
    let entries = s.entries();
    let place = entry_place(seed.below(Purpose::Place, entries));
    let other = entry_place(seed.below(Purpose::OtherPlace, entries));
    Damage::of(s, &New::ENTRY, seed).make(&mut s.board.room, place, other);
}

fn damage_slot(s: &mut State, seed: Seed) {
    let slots = s.slots();
    let place = slot_place(seed.below(Purpose::Place, slots));
    let other = slot_place(seed.below(Purpose::OtherPlace, slots));
    Damage::of(s, &SLOT, seed).make(&mut s.work.room, place, other);
}

// Of the entries that are buffered, or of the one behind them.
fn damage_buffered(s: &mut State, seed: Seed) {
    let slots = s.slots();
    let count = s.registers[BUFFERED] % BUFFER_ENTRIES + 1;
    let place = buffer_place(slots, seed.below(Purpose::Place, count));
    let other = buffer_place(slots, seed.below(Purpose::OtherPlace, count));
    Damage::of(s, &New::ENTRY, seed).make(&mut s.work.room, place, other);
}

// One word of the filter; one in four times every bit of it is set.
fn damage_filter(s: &mut State, seed: Seed) {
    let slots = s.slots();
    if seed.once_in(Purpose::OtherPlace, 4) {
        let filter = (filter_place(slots, 0) as usize).min(WORK_ROOM);
        s.work.room[filter..].fill(u64::MAX);
    } else {
        let place = filter_place(slots, seed.below(Purpose::Place, FILTER_WORDS));
        Damage::of(s, &WHOLE, seed).make(&mut s.work.room, place, place);
    }
}

fn damage_register(s: &mut State, seed: Seed) {
    let place = seed.below(Purpose::Place, REGISTERS as u64);
    let other = seed.below(Purpose::OtherPlace, REGISTERS as u64);
    Damage::of(s, &WHOLE, seed).make(&mut s.registers, place, other);
}

fn other_length(words: u64, room: usize, seed: Seed) -> u64 {
    match seed.below(Purpose::Change, 4) {
        0 => words.wrapping_add(seed.below(Purpose::Bit, 9)),
        1 => words.wrapping_sub(seed.below(Purpose::Bit, 9)),
        2 => seed.below(Purpose::Bit, 4),
        _ => seed.below(Purpose::Bit, room as u64),
    }
}

fn damage_length(s: &mut State, seed: Seed) {
    if seed.once_in(Purpose::Place, 2) {
        s.board.words = other_length(s.board.words, BOARD_ROOM, seed);
    } else {
        s.work.words = other_length(s.work.words, WORK_ROOM, seed);
    }
}

fn damage_once(s: &mut State, seed: Seed) {
    match seed.below(Purpose::Region, 16) {
        0 | 1 => Damage::of(s, &New::control_fields(), seed).make(
            &mut s.board.room,
            CONTROL,
            SHAPE,
        ),
        2 => Damage::of(s, &New::shape_fields(), seed).make(&mut s.board.room, SHAPE, CONTROL),
        3..=5 => damage_entry(s, seed),
        6..=8 => damage_slot(s, seed),
        9 | 10 => damage_buffered(s, seed),
        11 | 12 => damage_filter(s, seed),
        13 | 14 => damage_register(s, seed),
        _ => damage_length(s, seed),
    }
}

// Once, twice or three times.
pub fn damage_state(s: &mut State, seed: Seed) {
    let times = match seed.below(Purpose::Times, 4) {
        0 => 3,
        1 => 2,
        _ => 1,
    };
    let mut next = seed;
    for _ in 0..times {
        damage_once(s, next);
        next = next.hashed();
    }
}
