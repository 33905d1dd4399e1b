// Old boards that no list leaves: fields, words and sizes are any.
use crate::conversions::Conversion;
use crate::damage::Damage;
use crate::old_packing::*;
use crate::packing::*;
use crate::random::{Purpose, Seed};

// The numbers at which the converter's tests turn: 0 and 1; about P and the latest ValidTill; about N and L.
fn edges(c: &Conversion) -> [u64; 16] {
    let persisted = c.control(Old::PERSISTED);
    let lines = c.shape(Old::LINES);
    let entries = c.shape(Old::ENTRIES);
    [
        0,
        1,
        persisted.wrapping_sub(1),
        persisted,
        persisted.wrapping_add(1),
        persisted.wrapping_add(2),
        persisted.wrapping_add(MOST_AHEAD),
        persisted.wrapping_add(MOST_AHEAD + 1),
        lines.wrapping_sub(1),
        lines,
        entries.wrapping_sub(1),
        entries,
        entries.wrapping_add(1),
        OLD_LAST_EPOCH - 1,
        MOST_LINES,
        u64::MAX,
    ]
}

fn damage_word(c: &mut Conversion, place: u64, other: u64, fields: &[Field; 3], seed: Seed) {
    let damage = Damage {
        seed,
        field: seed.pick(Purpose::Field, fields),
        edge: seed.pick(Purpose::Edge, &edges(c)),
    };
    damage.make(&mut c.old.room, place, other);
}

fn damage_entry(c: &mut Conversion, seed: Seed) {
    let entries = c.shape(Old::ENTRIES);
    let place = entry_place(seed.below(Purpose::Place, entries));
    let other = entry_place(seed.below(Purpose::OtherPlace, entries));
    damage_word(c, place, other, &Old::ENTRY, seed);
}

fn damage_sizes(c: &mut Conversion, seed: Seed) {
    let any = seed.below(Purpose::Bit, BOARD_ROOM as u64);
    let few = seed.below(Purpose::Bit, 3);
    match seed.below(Purpose::Change, 4) {
        0 => c.old.words = any,
        1 => c.board.words = any,
        2 => c.old.words = c.old.words.wrapping_add(few),
        _ => c.board.words = c.board.words.wrapping_sub(few),
    }
}

// The ring's words are any, and the control word is too where it is said so. The ring is gone over by numbers: a place
// past the room is the first, and a shape word of any L has many.
fn damage_log(c: &mut Conversion, any_control: bool, seed: Seed) {
    for i in 0..c.shape(Old::ENTRIES) {
        c.old.put(entry_place(i), seed.plus(i).hashed().0);
    }
    if any_control {
        c.old.put(CONTROL, seed.hashed().0);
    }
}

fn damage_once(c: &mut Conversion, seed: Seed) {
    match seed.below(Purpose::Region, 16) {
        0..=2 => damage_word(c, CONTROL, SHAPE, &Old::control_fields(), seed),
        3 => damage_word(c, SHAPE, CONTROL, &Old::shape_fields(), seed),
        4 => damage_sizes(c, seed),
        5 => damage_log(c, seed.once_in(Purpose::Change, 2), seed),
        6 => c.old.fill(seed.hashed()),
        _ => damage_entry(c, seed),
    }
}

// Once or twice.
pub fn damage_old(c: &mut Conversion, seed: Seed) {
    damage_once(c, seed);
    if seed.once_in(Purpose::Times, 2) {
        damage_once(c, seed.hashed());
    }
}
