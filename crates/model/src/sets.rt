// The sets of slots and a line's place in its set, by document 02's request 6/13, "Four ways", which
// the comments quote.
use crate::words::*;
use std::ops::Range;

// What a slot is to a line that is looked for or brought in, the least first. A dirty slot's tag follows.
#[derive(Clone, Copy, PartialEq, Eq, PartialOrd, Ord)]
enum Standing {
    HoldsIt,
    Empty,
    Clean,
    Dirty(u64),
}

// "Set g is slots 4g to 4g + 3; address a belongs in any slot of set a mod S/4": the slots of the set of an address.
pub fn set_of(work: &[u64], address: u64) -> Range<u64> {
    let sets = slot_count(work) / WAYS;
    let first = if sets == 0 {
        0
    } else {
        WAYS * (address % sets)
    };
    first..first + WAYS
}

// Whether slot k holds a line.
pub fn holds(work: &[u64], k: u64, address: u64) -> bool {
    let slot = slot_at(work, k);
    slot.valid && slot.address == address
}

// What slot k is to a line. Test 6 has passed, so that a slot which is not valid is empty.
fn standing_of(work: &[u64], k: u64, address: u64) -> Standing {
    let slot = slot_at(work, k);
    if !slot.valid {
        Standing::Empty
    } else if slot.address == address {
        Standing::HoldsIt
    } else if slot.dirty {
        Standing::Dirty(slot.tag)
    } else {
        Standing::Clean
    }
}

// The slot of a line: the one that holds it, if any. "A line not held takes the first empty slot,
// else the first clean one, else the dirty one with the smallest tag, lowest slot among equals."
pub fn slot_for(work: &[u64], address: u64) -> u64 {
    let set = set_of(work, address);
    let first = set.start;
    set.min_by_key(|&k| standing_of(work, k, address))
        .unwrap_or(first)
}
