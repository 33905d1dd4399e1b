// The boards and the calls of the lists. Each list has a board of its own, an epoch that it starts from,
// and eight cards, each with a kind of call, from which its calls are drawn: so some lists mostly store,
// some mostly commit, some never scan, as no one mix of calls would have it.
use crate::edges::edges;
use crate::kinds::{Call, Kind};
use crate::packing::*;
use crate::random::{DECK, Purpose, Seed};
use crate::sides::{EPOCH, State};

#[derive(Clone, Copy)]
pub struct List {
    pub seed: Seed,
    pub lines: u64,
    pub entries: u64,
    pub slots: u64,
    pub persisted: u64,
    // Whether its cards have stores and commits alone, by which buffer and log fill.
    pub fills: bool,
}

// The kinds of calls to choose a card's from; and those that no card has, of which now and then each list has a
// call.
const CHOICES: [Kind; 15] = [
    Kind::Store,
    Kind::Store,
    Kind::Store,
    Kind::Store,
    Kind::Store,
    Kind::Commit,
    Kind::Commit,
    Kind::Load,
    Kind::Load,
    Kind::Evict,
    Kind::Evict,
    Kind::Begin,
    Kind::Scan,
    Kind::Scan,
    Kind::Scan,
];

const FILLING_CHOICES: usize = 7;

const RARE: [Kind; 3] = [Kind::PowerUp, Kind::Tally, Kind::FilterBits];

// Lines that share bits of the filter, on a board that has them all. Both bits of 0 are one, which 233
// has too; 123 has a bit of 157 and one of 70, and 246 one of 81 and one of 141.
const SHARING_LINES: u64 = 282;

const SHARING: [u64; 8] = [0, 233, 123, 157, 70, 246, 81, 141];

// The P that a list starts from: one with a carry into bit 8, 16, 24, 32 or the uppermost among the next
// epochs, one near the last epoch, or one of the first.
fn started(seed: Seed) -> u64 {
    let behind = seed.below(Purpose::EpochsBehind, 20);
    match seed.below(Purpose::Start, 12) {
        0 => 0xFF - behind,
        1 => 0xFFFF - behind,
        2 | 3 => 0xFFFFFF - behind,
        4 => 0xFFFFFFFF - behind,
        5 => LAST_EPOCH / 2 - behind,
        6..=8 => LAST_EPOCH - 1 - behind,
        9 => behind,
        _ => 0,
    }
}

impl List {
    fn sized(seed: Seed, lines: u64, entries: u64, sets: u64) -> List {
        List {
            seed,
            lines,
            entries,
            slots: slots_of(sets),
            persisted: started(seed),
            fills: seed.once_in(Purpose::Choices, 4),
        }
    }

    // By N, L and the number of sets: a log that soon fills; one on which epochs wait; a buffer that fills before
    // a line is written out; the most slots; lines that share bits of the filter, all of one set.
    pub fn at(n: u64) -> List {
        let seed = Seed(n).hashed();
        let lines = seed.below(Purpose::Lines, 16) + 1;
        let entries = seed.below(Purpose::Entries, 60);
        let sets = seed.below(Purpose::Sets, 3) + 1;
        match n % 6 {
            0 => List::sized(seed, lines, entries % 8 + 1, 1),
            1 | 2 => List::sized(seed, lines, entries + 8, sets),
            3 => List::sized(seed, 120, entries / 2 + 48, 10),
            4 => List::sized(seed, 190, 50, MOST_SETS),
            _ => List::sized(seed, SHARING_LINES, entries % 6 + 3, 1),
        }
    }

    // Registers that are zero are refused until a power-up, so that is then the likeliest call.
    fn kind(&self, seed: Seed, epoch: u64) -> Kind {
        if epoch == 0 && !seed.once_in(Purpose::StaysOff, 4) {
            return Kind::PowerUp;
        }
        let card = seed.below(Purpose::Card, 8) as usize;
        if seed.once_in(Purpose::IsRare, 12) {
            return RARE[card % 3];
        }
        if self.fills {
            return self.seed.pick(DECK[card], &CHOICES[..FILLING_CHOICES]);
        }
        self.seed.pick(DECK[card], &CHOICES)
    }

    // Most often one of the first half of the lines, now and then one that is out of range.
    fn address(&self, seed: Seed) -> u64 {
        if self.lines == SHARING_LINES {
            return seed.pick(Purpose::Address, &SHARING);
        }
        let most = if seed.once_in(Purpose::IsFar, 3) {
            self.lines
        } else {
            self.lines / 2
        };
        seed.below(Purpose::Address, most.wrapping_add(1))
    }

    fn call(&self, s: &State, kind: Kind, seed: Seed, cut_every: u64) -> Call {
        Call {
            kind,
            address: self.address(seed),
            value: if kind == Kind::Begin {
                target(s, seed)
            } else {
                seed.word(Purpose::Value)
            },
            allowance: allowance(seed, cut_every),
        }
    }

    // The next call of a list.
    pub fn next_call(&self, s: &State, seed: Seed) -> Call {
        self.call(s, self.kind(seed, s.registers[EPOCH]), seed, 40)
    }

    // A call of any kind, now and then with an odd address.
    pub fn any_call(&self, s: &State, seed: Seed) -> Call {
        let kind = any_kind(seed);
        if kind == Kind::Format {
            return any_format(s, seed);
        }
        let mut call = self.call(s, kind, seed, 4);
        if seed.once_in(Purpose::IsOdd, 16) {
            call.address = odd(s, call.address, seed);
        }
        call
    }
}

// A number about which a test turns, or a good one with one bit the other way round.
fn odd(s: &State, good: u64, seed: Seed) -> u64 {
    if seed.once_in(Purpose::Change, 2) {
        return seed.pick(Purpose::Edge, &edges(s));
    }
    seed.flipped(good)
}

// A target of begin: the first epoch that waits, the last, one between, or an odd one.
fn target(s: &State, seed: Seed) -> u64 {
    let first = s.persisted().wrapping_add(1);
    let epoch = s.registers[EPOCH];
    let between = seed.below(Purpose::Value, epoch.wrapping_sub(first));
    match seed.below(Purpose::TargetChoice, 5) {
        0 => first,
        1 => epoch.wrapping_sub(1),
        2 | 3 => first.wrapping_add(between),
        _ => odd(s, first, seed),
    }
}

// One call in so many gets a small allowance.
fn allowance(seed: Seed, times: u64) -> u32 {
    if !seed.once_in(Purpose::IsCut, times) {
        return u32::MAX;
    }
    let bound = if seed.once_in(Purpose::IsSmall, 2) {
        4
    } else {
        80
    };
    seed.below(Purpose::Allowance, bound) as u32
}

fn any_kind(seed: Seed) -> Kind {
    match seed.below(Purpose::IsRare, 8) {
        0 | 1 => Kind::PowerUp,
        2 => seed.pick(Purpose::Card, &Kind::ALL),
        _ => seed.pick(Purpose::Card, &CHOICES),
    }
}

// N and L as the board has them, or one beside; or such as have the board's number of words if a sum
// wraps, for L is 2^63 too many.
fn any_format(s: &State, seed: Seed) -> Call {
    let mut call = Call::format(
        about(s.lines(), seed, Purpose::Address),
        about(s.entries(), seed, Purpose::Value),
    );
    if seed.once_in(Purpose::IsOdd, 3) {
        call.value ^= 1 << 63;
    }
    call
}

fn about(n: u64, seed: Seed, purpose: Purpose) -> u64 {
    match seed.below(purpose, 4) {
        0 => n.wrapping_add(1),
        1 => n.wrapping_sub(1),
        _ => n,
    }
}
