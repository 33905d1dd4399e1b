// The sets of four slots: one pass over a set tells whether it is proper, and where the line at an address is held or put.
ghost use Rattle.std.specs.Prelude.{◌+◌, ◌-◌, ◌*◌, ◌^◌, ◌<◌, ◌≤◌, length, ◌≡◌};
ghost use Rattle.base.specs.Several.{all_of, any_of};
ghost use Rattle.layout.specs.Limits.{address_bits, ways, most_slots};
ghost use Rattle.layout.specs.Memory.{slot_at, slot_words};
ghost use Rattle.layout.specs.Sizes.{WholeSets};
ghost use Rattle.slots.specs.Promises.{SpotReady, TagsReady};
ghost use Rattle.slots.specs.Passes.{near, Dividing, SetsOf, fraction_of, Remains, bounds_by, LinesReady, lineless, LineIn, twice_of, lowest_of};
ghost use Rattle.slots.specs.Passes.{site_by, site_among, site_for};
ghost use Rattle.slots.specs.Sets.{slots_from};
ghost use Rattle.slots.specs.Slots.{dirty_at};

use crate::is_dirty_at;
use layout::{ADDRESSES, SLOT_WORDS, WAYS};

// What a pass over the set of an address finds: the slot that a line which is not held takes, or the slot that holds it, or that the set is not
// proper. A kind and one slot come back in two registers, an Option of a Spot through memory. Improper stands last: the number of a kind is then
// whether the line is held, which takes 2 to 5 instructions less a call.
#[derive(Clone, Copy)]
pub enum Site {
    Free(usize),
    Held(usize),
    Improper,
}

// The number of sets, and 2^32 divided by it, rounded up.
#[derive(Clone, Copy)]
struct Sets {
    count: u64,
    inverse: u64,
}

const SCALE: u64 = 1 << 32;

fn sets_of(slots: usize) -> Sets
    requires { WholeSets slots }
    ensures { SetsOf slots result }
{
    let count = slots as u32 / WAYS as u32;
    Sets {
        count: count as u64,
        inverse: (u32::MAX / count) as u64 + 1,
    }
}

// A number divided by that of the sets, without a division: of its product with the inverse the part below 2^32 is the fraction, too large by
// less than the number itself.
fn fraction(sets: Sets, number: u64) -> u64
    requires dividing { Dividing sets }
    requires number_lt_near { number < near }
    ensures { result ≡ fraction_of sets number }
{
    number * sets.inverse % SCALE
}

// The set that an address belongs in.
fn set_of(sets: Sets, address: u64) -> u64
    requires dividing { Dividing sets }
    requires address_bound { address < 2 ^ address_bits }
    ensures { Remains sets.count address result }
{
    fraction(sets, address) * sets.count / SCALE
}

// Below this a fraction is that of a multiple of the number of sets.
const NEAR: u64 = 1 << 17;

// What one slot of a set is found to be: the address of its line, or a number that is no address, and of each slot another; how far it is from
// being proper, which is less than NEAR where it is; and its word without the address. Numbers and no Options: no two slots without a line have one
// address, so is_twice is six comparisons, and one or of all `beyond` finds what is improper.
#[derive(Clone, Copy)]
struct Line {
    address: u64,
    beyond: u64,
    form: u64,
}

fn no_line(way: u64, beyond: u64, form: u64) -> Line
    requires { way < ways }
    ensures { result ≡ lineless way beyond form }
{
    Line {
        address: ADDRESSES + way,
        beyond,
        form,
    }
}

// What all slots of a set are tested by: the number of lines, the tags that a dirty slot may have, and which set it is. `away` is what the number
// of the set lacks of the number of sets: an address belongs in the set where it and `away` together are a multiple.
#[derive(Clone, Copy)]
struct Pass {
    lines: u64,
    least: u64,
    tags: u64,
    sets: Sets,
    away: u64,
}

// What a slot of a set is found to be.
fn line_in(pass: Pass, way: u64, word: u64) -> Line
    requires lines_ready { LinesReady pass.least pass.tags pass.sets pass.away }
    requires way_lt_ways { way < ways }
    ensures { LineIn (bounds_by (ways * pass.sets.count) pass.lines pass.least pass.tags) (pass.sets.count - pass.away) way word result }
{
    let form = layout::slot_form(word);
    if !layout::is_line(word, pass.least, pass.tags) {
        if word == 0 {
            return no_line(way, 0, form);
        }
        return no_line(way, NEAR, form);
    }
    let address = layout::slot_address(word);
    if address >= pass.lines {
        return no_line(way, NEAR, form);
    }
    Line {
        address,
        beyond: fraction(pass.sets, address + pass.away),
        form,
    }
}

// Whether two of four addresses are one.
fn is_twice(a: u64, b: u64, c: u64, d: u64) -> bool
    ensures { result ≡ twice_of a b c d }
{
    b == a || c == a || d == a || c == b || d == b || d == c
}

// The slot of a set that an incoming line takes, the victim. The forms have no last bits of their own, so that these tell the slots apart.
// That a form leaves room for them stays a clause: the forms come here alone, so an invariant of Line would be told again.
fn lowest(a: u64, b: u64, c: u64, d: u64) -> usize
    requires b_bound { b + 3 < 2 ^ 64 }
    requires c_bound { c + 3 < 2 ^ 64 }
    requires d_bound { d + 3 < 2 ^ 64 }
    ensures { result ≡ lowest_of a b c d }
{
    let first_of_least = a.min((b + 1).min((c + 2).min(d + 3)));
    (first_of_least % WAYS as u64) as usize
}

// Where the line at an address is in a proper set. The four lines are tested by name: a position in an array of them costs 15 to 19
// instructions a call, and the rows jacquard, last-slots and evict of bench/run then take more than the hand-written side.
fn locate(first: usize, address: u64, a: Line, b: Line, c: Line, d: Line) -> Site
    requires ways_bound { first + ways ≤ most_slots }
    requires form_bound { b.form + 3 < 2 ^ 64 }
    requires form_bound_2 { c.form + 3 < 2 ^ 64 }
    requires form_bound_3 { d.form + 3 < 2 ^ 64 }
    ensures { result ≡ site_by first address a b c d }
{
    if a.address == address {
        return Site::Held(first);
    }
    if b.address == address {
        return Site::Held(first + 1);
    }
    if c.address == address {
        return Site::Held(first + 2);
    }
    if d.address == address {
        return Site::Held(first + 3);
    }
    Site::Free(first + lowest(a.form, b.form, c.form, d.form))
}

// The site of an address among the lines of a set, if these are proper and no two the same.
fn site_among(first: usize, address: u64, a: Line, b: Line, c: Line, d: Line) -> Site
    requires ways_bound { first + ways ≤ most_slots }
    requires form_bound { b.form + 3 < 2 ^ 64 }
    requires form_bound_2 { c.form + 3 < 2 ^ 64 }
    requires form_bound_3 { d.form + 3 < 2 ^ 64 }
    ensures { result ≡ site_among first address a b c d }
{
    if a.beyond | b.beyond | c.beyond | d.beyond >= NEAR {
        return Site::Improper;
    }
    if is_twice(a.address, b.address, c.address, d.address) {
        return Site::Improper;
    }
    locate(first, address, a, b, c, d)
}

// Where the other slots of a set stand behind its first.
const SECOND: usize = SLOT_WORDS;

const THIRD: usize = 2 * SLOT_WORDS;

const FOURTH: usize = 3 * SLOT_WORDS;

// One pass over the set of an address. It is not joined to the calls that make it, and takes as many arguments as stay in registers: so the
// persisted epoch and the running one come as the least tag and the number of tags.
#[inline(never)]
pub fn site_for(work: &[u64], slots: usize, lines: u64, least: u64, tags: u64, address: u64) -> Site
    requires spot_ready { SpotReady work.now slots address }
    requires tags_ready { TagsReady least tags }
    ensures { result ≡ site_for (bounds_by slots lines least tags) work.now address }
{
    let sets = sets_of(slots);
    let set = set_of(sets, address);
    let pass = Pass {
        lines,
        least,
        tags,
        sets,
        away: sets.count - set,
    };
    let first = WAYS * set as usize;
    let at = SLOT_WORDS * first;
    let a = line_in(pass, 0, work[at]);
    let b = line_in(pass, 1, work[at + SECOND]);
    let c = line_in(pass, 2, work[at + THIRD]);
    let d = line_in(pass, 3, work[at + FOURTH]);
    site_among(first, address, a, b, c, d)
}

// Whether one of four slots is dirty. That the work memory has the four stays a clause, as at `slot_at`.
pub fn is_any_dirty(work: &[u64], first: usize) -> bool
    requires { slot_at (first + ways) ≤ length work.now }
    ensures { result ≡ any_of (dirty_at work.now) (slots_from first) }
{
    (first..first + WAYS).any(|k| is_dirty_at(work, k))
}

// Whether each of four slots is dirty.
pub fn is_all_dirty(work: &[u64], first: usize) -> bool
    requires { slot_at (first + ways) ≤ length work.now }
    ensures { result ≡ all_of (dirty_at work.now) (slots_from first) }
{
    (first..first + WAYS).all(|k| is_dirty_at(work, k))
}
