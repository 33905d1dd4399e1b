// Compares the library with the second, separately written model: the same calls on both, and after
// each the number, the value, the stores, the registers and every word of both memories. The calls are
// those of lists that begin with format and power-up, which are held to the reference machine too; each
// of them is also made under every allowance that cuts it; and beside each, calls are made from states
// that are damaged. The boards that lists and cuts leave are also written in the old layout, damaged or not, and
// converted; and lists go on from converted boards. It prints the numbers that each call has answered, also to
// spans and to faults of old boards, and the calls about some epochs: the stored output has just those that the
// paper lets be, and 0 differences.
#![tactic(auto)]

mod boards;
mod compare;
mod conversions;
mod damage;
mod edges;
mod faults;
mod histories;
mod kinds;
mod large;
mod lists;
mod memories;
mod old_damage;
mod old_lists;
mod old_packing;
mod packing;
mod print;
mod random;
mod rows;
mod sides;
mod spans;

use compare::Score;
use histories::History;
use random::Seed;
use std::io;

const LISTS: u64 = 1080;

const TURNS: u64 = 200;

fn list(n: u64, score: &mut Score) {
    let mut h = History::opened(n, score);
    let first = Seed(n.wrapping_mul(TURNS));
    for turn in 0..TURNS {
        h.turn(first.plus(turn).hashed(), score);
    }
}

fn main(rt: HostRuntime) -> io::Result<()> {
    let mut score = Score::empty();
    // Once without a turn: what is drawn behind a cut depends on how many calls there were before.
    History::opened(0, &mut score);
    for n in 0..LISTS {
        list(n, &mut score);
    }
    large::large_boards(&mut score);
    print::report(&rt, &score)
}
