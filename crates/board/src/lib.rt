// The allowance of a call, and the one function that makes a board store.
#![tactic(auto)]

ghost use Rattle.std.specs.Prelude.{false, ◌≡◌, ◌+◌, ◌-◌, ◌<◌, ◌≤◌, length};
ghost use Rattle.board.specs.Stores.{full, one, was_cut, Ran};

// What is left of a call's allowance: one more than the stores that may still be made, and 0 once a store was due with none
// left. One number and no Option: whatever is left, a store that is due takes one from it (`spent`). The field is private: no
// code outside this crate can decide by it which stores are made.
#[derive(Clone, Copy)]
pub struct Meter {
    left: u64,
}

impl Meter {
    pub fn new(allowance: u32) -> Meter
        ensures { result ≡ full allowance }
    {
        Meter {
            left: allowance as u64 + 1,
        }
    }

    pub fn is_cut(self) -> bool
        ensures { result ≡ was_cut self }
    {
        self.left == 0
    }

    // How many stores were made under the allowance that the meter began with.
    pub fn made(self, allowance: u32) -> u32
        requires self_value { was_cut self ≡ false }
        requires left_bound { self.left ≤ allowance + 1 }
        ensures { result ≡ allowance + 1 - self.left }
    {
        (allowance as u64 + 1 - self.left) as u32
    }
}

// A store to a lent part of the board, if the allowance has one left.
pub fn put(part: &mut [u64], at: usize, word: u64, meter: Meter) -> Meter
    requires { at < length part.old }
    ensures { Ran part.old meter (one at word) part.new result }
{
    if meter.left <= 1 {
        return Meter { left: 0 };
    }
    part[at] = word;
    Meter {
        left: meter.left - 1,
    }
}
