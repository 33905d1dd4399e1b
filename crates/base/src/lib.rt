// What the crates above share: definitions and laws on tests, searches and lent parts, in specs/; clearing a part, and
// writing a pair of words.
#![tactic(auto)]

ghost use Rattle.std.specs.Prelude.{◌≡◌, ◌+◌, ◌<◌, length, replicate};
ghost use Rattle.base.specs.Parts.{set_pair};

// The library's fill, with what it comes to for words: fill's own clause has a premise on clones, which each caller would have to
// answer.
pub fn clear(part: &mut [u64])
    ensures { part.new ≡ replicate (length part.old) 0 }
{
    part.fill(0);
}

pub fn set_pair(part: &mut [u64], at: usize, first: u64, second: u64)
    requires { at + 1 < length part.old }
    ensures { part.new ≡ set_pair part.old at first second }
{
    part[at] = first;
    part[at + 1] = second;
}
