// How many words the two memories may have.
ghost use Rattle.std.specs.Prelude.{◌≡◌, ◌≤◌};
ghost use Rattle.checks.specs.View.{good_sizes, good_work};

use layout::{ENTRY_WORDS, LEAST_WORK, LOG_AT, MOST_ENTRIES, MOST_LINES, MOST_WORK};

// Of 1: N, L and the word count.
pub fn is_good_sizes(words: usize, lines: u64, entries: u64) -> bool
    ensures { result ≡ good_sizes words lines entries }
{
    if entries == 0 {
        return false;
    }
    is_sized(words, lines, entries)
}

// The same where L is not 0, as the start of a log below L tells. One comparison for both ends of N: a 0 less one wraps round to more than
// any limit.
pub fn is_sized(words: usize, lines: u64, entries: u64) -> bool
    requires { 1 ≤ entries }
    ensures { result ≡ good_sizes words lines entries }
{
    if std::num::wrapping_sub_u64(lines, 1) >= MOST_LINES {
        return false;
    }
    if entries > MOST_ENTRIES {
        return false;
    }
    words as u64 == LOG_AT as u64 + ENTRY_WORDS as u64 * entries + lines
}

// A work memory has a multiple of 8 words more than the least, and fewer than 512: no bit but those of such a number is set.
const UNUSED_WORK_BITS: usize = usize::MAX - (MOST_WORK - LEAST_WORK);

// 2. Fewer words than the least wrap round to a number whose first bit is set.
pub fn is_good_work(words: usize) -> bool
    ensures { result ≡ good_work words }
{
    let more = std::num::wrapping_sub_usize(words, LEAST_WORK);
    more & UNUSED_WORK_BITS == 0
}
