// The filter of the undo buffer: which addresses may have an entry there. No other module knows where its bits stand. The buffer is lent
// whole: the places of its entries, and the filter's words behind them. It is a slice and no array: its length comes from that of the lent work
// memory, so each caller would make the array, and prove by the same fact that it is there.
ghost use Rattle.std.specs.Prelude.{◌^◌, ◌<◌, length, ◌≡◌};
ghost use Rattle.layout.specs.Limits.{address_bits, filter_size};
ghost use Rattle.layout.specs.Memory.{filter_words, buffer_words};
ghost use Rattle.undo.specs.Filter.{with_bit, marking, marks, hits, ones_of};
ghost use Rattle.undo.specs.Promises.{FirstBit, SecondBit, ReadsBit, CountsOnes};

use layout::{FILTER_AT, FILTER_SIZE, WORD_BITS};

// The second bit of an address: a product of 16 bits, of which the filter's upper ones.
const HASH_FACTOR: u64 = 40503;

const HASH_VALUES: u64 = 65536;

const HASHES_OF_BIT: u64 = HASH_VALUES / FILTER_SIZE;

const BITS: u64 = WORD_BITS as u64;

// The first bit of a word, its most significant.
const FIRST: u64 = 1 << WORD_BITS - 1;

fn first_bit(address: u64) -> u64
    ensures { FirstBit address result }
{
    address % FILTER_SIZE
}

fn second_bit(address: u64) -> u64
    requires { address < 2 ^ address_bits }
    ensures { SecondBit address result }
{
    address * HASH_FACTOR % HASH_VALUES / HASHES_OF_BIT
}

// A word whose most significant bit is a bit of the filter.
fn read(buffer: &[u64], bit: u64) -> u64
    requires buffer_len { length buffer.now ≡ buffer_words }
    requires bit_lt_filter_size { bit < filter_size }
    ensures { ReadsBit buffer.now bit result }
{
    buffer[FILTER_AT + (bit / BITS) as usize] << bit % BITS
}

fn set(buffer: &mut [u64], bit: u64)
    requires buffer_len { length buffer.old ≡ buffer_words }
    requires bit_lt_filter_size { bit < filter_size }
    ensures { buffer.new ≡ with_bit buffer.old bit }
{
    let at = FILTER_AT + (bit / BITS) as usize;
    buffer[at] = buffer[at] | FIRST >> bit % BITS;
}

// Whether both bits of an address are set.
pub fn is_marked(buffer: &[u64], address: u64) -> bool
    requires buffer_len { length buffer.now ≡ buffer_words }
    requires address_bound { address < 2 ^ address_bits }
    ensures { result ≡ marks buffer.now address }
{
    read(buffer, first_bit(address)) & read(buffer, second_bit(address)) >= FIRST
}

// Both bits of an address.
pub fn mark(buffer: &mut [u64], address: u64)
    requires buffer_len { length buffer.old ≡ buffer_words }
    requires address_bound { address < 2 ^ address_bits }
    ensures { buffer.new ≡ marking buffer.old address }
{
    let first = first_bit(address);
    let second = second_bit(address);
    set(buffer, first);
    set(buffer, second);
}

// Whether one of the buffered entries, count of them, may be of the address.
pub fn is_hit(buffer: &[u64], count: u64, address: u64) -> bool
    requires buffer_len { length buffer.now ≡ buffer_words }
    requires address_bound { address < 2 ^ address_bits }
    ensures { result ≡ hits buffer.now count address }
{
    if !is_marked(buffer, address) {
        return false;
    }
    count > 0
}

fn ones_in(word: u64) -> u64
    ensures { CountsOnes word result }
{
    word.count_ones() as u64
}

// The number of bits that are set. A for: of a sum() of the counts a proof does not know that it fits a word.
pub fn bits_set(buffer: &[u64]) -> u64
    requires { length buffer.now ≡ buffer_words }
    ensures { result ≡ ones_of buffer.now filter_words }
{
    let mut count: u64 = 0;
    for word in &buffer[FILTER_AT..] {
        count += ones_in(*word);
    }
    count
}
