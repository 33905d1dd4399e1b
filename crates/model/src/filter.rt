// The filter, by document 02's request 3/13, "Filter before the buffer", which the comments quote. A
// bit of it is read and set by its number.
use crate::words::*;

const LEADING_BIT: u64 = 0x8000000000000000;

// The factor and the modulus of an address's second bit, and the divisor that leaves 4,096 bits.
const FACTOR: u64 = 40503;

const MODULUS: u64 = 65536;

const DIVISOR: u64 = 16;

// "bit (a x 40503 mod 65,536) divided by 16, rounded down". An address has 16 bits.
fn second_bit(address: u64) -> u64 {
    address % MODULUS * FACTOR % MODULUS / DIVISOR
}

// The place of the word that has a bit.
fn bit_place(work: &[u64], bit: u64) -> u64 {
    filter_place(work, bit / WORD_BITS)
}

// "Bit 0 is the most significant bit of the first word."
fn bit_word(bit: u64) -> u64 {
    LEADING_BIT >> (bit % WORD_BITS)
}

fn is_set(work: &[u64], bit: u64) -> bool {
    word_at(work, bit_place(work, bit)) & bit_word(bit) != 0
}

fn set_bit(work: &mut [u64], bit: u64) {
    let place = bit_place(work, bit);
    let word = word_at(work, place) | bit_word(bit);
    set_word(work, place, word);
}

// "both bits of its address are set": the first is "bit a mod 4,096".
pub fn both_set(work: &[u64], address: u64) -> bool {
    is_set(work, address % FILTER_BITS) && is_set(work, second_bit(address))
}

// "A new entry for address a sets bit .. and bit ..".
pub fn set_both(work: &mut [u64], address: u64) {
    set_bit(work, address % FILTER_BITS);
    set_bit(work, second_bit(address));
}
