// Writes a record at the start of a text.
ghost use Rattle.std.specs.Prelude.{◌≡◌, ◌+◌, ◌*◌, ◌<◌, ◌≤◌, [], ◌∷◌, ◌++◌, length, drop};
ghost use Rattle.std.proofs.lemmas.List.Edits.{sets};
ghost use Rattle.layout.specs.Bytes.{bytes_of_word};
ghost use Rattle.intel_hex.specs.Records.{digits_of, line_feed, two_bytes, record_text, bank_text, data_text, end_text, record_bytes};
ghost use Rattle.intel_hex.specs.Places.{pair_bytes};
ghost use Rattle.intel_hex.specs.Export.{most_text};
ghost use Rattle.intel_hex.specs.Promises.{data_at, tail_bytes, text_bytes, PutsHead, Puts};

use crate::digits::{BYTE_DIGITS, put_byte, put_bytes};
use crate::record;
use crate::record::{
    ADDRESS_AT, ADDRESS_BYTES, BANK_TYPE, COUNT_AT, DATA_AT, DATA_TYPE, END_BYTES, LINE_FEED,
    MOST_DATA, TAIL_BYTES,
};
use layout::BYTES_OF_WORD;

// The two lowest bytes of a number.
fn two_bytes(n: u64) -> [u8; ADDRESS_BYTES]
    ensures { result ≡ two_bytes n }
{
    let [.., high, low] = n.to_be_bytes();
    [high, low]
}

// What stands before the data. Answers the sum of it.
fn put_head(text: &mut [u8], count: u8, address: u64, kind: u8) -> u8
    requires { data_at ≤ length text.old }
    ensures { PutsHead count address kind text.old text.new result }
{
    text[0] = b':';
    put_byte(text, COUNT_AT, count);
    let [high, low] = two_bytes(address);
    let sum = put_bytes(text, ADDRESS_AT, &[high, low, kind]);
    count.wrapping_add(sum)
}

fn put_tail(text: &mut [u8], at: usize, check: u8)
    requires { at + tail_bytes ≤ length text.old }
    ensures { text.new ≡ sets text.old at (digits_of (check ∷ []) ++ (line_feed ∷ [])) }
{
    put_byte(text, at, check);
    text[at + BYTE_DIGITS] = LINE_FEED;
}

// Answers how many bytes the record has. The data are put first: behind them nothing but their sum has to be kept at hand.
// The last byte is by `std::num`'s subtraction, whose clause says that it and the others come to 0.
fn put(text: &mut [u8], address: u64, kind: u8, held: &[u8]) -> usize
    requires held_len_bound { length held.now ≤ record_bytes }
    requires held_in_bounds { text_bytes (length held.now) ≤ length text.old }
    ensures { Puts (record_text address kind held.now) text.old text.new result }
{
    let sum = put_bytes(text, DATA_AT, held);
    let head = put_head(text, held.len() as u8, address, kind);
    let end = DATA_AT + BYTE_DIGITS * held.len();
    let check = std::num::wrapping_sub_u8(0, head.wrapping_add(sum));
    put_tail(text, end, check);
    end + TAIL_BYTES
}

// The bytes of a line, and of the next one where there is one, gathered in an array, since there is no heap for them.
fn gather<'a>(into: &'a mut [u8], lines: &[u64], first: usize) -> &'a [u8]
    requires first_in_bounds { first < length lines.now }
    requires record_bytes_in_bounds { record_bytes ≤ length into.old }
    ensures { result.now ≡ pair_bytes (drop first lines.now) }
{
    into[..BYTES_OF_WORD].copy_from_slice(&layout::bytes_of(lines[first]));
    if first + 1 == lines.len() {
        return &into[..BYTES_OF_WORD];
    }
    into[BYTES_OF_WORD..MOST_DATA].copy_from_slice(&layout::bytes_of(lines[first + 1]));
    &into[..MOST_DATA]
}

// A text stays a slice: what is written to an array of its first bytes would have to be told of the whole text again.
pub fn put_lines(text: &mut [u8], lines: &[u64], first: usize) -> usize
    requires first_in_bounds { first < length lines.now }
    requires most_text_in_bounds { most_text ≤ length text.old }
    ensures { Puts (data_text (bytes_of_word * first) (pair_bytes (drop first lines.now))) text.old text.new result }
{
    let mut data = [0; MOST_DATA];
    let held = gather(&mut data, lines, first);
    put(text, BYTES_OF_WORD as u64 * first as u64, DATA_TYPE, held)
}

pub fn put_bank(text: &mut [u8], bank: u64) -> usize
    requires { most_text ≤ length text.old }
    ensures { Puts (bank_text bank) text.old text.new result }
{
    let data = two_bytes(bank);
    put(text, 0, BANK_TYPE, &data)
}

pub fn put_end(text: &mut [u8]) -> usize
    requires { most_text ≤ length text.old }
    ensures { Puts end_text text.old text.new result }
{
    let end = record::end_text();
    text[..END_BYTES].copy_from_slice(&end);
    end.len()
}
