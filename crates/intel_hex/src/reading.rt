// Reads a record's text. What is the same in every record of a kind is compared as characters, and the rest as the digits that they are.
ghost use Rattle.std.specs.Prelude.{◌≡◌, ◌+◌, ◌*◌, ◌≤◌, true, [], ◌∷◌, length, take, drop, ◌==◌};
ghost use Rattle.std.specs.List.{list_all};
ghost use Rattle.std.proofs.lemmas.List.Edits.{sets};
ghost use Rattle.layout.specs.Bytes.{bytes_of_word};
ghost use Rattle.intel_hex.specs.Records.{byte_digits, digits_of, address_bytes, data_type, record_bytes, end_text};
ghost use Rattle.intel_hex.specs.Import.{in_capitals, same};
ghost use Rattle.intel_hex.specs.Promises.{text_bytes, Decides, Framed, has_lines, count_for, LineCount, all_read, with_place, gathered, ReadsLines, address_from, zero_digit, ReadsBank};

use crate::digits::{BYTE_DIGITS, read_bytes, read_values};
use crate::record;
use crate::record::{
    ADDRESS_AT, ADDRESS_BYTES, BANK_TYPE, COUNT_AT, DATA_AT, END_BYTES, LINE_FEED, MOST_DATA,
    MOST_TEXT, TAIL_BYTES, TYPE_AT,
};
use layout::BYTES_OF_WORD;

// The bytes of a text with one line, and of a bank's opener.
pub const LINE_TEXT: usize = DATA_AT + BYTE_DIGITS * BYTES_OF_WORD + TAIL_BYTES;

pub const BANK_TEXT: usize = DATA_AT + BYTE_DIGITS * ADDRESS_BYTES + TAIL_BYTES;

// How many bytes of data a text of lines has.
pub fn count_of(bytes: usize) -> usize
    requires { has_lines bytes ≡ true }
    ensures { LineCount bytes result }
{
    (bytes - END_BYTES) / BYTE_DIGITS
}

// Whether a text begins and ends as a record does, and has these digits for the count and the type. Byte by byte, as
// Framed has it: slices would be compared in three places, each to be taken apart again.
fn is_framed(text: &[u8], count: [u8; BYTE_DIGITS], kind: [u8; BYTE_DIGITS]) -> bool
    requires { text_bytes 0 ≤ length text.now }
    ensures { Decides (Framed text.now count kind) result }
{
    if text[0] != b':' {
        return false;
    }
    if text[COUNT_AT] != count[0] {
        return false;
    }
    if text[COUNT_AT + 1] != count[1] {
        return false;
    }
    if text[TYPE_AT] != kind[0] {
        return false;
    }
    if text[TYPE_AT + 1] != kind[1] {
        return false;
    }
    text[text.len() - 1] == LINE_FEED
}

// Lines are of type 00, and have 16 bytes or 8.
fn has_lines_framed(text: &[u8]) -> bool
    requires { has_lines (length text.now) ≡ true }
    ensures { Decides (Framed text.now (digits_of (count_for (length text.now) ∷ [])) (digits_of (data_type ∷ []))) result }
{
    if text.len() == MOST_TEXT {
        return is_framed(text, *b"10", *b"00");
    }
    is_framed(text, *b"08", *b"00")
}

// What is read of a record of lines: the digits of its data, of its address and of its last byte. Zeros fill up the place of a second line, and what
// is left behind the last byte: vector instructions take sixteen characters at a time.
const LINE_DIGITS: usize = BYTE_DIGITS * BYTES_OF_WORD;

const SECOND_AT: usize = DATA_AT + LINE_DIGITS;

const DATA_DIGITS: usize = BYTE_DIGITS * MOST_DATA;

const ADDRESS_DIGITS: usize = BYTE_DIGITS * ADDRESS_BYTES;

const CHECK_AT: usize = DATA_DIGITS + ADDRESS_DIGITS;

const CHECK_END: usize = CHECK_AT + BYTE_DIGITS;

const ALL_DIGITS: usize = DATA_DIGITS + LINE_DIGITS;

fn with_digits(digits: [u8; ALL_DIGITS], at: usize, more: &[u8]) -> [u8; ALL_DIGITS]
    requires { at + length more.now ≤ all_read }
    ensures { result ≡ sets digits at more.now }
{
    let mut all = digits;
    all[at..at + more.len()].copy_from_slice(more);
    all
}

fn with_place(digits: [u8; ALL_DIGITS], text: &[u8]) -> [u8; ALL_DIGITS]
    requires { text_bytes bytes_of_word ≤ length text.now }
    ensures { result ≡ with_place digits text.now }
{
    let placed = with_digits(digits, DATA_DIGITS, &text[ADDRESS_AT..TYPE_AT]);
    let tail = text.len() - TAIL_BYTES;
    with_digits(placed, CHECK_AT, &text[tail..tail + BYTE_DIGITS])
}

fn digits_of(text: &[u8]) -> [u8; ALL_DIGITS]
    requires { text_bytes bytes_of_word ≤ length text.now }
    ensures { result ≡ gathered text.now }
{
    let none = [b'0'; ALL_DIGITS];
    let one = with_digits(none, 0, &text[DATA_AT..SECOND_AT]);
    if text.len() != MOST_TEXT {
        return with_place(one, text);
    }
    let two = with_digits(one, LINE_DIGITS, &text[SECOND_AT..SECOND_AT + LINE_DIGITS]);
    with_place(two, text)
}

// The address, and the last byte behind it.
const PLACE_BYTES: usize = ADDRESS_BYTES + 1;

// The data of a record of lines. Answers where it belongs, if the text is such a record. The data go to a lent array: read_bytes fills a slice,
// and in the answer they would be moved once more.
pub fn read_lines(held: &mut [u8], text: &[u8]) -> Option<u64>
    requires text_value { has_lines (length text.now) ≡ true }
    requires held_len { length held.old ≡ record_bytes }
    ensures { ReadsLines text.now held.new result }
{
    if !has_lines_framed(text) {
        return None;
    }
    let digits = digits_of(text);
    let mut values = [0; ALL_DIGITS];
    if !read_values(&mut values, &digits) {
        return None;
    }
    let data = read_bytes(held, &values[0..DATA_DIGITS]);
    let mut place = [0; PLACE_BYTES];
    let rest = read_bytes(&mut place, &values[DATA_DIGITS..CHECK_END]);
    let count = count_of(text.len());
    if data.wrapping_add(rest).wrapping_add(count as u8) != 0 {
        return None;
    }
    Some(u16::from_be_bytes([place[0], place[1]]) as u64)
}

// The digits of its data and of its last byte stand behind each other.
const OPENER_DIGITS: usize = BYTE_DIGITS * PLACE_BYTES;

// Its address is always the same.
fn is_zero_address(text: &[u8]) -> bool
    requires { text_bytes 0 ≤ length text.now }
    ensures { result ≡ list_all (λ d. d == zero_digit) (take (byte_digits * address_bytes) (drop address_from text.now)) }
{
    text[ADDRESS_AT..TYPE_AT].iter().all(|digit| *digit == b'0')
}

// The sum of the bytes that are always the same.
const OPENER_SUM: u8 = ADDRESS_BYTES as u8 + BANK_TYPE;

// The bank that a record opens, if it is one of type 04: its two bytes are the upper address.
pub fn read_bank(text: &[u8]) -> Option<u64>
    requires { length text.now ≡ text_bytes address_bytes }
    ensures { ReadsBank text.now result }
{
    if !is_framed(text, *b"02", *b"04") {
        return None;
    }
    if !is_zero_address(text) {
        return None;
    }
    let mut values = [0; OPENER_DIGITS];
    if !read_values(&mut values, &text[DATA_AT..BANK_TEXT - 1]) {
        return None;
    }
    let mut bytes = [0; PLACE_BYTES];
    let sum = read_bytes(&mut bytes, &values);
    if sum.wrapping_add(OPENER_SUM) != 0 {
        return None;
    }
    Some(u16::from_be_bytes([bytes[0], bytes[1]]) as u64)
}

// "the file closes with `:00000001FF`", with its digits in either case.
pub fn is_end(text: &[u8]) -> bool
    ensures { result ≡ same (in_capitals text.now) end_text }
{
    text.eq_ignore_ascii_case(&record::end_text())
}
