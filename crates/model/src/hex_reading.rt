// The reader of Intel HEX records, by document 02's request 10/13, "Intel HEX in", which the comments quote beside
// its request 7/13, "Intel HEX out". The text is read digit by digit into what a record carries, and this is judged.
use crate::answers::{Answer, Refusal};
use crate::layouts::header_of;
use crate::refusals::board_good;
use crate::registers::Registers;
use crate::words::*;

const RADIX: u32 = 16;

const DIGIT_BITS: u32 = 4;

// The digits of a byte, of a record's address, and of a line.
const BYTE_DIGITS: usize = 2;

const ADDRESS_DIGITS: usize = 4;

const LINE_DIGITS: usize = 16;

const BYTE_VALUES: u64 = 256;

const UPPER_BYTES: u64 = 2;

// "line i at byte address 8i"; "Each bank of 65,536 byte addresses", so of 2^13 lines: 65,536 lines are 8 banks.
const LINE_BYTES: u64 = 8;

const TWO_LINES_BYTES: u64 = 16;

const BANK_BYTES: u64 = 65536;

const BANK_LINES_SHIFT: u32 = 13;

const MOST_BANKS: u64 = 8;

// "carries the upper address and whether the end was seen, first 0 and no": both, since the upper address is carried
// behind the end too.
#[derive(Clone, Copy, Default, PartialEq, Eq)]
pub struct Reader {
    pub upper: u64,
    pub ended: bool,
}

// What a well-formed record carries: at a byte address of the bank one line or two, the upper address, or the end.
#[derive(Clone, Copy)]
enum Record {
    Line(u64, u64),
    TwoLines(u64, u64, u64),
    Upper(u64),
    End,
}

// The number that some digits are, "most significant first", "in either case of digits".
fn number_of(digits: &[u8]) -> Option<u64> {
    digits.iter().try_fold(0, |number: u64, &letter| {
        let digit = char::from(letter).to_digit(RADIX)?;
        Some((number << DIGIT_BITS) | u64::from(digit))
    })
}

// "The last byte makes the sum of all bytes in a record 0 modulo 256."
fn sum_good(digits: &[u8]) -> bool {
    let sum = digits.chunks_exact(BYTE_DIGITS).try_fold(
        0,
        |sum: u64, byte| Some(sum.wrapping_add(number_of(byte)?)),
    );
    sum.is_some_and(|sum| sum % BYTE_VALUES == 0)
}

// A record's bytes: the number of its data, an address of two, its type, the data, and the sum's. "type 00 with 8 or 16
// bytes, or types 04 and 01 with address 0000 and 2 or no bytes".
fn carried(digits: &[u8]) -> Option<Record> {
    let (count, rest) = digits.split_at_checked(BYTE_DIGITS)?;
    let (address, rest) = rest.split_at_checked(ADDRESS_DIGITS)?;
    let (record_type, rest) = rest.split_at_checked(BYTE_DIGITS)?;
    let (data, _sum) = rest.split_at_checked(rest.len().checked_sub(BYTE_DIGITS)?)?;
    let count = number_of(count)?;
    if data.len() as u64 != count.wrapping_mul(BYTE_DIGITS as u64) {
        return None;
    }
    let address = number_of(address)?;
    match (record_type, count) {
        (b"00", LINE_BYTES) => Some(Record::Line(address, number_of(data)?)),
        (b"00", TWO_LINES_BYTES) => {
            let (first, second) = data.split_at_checked(LINE_DIGITS)?;
            Some(Record::TwoLines(address, number_of(first)?, number_of(second)?))
        }
        (b"04", UPPER_BYTES) if address == 0 => Some(Record::Upper(number_of(data)?)),
        (b"01", 0) if address == 0 => Some(Record::End),
        _ => None,
    }
}

// "A call's text is one record and its line feed": nothing before it, between or behind. A record is a colon and two
// digits to each byte.
fn record_of(text: &[u8]) -> Option<Record> {
    let digits = text.strip_prefix(b":")?.strip_suffix(b"\n")?;
    if sum_good(digits) {
        carried(digits)
    } else {
        None
    }
}

// The line at an address of the bank that the upper address names.
fn line_at(upper: u64, address: u64) -> u64 {
    (upper << BANK_LINES_SHIFT).wrapping_add(address / LINE_BYTES)
}

// "data not at a multiple of 8, running over its bank or past the last line". An upper address from 8 on is past
// the last line of any board, and past what the shift holds.
fn is_outside(board: &[u64], upper: u64, address: u64, bytes: u64) -> bool {
    let end = address.wrapping_add(bytes);
    address % LINE_BYTES != 0
        || end > BANK_BYTES
        || upper >= MOST_BANKS
        || line_at(upper, end) > header_of::<Today>(board).lines
}

// "19 record, a malformed record, a wrong sum or one after the end; 20 outside ..; after 1 and 18, in this order, and
// it refuses by no other": "18 logheld, log length not 0".
fn judged(board: &[u64], reader: Reader, text: &[u8]) -> Result<Record, Refusal> {
    if !board_good::<Today>(board) {
        return Err(Refusal::Shape);
    }
    if header_of::<Today>(board).length != 0 {
        return Err(Refusal::LogHeld);
    }
    if reader.ended {
        return Err(Refusal::Record);
    }
    let record = record_of(text).ok_or(Refusal::Record)?;
    let outside = match record {
        Record::Line(address, _) => is_outside(board, reader.upper, address, LINE_BYTES),
        Record::TwoLines(address, _, _) => {
            is_outside(board, reader.upper, address, TWO_LINES_BYTES)
        }
        Record::Upper(_) | Record::End => false,
    };
    if outside {
        return Err(Refusal::Outside);
    }
    Ok(record)
}

// The place on the board of the line at an address of a bank.
fn place_of(board: &[u64], upper: u64, address: u64) -> u64 {
    line_place(header_of::<Today>(board).entries, line_at(upper, address))
}

// What a good record does: "Bytes of a line go most significant first": 8 bytes are one line, 16 are two.
fn carry_out(board: &mut [u64], reader: &mut Reader, record: Record) {
    match record {
        Record::Line(address, word) => {
            set_word(board, place_of(board, reader.upper, address), word);
        }
        Record::TwoLines(address, first, second) => {
            let place = place_of(board, reader.upper, address);
            set_word(board, place, first);
            set_word(board, place.wrapping_add(1), second);
        }
        Record::Upper(upper) => reader.upper = upper,
        Record::End => reader.ended = true,
    }
}

// "A reader takes one record a call and carries [its state], unchanged by a refusal." "A record is stored whole or
// not at all." "no allowance, 0 stores reported". It has no registers: those of its answer are zero.
pub fn take_record(board: &mut [u64], reader: &mut Reader, text: &[u8]) -> Answer {
    match judged(board, *reader, text) {
        Ok(record) => {
            carry_out(board, reader, record);
            Answer::ok(0, Registers::default())
        }
        Err(refusal) => Answer::refused(refusal, Registers::default()),
    }
}
