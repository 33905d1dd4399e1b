// A record: a colon, its bytes as digits, a line feed. The bytes: how many of data, where they belong, their type, the data, and one that makes
// the sum of all 0.
ghost use Rattle.std.specs.Prelude.{◌≡◌};
ghost use Rattle.intel_hex.specs.Records.{end_text};

use crate::digits::BYTE_DIGITS;
use layout::BYTES_OF_WORD;

// Where the digits of each begin in the text, and how many bytes stand behind the data.
pub const COUNT_AT: usize = 1;

pub const ADDRESS_AT: usize = COUNT_AT + BYTE_DIGITS;

pub const ADDRESS_BYTES: usize = 2;

pub const TYPE_AT: usize = ADDRESS_AT + BYTE_DIGITS * ADDRESS_BYTES;

pub const DATA_AT: usize = TYPE_AT + BYTE_DIGITS;

pub const TAIL_BYTES: usize = BYTE_DIGITS + 1;

pub const LINE_FEED: u8 = 10;

// The types are numbers and no enum: a type is one of the bytes that are put, and summed up, as they are.
pub const DATA_TYPE: u8 = 0;

pub const BANK_TYPE: u8 = 4;

// Two lines, where there are two.
pub const MOST_DATA: usize = 2 * BYTES_OF_WORD;

// The bytes of a text that has room for every record, and of the last one.
pub const MOST_TEXT: usize = DATA_AT + BYTE_DIGITS * MOST_DATA + TAIL_BYTES;

pub const END_BYTES: usize = DATA_AT + TAIL_BYTES;

pub fn end_text() -> [u8; END_BYTES]
    ensures { result ≡ end_text }
{
    *b":00000001FF\n"
}
