// The lines of a board as an Intel HEX file, one record a call: written into a text that the caller lends, and taken from one.
#![tactic(auto)]

mod digits;
mod reading;
mod record;
mod taking;
mod writing;

ghost use Rattle.std.specs.Prelude.{Ok, ◌≡◌, ◌≤◌, [], slice_index_or};
ghost use Rattle.layout.specs.Limits.{most_lines};
ghost use Rattle.checks.specs.Refusals.{board_checked};
ghost use Rattle.checks.specs.Promises.{Opened};
ghost use Rattle.intel_hex.specs.Records.{records_of};
ghost use Rattle.intel_hex.specs.Places.{last_of};
ghost use Rattle.intel_hex.specs.Export.{Exports};
ghost use Rattle.intel_hex.specs.Promises.{Puts, Numbered, put_from, put_by};

use checks::{Refusal, View};
use picl::Report;
use record::MOST_TEXT;
use status::Status;
pub use taking::take_record;

// What is carried from one record that is taken to the next. It is first 0 and false. Two fields and no enum: C carries two words.
#[derive(Clone, Copy)]
pub struct Reader {
    pub upper: u64,
    pub ended: bool,
}

// What taking a record answers, and the reader for the next.
#[derive(Clone, Copy)]
pub struct Taken {
    pub report: Report,
    pub reader: Reader,
}

const RECORD_LINES: u64 = 2;

const BANK_LINES: u64 = 8192;

// A bank's opener, and its lines, two to a record.
const BANK_RECORDS: u64 = 1 + BANK_LINES / RECORD_LINES;

// The number of the record that closes a file of so many lines. An opener for each bank and a record for each two lines come before it; both are
// rounded up, by one each.
fn last_of(lines: u64) -> u64
    requires le_lines { 1 ≤ lines }
    requires lines_le_most_lines { lines ≤ most_lines }
    ensures { result ≡ last_of lines }
{
    (lines - 1) / BANK_LINES + (lines - 1) / RECORD_LINES + 2
}

// One record of a file. Openers have no lines: those up to the record's bank are not counted.
fn put_numbered(text: &mut [u8], lines: &[u64], number: u64, last: u64) -> usize
    requires { Numbered lines.now text.old number last }
    ensures { Puts (slice_index_or (records_of lines.now) number []) text.old text.new result }
{
    if number == last {
        return writing::put_end(text);
    }
    let bank = number / BANK_RECORDS;
    if number == BANK_RECORDS * bank {
        return writing::put_bank(text, bank);
    }
    let first = RECORD_LINES * (number - bank - 1);
    writing::put_lines(text, lines, first as usize)
}

// 1 has passed: 16, 17 and 18, and then the record.
fn put_shaped(board: &[u64], text: &mut [u8], number: u64, view: View) -> Result<usize, Status>
    requires view_value { Ok view ≡ board_checked board.now }
    requires opened { Opened board.now view }
    ensures { Exports board.now number text.old text.new (put_from result) }
{
    if text.len() < MOST_TEXT {
        return Err(Status::Short);
    }
    let last = last_of(view.shape.lines);
    if number > last {
        return Err(Status::Past);
    }
    if view.control.length != 0 {
        return Err(Status::LogHeld);
    }
    let at = layout::lines_at(view.shape.entries);
    Ok(put_numbered(text, &board[at..], number, last))
}

// How many bytes the record has, once it is put.
fn put(board: &[u64], text: &mut [u8], number: u64) -> Result<usize, Refusal>
    ensures { Exports board.now number text.old text.new (put_by result) }
{
    let view = checks::check_board(board)?;
    Ok(put_shaped(board, text, number, view)?)
}

// The record that has this number in the file of the board's lines, at the start of a text. Its value is how many bytes the record has.
pub fn put_record(board: &[u64], text: &mut [u8], number: u64) -> Report
    ensures { Exports board.now number text.old text.new result }
{
    match put(board, text, number) {
        Ok(bytes) => Report::unstored(Status::Ok, bytes as u64),
        Err(refusal) => Report::from(refusal),
    }
}
