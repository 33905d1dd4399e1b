// Takes the record that a text is: lines of the board, the upper address or the end.
ghost use Rattle.std.specs.Prelude.{Ok, ◌≡◌, ◌+◌, ◌*◌, ◌/◌, ◌<◌, ◌≤◌, true, length};
ghost use Rattle.std.proofs.lemmas.List.Edits.{sets};
ghost use Rattle.layout.specs.ByteWords.{words_of};
ghost use Rattle.layout.specs.Bytes.{bytes_of_word};
ghost use Rattle.layout.specs.Limits.{most_lines};
ghost use Rattle.checks.specs.Refusals.{board_checked};
ghost use Rattle.checks.specs.Promises.{Opened};
ghost use Rattle.intel_hex.specs.Records.{address_bytes, bank_bytes, record_bytes};
ghost use Rattle.intel_hex.specs.Import.{is_past, Imports};
ghost use Rattle.intel_hex.specs.Promises.{text_bytes, has_lines, taken_from, taken_by, line_from, Inside, Ready, ShortText};

use crate::reading::{BANK_TEXT, LINE_TEXT, count_of, is_end, read_bank, read_lines};
use crate::record::{MOST_DATA, MOST_TEXT};
use crate::{Reader, Taken};
use checks::{Refusal, View};
use layout::BYTES_OF_WORD;
use picl::Report;
use status::Status;

// How many bytes a bank has, and how many banks the largest board.
const BANK_BYTES: u64 = 65536;

const BANKS: u64 = 8;

const LINE_BYTES: u64 = BYTES_OF_WORD as u64;

// 20, of so many bytes from a place of a bank on. Banks behind the largest board's are not counted: their places may have more than 64 bits.
fn is_outside(lines: u64, upper: u64, from: u64, count: u64) -> bool
    requires lines_le_most_lines { lines ≤ most_lines }
    requires from_le_bank_bytes { from ≤ bank_bytes }
    requires le_count { 1 ≤ count }
    requires count_le_record_bytes { count ≤ record_bytes }
    ensures { result ≡ is_past lines upper from count }
{
    if from % LINE_BYTES != 0 {
        return true;
    }
    if from + count > BANK_BYTES {
        return true;
    }
    if upper >= BANKS {
        return true;
    }
    BANK_BYTES * upper + from + count > LINE_BYTES * lines
}

fn put_words(board: &mut [u64], at: usize, held: &[u8])
    requires bytes_of_word_in_bounds { at + length held.now / bytes_of_word ≤ length board.old }
    requires held_len { length held.now ≡ bytes_of_word * (length held.now / bytes_of_word) }
    ensures { board.new ≡ sets board.old at (words_of held.now) }
{
    let end = at + held.len() / BYTES_OF_WORD;
    layout::read_words(&mut board[at..end], held);
}

fn put_lines(board: &mut [u64], upper: u64, from: u64, held: &[u8], view: View)
    requires { Inside board.old upper from (length held.now) view }
    ensures { board.new ≡ sets board.old (line_from view upper from) (words_of held.now) }
{
    let line = (BANK_BYTES * upper + from) / LINE_BYTES;
    put_words(
        board,
        layout::lines_at(view.shape.entries) + line as usize,
        held,
    );
}

fn has_lines(bytes: usize) -> bool
    ensures { result ≡ has_lines bytes }
{
    if bytes == MOST_TEXT {
        return true;
    }
    bytes == LINE_TEXT
}

// A record that is offered to a board that passes 1: the reader, the record's text, and what the board's test has read. Ready stays a clause: it
// is a fact on the board too, which each function is lent anew.
#[derive(Clone, Copy)]
struct Offer<'a> {
    reader: Reader,
    text: &'a [u8],
    view: View,
}

impl Offer<'_> {
    fn take_lines(self, board: &mut [u64]) -> Result<Reader, Status>
        requires ready { Ready board.old self.reader self.view }
        requires text_value { has_lines (length self.text.now) ≡ true }
        ensures { Imports board.old self.entry.reader self.entry.text.now board.new (taken_from self.entry.reader result) }
    {
        let mut held = [0; MOST_DATA];
        let Some(from) = read_lines(&mut held, self.text) else {
            return Err(Status::Record);
        };
        let count = count_of(self.text.len());
        if is_outside(self.view.shape.lines, self.reader.upper, from, count as u64) {
            return Err(Status::Outside);
        }
        put_lines(board, self.reader.upper, from, &held[..count], self.view);
        Ok(self.reader)
    }

    fn take_bank(self, board: &[u64]) -> Result<Reader, Status>
        requires ready { Ready board.now self.reader self.view }
        requires text_len { length self.text.now ≡ text_bytes address_bytes }
        ensures { Imports board.now self.entry.reader self.entry.text.now board.now (taken_from self.entry.reader result) }
    {
        let Some(upper) = read_bank(self.text) else {
            return Err(Status::Record);
        };
        Ok(Reader {
            upper,
            ended: false,
        })
    }

    fn take_end(self, board: &[u64]) -> Result<Reader, Status>
        requires ready { Ready board.now self.reader self.view }
        requires short_text { ShortText (length self.text.now) }
        ensures { Imports board.now self.entry.reader self.entry.text.now board.now (taken_from self.entry.reader result) }
    {
        if !is_end(self.text) {
            return Err(Status::Record);
        }
        Ok(Reader {
            ended: true,
            ..self.reader
        })
    }

    // The records without lines, whose texts are shorter.
    fn take_short(self, board: &[u64]) -> Result<Reader, Status>
        requires ready { Ready board.now self.reader self.view }
        requires text_len_bound { length self.text.now < text_bytes bytes_of_word }
        ensures { Imports board.now self.entry.reader self.entry.text.now board.now (taken_from self.entry.reader result) }
    {
        if self.text.len() == BANK_TEXT {
            return self.take_bank(board);
        }
        self.take_end(board)
    }

    // 1, 18 and the end have passed.
    fn take_text(self, board: &mut [u64]) -> Result<Reader, Status>
        requires { Ready board.old self.reader self.view }
        ensures { Imports board.old self.entry.reader self.entry.text.now board.new (taken_from self.entry.reader result) }
    {
        if self.text.len() < LINE_TEXT {
            return self.take_short(board);
        }
        if !has_lines(self.text.len()) {
            return Err(Status::Record);
        }
        self.take_lines(board)
    }

    // 1 has passed.
    fn take(self, board: &mut [u64]) -> Result<Reader, Status>
        requires view_value { Ok self.view ≡ board_checked board.old }
        requires opened { Opened board.old self.view }
        ensures { Imports board.old self.entry.reader self.entry.text.now board.new (taken_from self.entry.reader result) }
    {
        if self.view.control.length != 0 {
            return Err(Status::LogHeld);
        }
        if self.reader.ended {
            return Err(Status::Record);
        }
        self.take_text(board)
    }
}

// 1, and then the record.
fn take(board: &mut [u64], reader: Reader, text: &[u8]) -> Result<Reader, Refusal>
    ensures { Imports board.old reader text.now board.new (taken_by reader result) }
{
    let view = checks::check_board(board)?;
    let offer = Offer { reader, text, view };
    Ok(offer.take(board)?)
}

// A text is one record and its line feed. What is refused leaves the board and the reader as they were.
pub fn take_record(board: &mut [u64], reader: Reader, text: &[u8]) -> Taken
    ensures { Imports board.old reader text.now board.new result }
{
    match take(board, reader, text) {
        Ok(next) => Taken {
            report: Report::unstored(Status::Ok, 0),
            reader: next,
        },
        Err(refusal) => Taken {
            report: Report::from(refusal),
            reader,
        },
    }
}
