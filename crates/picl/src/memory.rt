// Format, tally and the number of filter bits: each takes no allowance and returns no registers.
ghost use Rattle.std.specs.Prelude.{◌≡◌};
ghost use Rattle.picl.specs.Calls.{tally_report, filter_bits_report};
ghost use Rattle.picl.specs.Promises.{Formats};

use crate::Report;
use checks::Registers;
use layout::{BOARD_VERSION, SHAPE_AT, Shape};
use status::Status;

// A board of so many lines, all zero, with an empty log. It is not protected against a cut.
pub fn format(board: &mut [u64], lines: u64, entries: u64) -> Report
    ensures { Formats board.old lines entries board.new result }
{
    if !checks::is_good_sizes(board.len(), lines, entries) {
        return Report::unstored(Status::Shape, 0);
    }
    base::clear(board);
    let shape = Shape {
        version: BOARD_VERSION,
        lines,
        entries,
    };
    board[SHAPE_AT] = shape.encode();
    Report::unstored(Status::Ok, 0)
}

// The number of bits that are set in the undo buffer's filter.
pub fn filter_bits(work: &[u64]) -> Report
    ensures { result ≡ filter_bits_report work.now }
{
    if !checks::is_good_work(work.len()) {
        return Report::unstored(Status::Work, 0);
    }
    let at = layout::buffer_at(work.len());
    Report::unstored(Status::Ok, undo::bits_set(&work[at..]))
}

// The number of dirty lines that the cache holds.
pub fn tally(board: &[u64], work: &[u64], registers: Registers) -> Report
    ensures { result ≡ tally_report board.now work.now registers }
{
    match checks::check_running(board, work, registers) {
        Err(refusal) => Report::from(refusal),
        Ok(_) => Report::unstored(Status::Ok, registers.dirty),
    }
}
