// Lines on their way between the slots and the board.
ghost use Rattle.std.specs.Prelude.{◌+◌, ◌*◌, ◌≡◌};
ghost use Rattle.layout.specs.Memory.{slot_in};
ghost use Rattle.layout.specs.Words.{Decoded, SlotFits};
ghost use Rattle.slots.specs.Slots.{filled};
ghost use Rattle.steps.specs.Effects.{flushing_if, writing_out, writing_back, emptying, line_in};
ghost use Rattle.steps.specs.Promises.{Acts, Ready, LineReady, SlotReady, PlaceReady};

use layout::{SLOT_WORDS, Slot};
use undo::{LogState, Progress};

// The buffer to the log, where that is due.
pub fn flush_if(due: bool, board: &mut [u64], work: &mut [u64], progress: Progress) -> Progress
    requires { Ready board.old work.old progress.undo }
    ensures { Acts board.old progress.meter (flushing_if due progress.undo work.old) board.new work.new result }
{
    if !due {
        return progress;
    }
    let at = layout::buffer_at(work.len());
    undo::flush(board, &mut work[at..], progress)
}

// A line to the board: its old data must be in the log before that.
pub fn write_out(
    board: &mut [u64],
    work: &mut [u64],
    progress: Progress,
    address: u64,
    value: u64,
) -> Progress
    requires { LineReady board.old work.old progress.undo address }
    ensures { Acts board.old progress.meter (writing_out progress.undo work.old address value) board.new work.new result }
{
    let at = layout::buffer_at(work.len());
    let due = undo::is_hit(&work[at..], progress.undo.buffered, address);
    let flushed = flush_if(due, board, work, progress);
    let first_line = layout::lines_at(progress.undo.entries);
    let meter = board::put(
        &mut board[first_line..],
        address as usize,
        value,
        flushed.meter,
    );
    Progress { meter, ..flushed }
}

// A dirty line of slot k, which the caller has decoded, to the board; a clean or an empty slot costs nothing. The slot's words stay.
pub fn write_back(
    board: &mut [u64],
    work: &mut [u64],
    progress: Progress,
    k: usize,
    slot: Slot,
) -> Progress
    requires slot_ready { SlotReady board.old work.old progress.undo k }
    requires decoded { Decoded SlotFits (slot_in work.old k) slot }
    ensures { Acts board.old progress.meter (writing_back progress.undo work.old k) board.new work.new result }
{
    if !slot.dirty {
        return progress;
    }
    let value = work[SLOT_WORDS * k + 1];
    write_out(board, work, progress, slot.address, value)
}

// An empty slot, its line written out before if it was dirty.
pub fn empty(board: &mut [u64], work: &mut [u64], progress: Progress, k: usize) -> Progress
    requires { SlotReady board.old work.old progress.undo k }
    ensures { Acts board.old progress.meter (emptying progress.undo work.old k) board.new work.new result }
{
    let slot = slots::slot_at(work, k);
    let left = write_back(board, work, progress, k, slot);
    base::set_pair(work, SLOT_WORDS * k, 0, 0);
    left
}

// The line at an address to slot k, clean, as the board has it.
pub fn fill(board: &[u64], work: &mut [u64], undo: LogState, k: usize, address: u64)
    requires { PlaceReady board.now work.old undo k address }
    ensures { work.new ≡ filled work.old k address (line_in board.now undo address) }
{
    let at = layout::lines_at(undo.entries) + address as usize;
    base::set_pair(work, SLOT_WORDS * k, slots::clean_word(address), board[at]);
}
