// Recovery: the lines as the log's entries say that they were in the persisted epoch.
ghost use Rattle.std.specs.Prelude.{◌^◌, ◌<◌, length};
ghost use Rattle.board.specs.Stores.{Ran, each};
ghost use Rattle.layout.specs.Limits.{epoch_bits};
ghost use Rattle.layout.specs.Memory.{lines_at};
ghost use Rattle.layout.specs.Words.{decode_entry};
ghost use Rattle.undo.specs.Recovery.{restore_all};
ghost use Rattle.undo.specs.Log.{log_in, recover_stores};
ghost use Rattle.undo.specs.Promises.{RecoverReady};
ghost use Rattle.undo.specs.Stretches.{restore_line, restore_back, AllNamed};

use crate::{LogState, stretches};
use board::Meter;
use layout::{CONTROL_AT, Control, ENTRY_WORDS, Entry};

// The old data of an entry to its line, if it covers the persisted epoch. The log is proper: no entry ends at that epoch or before it.
fn restore_entry(lines: &mut [u64], persisted: u64, word: u64, old: u64, meter: Meter) -> Meter
    requires persisted_bound { persisted < 2 ^ epoch_bits }
    requires named { (decode_entry word).address < length lines.old }
    ensures { Ran lines.old meter (restore_line persisted (decode_entry word) old) lines.new result }
{
    let entry = Entry::from(word);
    if entry.till > persisted + entry.span {
        return meter;
    }
    board::put(lines, entry.address as usize, old, meter)
}

// The lines of entries, from the newest to the oldest.
fn restore_in(
    lines: &mut [u64],
    persisted: u64,
    entries: &[[u64; ENTRY_WORDS]],
    meter: Meter,
) -> Meter
    requires persisted_bound { persisted < 2 ^ epoch_bits }
    requires named { AllNamed entries.now (length lines.old) }
    ensures { Ran lines.old meter (each (restore_back persisted entries.now) (length entries.now)) lines.new result }
{
    let mut last = meter;
    for &[word, old] in entries.iter().rev() {
        last = restore_entry(lines, persisted, word, old, last);
    }
    last
}

// From the newest entry to the oldest, so that a line gets the data of its oldest covering entry.
fn restore(board: &mut [u64], undo: LogState, lines: u64, meter: Meter) -> Meter
    requires { RecoverReady board.old undo lines }
    ensures { Ran board.old meter (restore_all (log_in board.old undo) (lines_at undo.entries)) board.new result }
{
    let (head, lines) = board.split_at_mut(layout::lines_at(undo.entries));
    let (older, newer) = stretches(head, undo);
    let persisted = undo.control.persisted;
    let newer_restored = restore_in(lines, persisted, newer, meter);
    restore_in(lines, persisted, older, newer_restored)
}

// The lines as of the persisted epoch, and only then an empty log.
pub fn recover(board: &mut [u64], undo: LogState, lines: u64, meter: Meter) -> Meter
    requires { RecoverReady board.old undo lines }
    ensures { Ran board.old meter (recover_stores board.old undo) board.new result }
{
    let restored = restore(board, undo, lines, meter);
    let control = Control {
        persisted: undo.control.persisted,
        start: 0,
        length: 0,
    };
    board::put(board, CONTROL_AT, control.encode(), restored)
}
