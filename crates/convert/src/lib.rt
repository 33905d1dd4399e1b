// Converts a board in the layout that it had while epochs were numbers of 24 bits: its lines, as its log says that they
// were in the persisted epoch, to a second memory in today's layout.
#![tactic(auto)]

mod old;

ghost use Rattle.std.specs.Prelude.{◌^◌, ◌<◌, length, ◌≡◌};
ghost use Rattle.board.specs.Stores.{applied};
ghost use Rattle.layout.specs.Limits.{epoch_bits};
ghost use Rattle.undo.specs.Entries.{proper_entry};
ghost use Rattle.undo.specs.Recovery.{restore_stores, restore_all};
ghost use Rattle.convert.specs.Old.{old_range, old_log_in, recovered_lines};
ghost use Rattle.convert.specs.Convert.{convertible, head_of, converted, conversion, Converts};
ghost use Rattle.convert.specs.Promises.{Readable, EntryRead, entries_checked, Recoverable, EntryReady, HeadReady, FillReady, Fills};

use checks::Refusal;
use layout::{BOARD_VERSION, CONTROL_AT, Control, LOG_AT, MOST_AHEAD, SHAPE_AT, Shape};
use old::{OLD_LAST_EPOCH, OLD_VERSION, OldControl, OldEntry};
use picl::Report;
use status::Status;
use undo::LogState;

// 1, of an old board of so many words as are given and a second memory of so many words. Boards of the same sizes have
// as many words in both layouts.
fn is_convertible(given: usize, words: usize, shape: Shape, control: Control) -> bool
    ensures { result ≡ convertible given words shape control }
{
    if shape.version != OLD_VERSION {
        return false;
    }
    if !checks::is_good_sizes(words, shape.lines, shape.entries) {
        return false;
    }
    if given != words {
        return false;
    }
    if control.persisted == OLD_LAST_EPOCH {
        return false;
    }
    if control.start >= shape.entries {
        return false;
    }
    control.length <= shape.entries
}

// Whether an entry is proper, the next older one ending with the epoch older. Power-up tests entries as today's words have
// them, before it takes them apart, which is faster: a trait over both words would have more laws than this has tests.
fn is_proper(entry: OldEntry, lines: u64, persisted: u64, older: u64) -> bool
    requires { persisted < 2 ^ epoch_bits }
    ensures { result ≡ proper_entry lines persisted older (old_range entry) }
{
    if entry.till <= persisted {
        return false;
    }
    if entry.address >= lines {
        return false;
    }
    if entry.from >= entry.till {
        return false;
    }
    if entry.till < older {
        return false;
    }
    entry.till <= persisted + MOST_AHEAD
}

// A loop: copy_from_slice becomes a call of memcpy, by which a conversion takes 1.06 of the hand-written one's instructions
// in place of 0.53. By number: behind a zip a proof knows nothing of what was written.
fn copy(to: &mut [u64], from: &[u64])
    requires { length to.old ≡ length from.now }
    ensures { to.new ≡ from.now }
{
    for (i, word) in from.iter().enumerate() {
        to[i] = *word;
    }
}

// A board in the old layout that passes 1: its words, what they say of the log, and the number of its lines.
#[derive(Clone, Copy)]
struct OldBoard<'a> {
    words: &'a [u64],
    undo: LogState,
    lines: u64,
}

impl OldBoard<'_> {
    // Entry i of the log, the oldest counted 0, and the old data behind its word.
    fn entry(self, i: u64) -> (OldEntry, u64)
        requires readable { Readable self.words.now self.undo }
        requires in_log { i < self.undo.control.length }
        ensures { EntryRead self.entry.words.now self.entry.undo i result.0 result.1 }
    {
        let at = LOG_AT + undo::place(self.undo, i);
        (OldEntry::from(self.words[at]), self.words[at + 1])
    }

    // 3, for the first improper entry. The loop goes over numbers: entries are apart where the ring ends, and a refusal has the number.
    fn check_entries(self) -> Result<(), Refusal>
        requires { Readable self.words.now self.undo }
        ensures { result ≡ entries_checked (old_log_in self.entry.words.now self.entry.undo) self.entry.lines }
    {
        let mut older: u64 = 0;
        for i in 0..self.undo.control.length {
            let (entry, _) = self.entry(i);
            if !is_proper(entry, self.lines, self.undo.control.persisted, older) {
                return Err(Refusal {
                    status: Status::Entry,
                    value: i,
                });
            }
            older = entry.till;
        }
        Ok(())
    }

    // The old data of entry i to its line, if it covers the persisted epoch. The log is proper: no entry ends at that
    // epoch or before it.
    fn restore_entry(self, lines: &mut [u64], i: u64)
        requires { EntryReady self.words.now self.undo (length lines.old) i }
        ensures { lines.new ≡ applied lines.old (restore_stores (old_log_in self.entry.words.now self.entry.undo) 0 i) }
    {
        let (entry, old) = self.entry(i);
        if entry.from <= self.undo.control.persisted {
            lines[entry.address as usize] = old;
        }
    }

    // From the newest entry to the oldest, so that a line gets the data of its oldest covering entry. By their numbers, as above.
    fn restore(self, lines: &mut [u64])
        requires { Recoverable self.words.now self.undo (length lines.old) }
        ensures { lines.new ≡ applied lines.old (restore_all (old_log_in self.entry.words.now self.entry.undo) 0) }
    {
        for i in (0..self.undo.control.length).rev() {
            self.restore_entry(lines, i);
        }
    }

    // The lines of the old board as of the persisted epoch, to the lines of the second memory: the old board is left as it
    // is.
    fn put_lines(self, lines: &mut [u64])
        requires { Recoverable self.words.now self.undo (length lines.old) }
        ensures { lines.new ≡ recovered_lines self.entry.words.now self.entry.undo }
    {
        let first_line = layout::lines_at(self.undo.entries);
        copy(lines, &self.words[first_line..]);
        self.restore(lines);
    }

    // What stands before the lines, with an empty log.
    fn put_head(self, head: &mut [u64])
        requires { HeadReady head.old self.undo.control self.lines self.undo.entries }
        ensures { head.new ≡ head_of self.entry.undo.control self.entry.lines self.entry.undo.entries }
    {
        head.fill(0);
        let emptied = Control {
            persisted: self.undo.control.persisted,
            start: 0,
            length: 0,
        };
        head[CONTROL_AT] = emptied.encode();
        let shape = Shape {
            version: BOARD_VERSION,
            lines: self.lines,
            entries: self.undo.entries,
        };
        head[SHAPE_AT] = shape.encode();
    }

    fn fill(self, board: &mut [u64])
        requires { FillReady board.old self.words.now self.undo self.lines }
        ensures { board.new ≡ converted self.entry.words.now self.entry.undo self.entry.lines }
    {
        let first_line = layout::lines_at(self.undo.entries);
        self.put_head(&mut board[..first_line]);
        self.put_lines(&mut board[first_line..]);
    }
}

// 1, then 3, then the second memory is filled.
fn try_convert(old: &[u64], board: &mut [u64]) -> Result<(), Refusal>
    ensures { Fills board.old (conversion old.now (length board.old)) board.new result }
{
    let shape_refused = Refusal::from(Status::Shape);
    if old.len() < LOG_AT {
        return Err(shape_refused);
    }
    let control = Control::from(OldControl(old[CONTROL_AT]));
    let shape = Shape::from(old[SHAPE_AT]);
    if !is_convertible(old.len(), board.len(), shape, control) {
        return Err(shape_refused);
    }
    let old_board = OldBoard {
        words: old,
        undo: LogState {
            control,
            entries: shape.entries,
            buffered: 0,
        },
        lines: shape.lines,
    };
    old_board.check_entries()?;
    old_board.fill(board);
    Ok(())
}

// The old board is read only; the second memory is as it was where the answer is a refusal.
pub fn convert(old: &[u64], board: &mut [u64]) -> Report
    ensures { Converts board.old (conversion old.now (length board.old)) board.new result }
{
    match try_convert(old, board) {
        Ok(()) => Report::unstored(Status::Ok, 0),
        Err(refusal) => Report::from(refusal),
    }
}
