// The undo log on the board, and the undo buffer before it. Board and log stay two parameters: behind a call that is lent a struct with the board
// in it, its caller no longer knows what the board has.
#![tactic(auto)]

mod filter;
mod recovery;

ghost use Rattle.std.specs.Prelude.{◌+◌, ◌-◌, ◌*◌, ◌^◌, ◌<◌, ◌≤◌, leb, length, ◌&&◌, ◌≡◌};
ghost use Rattle.base.specs.Walk.{first};
ghost use Rattle.board.specs.Stores.{Ran, each};
ghost use Rattle.layout.specs.Limits.{epoch_bits, most_lines, most_entries, buffer_places};
ghost use Rattle.layout.specs.Memory.{log_at, lines_at, buffer_words, entry_words};
ghost use Rattle.layout.specs.Words.{decode_entry};
ghost use Rattle.undo.specs.Entries.{proper_word};
ghost use Rattle.undo.specs.Recovery.{first_improper};
ghost use Rattle.undo.specs.Log.{log_in, Sound, Placed, buffer_proper, buffer_marked};
ghost use Rattle.undo.specs.Log.{DroppedBy, entry_stores, counted, flushed, advance_stores};
ghost use Rattle.undo.specs.Ring.{next_place};
ghost use Rattle.undo.specs.Promises.{Flushes, FlushReady, Pushes, PushReady, AdvanceReady};
ghost use Rattle.undo.specs.Stretches.{Entries, Stretches, in_order, useless_at};

use board::Meter;
pub use filter::{bits_set, is_hit};
use layout::{CONTROL_AT, Control, ENTRY_WORDS, Entry, LOG_AT, MOST_AHEAD};
pub use recovery::recover;

// The undo log as a call carries it: what the control word says, how many entries the ring has place for (the paper's L)
// and how many the buffer holds. `Sound` stays a clause and is no invariant of it: the definitions `counted` and `flushed` make values of any other
// one, sound or not.
#[derive(Clone, Copy)]
pub struct LogState {
    pub control: Control,
    pub entries: u64,
    pub buffered: u64,
}

impl LogState {
    // With one entry more in the buffer.
    fn counted(self) -> LogState
        requires { self.buffered < buffer_places }
        ensures { result ≡ counted self }
    {
        LogState {
            buffered: self.buffered + 1,
            ..self
        }
    }

    // With the buffer flushed.
    fn flushed(self) -> LogState
        requires { Sound self }
        ensures { result ≡ flushed self }
    {
        LogState {
            control: Control {
                length: self.control.length + self.buffered,
                ..self.control
            },
            buffered: 0,
            ..self
        }
    }
}

// Where a storing function has come to.
#[derive(Clone, Copy)]
pub struct Progress {
    pub undo: LogState,
    pub meter: Meter,
}

// Whether an epoch is neither below the least nor above the most. Two comparisons and no contains() of a range, which is lent what it compares.
fn is_between(epoch: u64, least: u64, most: u64) -> bool
    ensures { result ≡ leb least epoch && leb epoch most }
{
    least <= epoch && epoch <= most
}

// Whether the entry with this first word is proper. The persisted epoch and the older entry bound its till from below: least is
// the larger bound. The persisted epoch alone bounds it from above. That lines and epochs are within their limits stays a clause here and below:
// callers have them as numbers of the board and of the registers, and a type of each would be taken apart again in every test.
fn is_proper_word(word: u64, lines: u64, least: u64, most: u64) -> bool
    requires le_lines { 1 ≤ lines }
    requires lines_le_most_lines { lines ≤ most_lines }
    ensures { result ≡ proper_word lines least most (decode_entry word) }
{
    if !layout::is_address_below(word, lines) {
        return false;
    }
    let entry = Entry::from(word);
    if !entry.is_formed() {
        return false;
    }
    is_between(entry.till, least, most)
}

// The first word of entry i, counted from the log's first word.
pub fn place(undo: LogState, i: u64) -> usize
    requires sound { Sound undo }
    requires i_le_entries { i ≤ undo.entries }
    ensures { Placed undo i result }
{
    let turn = undo.control.start + i;
    if turn < undo.entries {
        return ENTRY_WORDS * turn as usize;
    }
    ENTRY_WORDS * (turn - undo.entries) as usize
}

// From an entry's place to that of the next, in a ring of so many words as end says.
fn next(end: usize, at: usize) -> usize
    requires at_lt_end { at < end }
    requires end_bound { end ≤ entry_words * most_entries }
    ensures { result ≡ next_place end at }
{
    if at + ENTRY_WORDS >= end {
        return 0;
    }
    at + ENTRY_WORDS
}

// Words of a memory as entries, so many: the packed word of each, and its old data.
fn entries_in(words: &[u64], count: usize) -> &[[u64; ENTRY_WORDS]]
    requires { entry_words * count ≤ length words.now }
    ensures { Entries words.now count result.now }
{
    let (entries, _) = words.as_chunks::<ENTRY_WORDS>();
    &entries[..count]
}

// The log's entries, oldest first: those before the ring's end, and those from its beginning on.
fn stretches(board: &[u64], undo: LogState) -> (&[[u64; ENTRY_WORDS]], &[[u64; ENTRY_WORDS]])
    requires sound { Sound undo }
    requires entries_in_bounds { lines_at undo.entries ≤ length board.now }
    ensures { Stretches board.now undo result.0.now result.1.now }
{
    let ring = entries_in(&board[LOG_AT..], undo.entries as usize);
    let (turned, straight) = ring.split_at(undo.control.start as usize);
    let length = undo.control.length as usize;
    let older = length.min(straight.len());
    (&straight[..older], &turned[..length - older])
}

// The first improper one of entries that stand behind others in the log, or their number where all are proper. No till among them may be below
// the bound, nor below that of the entry before.
fn improper_in(entries: &[[u64; ENTRY_WORDS]], lines: u64, persisted: u64, bound: u64) -> usize
    requires le_lines { 1 ≤ lines }
    requires lines_le_most_lines { lines ≤ most_lines }
    requires persisted_bound { persisted < 2 ^ epoch_bits }
    ensures { result ≡ first (in_order entries.now lines persisted bound) (length entries.now) }
{
    let most = persisted + MOST_AHEAD;
    let mut least = bound;
    'entries: {
        for (i, &[word, _]) in entries.iter().enumerate() {
            if !is_proper_word(word, lines, least, most) {
                break 'entries i;
            }
            least = Entry::from(word).till;
        }
        entries.len()
    }
}

// The place of the first improper entry of the log, the oldest counted 0, or the log's length where all are proper. The length and no Option: so
// the definition has it, and row 3 of the table compares the two.
pub fn first_improper(board: &[u64], undo: LogState, lines: u64) -> u64
    requires sound { Sound undo }
    requires le_lines { 1 ≤ lines }
    requires lines_le_most_lines { lines ≤ most_lines }
    requires entries_in_bounds { lines_at undo.entries ≤ length board.now }
    ensures { result ≡ first_improper (log_in board.now undo) lines }
{
    let (older, newer) = stretches(board, undo);
    let persisted = undo.control.persisted;
    let found = improper_in(older, lines, persisted, persisted + 1);
    if found < older.len() {
        return found as u64;
    }
    match older.last() {
        None => 0,
        Some(&[word, _]) => {
            let behind = improper_in(newer, lines, persisted, Entry::from(word).till);
            (found + behind) as u64
        }
    }
}

// How many entries are kept once the target is persisted: all but the first ones, which it makes useless. What is left of them is counted, and not
// what has been passed: with a for over places the last step of a pass took 1.2 to 1.3 times as long on x86-64.
fn kept_in(entries: &[[u64; ENTRY_WORDS]], target: u64) -> usize
    requires { target < 2 ^ epoch_bits }
    ensures { result + first (useless_at entries.now target) (length entries.now) ≡ length entries.now }
{
    let mut rest = entries;
    while !rest.is_empty() {
        let [word, _] = rest[0];
        if !layout::is_till_at_most(word, target) {
            return rest.len();
        }
        rest = &rest[1..];
    }
    0
}

// The same of the whole log.
fn kept_by(board: &[u64], undo: LogState, target: u64) -> u64
    requires { AdvanceReady board.now undo target }
    ensures within { result ≤ undo.control.length }
    ensures dropped { DroppedBy board.now undo target (undo.control.length - result) }
{
    let (older, newer) = stretches(board, undo);
    let kept = kept_in(older, target);
    if kept > 0 {
        return (kept + newer.len()) as u64;
    }
    kept_in(newer, target) as u64
}

// How many of the oldest entries no longer matter once the target is persisted.
fn dropped_by(board: &[u64], undo: LogState, target: u64) -> u64
    requires { AdvanceReady board.now undo target }
    ensures { DroppedBy board.now undo target result }
{
    undo.control.length - kept_by(board, undo, target)
}

// Whether the buffered entry with this first word is proper. Not `is_proper_word` at 0 and the epoch, which would take the word apart for a till
// that nothing here asks for.
fn is_buffered_proper(word: u64, lines: u64, epoch: u64) -> bool
    requires le_lines { 1 ≤ lines }
    requires lines_le_most_lines { lines ≤ most_lines }
    requires epoch_bound { epoch < 2 ^ epoch_bits }
    ensures { result ≡ proper_word lines 0 epoch (decode_entry word) }
{
    if !layout::is_address_below(word, lines) {
        return false;
    }
    if !layout::is_till_at_most(word, epoch) {
        return false;
    }
    layout::is_formed_word(word)
}

// Whether the first entries of the buffer, count of them, are proper. A for as in is_buffer_sound, with which it shares the laws of its proof.
pub fn is_buffer_proper(buffer: &[u64], count: usize, lines: u64, epoch: u64) -> bool
    requires count_in_bounds { entry_words * count ≤ length buffer.now }
    requires le_lines { 1 ≤ lines }
    requires lines_le_most_lines { lines ≤ most_lines }
    requires epoch_bound { epoch < 2 ^ epoch_bits }
    ensures { result ≡ buffer_proper buffer.now count lines epoch }
{
    for &[word, _] in entries_in(buffer, count) {
        if !is_buffered_proper(word, lines, epoch) {
            return false;
        }
    }
    true
}

// The same, and whether the filter has both bits of each: in one pass, since every call asks it. A for: with all() here and take_while() in
// `kept_in` the row last-slots of bench/run takes 1.014 of the hand-written instructions.
pub fn is_buffer_sound(buffer: &[u64], count: usize, lines: u64, epoch: u64) -> bool
    requires buffer_len { length buffer.now ≡ buffer_words }
    requires count_le_buffer_places { count ≤ buffer_places }
    requires le_lines { 1 ≤ lines }
    requires lines_le_most_lines { lines ≤ most_lines }
    requires epoch_bound { epoch < 2 ^ epoch_bits }
    ensures { result ≡ buffer_proper buffer.now count lines epoch && buffer_marked buffer.now count }
{
    for &[word, _] in entries_in(buffer, count) {
        if !is_buffered_proper(word, lines, epoch) {
            return false;
        }
        let entry = Entry::from(word);
        if !filter::is_marked(buffer, entry.address) {
            return false;
        }
    }
    true
}

// An entry to the buffer's end, and its bits to the filter.
pub fn push(buffer: &mut [u64], undo: LogState, entry: Entry, old: u64) -> LogState
    requires { PushReady buffer.old undo entry }
    ensures { Pushes buffer.old undo entry old buffer.new result }
{
    let at = ENTRY_WORDS * undo.buffered as usize;
    base::set_pair(buffer, at, entry.encode(), old);
    filter::mark(buffer, entry.address);
    undo.counted()
}

// The buffered entries, oldest first, to the log part of the board.
fn put_entries(log: &mut [u64], buffer: &[u64], undo: LogState, meter: Meter) -> Meter
    requires sound { Sound undo }
    requires entries_in_bounds { entry_words * undo.entries ≤ length log.old }
    requires buffer_len { length buffer.now ≡ buffer_words }
    ensures { Ran log.old meter (each (entry_stores undo buffer.now) undo.buffered) log.new result }
{
    let end = ENTRY_WORDS * undo.entries as usize;
    let mut last = meter;
    let mut at = place(undo, undo.control.length);
    for &[word, old] in entries_in(buffer, undo.buffered as usize) {
        let half = board::put(log, at, word, last);
        last = board::put(log, at + 1, old, half);
        at = next(end, at);
    }
    last
}

// The buffer to the board's log: the entries before the control word that counts them.
pub fn flush(board: &mut [u64], buffer: &mut [u64], progress: Progress) -> Progress
    requires { FlushReady board.old buffer.old progress.undo }
    ensures { Flushes board.old buffer.old progress.undo progress.meter board.new buffer.new result }
{
    if progress.undo.buffered == 0 {
        return progress;
    }
    let entries_put = put_entries(&mut board[LOG_AT..], buffer, progress.undo, progress.meter);
    let undo = progress.undo.flushed();
    let control = undo.control;
    let meter = board::put(board, CONTROL_AT, control.encode(), entries_put);
    base::clear(buffer);
    Progress { undo, meter }
}

// The control word with the target as persisted epoch and the run of entries dropped that it makes useless.
pub fn advance(board: &mut [u64], undo: LogState, target: u64, meter: Meter) -> Meter
    requires { AdvanceReady board.old undo target }
    ensures { Ran board.old meter (advance_stores board.old undo target) board.new result }
{
    let run = dropped_by(board, undo, target);
    let control = Control {
        persisted: target,
        start: (undo.control.start + run) % undo.entries,
        length: undo.control.length - run,
    };
    board::put(board, CONTROL_AT, control.encode(), meter)
}
