// What the calls do once their tests have passed: the steps of load, store, evict and scan. Board and work memory are lent side by side: behind a
// call that is lent a struct of both, its caller no longer knows what either has. So what a step asks of the two stays its clause.
#![tactic(auto)]

mod moves;

ghost use Rattle.std.specs.Prelude.{◌+◌, ◌*◌, ◌^◌, ◌<◌, ◌≤◌, ◌≡◌};
ghost use Rattle.layout.specs.Limits.{address_bits, last_epoch};
ghost use Rattle.layout.specs.Memory.{slot_in};
ghost use Rattle.slots.specs.Promises.{Tagged};
ghost use Rattle.slots.specs.Slots.{filled};
ghost use Rattle.steps.specs.Effects.{entry_between, entry_for, storing_held, line_in};
ghost use Rattle.steps.specs.Effects.{loading, storing, evicting, cleaning, visiting, persisting};
ghost use Rattle.steps.specs.Promises.{Acts, Carries, SlotReady, FillReady, StoreHeldReady, StoreAbsentReady};
ghost use Rattle.steps.specs.Promises.{Logs, LogReady, logging_store, LogStoreReady, Window, StoreReady, PersistReady};

use layout::{BUFFER_PLACES, Entry, SLOT_WORDS, Slot};
use slots::Spot;
use undo::{LogState, Progress};

// What a store writes: its line's address and new data, and the epoch that it is made in.
#[derive(Clone, Copy)]
pub struct Write {
    pub address: u64,
    pub epoch: u64,
    pub value: u64,
}

// Old data that holds from an epoch on until another.
fn entry_between(address: u64, from: u64, till: u64) -> Entry
    requires { from ≤ till }
    ensures { result ≡ entry_between address from till }
{
    Entry {
        address,
        till,
        span: till - from,
    }
}

// A line's old data holds from the epoch of its last store on, or from the persisted epoch on if it is clean.
fn entry_for(slot: Slot, persisted: u64, epoch: u64, address: u64) -> Entry
    requires window { Window persisted epoch }
    requires tagged { Tagged persisted epoch slot }
    ensures { result ≡ entry_for persisted epoch address slot }
{
    if !slot.dirty {
        return entry_between(address, persisted, epoch);
    }
    entry_between(address, slot.tag, epoch)
}

// An entry to the end of the buffer, which stands behind the slots. Entry and old data are two: they are two words, and all definitions of a log
// take both.
fn push_entry(work: &mut [u64], undo: LogState, entry: Entry, old: u64) -> LogState
    requires { LogReady work.old undo entry }
    ensures { Logs work.old undo entry old work.new result }
{
    let at = layout::buffer_at(work.len());
    undo::push(&mut work[at..], undo, entry, old)
}

// The undo entry of a store to the buffer's end, and the line in slot k dirty. A full buffer goes to the log at once.
fn log_store(
    board: &mut [u64],
    work: &mut [u64],
    progress: Progress,
    k: usize,
    entry: Entry,
    old: u64,
    value: u64,
) -> Progress
    requires { LogStoreReady board.old work.old progress.undo k entry }
    ensures { Acts board.old progress.meter (logging_store progress.undo work.old k entry old value) board.new work.new result }
{
    let undo = push_entry(work, progress.undo, entry, old);
    let word = slots::dirty_word(entry.address, entry.till);
    base::set_pair(work, SLOT_WORDS * k, word, value);
    let full = undo.buffered == BUFFER_PLACES as u64;
    moves::flush_if(full, board, work, Progress { undo, ..progress })
}

// A store to the line that slot k holds.
fn store_held(
    board: &mut [u64],
    work: &mut [u64],
    progress: Progress,
    k: usize,
    write: Write,
) -> Progress
    requires { StoreHeldReady board.old work.old progress.undo k write.address write.epoch }
    ensures { Acts board.old progress.meter (storing_held progress.undo work.old k write.address write.epoch write.value) board.new work.new result }
{
    let slot = slots::slot_at(work, k);
    if !slots::is_entry_due(slot, write.epoch) {
        let word = slots::dirty_word(write.address, write.epoch);
        base::set_pair(work, SLOT_WORDS * k, word, write.value);
        return progress;
    }
    let persisted = progress.undo.control.persisted;
    let entry = entry_for(slot, persisted, write.epoch, write.address);
    let old = work[SLOT_WORDS * k + 1];
    log_store(board, work, progress, k, entry, old, write.value)
}

// A store to a line that slot k takes from the board: what `store_held` does once the slot is filled, without filling it.
fn store_absent(
    board: &mut [u64],
    work: &mut [u64],
    progress: Progress,
    k: usize,
    write: Write,
) -> Progress
    requires { StoreAbsentReady board.old work.old progress.undo k write.address write.epoch }
    ensures { Acts board.old progress.meter
        (storing_held progress.undo (filled work.old k write.address (line_in board.old progress.undo write.address)) k
        write.address write.epoch write.value)
        board.new work.new result }
{
    let at = layout::lines_at(progress.undo.entries) + write.address as usize;
    let old = board[at];
    let persisted = progress.undo.control.persisted;
    let entry = entry_between(write.address, persisted, write.epoch);
    log_store(board, work, progress, k, entry, old, write.value)
}

// The line of slot k to the board, and clean from then on.
fn clean(
    board: &mut [u64],
    work: &mut [u64],
    progress: Progress,
    k: usize,
    address: u64,
) -> Progress
    requires slot_ready { SlotReady board.old work.old progress.undo k }
    requires address_value { address ≡ (slot_in work.old k).address }
    requires address_bound { address < 2 ^ address_bits }
    ensures { Acts board.old progress.meter (cleaning progress.undo work.old k) board.new work.new result }
{
    let at = SLOT_WORDS * k;
    let value = work[at + 1];
    let done = moves::write_out(board, work, progress, address, value);
    work[at] = slots::clean_word(address);
    done
}

// A scan's visit of slot k: a line that was last stored to in the target epoch or before is written out and stays held.
pub fn visit(
    board: &mut [u64],
    work: &mut [u64],
    progress: Progress,
    k: usize,
    target: u64,
) -> Progress
    requires { SlotReady board.old work.old progress.undo k }
    ensures { Acts board.old progress.meter (visiting progress.undo work.old k target) board.new work.new result }
{
    let slot = slots::slot_at(work, k);
    if !slot.dirty {
        return progress;
    }
    if slot.tag > target {
        return progress;
    }
    clean(board, work, progress, k, slot.address)
}

// A scan's last step: the buffer to the log, and then the control word with the target as persisted epoch.
pub fn persist(board: &mut [u64], work: &mut [u64], progress: Progress, target: u64) -> Progress
    requires { PersistReady board.old work.old progress.undo target }
    ensures { Carries board.old progress.meter (persisting board.old progress.undo work.old target) board.new work.new result }
{
    let flushed = moves::flush_if(true, board, work, progress);
    let meter = undo::advance(board, flushed.undo, target, flushed.meter);
    Progress { meter, ..flushed }
}

// The line at an address in its slot.
pub fn load(
    board: &mut [u64],
    work: &mut [u64],
    progress: Progress,
    address: u64,
    spot: Spot,
) -> Progress
    requires { FillReady board.old work.old progress.undo spot.slot address }
    ensures { Carries board.old progress.meter (loading board.old progress.undo work.old address spot) board.new work.new result }
{
    if spot.held {
        return progress;
    }
    let slot = slots::slot_at(work, spot.slot);
    let left = moves::write_back(board, work, progress, spot.slot, slot);
    moves::fill(board, work, progress.undo, spot.slot, address);
    left
}

// A store to the line at an address.
pub fn store(
    board: &mut [u64],
    work: &mut [u64],
    progress: Progress,
    spot: Spot,
    write: Write,
) -> Progress
    requires { StoreReady board.old work.old progress.undo write.address spot write.epoch }
    ensures { Carries board.old progress.meter
        (storing board.old progress.undo work.old write.address spot write.epoch write.value) board.new work.new result }
{
    if spot.held {
        return store_held(board, work, progress, spot.slot, write);
    }
    let slot = slots::slot_at(work, spot.slot);
    let left = moves::write_back(board, work, progress, spot.slot, slot);
    store_absent(board, work, left, spot.slot, write)
}

// An empty slot where the line at an address was held.
pub fn evict(board: &mut [u64], work: &mut [u64], progress: Progress, spot: Spot) -> Progress
    requires { SlotReady board.old work.old progress.undo spot.slot }
    ensures { Acts board.old progress.meter (evicting progress.undo work.old spot) board.new work.new result }
{
    if !spot.held {
        return progress;
    }
    moves::empty(board, work, progress, spot.slot)
}
