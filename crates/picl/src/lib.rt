// The PiCL cache log: format, power-up, load, store, evict, commit, begin, scan, tally and the number of filter bits, over two lent memories, the
// board's and the work memory. Every call answers every input.
#![tactic(auto)]

mod epochs;
mod lines;
mod memory;

ghost use Rattle.std.specs.Prelude.{◌+◌, ◌≤◌, ◌≡◌};
ghost use Rattle.picl.specs.Answers.{answer, refusal as refused};
ghost use Rattle.status.specs.declared.Status.TheVariants as status;
ghost use Rattle.picl.specs.Calls.{report};
ghost use Rattle.slots.specs.Slots.{dirty_at};
ghost use Rattle.board.specs.Stores.{full};
ghost use Rattle.checks.specs.Registers.{recounted, leaving};
ghost use Rattle.checks.specs.View.{undo_of};
ghost use Rattle.picl.specs.Promises.{Finishes, FinishReady};

use board::Meter;
use checks::{Refusal, Registers, View};
pub use epochs::{begin, commit, power_up, scan};
pub use lines::{evict, load, store};
pub use memory::{filter_bits, format, tally};
use status::Status;
use undo::Progress;

// What a call answers: the paper's number, the value, the number of board stores made and the new registers. No Result: C is given all of
// them, whatever the number, and on a cut and a refusal too each has its meaning.
#[derive(Clone, Copy)]
pub struct Answer {
    pub status: Status,
    pub value: u64,
    pub stores: u32,
    pub registers: Registers,
}

// The answer of a call that returns no registers. Answer has no Report in it: the definitions of answers have the four fields side by side.
#[derive(Clone, Copy)]
pub struct Report {
    pub status: Status,
    pub value: u64,
    pub stores: u32,
}

impl Report {
    // Of a call that makes no board store, or does not count its own.
    pub fn unstored(status: Status, value: u64) -> Report
        ensures { result ≡ report status value }
    {
        Report {
            status,
            value,
            stores: 0,
        }
    }
}

impl From<Refusal> for Report {
    ghost from_gives = { λ refusal r. r ≡ report refusal.status refusal.value };

    fn from(refusal: Refusal) -> Report {
        Report::unstored(refusal.status, refusal.value)
    }
}

// The answer of a call that has changed nothing.
fn refused(refusal: Refusal, registers: Registers) -> Answer
    ensures { result ≡ refused refusal.status refusal.value registers }
{
    Answer {
        status: refusal.status,
        value: refusal.value,
        stores: 0,
        registers,
    }
}

// The answer of a call that makes no store and leaves both memories as they are.
fn unstored(registers: Registers) -> Answer
    ensures { result ≡ answer status.Ok 0 0 registers }
{
    Answer {
        status: Status::Ok,
        value: 0,
        stores: 0,
        registers,
    }
}

// What the steps of a call begin with: the log as its tests have read it, and the whole allowance.
fn progress(view: View, registers: Registers, allowance: u32) -> Progress
    ensures undo { result.undo ≡ undo_of view registers }
    ensures meter { result.meter ≡ full allowance }
{
    Progress {
        undo: view.undo(registers),
        meter: Meter::new(allowance),
    }
}

// The end of every call that may store to the board: the only place that asks the meter whether the current went.
fn finish(
    work: &mut [u64],
    meter: Meter,
    allowance: u32,
    value: u64,
    registers: Registers,
) -> Answer
    requires { meter.left ≤ allowance + 1 }
    ensures { Finishes work.old meter allowance value registers work.new result }
{
    if meter.is_cut() {
        base::clear(work);
        return Answer {
            status: Status::Cut,
            value: 0,
            stores: allowance,
            registers: Registers::all_zero(),
        };
    }
    Answer {
        status: Status::Ok,
        value,
        stores: meter.made(allowance),
        registers,
    }
}

// The end of a call that has worked on slot k, which it had found dirty or not: the count of dirty slots changes as the slot has.
// Slot and flag stay two: only this function asks for both.
fn finish_slot(
    work: &mut [u64],
    k: usize,
    was: bool,
    done: Progress,
    allowance: u32,
    value: u64,
    registers: Registers,
) -> Answer
    requires { FinishReady work.old k was done allowance registers }
    ensures { Finishes work.old done.meter allowance value (leaving (recounted registers was (dirty_at work.old k)) done.undo) work.new result }
{
    let is = slots::is_dirty_at(work, k);
    let meter = done.meter;
    finish(
        work,
        meter,
        allowance,
        value,
        registers.leaving_slot(done, was, is),
    )
}
