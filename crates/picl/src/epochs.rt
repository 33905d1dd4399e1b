// Commit, begin, scan and power-up: the calls that end, persist and restore epochs.
ghost use Rattle.std.specs.Prelude.{Ok, ◌≡◌};
ghost use Rattle.board.specs.Verdict.{due};
ghost use Rattle.checks.specs.Refusals.{power_up_checked, scan_checked};
ghost use Rattle.checks.specs.Registers.{all_zero};
ghost use Rattle.picl.specs.Calls as call;
ghost use Rattle.picl.specs.Calls.{no_allowance, power_up_outcome, power_up_verdict};
ghost use Rattle.picl.specs.Promises.{Answers, Calls};

use crate::{Answer, finish, finish_slot, progress, refused, unstored};
use board::Meter;
use checks::{Registers, View};

// The end of the running epoch. It makes no store, so no allowance is too small, and it cannot write either memory.
pub fn commit(board: &[u64], work: &[u64], registers: Registers, allowance: u32) -> Answer
    ensures { Calls call.commit allowance registers board.now work.now board.now work.now result }
{
    match checks::check_commit(board, work, registers) {
        Err(refusal) => refused(refusal, registers),
        Ok(_) => unstored(registers.committed()),
    }
}

// A pass that persists all epochs up to the target. It makes no store, and it cannot write either memory.
pub fn begin(board: &[u64], work: &[u64], registers: Registers, target: u64) -> Answer
    ensures { Calls (call.begin target) no_allowance registers board.now work.now board.now work.now result }
{
    match checks::check_begin(board, work, registers, target) {
        Err(refusal) => refused(refusal, registers),
        Ok(_) => unstored(registers.begun(target)),
    }
}

// The slot at the cursor, or behind the last slot the end of the pass.
fn scan_passed(
    board: &mut [u64],
    work: &mut [u64],
    registers: Registers,
    view: View,
    allowance: u32,
) -> Answer
    requires { Ok view ≡ scan_checked board.old work.old registers }
    ensures { Calls call.scan allowance registers board.old work.old board.new work.new result }
{
    let target = registers.scan_target(view.control.persisted);
    let start = progress(view, registers, allowance);
    if registers.cursor < view.slots as u64 {
        let k = registers.cursor as usize;
        let was = slots::is_dirty_at(work, k);
        let next = registers.begun(target).stepped();
        let done = steps::visit(board, work, start, k, target);
        return finish_slot(work, k, was, done, allowance, 0, next);
    }
    let done = steps::persist(board, work, start, target);
    let meter = done.meter;
    finish(
        work,
        meter,
        allowance,
        target,
        registers.ended().leaving(done),
    )
}

// One step of the pass that persists the epochs up to its target. Outside a pass it is the first of one for the oldest epoch that waits.
pub fn scan(board: &mut [u64], work: &mut [u64], registers: Registers, allowance: u32) -> Answer
    ensures { Calls call.scan allowance registers board.old work.old board.new work.new result }
{
    match checks::check_scan(board, work, registers) {
        Err(refusal) => refused(refusal, registers),
        Ok(view) => scan_passed(board, work, registers, view, allowance),
    }
}

fn power_up_passed(board: &mut [u64], work: &mut [u64], view: View, allowance: u32) -> Answer
    requires { Ok view ≡ power_up_checked board.old work.old }
    ensures { Answers allowance all_zero board.old work.old (due (power_up_outcome board.old work.old view)) board.new work.new result }
{
    let meter = undo::recover(board, view.log(), view.shape.lines, Meter::new(allowance));
    base::clear(work);
    finish(
        work,
        meter,
        allowance,
        0,
        Registers::restarted(view.control.persisted),
    )
}

// The board as of its persisted epoch, and a controller that starts from there.
pub fn power_up(board: &mut [u64], work: &mut [u64], allowance: u32) -> Answer
    ensures { Answers allowance all_zero board.old work.old (power_up_verdict board.old work.old) board.new work.new result }
{
    match checks::check_power_up(board, work) {
        Err(refusal) => refused(refusal, Registers::all_zero()),
        Ok(view) => power_up_passed(board, work, view, allowance),
    }
}
