// Load, store and evict, the calls that name a line. Each makes its tests, and then works on the slot that holds the line or takes it. They
// stay three: a generic one would take the step as a closure with the step's whole contract, and be longer than the three. Memories, registers
// and allowance stay parameters of their own: C lends each by itself, and a struct would be made only to be taken apart.
ghost use Rattle.std.specs.Prelude.{◌+◌, ◌*◌, ◌≡◌};
ghost use Rattle.checks.specs.Promises.{Sited, Roomy};
ghost use Rattle.picl.specs.Calls as call;
ghost use Rattle.picl.specs.Promises.{Calls};

use crate::{Answer, finish_slot, progress, refused};
use checks::{Line, Registers};
use layout::SLOT_WORDS;
use steps::Write;

fn load_line(
    board: &mut [u64],
    work: &mut [u64],
    registers: Registers,
    address: u64,
    line: Line,
    allowance: u32,
) -> Answer
    requires { Sited board.old work.old registers address line }
    ensures { Calls (call.load address) allowance registers board.old work.old board.new work.new result }
{
    let k = line.spot.slot;
    let was = slots::is_dirty_at(work, k);
    let start = progress(line.view, registers, allowance);
    let done = steps::load(board, work, start, address, line.spot);
    let value = work[SLOT_WORDS * k + 1];
    finish_slot(work, k, was, done, allowance, value, registers)
}

// The data of a line.
pub fn load(
    board: &mut [u64],
    work: &mut [u64],
    registers: Registers,
    address: u64,
    allowance: u32,
) -> Answer
    ensures { Calls (call.load address) allowance registers board.old work.old board.new work.new result }
{
    match checks::check_line(board, work, registers, address) {
        Err(refusal) => refused(refusal, registers),
        Ok(line) => load_line(board, work, registers, address, line, allowance),
    }
}

fn store_line(
    board: &mut [u64],
    work: &mut [u64],
    registers: Registers,
    address: u64,
    value: u64,
    line: Line,
    allowance: u32,
) -> Answer
    requires { Roomy board.old work.old registers address line }
    ensures { Calls (call.store address value) allowance registers board.old work.old board.new work.new result }
{
    let k = line.spot.slot;
    let was = slots::is_dirty_at(work, k);
    let start = progress(line.view, registers, allowance);
    let write = Write {
        address,
        epoch: registers.epoch,
        value,
    };
    let done = steps::store(board, work, start, line.spot, write);
    finish_slot(work, k, was, done, allowance, 0, registers)
}

// A store to a line.
pub fn store(
    board: &mut [u64],
    work: &mut [u64],
    registers: Registers,
    address: u64,
    value: u64,
    allowance: u32,
) -> Answer
    ensures { Calls (call.store address value) allowance registers board.old work.old board.new work.new result }
{
    match checks::check_store(board, work, registers, address) {
        Err(refusal) => refused(refusal, registers),
        Ok(line) => store_line(board, work, registers, address, value, line, allowance),
    }
}

fn evict_line(
    board: &mut [u64],
    work: &mut [u64],
    registers: Registers,
    address: u64,
    line: Line,
    allowance: u32,
) -> Answer
    requires { Sited board.old work.old registers address line }
    ensures { Calls (call.evict address) allowance registers board.old work.old board.new work.new result }
{
    let k = line.spot.slot;
    let was = slots::is_dirty_at(work, k);
    let start = progress(line.view, registers, allowance);
    let done = steps::evict(board, work, start, line.spot);
    let held = layout::bit(line.spot.held);
    finish_slot(work, k, was, done, allowance, held, registers)
}

// A line out of the cache.
pub fn evict(
    board: &mut [u64],
    work: &mut [u64],
    registers: Registers,
    address: u64,
    allowance: u32,
) -> Answer
    ensures { Calls (call.evict address) allowance registers board.old work.old board.new work.new result }
{
    match checks::check_line(board, work, registers, address) {
        Err(refusal) => refused(refusal, registers),
        Ok(line) => evict_line(board, work, registers, address, line, allowance),
    }
}
