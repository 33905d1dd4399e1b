// The paper's table of refusals. A call makes its tests in stages, in the order of specs/Refusals. Each check stands behind another:
// check_board (1), check_memories (and 2), check_power_up (and 3); check_running (1 2 4), check_ready (1 2 4 7 14), and behind that
// check_commit (9 10) and check_begin (15). Load and evict make check_line: check_named (1 2 4 5), a pass over their set, check_set (6)
// and check_spot (the count's 4, 7 and 14); check_store has check_room (8) besides. Scan makes check_running and check_visit (6, the count's
// 4, 7, 14 and 11).
// Those that calls share are `#[inline(always)]`: then a Result is no struct in memory, and costs a commit 80 instructions less.
ghost use Rattle.std.specs.Prelude.{Err, MatchResult, ◌≡◌, ◌<◌, ◌≤◌, ◌++◌, length};
ghost use Rattle.layout.specs.Limits.{last_epoch};
ghost use Rattle.layout.specs.Words.{ControlFits};
ghost use Rattle.checks.specs.Refusals.{tested, entry_rows, register_rows, buffer_rows, address_rows, room_rows, epoch_rows, cursor_rows, waiting_rows, scan_rows, target_rows};
ghost use Rattle.checks.specs.Refusals.{board_checked, memories_checked, power_up_checked, running_checked, ready_checked, named_checked, commit_checked, begin_checked, scan_checked, line_checked, store_checked};
ghost use Rattle.checks.specs.Promises.{Shaped, RowsReady, CountReady, set_checked, count_rows, Sited, Roomy};

use crate::sizes::is_good_work;
use crate::{Line, Refusal, Registers, View};
use layout::{LAST_EPOCH, LOG_AT, MOST_AHEAD, SHAPE_AT, Shape, WAYS};
use slots::{Site, Spot};
use status::Status;

// 1 of the paper's table.
pub fn check_board(board: &[u64]) -> Result<View, Refusal>
    ensures { result ≡ board_checked board.now }
{
    if board.len() < LOG_AT {
        return Err(Refusal::from(Status::Shape));
    }
    let view = View::read(board);
    let lines = Shape::own_lines(board[SHAPE_AT]);
    if !view.is_good_shape(board.len(), lines) {
        return Err(Refusal::from(Status::Shape));
    }
    Ok(view)
}

// 1 and 2.
#[inline(always)]
fn check_memories(board: &[u64], work: &[u64]) -> Result<View, Refusal>
    ensures { result ≡ memories_checked board.now work.now }
{
    let view = check_board(board)?;
    if !is_good_work(work.len()) {
        return Err(Refusal::from(Status::Work));
    }
    Ok(view.lent(work.len()))
}

// 3 of power-up.
#[inline(always)]
fn check_entries(board: &[u64], work: &[u64], view: View) -> Result<View, Refusal>
    requires { Shaped board.now work.now view }
    ensures { result ≡ tested (entry_rows board.now view) view }
{
    let found = undo::first_improper(board, view.log(), view.shape.lines);
    if found < view.control.length {
        return Err(Refusal {
            status: Status::Entry,
            value: found,
        });
    }
    Ok(view)
}

// 1, 2 and 3.
#[inline(always)]
pub fn check_power_up(board: &[u64], work: &[u64]) -> Result<View, Refusal>
    ensures { result ≡ power_up_checked board.now work.now }
{
    let view = check_memories(board, work)?;
    check_entries(board, work, view)
}

// 4.
fn check_registers(view: View, registers: Registers) -> Result<View, Refusal>
    requires { ControlFits view.control }
    ensures { result ≡ tested (register_rows view registers) view }
{
    if !registers.is_proper(view) {
        return Err(Refusal::from(Status::Regs));
    }
    Ok(view)
}

// 1, 2 and 4.
#[inline(always)]
pub fn check_running(board: &[u64], work: &[u64], registers: Registers) -> Result<View, Refusal>
    ensures { result ≡ running_checked board.now work.now registers }
{
    let view = check_memories(board, work)?;
    check_registers(view, registers)
}

// RowsReady is a `requires` of six functions and no ghost field of a struct of view, work memory and registers: that struct would be made, and
// the fact proved, in the same four checks that prove it now for their calls, and its work memory be another name for theirs in every clause.

// 7 and 14. One pass tells that neither holds; only where one does, another tells which.
fn check_buffer(view: View, work: &[u64], registers: Registers) -> Result<View, Refusal>
    requires { RowsReady work.now registers view }
    ensures { result ≡ tested (buffer_rows view work.now registers) view }
{
    let at = layout::buffer_at(work.len());
    if undo::is_buffer_sound(
        &work[at..],
        registers.buffered as usize,
        view.shape.lines,
        registers.epoch,
    ) {
        return Ok(view);
    }
    if undo::is_buffer_proper(
        &work[at..],
        registers.buffered as usize,
        view.shape.lines,
        registers.epoch,
    ) {
        return Err(Refusal::from(Status::Filter));
    }
    Err(Refusal::from(Status::Buffer))
}

// 1, 2, 4, 7 and 14.
#[inline(always)]
pub fn check_ready(board: &[u64], work: &[u64], registers: Registers) -> Result<View, Refusal>
    ensures { result ≡ ready_checked board.now work.now registers }
{
    let view = check_running(board, work, registers)?;
    check_buffer(view, work, registers)
}

// 5 of load, store and evict.
fn check_address(view: View, address: u64) -> Result<View, Refusal>
    ensures { result ≡ tested (address_rows view address) view }
{
    if address >= view.shape.lines {
        return Err(Refusal::from(Status::Address));
    }
    Ok(view)
}

// 1, 2, 4 and 5 of load, store and evict.
#[inline(always)]
fn check_named(
    board: &[u64],
    work: &[u64],
    registers: Registers,
    address: u64,
) -> Result<View, Refusal>
    ensures { result ≡ named_checked board.now work.now registers address }
{
    let view = check_running(board, work, registers)?;
    check_address(view, address)
}

// 6 of load, store and evict, by what a pass over the set has found.
#[inline(always)]
fn check_set(site: Site) -> Result<Spot, Refusal>
    ensures { result ≡ set_checked site }
{
    match site {
        Site::Free(slot) => Ok(Spot { slot, held: false }),
        Site::Held(slot) => Ok(Spot { slot, held: true }),
        Site::Improper => Err(Refusal::from(Status::Slot)),
    }
}

// And then 4 for the count, by the set of the slot that was found.
fn check_count(view: View, work: &[u64], registers: Registers, spot: Spot) -> Result<View, Refusal>
    requires { CountReady work.now view spot }
    ensures { result ≡ tested (count_rows view work.now registers spot) view }
{
    if registers.is_miscounted_set(view, work, spot.slot / WAYS * WAYS) {
        return Err(Refusal::from(Status::Regs));
    }
    Ok(view)
}

// The rows behind 6 of load, store and evict: the count's 4, 7 and 14.
#[inline(always)]
fn check_spot(view: View, work: &[u64], registers: Registers, spot: Spot) -> Result<View, Refusal>
    requires rows_ready { RowsReady work.now registers view }
    requires count_ready { CountReady work.now view spot }
    ensures { result ≡ tested (count_rows view work.now registers spot ++ buffer_rows view work.now registers) view }
{
    check_count(view, work, registers, spot)?;
    check_buffer(view, work, registers)
}

// All of load and evict, by one pass over the set of the address.
#[inline(always)]
pub fn check_line(
    board: &[u64],
    work: &[u64],
    registers: Registers,
    address: u64,
) -> Result<Line, Refusal>
    ensures { MatchResult result (λ line. Sited board.now work.now registers address line)
        (λ refusal. Err refusal ≡ line_checked board.now work.now registers address) }
{
    let view = check_named(board, work, registers, address)?;
    let least = view.least_tag();
    let tags = view.tags(registers);
    let site = slots::site_for(work, view.slots, view.shape.lines, least, tags, address);
    let spot = check_set(site)?;
    check_spot(view, work, registers, spot)?;
    Ok(Line { view, spot })
}

// 8 of store.
fn check_room(line: Line, work: &[u64], registers: Registers) -> Result<View, Refusal>
    requires rows_ready { RowsReady work.now registers line.view }
    requires slot_lt_slots { line.spot.slot < line.view.slots }
    ensures { result ≡ tested (room_rows line.view work.now registers line.spot) line.view }
{
    let view = line.view;
    if !slots::is_undo_due(work, line.spot, registers.epoch) {
        return Ok(view);
    }
    if view.control.length + registers.buffered + 1 > view.shape.entries {
        return Err(Refusal::from(Status::Room));
    }
    Ok(view)
}

// All of store.
#[inline(always)]
pub fn check_store(
    board: &[u64],
    work: &[u64],
    registers: Registers,
    address: u64,
) -> Result<Line, Refusal>
    ensures { MatchResult result (λ line. Roomy board.now work.now registers address line)
        (λ refusal. Err refusal ≡ store_checked board.now work.now registers address) }
{
    let line = check_line(board, work, registers, address)?;
    check_room(line, work, registers)?;
    Ok(line)
}

// 9 and 10 of commit.
fn check_commit_epoch(view: View, registers: Registers) -> Result<View, Refusal>
    requires { view.control.persisted < registers.epoch }
    ensures { result ≡ tested (epoch_rows view registers) view }
{
    if registers.epoch - view.control.persisted == MOST_AHEAD {
        return Err(Refusal::from(Status::Waiting));
    }
    if registers.epoch == LAST_EPOCH {
        return Err(Refusal::from(Status::Last));
    }
    Ok(view)
}

pub fn check_commit(board: &[u64], work: &[u64], registers: Registers) -> Result<View, Refusal>
    ensures { result ≡ commit_checked board.now work.now registers }
{
    let view = check_ready(board, work, registers)?;
    check_commit_epoch(view, registers)
}

// 15 of begin.
fn check_target(view: View, registers: Registers, target: u64) -> Result<View, Refusal>
    requires persisted_lt_epoch { view.control.persisted < registers.epoch }
    requires epoch_le_last_epoch { registers.epoch ≤ last_epoch }
    ensures { result ≡ tested (target_rows view registers target) view }
{
    if registers.target != 0 {
        return Err(Refusal::from(Status::Target));
    }
    if !registers.waits(view, target) {
        return Err(Refusal::from(Status::Target));
    }
    Ok(view)
}

pub fn check_begin(
    board: &[u64],
    work: &[u64],
    registers: Registers,
    target: u64,
) -> Result<View, Refusal>
    ensures { result ≡ begin_checked board.now work.now registers target }
{
    let view = check_ready(board, work, registers)?;
    check_target(view, registers, target)
}

// 6 of scan and then 4 for the count: the slot at the cursor, while there is one.
fn check_cursor(view: View, work: &[u64], registers: Registers) -> Result<View, Refusal>
    requires { RowsReady work.now registers view }
    ensures { result ≡ tested (cursor_rows view work.now registers) view }
{
    let k = registers.cursor as usize;
    if k >= view.slots {
        return Ok(view);
    }
    if !slots::is_proper_at(work, view.bounds(registers), k) {
        return Err(Refusal::from(Status::Slot));
    }
    if registers.is_miscounted_at(view, work, k) {
        return Err(Refusal::from(Status::Regs));
    }
    Ok(view)
}

// 11 of scan.
fn check_waiting(view: View, registers: Registers) -> Result<View, Refusal>
    requires { view.control.persisted < registers.epoch }
    ensures { result ≡ tested (waiting_rows view registers) view }
{
    if registers.epoch == view.control.persisted + 1 {
        return Err(Refusal::from(Status::None));
    }
    Ok(view)
}

// 7, 14 and 11 of scan.
fn check_scan_end(view: View, work: &[u64], registers: Registers) -> Result<View, Refusal>
    requires { RowsReady work.now registers view }
    ensures { result ≡ tested (buffer_rows view work.now registers ++ waiting_rows view registers) view }
{
    check_buffer(view, work, registers)?;
    check_waiting(view, registers)
}

// The rows of scan behind 1, 2 and 4.
fn check_visit(view: View, work: &[u64], registers: Registers) -> Result<View, Refusal>
    requires { RowsReady work.now registers view }
    ensures { result ≡ tested (scan_rows view work.now registers) view }
{
    check_cursor(view, work, registers)?;
    check_scan_end(view, work, registers)
}

pub fn check_scan(board: &[u64], work: &[u64], registers: Registers) -> Result<View, Refusal>
    ensures { result ≡ scan_checked board.now work.now registers }
{
    let view = check_running(board, work, registers)?;
    check_visit(view, work, registers)
}
