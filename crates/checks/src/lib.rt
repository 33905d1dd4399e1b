// The registers, what a call reads of the two memories, and the tests that it makes before it does anything.
#![tactic(auto)]

mod refusals;
mod sizes;

ghost use Rattle.std.specs.Prelude.{◌≡◌, ◌+◌, ◌-◌, ◌<◌, ◌≤◌, [], ◌∷◌, length};
ghost use Rattle.layout.specs.Limits.{last_epoch, ways, most_slots};
ghost use Rattle.layout.specs.Memory.{log_at, slot_at, slot_words, buffer_words};
ghost use Rattle.layout.specs.Words.{ControlFits, OwnLines, encode_slot};
ghost use Rattle.checks.specs.Registers.{all_zero, restarted, committed, begun, stepped, ended, recounted, leaving, scan_target};
ghost use Rattle.checks.specs.View.{good_control, good_shape, proper_epoch, proper_counts, proper_pass, proper_registers, waits, miscounted};
ghost use Rattle.checks.specs.View.{lent, bounds_of, undo_of};
ghost use Rattle.checks.specs.Promises.{Viewed, Countable};
ghost use Rattle.checks.specs.Refusals.{unvalued};
ghost use Rattle.slots.specs.Sets.{slots_from};
ghost use Rattle.slots.specs.Slots.{dirty_slot};

use layout::{BUFFER_PLACES, CONTROL_AT, Control, LAST_EPOCH, MOST_AHEAD, SHAPE_AT, Shape};
pub use refusals::{
    check_begin, check_board, check_commit, check_line, check_power_up, check_ready, check_running,
    check_scan, check_store,
};
pub use sizes::{is_good_sizes, is_good_work};
use slots::{Bounds, Spot};
use status::Status;
use undo::{LogState, Progress};

// s, b and c of the paper, the count of dirty slots and the target: the running epoch, the number of buffered entries, the scan's cursor and
// the epoch that its pass persists, 0 outside a pass: five words, as C hands them in, and no Option for the target.
#[derive(Clone, Copy)]
pub struct Registers {
    pub epoch: u64,
    pub buffered: u64,
    pub cursor: u64,
    pub dirty: u64,
    pub target: u64,
}

impl Registers {
    // Not a derived Default: its clause is an equation for each field, and every caller would need a law to join them.
    pub fn all_zero() -> Registers
        ensures { result ≡ all_zero }
    {
        Registers {
            epoch: 0,
            buffered: 0,
            cursor: 0,
            dirty: 0,
            target: 0,
        }
    }

    // Of a controller that has just powered up.
    pub fn restarted(persisted: u64) -> Registers
        requires { persisted < last_epoch }
        ensures { result ≡ restarted persisted }
    {
        Registers {
            epoch: persisted + 1,
            ..Registers::all_zero()
        }
    }

    // In the next epoch.
    pub fn committed(self) -> Registers
        requires { self.epoch ≤ last_epoch }
        ensures { result ≡ committed self }
    {
        Registers {
            epoch: self.epoch + 1,
            ..self
        }
    }

    // The target of a scan: that of the pass, or the oldest epoch that waits, with which the scan begins one.
    pub fn scan_target(self, persisted: u64) -> u64
        requires { persisted < last_epoch }
        ensures { result ≡ scan_target self persisted }
    {
        if self.target == 0 {
            return persisted + 1;
        }
        self.target
    }

    // In a pass with this target.
    pub fn begun(self, target: u64) -> Registers
        ensures { result ≡ begun self target }
    {
        Registers { target, ..self }
    }

    // With the cursor at the next slot.
    pub fn stepped(self) -> Registers
        requires { self.cursor ≤ most_slots }
        ensures { result ≡ stepped self }
    {
        Registers {
            cursor: self.cursor + 1,
            ..self
        }
    }

    // Outside a pass, the cursor before the first slot.
    pub fn ended(self) -> Registers
        ensures { result ≡ ended self }
    {
        Registers {
            cursor: 0,
            target: 0,
            ..self
        }
    }

    // With what the steps of a call have left: the entries that are still buffered.
    pub fn leaving(self, done: Progress) -> Registers
        ensures { result ≡ leaving self done.undo }
    {
        Registers {
            buffered: done.undo.buffered,
            ..self
        }
    }

    // With what a step on one slot has left: and so one dirty slot less where it has found the slot dirty, one more where it leaves it dirty.
    pub fn leaving_slot(self, done: Progress, was: bool, is: bool) -> Registers
        requires { Countable self was }
        ensures { result ≡ leaving (recounted self was is) done.undo }
    {
        Registers {
            buffered: done.undo.buffered,
            dirty: self.dirty - layout::bit(was) + layout::bit(is),
            ..self
        }
    }

    // Ahead of the persisted epoch, and not too far. One comparison for both ends: an epoch that is not ahead wraps round to more than
    // any limit. `std::num`'s difference, here and below: its clause says what the difference and what was taken off come to; the numbers' own
    // method has a remainder there.
    fn is_proper_epoch(self, view: View) -> bool
        requires { ControlFits view.control }
        ensures { result ≡ proper_epoch view self }
    {
        if self.epoch > LAST_EPOCH {
            return false;
        }
        std::num::wrapping_sub_u64(
            std::num::wrapping_sub_u64(self.epoch, view.control.persisted),
            1,
        ) < MOST_AHEAD
    }

    // Whether an epoch has ended and is not persisted. Both ends in one comparison, as above. That the running epoch is ahead, and
    // not beyond the last, stays a clause: it ties registers to a view, neither holds the other, and a caller hands in any registers.
    fn waits(self, view: View, epoch: u64) -> bool
        requires persisted_lt_epoch { view.control.persisted < self.epoch }
        requires epoch_le_last_epoch { self.epoch ≤ last_epoch }
        ensures { result ≡ waits view self epoch }
    {
        std::num::wrapping_sub_u64(std::num::wrapping_sub_u64(epoch, view.control.persisted), 1)
            < self.epoch - view.control.persisted - 1
    }

    // The target waits and the cursor is at most at the end, or there is no target and the cursor is before the first slot.
    fn is_proper_pass(self, view: View) -> bool
        requires persisted_lt_epoch { view.control.persisted < self.epoch }
        requires epoch_le_last_epoch { self.epoch ≤ last_epoch }
        ensures { result ≡ proper_pass view self }
    {
        if self.waits(view, self.target) {
            return self.cursor <= view.slots as u64;
        }
        if self.target != 0 {
            return false;
        }
        self.cursor == 0
    }

    // b and the count of dirty slots within their limits, and the log has room for what is buffered.
    fn is_proper_counts(self, view: View) -> bool
        requires { ControlFits view.control }
        ensures { result ≡ proper_counts view self }
    {
        if self.buffered >= BUFFER_PLACES as u64 {
            return false;
        }
        if self.dirty > view.slots as u64 {
            return false;
        }
        view.control.length + self.buffered <= view.shape.entries
    }

    // Whether the slot that a scan visits tells that the count is wrong.
    fn is_miscounted_at(self, view: View, work: &[u64], k: usize) -> bool
        requires { slot_at k + slot_words ≤ length work.now }
        ensures { result ≡ miscounted view self work.now (k ∷ []) }
    {
        if slots::is_dirty_at(work, k) {
            return self.dirty == 0;
        }
        self.dirty == view.slots as u64
    }

    // Whether one of the slots of a set does. Most counts are between 0 and S, and these no slot can belie.
    fn is_miscounted_set(self, view: View, work: &[u64], first: usize) -> bool
        requires le_slots { 1 ≤ view.slots }
        requires ways_in_bounds { slot_at (first + ways) ≤ length work.now }
        ensures { result ≡ miscounted view self work.now (slots_from first) }
    {
        if self.dirty == 0 {
            return slots::is_any_dirty(work, first);
        }
        if self.dirty == view.slots as u64 {
            return !slots::is_all_dirty(work, first);
        }
        false
    }

    fn is_proper(self, view: View) -> bool
        requires { ControlFits view.control }
        ensures { result ≡ proper_registers view self }
    {
        if !self.is_proper_epoch(view) {
            return false;
        }
        if !self.is_proper_pass(view) {
            return false;
        }
        self.is_proper_counts(view)
    }
}

// What a call reads of the two memories before its tests. That its fields fit is no ghost field: View is the record that view_of and all rows
// of the table are stated on.
#[derive(Clone, Copy)]
pub struct View {
    pub control: Control,
    pub shape: Shape,
    pub slots: usize,
}

impl View {
    // Of the board alone: with no slots.
    fn read(board: &[u64]) -> View
        requires { log_at ≤ length board.now }
        ensures { Viewed board.now result }
    {
        View {
            control: Control::from(board[CONTROL_AT]),
            shape: Shape::from(board[SHAPE_AT]),
            slots: 0,
        }
    }

    // With the slots of a work memory of so many words.
    fn lent(self, words: usize) -> View
        requires { buffer_words ≤ words }
        ensures { result ≡ lent self words }
    {
        View {
            slots: layout::slots_of(words),
            ..self
        }
    }

    // Of 1: the control word.
    fn is_good_control(self) -> bool
        ensures { result ≡ good_control self }
    {
        if self.control.length > self.shape.entries {
            return false;
        }
        if self.control.start >= self.shape.entries {
            return false;
        }
        self.control.persisted != LAST_EPOCH
    }

    // 1, with the number of lines as `own_lines` gives it.
    fn is_good_shape(self, words: usize, lines: u64) -> bool
        requires log_at_le_words { log_at ≤ words }
        requires own_lines { OwnLines self.shape lines }
        ensures { result ≡ good_shape words self }
    {
        if !self.is_good_control() {
            return false;
        }
        sizes::is_sized(words, lines, self.shape.entries)
    }

    // What slot words are held to.
    pub fn bounds(self, registers: Registers) -> Bounds
        ensures { result ≡ bounds_of self registers }
    {
        Bounds {
            lines: self.shape.lines,
            slots: self.slots,
            persisted: self.control.persisted,
            epoch: registers.epoch,
        }
    }

    // The least tag that a dirty slot may have, told by a slot word; and how many there are from there on.
    pub fn least_tag(self) -> u64
        requires { self.control.persisted < last_epoch }
        ensures { result ≡ encode_slot (dirty_slot 0 (self.control.persisted + 1)) }
    {
        slots::dirty_word(0, self.control.persisted + 1)
    }

    pub fn tags(self, registers: Registers) -> u64
        requires { self.control.persisted < registers.epoch }
        ensures { result ≡ registers.epoch - self.control.persisted }
    {
        registers.epoch - self.control.persisted
    }

    // The board's log, with nothing buffered for it.
    pub fn log(self) -> LogState
        ensures { result ≡ undo_of self all_zero }
    {
        self.undo(Registers::all_zero())
    }

    // The undo log as the call carries it.
    pub fn undo(self, registers: Registers) -> LogState
        ensures { result ≡ undo_of self registers }
    {
        LogState {
            control: self.control,
            entries: self.shape.entries,
            buffered: registers.buffered,
        }
    }
}

// What the tests of load, store and evict have found: what the call has read, and the slot that holds its line or takes it.
#[derive(Clone, Copy)]
pub struct Line {
    pub view: View,
    pub spot: Spot,
}

// Why a call's tests refuse it, and with which value.
#[derive(Clone, Copy)]
pub struct Refusal {
    pub status: Status,
    pub value: u64,
}

// "Numbers 1 to 11 return value 0 (3 excepted)".
impl From<Status> for Refusal {
    ghost from_gives = { λ status refusal. refusal ≡ unvalued status };

    fn from(status: Status) -> Refusal {
        Refusal { status, value: 0 }
    }
}
