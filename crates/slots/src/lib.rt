// The slots of the write-back cache: which are proper, where the line at an address may be held, and what a slot's word says. Nothing
// here knows of a log.
#![tactic(auto)]

mod sets;

ghost use Rattle.std.specs.Prelude.{◌+◌, ◌*◌, ◌^◌, ◌<◌, ◌≤◌, length, ◌≡◌};
ghost use Rattle.layout.specs.Limits.{address_bits, epoch_bits};
ghost use Rattle.layout.specs.Memory.{slot_at, slot_words, slot_in};
ghost use Rattle.layout.specs.Words.{Decoded, SlotFits, encode_slot};
ghost use Rattle.slots.specs.Slots.{proper_at, dirty_at, clean_slot, dirty_slot, entry_due, undo_due};
ghost use Rattle.slots.specs.Promises.{BoundsReady};

use layout::{SLOT_WORDS, Slot, WAYS};
pub use sets::{Site, is_all_dirty, is_any_dirty, site_for};

// The slot that an address takes, and whether it is held there: a slot in either case, so no Option.
#[derive(Clone, Copy)]
pub struct Spot {
    pub slot: usize,
    pub held: bool,
}

// What a slot word is held to: the number of lines and of slots, the persisted epoch and the running one.
#[derive(Clone, Copy)]
pub struct Bounds {
    pub lines: u64,
    pub slots: usize,
    pub persisted: u64,
    pub epoch: u64,
}

// Whether slot k is proper.
pub fn is_proper_at(work: &[u64], bounds: Bounds, k: usize) -> bool
    requires bounds_ready { BoundsReady bounds }
    requires k_in_bounds { slot_at k < length work.now }
    requires k_lt_slots { k < bounds.slots }
    ensures { result ≡ proper_at bounds work.now k }
{
    let word = work[SLOT_WORDS * k];
    if word == 0 {
        return true;
    }
    let least = dirty_word(0, bounds.persisted + 1);
    if !layout::is_line(word, least, bounds.epoch - bounds.persisted) {
        return false;
    }
    let address = layout::slot_address(word);
    if address >= bounds.lines {
        return false;
    }
    (address as u32 % (bounds.slots as u32 / WAYS as u32)) as usize == k / WAYS
}

// What the word of slot k says. That the work memory has slot k stays a clause of each function: each is asked for another slot.
pub fn slot_at(work: &[u64], k: usize) -> Slot
    requires { slot_at k + slot_words ≤ length work.now }
    ensures { Decoded SlotFits (slot_in work.now k) result }
{
    Slot::from(work[SLOT_WORDS * k])
}

// Whether the line in slot k is dirty.
pub fn is_dirty_at(work: &[u64], k: usize) -> bool
    requires { slot_at k + slot_words ≤ length work.now }
    ensures { result ≡ dirty_at work.now k }
{
    let slot = slot_at(work, k);
    slot.dirty
}

// The word of a slot that holds a line as the board has it.
pub fn clean_word(address: u64) -> u64
    requires { address < 2 ^ address_bits }
    ensures { result ≡ encode_slot (clean_slot address) }
{
    let slot = Slot {
        valid: true,
        dirty: false,
        address,
        tag: 0,
        spare: 0,
    };
    slot.encode()
}

// The word of a slot whose line was stored to in an epoch.
pub fn dirty_word(address: u64, epoch: u64) -> u64
    requires address_bound { address < 2 ^ address_bits }
    requires epoch_bound { epoch < 2 ^ epoch_bits }
    ensures { result ≡ encode_slot (dirty_slot address epoch) }
{
    let slot = Slot {
        valid: true,
        dirty: true,
        address,
        tag: epoch,
        spare: 0,
    };
    slot.encode()
}

// Whether a store to the line of a slot makes an undo entry: not where that epoch has made one already.
pub fn is_entry_due(slot: Slot, epoch: u64) -> bool
    ensures { result ≡ entry_due epoch slot }
{
    if !slot.dirty {
        return true;
    }
    slot.tag != epoch
}

// Whether a store to the line at an address makes an undo entry.
pub fn is_undo_due(work: &[u64], spot: Spot, epoch: u64) -> bool
    requires { slot_at spot.slot + slot_words ≤ length work.now }
    ensures { result ≡ undo_due work.now spot epoch }
{
    if !spot.held {
        return true;
    }
    let slot = slot_at(work, spot.slot);
    is_entry_due(slot, epoch)
}
