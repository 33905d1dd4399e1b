// The words that boards had while epochs were numbers of 24 bits. No other code knows them. The control word has the same
// fields as today, of other widths; the shape word and what stands where on the board are the same.
// They stay apart from layout's: one function over the widths would answer numbers, which each word would still have to name.
ghost use Rattle.layout.specs.Words.{Decoded};
ghost use Rattle.convert.specs.Old.{decode_old_control, OldControlFits, decode_old_entry, OldEntryFits};

use layout::Control;

// Widths in bits.
const EPOCH_BITS: u32 = 24;

const RING_BITS: u32 = 20;

// How many values a field of such a width has.
const EPOCHS: u64 = 1 << EPOCH_BITS;

const PLACES: u64 = 1 << RING_BITS;

// Limits.
pub const OLD_LAST_EPOCH: u64 = EPOCHS - 1;

pub const OLD_VERSION: u64 = 0;

// What one more in a field adds to the word.
const CONTROL_START: u64 = PLACES;

const CONTROL_PERSISTED: u64 = CONTROL_START * PLACES;

// The control word as it was packed.
#[derive(Clone, Copy)]
pub struct OldControl(pub u64);

impl From<OldControl> for Control {
    ghost from_gives = { λ old control. Decoded OldControlFits (decode_old_control old.0) control };

    fn from(old: OldControl) -> Control {
        let word = old.0;
        Control {
            persisted: word / CONTROL_PERSISTED,
            start: word / CONTROL_START % PLACES,
            length: word % PLACES,
        }
    }
}

// The first word of an undo entry: the old data was that of the line at address from epoch `from` on (ValidFrom)
// until epoch `till`, that one not included (ValidTill).
#[derive(Clone, Copy)]
pub struct OldEntry {
    pub address: u64,
    pub from: u64,
    pub till: u64,
}

const ENTRY_FROM: u64 = EPOCHS;

const ENTRY_ADDRESS: u64 = ENTRY_FROM * EPOCHS;

impl From<u64> for OldEntry {
    ghost from_gives = { λ word entry. Decoded OldEntryFits (decode_old_entry word) entry };

    fn from(word: u64) -> OldEntry {
        OldEntry {
            address: word / ENTRY_ADDRESS,
            from: word / ENTRY_FROM % EPOCHS,
            till: word % EPOCHS,
        }
    }
}
