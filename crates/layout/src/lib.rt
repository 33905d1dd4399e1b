// The packed words of the board, of the work memory and of recorded calls, and the widths and limits that they have.
// No other crate knows where a field stands in its word.
#![tactic(auto)]

mod word_bytes;

ghost use Rattle.layout.specs.Words.{Decoded};
ghost use Rattle.layout.specs.Words.{encode_control, decode_control, ControlFits};
ghost use Rattle.layout.specs.Words.{encode_shape, decode_shape, ShapeFits, OwnLines};
ghost use Rattle.layout.specs.Words.{encode_entry, decode_entry, EntryFits, formed};
ghost use Rattle.layout.specs.Words.{encode_slot, decode_slot, SlotFits, IsBit};
ghost use Rattle.layout.specs.SlotTests.{AddressOf, slot_form, IsDirtyForm, is_line};
ghost use Rattle.layout.specs.Words.{encode_record, decode_record, RecordFits};
ghost use Rattle.layout.specs.Limits.{epoch_bits, most_lines, most_entries, most_slots};
ghost use Rattle.layout.specs.Memory.{lines_at, board_words, buffer_words, work_words, slots_of, buffer_at};
ghost use Rattle.std.specs.Prelude.{◌≡◌, ◌^◌, ◌<◌, ◌≤◌, nat_le, nat_lt};

pub use word_bytes::{BYTES_OF_WORD, bytes_of, read_words, with_byte};

// Widths in bits.
pub const WORD_BITS: u32 = 64;

const EPOCH_BITS: u32 = 40;

const ADDRESS_BITS: u32 = 16;

const SPAN_BITS: u32 = 8;

const RING_BITS: u32 = 12;

const SIZE_BITS: u32 = 20;

const FLAG_BITS: u32 = 1;

const SPARE_BITS: u32 = 6;

const RECORD_SPARE_BITS: u32 = 45;

// How many values a field of such a width has.
const EPOCHS: u64 = 1 << EPOCH_BITS;

pub const ADDRESSES: u64 = 1 << ADDRESS_BITS;

const SPANS: u64 = 1 << SPAN_BITS;

const PLACES: u64 = 1 << RING_BITS;

const SIZES: u64 = 1 << SIZE_BITS;

const FLAGS: u64 = 1 << FLAG_BITS;

const SPARES: u64 = 1 << SPARE_BITS;

const RECORD_SPARES: u64 = 1 << RECORD_SPARE_BITS;

// Limits. Lines, addresses and epochs are plain numbers and no types with these bounds: they are fields of words, of which ShapeFits,
// EntryFits and the like say them, and each clause would only take them out of their type again to count with them.
pub const LAST_EPOCH: u64 = EPOCHS - 1;

pub const BOARD_VERSION: u64 = 1;

pub const MOST_LINES: u64 = 65536;

// The most that the control word's length can tell.
pub const MOST_ENTRIES: u64 = PLACES - 1;

// Slots stand in sets of so many.
pub const WAYS: usize = 4;

pub const MOST_SLOTS: usize = 256;

pub const BUFFER_PLACES: usize = 32;

pub const FILTER_SIZE: u64 = 4096;

pub const MOST_AHEAD: u64 = 16;

// Where things stand on the board: the control word, the shape word, the log's entries, and then the lines.
pub const CONTROL_AT: usize = 0;

pub const SHAPE_AT: usize = 1;

pub const LOG_AT: usize = 2;

// An undo entry, on the board and in the buffer: its packed word, then the old data.
pub const ENTRY_WORDS: usize = 2;

// Where the lines of a board begin whose log has place for so many entries.
pub fn lines_at(entries: u64) -> usize
    requires { entries ≤ most_entries }
    ensures { result ≡ lines_at entries }
{
    LOG_AT + ENTRY_WORDS * entries as usize
}

// The words of a board of so many lines, whose log has place for so many entries.
pub fn board_words(lines: u64, entries: u64) -> usize
    requires lines_le_most_lines { lines ≤ most_lines }
    requires entries_le_most_entries { entries ≤ most_entries }
    ensures { result ≡ board_words lines entries }
{
    lines_at(entries) + lines as usize
}

// A slot of the work memory: its slot word, then the line's data.
pub const SLOT_WORDS: usize = 2;

// The undo buffer, behind the slots: places for entries, and behind them the filter's words.
pub const FILTER_AT: usize = ENTRY_WORDS * BUFFER_PLACES;

pub const FILTER_WORDS: usize = FILTER_SIZE as usize / WORD_BITS as usize;

pub const BUFFER_WORDS: usize = FILTER_AT + FILTER_WORDS;

// The words of a work memory with one set of slots, and with the most.
pub const LEAST_WORK: usize = SLOT_WORDS * WAYS + BUFFER_WORDS;

pub const MOST_WORK: usize = SLOT_WORDS * MOST_SLOTS + BUFFER_WORDS;

// The words of a work memory of so many slots.
pub fn work_words(slots: usize) -> usize
    requires { slots ≤ most_slots }
    ensures { result ≡ work_words slots }
{
    SLOT_WORDS * slots + BUFFER_WORDS
}

// The number of slots of a work memory of so many words. That it has room for the buffer stays a clause, here and below: it is said of a
// number, and a type for that would be made only to be asked once.
pub fn slots_of(words: usize) -> usize
    requires { buffer_words ≤ words }
    ensures { result ≡ slots_of words }
{
    (words - BUFFER_WORDS) / SLOT_WORDS
}

// Where the buffer of a work memory of so many words begins.
pub fn buffer_at(words: usize) -> usize
    requires { buffer_words ≤ words }
    ensures { result ≡ buffer_at words }
{
    words - BUFFER_WORDS
}

// Five packed words, and no trait over them: no function takes more than one kind, and each would still name its fields to be read
// and to be packed. `encode` is no From, which could not ask that the fields fit.

// The control word: the persisted epoch, and where in the ring the log starts and how many entries it has.
#[derive(Clone, Copy, Debug, PartialEq, Eq)]
pub struct Control {
    pub persisted: u64,
    pub start: u64,
    pub length: u64,
}

// What one more in a field adds to the word.
const CONTROL_START: u64 = PLACES;

const CONTROL_PERSISTED: u64 = CONTROL_START * PLACES;

impl From<u64> for Control {
    ghost from_gives = { λ word fields. Decoded ControlFits (decode_control word) fields };

    fn from(word: u64) -> Control {
        Control {
            persisted: word / CONTROL_PERSISTED,
            start: word / CONTROL_START % PLACES,
            length: word % PLACES,
        }
    }
}

impl Control {
    pub fn encode(self) -> u64
        requires { ControlFits self }
        ensures { result ≡ encode_control self }
    {
        self.persisted * CONTROL_PERSISTED + self.start * CONTROL_START + self.length
    }
}

// The shape word: the board format's version, the number of lines and the number of log entries that the board has place for.
#[derive(Clone, Copy, Debug, PartialEq, Eq)]
pub struct Shape {
    pub version: u64,
    pub lines: u64,
    pub entries: u64,
}

const SHAPE_LINES: u64 = SIZES;

const SHAPE_VERSION: u64 = SHAPE_LINES * SIZES;

impl From<u64> for Shape {
    ghost from_gives = { λ word fields. Decoded ShapeFits (decode_shape word) fields };

    fn from(word: u64) -> Shape {
        Shape {
            version: word / SHAPE_VERSION,
            lines: word / SHAPE_LINES % SIZES,
            entries: word % SIZES,
        }
    }
}

impl Shape {
    pub fn encode(self) -> u64
        requires { ShapeFits self }
        ensures { result ≡ encode_shape self }
    {
        self.version * SHAPE_VERSION + self.lines * SHAPE_LINES + self.entries
    }

    // The number of lines, or more than any board has where the version is another: so one test is enough for both. A lower version wraps round.
    pub fn own_lines(word: u64) -> u64
        ensures { OwnLines (decode_shape word) result }
    {
        (word / SHAPE_LINES).wrapping_sub(BOARD_VERSION * SIZES)
    }
}

// The first word of an undo entry: the old data was that of the line at address until epoch `till`, that one not included
// (ValidTill), and from so many epochs before it on as the span says (ValidFrom is till - span).
#[derive(Clone, Copy, Debug, PartialEq, Eq)]
pub struct Entry {
    pub address: u64,
    pub till: u64,
    pub span: u64,
}

const ENTRY_TILL: u64 = SPANS;

const ENTRY_ADDRESS: u64 = ENTRY_TILL * EPOCHS;

impl From<u64> for Entry {
    ghost from_gives = { λ word fields. Decoded EntryFits (decode_entry word) fields };

    fn from(word: u64) -> Entry {
        Entry {
            address: word / ENTRY_ADDRESS,
            till: word / ENTRY_TILL % EPOCHS,
            span: word % SPANS,
        }
    }
}

impl Entry {
    pub fn encode(self) -> u64
        requires { EntryFits self }
        ensures { result ≡ encode_entry self }
    {
        self.address * ENTRY_ADDRESS + self.till * ENTRY_TILL + self.span
    }

    // Whether the span is one that an entry can have. One comparison for both its ends: a span of 0 wraps round to more than the most.
    pub fn is_formed(self) -> bool
        ensures { result ≡ formed self }
    {
        self.span.wrapping_sub(1) < MOST_AHEAD && self.span <= self.till
    }
}

// Tests on an entry's first word that is not decoded, for loops over entries: words compare as their topmost fields do.

pub fn is_address_below(word: u64, lines: u64) -> bool
    requires le_lines { 1 ≤ lines }
    requires lines_le_most_lines { lines ≤ most_lines }
    ensures { result ≡ nat_lt (decode_entry word).address lines }
{
    word <= (lines - 1) * ENTRY_ADDRESS + (ENTRY_ADDRESS - 1)
}

// ValidTill is made the topmost field by one shift, which drops the address. What one more in it then adds to the word.
const TILL_TO_TOP: u32 = ADDRESS_BITS;

const TOP_TILL: u64 = 1 << (WORD_BITS - EPOCH_BITS);

pub fn is_till_at_most(word: u64, epoch: u64) -> bool
    requires { epoch < 2 ^ epoch_bits }
    ensures { result ≡ nat_le (decode_entry word).till epoch }
{
    word << TILL_TO_TOP <= epoch * TOP_TILL + (TOP_TILL - 1)
}

// What `Entry::is_formed` tells: the span is the word's last field, and at ValidTill's place it is not above the word there.
pub fn is_formed_word(word: u64) -> bool
    ensures { result ≡ formed (decode_entry word) }
{
    word.wrapping_sub(1) % SPANS < MOST_AHEAD && word % SPANS * TOP_TILL <= word << TILL_TO_TOP
}

// The slot word: whether the slot holds a line and whether that is dirty, the line's address, the epoch of its last
// store (0 where clean), and the bits that are kept zero. Flags and no Option: any word is read, and comes back from its fields (slot_laws).
#[derive(Clone, Copy, Debug, PartialEq, Eq)]
pub struct Slot {
    pub valid: bool,
    pub dirty: bool,
    pub address: u64,
    pub tag: u64,
    pub spare: u64,
}

const SLOT_TAG: u64 = SPARES;

const SLOT_ADDRESS: u64 = SLOT_TAG * EPOCHS;

const SLOT_DIRTY: u64 = SLOT_ADDRESS * ADDRESSES;

const SLOT_VALID: u64 = SLOT_DIRTY * FLAGS;

// Tests on a slot word that is not decoded, for a pass over several.

pub fn slot_address(word: u64) -> u64
    ensures { AddressOf (decode_slot word) result }
{
    word / SLOT_ADDRESS % ADDRESSES
}

// The word without its address. Such words rise as slots are taken: an empty one, a clean one, dirty ones by their tags.
pub fn slot_form(word: u64) -> u64
    ensures { result ≡ slot_form (decode_slot word) }
{
    word - word / SLOT_ADDRESS % ADDRESSES * SLOT_ADDRESS
}

// What a spare bit counts for once these bits are the topmost.
const SPARE_TO_TOP: u64 = 1 << (WORD_BITS - SPARE_BITS);

// Whether the word is that of a line, clean, or dirty with one of so many tags from the least on. The least is told by a word that has it.
// One comparison for all of a dirty word: less than the least wraps round, and so does a flag that is not set; a spare bit is moved to the top.
pub fn is_line(word: u64, least: u64, tags: u64) -> bool
    requires dirty_form { IsDirtyForm least }
    requires tags_bound { tags ≤ 2 ^ epoch_bits }
    ensures { result ≡ is_line (decode_slot least).tag tags (decode_slot word) }
{
    let form = slot_form(word);
    if form == SLOT_VALID {
        return true;
    }
    let more = form.wrapping_sub(least);
    more / SPARES + more % SPARES * SPARE_TO_TOP < tags
}

// A flag as a field of one bit has it: u64::from, with a clause that it is below 2.
pub fn bit(flag: bool) -> u64
    ensures { IsBit flag result }
{
    u64::from(flag)
}

impl From<u64> for Slot {
    ghost from_gives = { λ word fields. Decoded SlotFits (decode_slot word) fields };

    fn from(word: u64) -> Slot {
        Slot {
            valid: word / SLOT_VALID == 1,
            dirty: word / SLOT_DIRTY % FLAGS == 1,
            address: word / SLOT_ADDRESS % ADDRESSES,
            tag: word / SLOT_TAG % EPOCHS,
            spare: word % SPARES,
        }
    }
}

impl Slot {
    pub fn encode(self) -> u64
        requires { SlotFits self }
        ensures { result ≡ encode_slot self }
    {
        bit(self.valid) * SLOT_VALID
            + bit(self.dirty) * SLOT_DIRTY
            + self.address * SLOT_ADDRESS
            + self.tag * SLOT_TAG
            + self.spare
    }
}

// The first word of a trace's record: the call's kind, the line's address, and the bits that are kept zero. The kind is a number: any
// word is read, and comes back from its fields (record_laws).
#[derive(Clone, Copy, Debug, PartialEq, Eq)]
pub struct Record {
    pub kind: u64,
    pub address: u64,
    pub spare: u64,
}

const RECORD_ADDRESS: u64 = RECORD_SPARES;

const RECORD_KIND: u64 = RECORD_ADDRESS * ADDRESSES;

impl From<u64> for Record {
    ghost from_gives = { λ word fields. Decoded RecordFits (decode_record word) fields };

    fn from(word: u64) -> Record {
        Record {
            kind: word / RECORD_KIND,
            address: word / RECORD_ADDRESS % ADDRESSES,
            spare: word % RECORD_SPARES,
        }
    }
}

impl Record {
    pub fn encode(self) -> u64
        requires { RecordFits self }
        ensures { result ≡ encode_record self }
    {
        self.kind * RECORD_KIND + self.address * RECORD_ADDRESS + self.spare
    }
}
