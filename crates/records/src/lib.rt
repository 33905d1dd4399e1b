// Recorded calls: a record is sixteen bytes, a packed word and a value. The writer makes them of a kind, an address and a value;
// the reader takes them byte by byte, and keeps numbers and no bytes.
#![tactic(auto)]

ghost use Rattle.std.specs.Prelude.{◌≡◌, ◌++◌, fold, take};
ghost use Rattle.layout.specs.Bytes.{bytes_of};
ghost use Rattle.records.specs.Records.{record_bytes, Numbers, call_in, written, words_reading, reading as bytesReading};
ghost use Rattle.records.specs.Steps.{new_reader, is_new, is_full, step_of, reading_by};

use layout::{ADDRESSES, BYTES_OF_WORD, Record};
use status::Status;

// The calls that a record holds, and that bench programs make: those of a controller that runs.
#[derive(Clone, Copy, PartialEq, Eq)]
pub enum Call {
    // An address.
    Load(u64),
    // An address and a value.
    Store(u64, u64),
    // An address.
    Evict(u64),
    Commit,
    Scan,
}

pub const RECORD_BYTES: usize = 2 * BYTES_OF_WORD;

// The kinds of calls, in the order of their numbers.
#[derive(Clone, Copy, PartialEq, Eq)]
enum Kind {
    Load,
    Store,
    Commit,
    Scan,
    Evict,
}

impl TryFrom<u64> for Kind {
    type Error = Status;

    ghost try_from_gives = { Numbers };

    fn try_from(number: u64) -> Result<Self, Status> {
        match number {
            0 => Ok(Kind::Load),
            1 => Ok(Kind::Store),
            2 => Ok(Kind::Commit),
            3 => Ok(Kind::Scan),
            4 => Ok(Kind::Evict),
            _ => Err(Status::Trace),
        }
    }
}

// The first bytes of a record, as many as count says: those of its first word, then those of its value. Two words and a count, and
// no array of bytes: nothing is kept that would have to be copied.
#[derive(Clone, Copy, PartialEq, Eq)]
pub struct Reader {
    count: usize,
    first: u64,
    value: u64,
}

// The call of the three, where a record has a place for them. A store takes all that fits; of the others none takes a value, and
// commit and scan no address. The kind is a number: C gives the writer any, and the packed word holds any.
#[tactic(auto, using(base::specs::Tests::tests), unfolding(crate::specs::Records::call_in, crate::specs::Records::has_place, crate::specs::Records::call_of))]
fn call_in(kind: u64, address: u64, value: u64) -> Result<Call, Status>
    ensures { result ≡ call_in kind address value }
{
    if address >= ADDRESSES {
        return Err(Status::Trace);
    }
    match (Kind::try_from(kind)?, address, value) {
        (Kind::Store, _, _) => Ok(Call::Store(address, value)),
        (Kind::Load, _, 0) => Ok(Call::Load(address)),
        (Kind::Evict, _, 0) => Ok(Call::Evict(address)),
        (Kind::Commit, 0, 0) => Ok(Call::Commit),
        (Kind::Scan, 0, 0) => Ok(Call::Scan),
        _ => Err(Status::Trace),
    }
}

// The bytes of two words.
#[tactic(auto, unfolding(layout::specs::Bytes::bytes_of))]
fn bytes_of(first: u64, value: u64) -> [u8; RECORD_BYTES]
    ensures { result ≡ bytes_of first ++ bytes_of value }
{
    let mut bytes = [0; RECORD_BYTES];
    bytes[..BYTES_OF_WORD].copy_from_slice(&layout::bytes_of(first));
    bytes[BYTES_OF_WORD..].copy_from_slice(&layout::bytes_of(value));
    bytes
}

// The writer.
#[tactic(auto, using(base::specs::Tests::tests, crate::specs::Laws::call_fits), unfolding(crate::specs::Records::call_in, crate::specs::Records::written, crate::specs::Records::first_word))]
pub fn write(kind: u64, address: u64, value: u64) -> Result<[u8; RECORD_BYTES], Status>
    ensures { result ≡ written kind address value }
{
    call_in(kind, address, value)?;
    let record = Record {
        kind,
        address,
        spare: 0,
    };
    Ok(bytes_of(record.encode(), value))
}

// What two words are as a record.
#[tactic(auto, using(base::specs::Tests::tests), unfolding(crate::specs::Records::call_in, crate::specs::Records::words_reading))]
fn reading_of(first: u64, value: u64) -> Result<Option<Call>, Status>
    ensures { result ≡ words_reading first value }
{
    let record = Record::from(first);
    if record.spare != 0 {
        return Err(Status::Trace);
    }
    Ok(Some(call_in(record.kind, record.address, value)?))
}

impl Reader {
    // The reader before the first byte of a record.
    pub fn new() -> Reader
        ensures { result ≡ new_reader }
    {
        Reader {
            count: 0,
            first: 0,
            value: 0,
        }
    }

    // Whether no byte has been read.
    #[tactic(auto, using(base::specs::Tests::tests), unfolding(crate::specs::Steps::is_new))]
    pub fn is_new(self) -> bool
        ensures { result ≡ is_new self }
    {
        self == Reader::new()
    }

    // Whether a whole record has been read.
    #[tactic(auto, unfolding(crate::specs::Steps::is_full))]
    pub fn is_full(self) -> bool
        ensures { result ≡ is_full self }
    {
        self.count >= RECORD_BYTES
    }

    // One more byte. A full reader takes none.
    #[tactic(auto, using(base::specs::Tests::tests), unfolding(crate::specs::Steps::step_of, crate::specs::Steps::is_full))]
    pub fn step(self, byte: u8) -> Reader
        ensures { result ≡ step_of self byte }
    {
        if self.is_full() {
            return self;
        }
        let count = self.count + 1;
        if self.count < BYTES_OF_WORD {
            return Reader {
                count,
                first: layout::with_byte(self.first, byte),
                ..self
            };
        }
        Reader {
            count,
            value: layout::with_byte(self.value, byte),
            ..self
        }
    }

    // What the bytes are that have been read, where none follow: a call, or nothing where there are none.
    #[tactic(auto, using(base::specs::Tests::tests), unfolding(crate::specs::Steps::reading_by))]
    pub fn reading(self) -> Result<Option<Call>, Status>
        ensures { result ≡ reading_by self }
    {
        if self.count == 0 {
            return Ok(None);
        }
        if self.count < RECORD_BYTES {
            return Err(Status::Trace);
        }
        reading_of(self.first, self.value)
    }
}

// The reader behind bytes that are at hand, those of a record at most.
fn reader_of(bytes: &[u8]) -> Reader
    ensures { result ≡ fold step_of new_reader (take record_bytes bytes.now) }
{
    bytes
        .iter()
        .take(RECORD_BYTES)
        .fold(Reader::new(), |reader, byte| reader.step(*byte))
}

// The reader, on bytes that are at hand: what stands at their start.
pub fn read(bytes: &[u8]) -> Result<Option<Call>, Status>
    ensures { result ≡ bytesReading bytes.now }
{
    reader_of(bytes).reading()
}
