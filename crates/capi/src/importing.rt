// Where the reader of an import stands in the words that C lends.
ghost use Rattle.std.specs.Prelude.{◌≤◌, ◌≡◌, length};
ghost use Rattle.capi.specs.Places.{reader_words, has_reader_places, read_reader, write_reader};
ghost use Rattle.capi.specs.Crossing.{reader_put};

use crate::places::has_answer;
use intel_hex::Reader;

// By the number that C is given: so reader_put says it, and its edit.
const OK: u64 = 0;

const UPPER_AT: usize = 0;

const ENDED_AT: usize = 1;

const READER_WORDS: usize = 2;

pub fn has_reader_places(reader: &[u64], answer: &[u64]) -> bool
    ensures { result ≡ has_reader_places reader.now answer.now }
{
    if reader.len() < READER_WORDS {
        return false;
    }
    has_answer(answer)
}

pub fn read_reader(reader: &[u64]) -> Reader
    requires { reader_words ≤ length reader.now }
    ensures { result ≡ read_reader reader.now }
{
    Reader {
        upper: reader[UPPER_AT],
        ended: reader[ENDED_AT] != 0,
    }
}

// The reader to its place, by the number of the answer. A refusal touches none of it: its words stay as they are, also where they are none that the
// library writes.
pub fn put_reader(reader: &mut [u64], number: u64, left: Reader)
    requires { reader_words ≤ length reader.old }
    ensures { reader.new ≡ reader_put reader.old number left }
{
    if number != OK {
        return;
    }
    reader[UPPER_AT] = left.upper;
    reader[ENDED_AT] = layout::bit(left.ended);
}
