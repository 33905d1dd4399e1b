// The names of the numbers, held unpadded, end to end, and not each by itself: `letters_many` says that they take as many bytes as they
// have letters. They are bytes, since boards are short of memory: with a &str of all letters picl_name takes 350 bytes of code on x86-64
// in place of 110. Nothing outside this file knows how.
ghost use Rattle.std.specs.Prelude.{◌<◌, ◌≡◌, length};
ghost use Rattle.status.specs.Names.{names, PutsName};
ghost use Rattle.status.specs.Letters.{letters, starts, Spans};

// The numbers below have a name each.
const NAMES: usize = 19;

const LETTERS: usize = 92;

// The names in the order of their numbers, as many bytes as they have letters. A function and no constant: its clause says that these are
// the names of specs/.
fn letters() -> [u8; LETTERS]
    ensures { result ≡ letters }
{
    *b"okshapeworkentryregsaddressslotbufferroomwaitinglastnonecuttracefiltertargetshortpastlogheld"
}

// Where each name starts among the letters, and where the last one ends.
fn starts() -> [u8; NAMES + 1]
    ensures { result ≡ starts }
{
    [
        0, 2, 7, 11, 16, 20, 27, 31, 37, 41, 48, 52, 56, 59, 64, 70, 76, 81, 85, 92,
    ]
}

// The letters of one name: from start up to, not including, end. Not a Range: Spans says of its two fields that they lie in order among
// the letters.
#[derive(Clone, Copy)]
struct Span {
    start: usize,
    end: usize,
}

fn span_of(number: usize) -> Span
    requires { number < length names }
    ensures { Spans number result }
{
    let starts = starts();
    let start = starts[number] as usize;
    let end = starts[number + 1] as usize;
    Span { start, end }
}

// Puts the name of a number at the start of a text, and answers how many letters it has: 0 for a number without a name, as C is
// told too, and so no Option. The bytes behind the name are not touched, and a text that is too short for it not at all.
pub fn put_name(text: &mut [u8], number: u64) -> usize
    ensures { PutsName number text.old text.new result }
{
    if number >= NAMES as u64 {
        return 0;
    }
    let span = span_of(number as usize);
    let start = span.start;
    let end = span.end;
    let count = end - start;
    if text.len() < count {
        return count;
    }
    let letters = letters();
    text[..count].copy_from_slice(&letters[start..end]);
    count
}
