// Bytes as digits, two to a byte, and digits as bytes. Loops over two slices go by number: behind a zip a proof knows nothing of what was
// written.
ghost use Rattle.std.specs.Prelude.{◌≡◌, ◌+◌, ◌*◌, ◌^◌, ◌<◌, ◌≤◌, ◌&&◌, [], ◌∷◌, length};
ghost use Rattle.std.proofs.lemmas.List.Edits.{sets};
ghost use Rattle.intel_hex.specs.Records.{digit, digit_bits, byte_digits, digits_of};
ghost use Rattle.intel_hex.specs.Promises.{Gap, PutsBytes, Means, ReadsValues, AreDigits, ReadsBytes};

const DIGIT_VALUES: u8 = 16;

const FIGURES: u8 = 10;

// How many characters stand between the figures and the letters.
const GAP: u8 = b'A' - b'9' - 1;

pub const BYTE_DIGITS: usize = 2;

fn gap_before(n: u8) -> u8
    ensures { Gap n result }
{
    if n < FIGURES {
        return 0;
    }
    GAP
}

// Not char::from_digit, which gives small letters: a record's are capitals.
fn digit(n: u8) -> u8
    requires { n < 2 ^ digit_bits }
    ensures { result ≡ digit n }
{
    b'0' + n + gap_before(n)
}

// What puts a part of a record is told its place, and no struct moves on through the text: the data are put before what stands ahead of them.
pub fn put_byte(text: &mut [u8], at: usize, byte: u8)
    requires { at + 1 < length text.old }
    ensures { text.new ≡ sets text.old at (digits_of (byte ∷ [])) }
{
    text[at] = digit(byte / DIGIT_VALUES);
    text[at + 1] = digit(byte % DIGIT_VALUES);
}

// Answers the sum of the bytes. It is taken in the same loop, of which compilers make vector instructions.
pub fn put_bytes(text: &mut [u8], at: usize, bytes: &[u8]) -> u8
    requires { at + byte_digits * length bytes.now ≤ length text.old }
    ensures { PutsBytes bytes.now text.old at text.new result }
{
    let mut sum: u8 = 0;
    for (i, byte) in bytes.iter().enumerate() {
        put_byte(text, at + BYTE_DIGITS * i, *byte);
        sum = sum.wrapping_add(*byte);
    }
    sum
}

// How many letters are digits. A small letter has one bit more than the capital one.
const LETTERS: u8 = DIGIT_VALUES - FIGURES;

const SMALL: u8 = b'a' - b'A';

// What a character stands for, if it is a digit in either case. Not char::to_digit: a char would be made of each byte for it, and a byte again
// of its u32.
fn read_character(c: u8) -> Option<u8>
    ensures { Means c result }
{
    let figure = c.wrapping_sub(b'0');
    if figure < FIGURES {
        return Some(figure);
    }
    let letter = (c | SMALL).wrapping_sub(b'a');
    if letter < LETTERS {
        return Some(letter + FIGURES);
    }
    None
}

// Answers whether all characters are digits. All values are written to a lent slice, also behind one that is none: no test ends the loop, of
// which compilers make vector instructions, and of the next.
pub fn read_values(into: &mut [u8], characters: &[u8]) -> bool
    requires { length into.old ≡ length characters.now }
    ensures { ReadsValues characters.now into.new result }
{
    let mut all = true;
    for (i, c) in characters.iter().enumerate() {
        let read = read_character(*c);
        into[i] = read.unwrap_or(0);
        all &= read.is_some();
    }
    all
}

// The bytes whose digits have these values. Answers their sum.
pub fn read_bytes(into: &mut [u8], values: &[u8]) -> u8
    requires values_len { length values.now ≡ byte_digits * length into.old }
    requires digits { AreDigits values.now }
    ensures { ReadsBytes values.now into.new result }
{
    let mut sum: u8 = 0;
    for (i, byte) in into.iter_mut().enumerate() {
        let high = values[BYTE_DIGITS * i];
        let low = values[BYTE_DIGITS * i + 1];
        *byte = high * DIGIT_VALUES + low;
        sum = sum.wrapping_add(*byte);
    }
    sum
}
