// Text that is put into a buffer that the caller lends: bytes, names and decimal numbers, each behind what is there. Not by std's
// `write!`: to a lent slice it promises no byte, and a Vec would need a heap.
#![tactic(auto)]

ghost use Rattle.std.specs.Prelude.{◌≡◌, ◌+◌, ◌*◌, ◌≤◌, ◌<◌, [], ◌∷◌, length};
ghost use Rattle.status.specs.Names.{most_letters};
ghost use Rattle.text.specs.Text.{most_digits, number_bytes, decimal_of, numbers_text, name_text};
ghost use Rattle.text.specs.Printing.{PrintsOn};

use status::Status;

// The most digits of a number.
const DIGITS: usize = 20;

// A buffer, and how many bytes of it have been printed to. Who lends the buffer makes one call with its printer, of a function that
// prints all: behind several calls it isn't proved what the buffer holds. Those three lines stand in each such function: one that took
// the call as a closure would need its whole contract told again.
#[derive(Drop)]
pub struct Printer<'a> {
    pub out: &'a mut [u8],
    pub used: usize,
}

impl<'a> Printer<'a> {
    pub fn new(out: &'a mut [u8], used: usize) -> Printer<'a>
        ensures same { result.out.ghost_name ≡ out.entry.ghost_name }
        ensures whole { result.out.now ≡ out.old }
        ensures from { result.used ≡ used }
    {
        Printer { out, used }
    }

    pub fn put_byte(&mut self, byte: u8)
        requires { self.old.used < length self.old.out.now }
        ensures { PrintsOn 1 self.old (byte ∷ []) self.new }
    {
        self.out[self.used] = byte;
        self.used += 1;
    }

    pub fn put(&mut self, text: &[u8])
        requires { self.old.used + length text.now ≤ length self.old.out.now }
        ensures { PrintsOn (length text.now) self.old text.now self.new }
    {
        let end = self.used + text.len();
        self.out[self.used..end].copy_from_slice(text);
        self.used = end;
    }

    fn put_decimal(&mut self, n: u64)
        requires { self.old.used + most_digits ≤ length self.old.out.now }
        ensures { PrintsOn most_digits self.old (decimal_of n) self.new }
    {
        // `io` promises the digits as `decimal_of` has them, in a buffer and with their count.
        let mut digits = [0u8; DIGITS];
        let count = io::decimal(n, &mut digits);
        self.put(&digits[..count]);
    }

    // Each number with a space before it.
    pub fn put_numbers(&mut self, numbers: &[u64])
        requires { self.old.used + number_bytes * length numbers.now ≤ length self.old.out.now }
        ensures { PrintsOn (number_bytes * length numbers.now) self.old (numbers_text numbers.now) self.new }
    {
        for number in numbers {
            self.put_byte(b' ');
            self.put_decimal(*number);
        }
    }

    pub fn put_name(&mut self, status: Status)
        requires { self.old.used + most_letters ≤ length self.old.out.now }
        ensures { PrintsOn most_letters self.old (name_text status) self.new }
    {
        self.used += status::put_name(&mut self.out[self.used..], u64::from(status));
    }
}
