// The fields of a packed word: "Fields are packed most significant bit first, widths in bits".
ghost use Rattle.std.specs.Prelude.{◌+◌, ◌<◌, ◌≤◌};

// A field of so many bits, and how many bits of the word lie below it.
#[derive(Clone, Copy)]
pub struct Field {
    pub below: u32,
    pub width: u32,
    ghost held: { 0 < width },
    ghost in_word: { below + width ≤ 64 },
}

impl Field {
    // The field's value in a word.
    pub fn of(self, word: u64) -> u64 {
        word << (u64::BITS - self.below - self.width) >> (u64::BITS - self.width)
    }

    // Whether a field of one bit is set in a word.
    pub fn is_set(self, word: u64) -> bool {
        self.of(word) != 0
    }

    // The word that has a value in this field, and 0 in all others.
    pub fn word(self, value: u64) -> u64 {
        value << self.below
    }
}
