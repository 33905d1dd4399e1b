// A word as bytes, most significant first.
ghost use Rattle.std.specs.Prelude.{◌≡◌, ◌*◌, ◌≤◌, length, take};
ghost use Rattle.layout.specs.Bytes.{bytes_of_word, bytes_of, word_of, with_byte};
ghost use Rattle.layout.specs.ByteWords.{words_of};

pub const BYTES_OF_WORD: usize = 8;

const BYTE_BITS: u32 = 8;

// The library's to_be_bytes, its clause in this crate's own definition, which all laws on bytes speak of.
pub fn bytes_of(word: u64) -> [u8; BYTES_OF_WORD]
    ensures { result ≡ bytes_of word }
{
    word.to_be_bytes()
}

// The word with one more byte behind its bytes, of which the first drops out.
pub fn with_byte(word: u64, byte: u8) -> u64
    ensures { result ≡ with_byte word byte }
{
    (word << BYTE_BITS) + byte as u64
}

// The word that bytes are. A fold: with u64::from_be_bytes the compiler reads words by vectors, and a record of Intel HEX takes 253
// instructions for 244.
fn word_of(bytes: &[u8; BYTES_OF_WORD]) -> u64
    ensures { result ≡ word_of bytes.now }
{
    bytes.iter().fold(0, |word, byte| with_byte(word, *byte))
}

// The words that bytes are, to a memory of as many. No zip of words and parts: behind it a proof knows nothing of what was written.
pub fn read_words(words: &mut [u64], bytes: &[u8])
    requires { length bytes.now ≡ bytes_of_word * length words.old }
    ensures { words.new ≡ words_of bytes.now }
{
    let (parts, _) = bytes.as_chunks::<BYTES_OF_WORD>();
    for (k, word) in words.iter_mut().enumerate() {
        *word = word_of(&parts[k]);
    }
}
