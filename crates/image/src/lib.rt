// Images: the words of a memory as the bytes of a file, each word most significant byte first.
#![tactic(auto)]

ghost use Rattle.std.specs.Prelude.{◌+◌, ◌*◌, ◌≤◌, length, ◌≡◌};
ghost use Rattle.layout.specs.Bytes.{bytes_of_word};
ghost use Rattle.layout.specs.ByteWords.{words_of};
ghost use Rattle.text.specs.Printing.{Prints, PrintsOn};
ghost use Rattle.image.specs.Image.{image_of};

use text::Printer;

// The words of an image, to a memory of as many: `layout::read_words` under this name, so that who reads images and who writes them
// name one crate.
pub fn read(words: &mut [u64], image: &[u8])
    requires { length image.now ≡ bytes_of_word * length words.old }
    ensures { words.new ≡ words_of image.now }
{
    layout::read_words(words, image)
}

fn put_words(printer: &mut Printer<'_>, words: &[u64])
    requires { printer.old.used + bytes_of_word * length words.now ≤ length printer.old.out.now }
    ensures { PrintsOn (bytes_of_word * length words.now) printer.old (image_of words.now) printer.new }
{
    for word in words {
        printer.put(&layout::bytes_of(*word));
    }
}

// The image of the words of a memory, to the start of a buffer. Answers how many bytes it has.
pub fn write(out: &mut [u8], words: &[u64]) -> usize
    requires { bytes_of_word * length words.now ≤ length out.old }
    ensures { Prints (bytes_of_word * length words.now) out.old 0 (image_of words.now) out.new result }
{
    let mut printer = Printer::new(out, 0);
    put_words(&mut printer, words);
    printer.used
}
