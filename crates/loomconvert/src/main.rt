// Converts the image of a board in the old layout, from standard input, to its image in today's layout, on standard
// output. Of a refusal it writes the name and a line feed.
#![tactic(auto)]

ghost use Rattle.std.specs.Prelude.{◌+◌, ◌≤◌, ◌≡◌, length, take, MatchResult, IfOk};
ghost use Rattle.benchboard.specs.Sizes.{bench_sized};
ghost use Rattle.convert.specs.Old.{old_shape_in};
ghost use Rattle.text.specs.Printing.{Prints, PrintsOn};
ghost use Rattle.image.specs.Image.{image_of};
ghost use Rattle.loomconvert.specs.Output.{most_refusal, most_output, refusal_text, words_text, output, no_slots};

use benchboard::BOARD_WORDS;
use layout::{BYTES_OF_WORD, LOG_AT, SHAPE_AT, Shape};
use status::Status;
use std::io;
use std::io::Read;
use text::Printer;

// The bytes of the largest image.
const MOST_BYTES: usize = BYTES_OF_WORD * BOARD_WORDS;

// So many bytes of the input are read, if it has as many: then it is no image, since the largest has fewer.
const READ_BYTES: usize = 65536;

// A board by itself has no slots, and so no more than a bench has.
const NO_SLOTS: u64 = 0;

fn put_line(printer: &mut Printer<'_>, status: Status)
    requires { printer.old.used + most_refusal ≤ length printer.old.out.now }
    ensures { PrintsOn most_refusal printer.old (refusal_text status) printer.new }
{
    printer.put_name(status);
    printer.put_byte(b'\n');
}

fn put_refusal(out: &mut [u8], status: Status) -> usize
    requires { most_refusal ≤ length out.old }
    ensures { Prints most_refusal out.old 0 (refusal_text status) out.new result }
{
    let mut printer = Printer::new(out, 0);
    put_line(&mut printer, status);
    printer.used
}

// Whether a board has the replay's sizes. One that is too short to tell has no lines: the conversion refuses it.
fn is_bench_sized(old: &[u64]) -> bool
    ensures { result ≡ bench_sized (old_shape_in old.now).lines (old_shape_in old.now).entries no_slots }
{
    if old.len() < LOG_AT {
        return true;
    }
    let shape = Shape::from(old[SHAPE_AT]);
    benchboard::is_bench_sized(shape.lines, shape.entries, NO_SLOTS)
}

// Converts the words of an old board, to a memory of as many.
fn convert_words(old: &[u64], board: &mut [u64]) -> Result<(), Status>
    requires { length board.old ≡ length old.now }
    ensures { MatchResult result (λ _. words_text old.now ≡ image_of board.new) (λ why. words_text old.now ≡ refusal_text why) }
{
    if !is_bench_sized(old) {
        return Err(Status::Shape);
    }
    let report = convert::convert(old, board);
    match report.status {
        Status::Ok => Ok(()),
        why => Err(why),
    }
}

// Converts an image, to the first words of a board. Answers how many these are. The memories are arrays of the largest size, lent in
// part: a Vec could fail here, and a conversion can't.
fn convert_image(image: &[u8], board: &mut [u64; BOARD_WORDS]) -> Result<usize, Status>
    ensures words { MatchResult result (λ n. output image.now ≡ image_of (take n board.new)) (λ why. output image.now ≡ refusal_text why) }
    ensures most { IfOk result (λ n. n ≤ BOARD_WORDS) }
{
    if image.len() > MOST_BYTES {
        return Err(Status::Shape);
    }
    if image.len() % BYTES_OF_WORD != 0 {
        return Err(Status::Shape);
    }
    let count = image.len() / BYTES_OF_WORD;
    let mut memory = [0u64; BOARD_WORDS];
    let old = &mut memory[..count];
    image::read(old, image);
    convert_words(old, &mut board[..count])?;
    Ok(count)
}

// What is written for this input, to the start of a buffer. Answers how many bytes that is.
fn put_output(out: &mut [u8; MOST_BYTES], input: &[u8]) -> usize
    ensures { Prints most_output out.old 0 (output input.now) out.new result }
{
    let mut board = [0u64; BOARD_WORDS];
    match convert_image(input, &mut board) {
        Ok(words) => image::write(out, &board[..words]),
        Err(why) => put_refusal(out, why),
    }
}

// Puts the input to the start of a buffer, or its first bytes, where it has more. Answers how many: none, where a read fails, since what
// can't be read is no image. No Vec, as above; and no `io::copy`, whose reads are shorter: what comes as one packet would be cut.
fn read_input(source: &mut impl Read, input: &mut [u8]) -> usize
    ensures { result ≤ length input.new }
{
    let mut count = 0;
    while count < input.len() {
        match source.read(&mut input[count..]) {
            Err(_) => return 0,
            Ok(0) => break,
            Ok(more) => count += more,
        }
    }
    count
}

fn main(rt: HostRuntime) -> io::Result<()> {
    let mut input = [0u8; READ_BYTES];
    let mut out = [0u8; MOST_BYTES];
    let count = read_input(&mut rt.stdin(), &mut input);
    let length = put_output(&mut out, &input[..count]);
    rt.write_all(&out[..length])
}
