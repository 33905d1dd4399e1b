// A replay's text: a script goes in byte by byte, and the lines that it prints are put into a buffer that the caller lends and
// empties. Board, work memory and buffer stay three slices beside the session: they are the caller's, of any length that is enough,
// and `feed_bytes` and `finish` promise what they leave on each (`Feeds`, `Turns`).
#![tactic(auto)]

ghost use Rattle.std.specs.Prelude.{◌≡◌, ◌+◌, ◌≤◌, length};
ghost use Rattle.text.specs.Printing.{Prints, PrintsOn};
ghost use Rattle.transcript.specs.Text.{head_text, line_text, bad_text, reply_text};
ghost use Rattle.transcript.specs.Printing.{longest};
ghost use Rattle.transcript.specs.Script.{ends};
ghost use Rattle.transcript.specs.Session.{new_session, emptied_session, reading_session, closed_session, machine_of, roomy};
ghost use Rattle.transcript.specs.Session.{line_turn, feed_turn, finish_turn, Ready, Turns, Feeds};

use replay::{Bench, Line, Reply};
use script::Reader;
use status::Status;
use text::Printer;

// The most bytes of a line: letter, space and name, six numbers with a space before each, and the line feed.
const LONGEST_LINE: usize = 137;

// A replay between two bytes of its script.
#[derive(Clone, Copy)]
pub struct Session {
    pub bench: Option<Bench>,
    pub reader: Reader,
    // The number of the line that is being read, counted from 1, and whether it has a byte. No Option of the reader: a line with no
    // byte is asked too what it is.
    pub number: u64,
    pub begun: bool,
    // Whether the replay has ended: what follows in the script is not read. It still has its bench, and so much in the buffer.
    pub over: bool,
    // How many bytes of the buffer have been printed to. The buffer is the caller's, who empties it, and so no part of the session.
    pub used: usize,
}

// How many bytes were read of what was there, and the replay after them.
#[derive(Clone, Copy)]
pub struct Fed {
    pub session: Session,
    pub taken: usize,
}

// The letter, a space and the name. What prints asks for the room that it needs, and leaves less of it: so the room is no invariant of
// the printer.
fn put_head(printer: &mut Printer<'_>, letter: u8, status: Status)
    requires { printer.old.used + 10 ≤ length printer.old.out.now }
    ensures { PrintsOn 10 printer.old (head_text letter status) printer.new }
{
    printer.put_byte(letter);
    printer.put_byte(b' ');
    printer.put_name(status);
}

fn put_line(printer: &mut Printer<'_>, letter: u8, line: Line)
    requires { printer.old.used + longest ≤ length printer.old.out.now }
    ensures { PrintsOn longest printer.old (line_text letter line) printer.new }
{
    let numbers = [
        line.value,
        line.stores as u64,
        line.epoch,
        line.persisted,
        line.length,
        line.buffered,
    ];
    put_head(printer, letter, line.status);
    printer.put_numbers(&numbers);
    printer.put_byte(b'\n');
}

// A question mark and the number of the bad line.
fn put_bad(printer: &mut Printer<'_>, number: u64)
    requires { printer.old.used + longest ≤ length printer.old.out.now }
    ensures { PrintsOn longest printer.old (bad_text number) printer.new }
{
    printer.put_byte(b'?');
    printer.put_numbers(&[number]);
    printer.put_byte(b'\n');
}

fn put_said(printer: &mut Printer<'_>, letter: u8, reply: Reply, number: u64)
    requires { printer.old.used + longest ≤ length printer.old.out.now }
    ensures { PrintsOn longest printer.old (reply_text letter reply number) printer.new }
{
    match reply {
        Reply::Quiet => {}
        Reply::Said(line) => put_line(printer, letter, line),
        Reply::Last(line) => put_line(printer, letter, line),
        Reply::Bad => put_bad(printer, number),
    }
}

// The reply behind the bytes that are used. Answers how many then are.
fn put_reply(out: &mut [u8], used: usize, letter: u8, reply: Reply, number: u64) -> usize
    requires { used + longest ≤ length out.old }
    ensures { Prints longest out.old used (reply_text letter reply number) out.new result }
{
    let mut printer = Printer::new(out, used);
    put_said(&mut printer, letter, reply, number);
    printer.used
}

fn is_end(reply: Reply) -> bool
    ensures { result ≡ ends reply }
{
    matches!(reply, Reply::Last(_) | Reply::Bad)
}

impl Session {
    // The replay before the first byte of its script.
    pub fn new() -> Session
        ensures { result ≡ new_session }
    {
        Session {
            bench: None,
            reader: Reader::new(),
            number: 1,
            begun: false,
            over: false,
            used: 0,
        }
    }

    // The caller has taken what was printed: the buffer is empty.
    pub fn emptied(self) -> Session
        ensures { result ≡ emptied_session self }
    {
        Session { used: 0, ..self }
    }

    // Whether a buffer of so many bytes has room for one more line.
    #[tactic(auto, using(base::specs::Tests::tests), unfolding(crate::specs::Session::roomy))]
    pub fn is_roomy(self, bytes: usize) -> bool
        ensures { result ≡ roomy self.used bytes }
    {
        bytes >= LONGEST_LINE && self.used <= bytes - LONGEST_LINE
    }

    // One more byte of the line that is being read.
    fn read(&mut self, byte: u8)
        ensures { self.new ≡ reading_session self.old byte }
    {
        self.reader = self.reader.step(byte);
        self.begun = true;
    }

    fn closed(self) -> Session
        ensures { result ≡ closed_session self }
    {
        Session {
            begun: false,
            over: true,
            ..self
        }
    }
}

// The line that has been read is performed. No script has 2^64 lines, so its number does not wrap.
fn end_line(session: Session, board: &mut [u64], work: &mut [u64], out: &mut [u8]) -> Session
    requires { Ready session board.old work.old out.old }
    ensures { Turns (session.used + longest) session out.old (line_turn (machine_of session board.old work.old)) board.new work.new out.new result }
{
    let step = replay::perform(board, work, session.bench, session.reader.command());
    let letter = session.reader.letter();
    Session {
        bench: step.bench,
        reader: Reader::new(),
        number: session.number.wrapping_add(1),
        begun: false,
        over: is_end(step.reply),
        used: put_reply(out, session.used, letter, step.reply, session.number),
    }
}

// One byte of the script. The session is changed in its place: most bytes change its reader alone, and a copy of the whole would more than double
// what they cost.
fn feed(session: &mut Session, byte: u8, board: &mut [u64], work: &mut [u64], out: &mut [u8])
    requires { Ready session.old board.old work.old out.old }
    ensures { Turns (session.old.used + longest) session.old out.old (feed_turn (machine_of session.old board.old work.old) byte) board.new work.new out.new session.new }
{
    if session.over {
        return;
    }
    if byte == b'\n' {
        *session = end_line(*session, board, work, out);
        return;
    }
    session.read(byte);
}

// Bytes of the script, one after the other: all of them, or until the buffer may not hold one more line.
pub fn feed_bytes(
    mut session: Session,
    input: &[u8],
    board: &mut [u64],
    work: &mut [u64],
    out: &mut [u8],
) -> Fed
    requires { Ready session board.old work.old out.old }
    ensures { Feeds session input.now board.old work.old out.old board.new work.new out.new result }
{
    for (taken, byte) in input.iter().enumerate() {
        if !session.is_roomy(out.len()) {
            return Fed { session, taken };
        }
        feed(&mut session, *byte, board, work, out);
    }
    Fed {
        session,
        taken: input.len(),
    }
}

// The end of the script: a last line with no line feed is a line, if it has a byte.
pub fn finish(session: Session, board: &mut [u64], work: &mut [u64], out: &mut [u8]) -> Session
    requires { Ready session board.old work.old out.old }
    ensures { Turns (session.used + longest) session out.old (finish_turn (machine_of session board.old work.old)) board.new work.new out.new result }
{
    if session.over {
        return session;
    }
    if !session.begun {
        return session.closed();
    }
    end_line(session, board, work, out).closed()
}
