// One line of a bench program's script, read byte by byte: `n N L S`, `s a value`, `l a`, `e a`,
// `c`, `a`, `p` or `k count`. The reader keeps numbers and no bytes, so a line may be of any length.
#![tactic(auto)]

ghost use Rattle.std.specs.Prelude.{◌≡◌, []};
ghost use Rattle.script.specs.Steps.{ended, lettered, digited, line_step, line_command, reader_of, step_of, letter_by, command_by};

use records::Call;

const SPACE: u8 = b' ';

const ZERO: u8 = b'0';

const TEN: u64 = 10;

// The most numbers that a letter has: those of `n`.
const MOST: usize = 3;

// What a line asks for.
#[derive(Clone, Copy, PartialEq, Eq)]
pub enum Command {
    // `n N L S`: no struct of the three, which are taken apart at once: N and L are the board's size, S the work memory's.
    Format(u64, u64, u64),
    // `s a value`, `l a`, `e a`, `c` or `a`
    Call(Call),
    // `p`
    PowerUp,
    // `k count`
    Allow(u32),
}

// What is known of a line whose first bytes have been read.
#[derive(Clone, Copy)]
struct Line {
    letter: u8,
    // How many numbers have begun: as many as there were spaces.
    count: usize,
    // The last numbers that have begun. The one that is being read stands last. An array beside a count: there is no heap here.
    numbers: [u64; MOST],
    // Whether the field that is being read has a byte. It is asked of the letter and of every number alike, so none of them is an
    // Option.
    full: bool,
}

impl Line {
    // One more byte. None where only bad lines begin so.
    #[tactic(auto, using(crate::specs::Laws::tests), unfolding(crate::specs::Steps::line_step))]
    fn step(self, byte: u8) -> Option<Line>
        ensures { result ≡ line_step self byte }
    {
        if byte == SPACE {
            return self.end_field();
        }
        if self.count == 0 {
            return self.take_letter(byte);
        }
        self.take_digit(byte)
    }

    // A space: the field before it has a byte, and a number is to follow.
    #[tactic(auto, using(crate::specs::Laws::tests), unfolding(crate::specs::Steps::ended))]
    fn end_field(self) -> Option<Line>
        ensures { result ≡ ended self }
    {
        if !self.full || self.count >= MOST {
            return None;
        }
        let [_, second, third] = self.numbers;
        Some(Line {
            count: self.count + 1,
            numbers: [second, third, 0],
            full: false,
            ..self
        })
    }

    // A byte before any space: the first is the letter, and there is no second.
    #[tactic(auto, unfolding(crate::specs::Steps::lettered))]
    fn take_letter(self, letter: u8) -> Option<Line>
        ensures { result ≡ lettered self letter }
    {
        if self.full {
            return None;
        }
        Some(Line {
            letter,
            full: true,
            ..self
        })
    }

    // A byte of a number: a digit that keeps the number below 2^64.
    #[tactic(auto, using(crate::specs::Laws::tests), unfolding(crate::specs::Steps::digited))]
    fn take_digit(self, byte: u8) -> Option<Line>
        ensures { result ≡ digited self byte }
    {
        if !byte.is_ascii_digit() {
            return None;
        }
        let digit = u64::from(byte - ZERO);
        let [first, second, third] = self.numbers;
        let longer = third.checked_mul(TEN)?.checked_add(digit)?;
        Some(Line {
            numbers: [first, second, longer],
            full: true,
            ..self
        })
    }

    // What the line asks for, at its end.
    #[tactic(auto, using(crate::specs::Laws::tests), unfolding(crate::specs::Steps::line_command, crate::specs::Steps::numbers_of, crate::specs::Syntax::command_with))]
    fn command(self) -> Option<Command>
        ensures { result ≡ line_command self }
    {
        if !self.full {
            return None;
        }
        let [first, second, third] = self.numbers;
        match (self.letter, self.count) {
            (b'c', 0) => Some(Command::Call(Call::Commit)),
            (b'a', 0) => Some(Command::Call(Call::Scan)),
            (b'p', 0) => Some(Command::PowerUp),
            (b'l', 1) => Some(Command::Call(Call::Load(third))),
            (b'e', 1) => Some(Command::Call(Call::Evict(third))),
            (b'k', 1) => u32::try_from(third).ok().map(Command::Allow),
            (b's', 2) => Some(Command::Call(Call::Store(second, third))),
            (b'n', MOST..) => Some(Command::Format(first, second, third)),
            _ => None,
        }
    }
}

// A line whose first bytes have been read: none where only bad lines begin so.
#[derive(Clone, Copy)]
pub struct Reader {
    line: Option<Line>,
}

impl Reader {
    // The reader at the start of a line.
    #[tactic(auto, unfolding(crate::specs::Steps::reader_of))]
    pub fn new() -> Reader
        ensures { result ≡ reader_of [] }
    {
        Reader {
            line: Some(Line {
                letter: 0,
                count: 0,
                numbers: [0; MOST],
                full: false,
            }),
        }
    }

    // One more byte of the line. The line feed is no byte of it.
    pub fn step(self, byte: u8) -> Reader
        ensures { result ≡ step_of self byte }
    {
        Reader {
            line: self.line.and_then(|line| line.step(byte)),
        }
    }

    // The letter of a line that is not bad, and 0 of a bad one (`letter_by`): no Option, since what a bad line prints has no letter.
    pub fn letter(self) -> u8
        ensures { result ≡ letter_by self }
    {
        self.line.map_or(0, |line| line.letter)
    }

    // What the line asks for, at its end. None where it is bad.
    pub fn command(self) -> Option<Command>
        ensures { result ≡ command_by self }
    {
        self.line?.command()
    }
}
