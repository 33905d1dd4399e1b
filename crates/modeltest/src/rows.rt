// The rows of what the test has seen: a call's answers, and what an entry's span, an old board or an epoch has
// led to. A row is a set of numbers, which the report prints.
use crate::faults::Fault;
use crate::kinds::Kind;
use crate::large::Size;
use crate::spans::Span;
use std::fmt;

#[derive(Clone, Copy, PartialEq, Eq)]
pub enum Row {
    // What each call answers, and the converter, ..
    Call(Kind),
    Convert,
    // .. what power-up answers to each span that an entry of the log is given, ..
    LogSpan(Span),
    // .. what commit answers to each span that a buffered entry is given, ..
    BufferedSpan(Span),
    // .. which kinds of calls were accepted about an epoch, ..
    About(Mark),
    // .. what the converter answers to each fault of an old board, ..
    OldBoard(Fault),
    // .. and to each large size of one, ..
    OldSize(Size),
    // .. what format answers to each large size, ..
    FormatSize(Size),
    // .. and power-up to the longest log.
    FullLog,
}

const LOG_SPANS: usize = Kind::ALL.len() + 1;

const BUFFERED_SPANS: usize = LOG_SPANS + Span::ALL.len();

const MARKS: usize = BUFFERED_SPANS + Span::ALL.len();

const FAULTS: usize = MARKS + Mark::ALL.len();

const OLD_SIZES: usize = FAULTS + Fault::ALL.len();

const FORMAT_SIZES: usize = OLD_SIZES + Size::ALL.len();

const FULL_LOG: usize = FORMAT_SIZES + Size::ALL.len();

const ROWS: usize = FULL_LOG + 1;

impl Row {
    fn index(self) -> usize {
        match self {
            Row::Call(kind) => kind as usize,
            Row::Convert => Kind::ALL.len(),
            Row::LogSpan(span) => LOG_SPANS + span as usize,
            Row::BufferedSpan(span) => BUFFERED_SPANS + span as usize,
            Row::About(mark) => MARKS + mark as usize,
            Row::OldBoard(fault) => FAULTS + fault as usize,
            Row::OldSize(size) => OLD_SIZES + size as usize,
            Row::FormatSize(size) => FORMAT_SIZES + size as usize,
            Row::FullLog => FULL_LOG,
        }
    }
}

impl fmt::Display for Row {
    fn fmt<W: fmt::Write>(&self, f: &mut fmt::Formatter<W>) -> fmt::Result {
        match self {
            Row::Call(kind) => write!(f, "{kind}"),
            Row::Convert => write!(f, "convert"),
            Row::LogSpan(span) => write!(f, "log entry, {span}"),
            Row::BufferedSpan(span) => write!(f, "buffered entry, {span}"),
            Row::About(mark) => write!(f, "P below, s not below {mark}"),
            Row::OldBoard(fault) => write!(f, "old board, {fault}"),
            Row::OldSize(size) => write!(f, "old board, {size}"),
            Row::FormatSize(size) => write!(f, "format, {size}"),
            Row::FullLog => write!(f, "log of 4095 entries"),
        }
    }
}

// A set of numbers below 32, each a bit.
#[derive(Clone, Copy)]
pub struct Numbers(u32);

impl Numbers {
    pub const BOUND: u64 = 32;

    // Whether there is room for a number, which then is in the set.
    fn insert(&mut self, number: u64) -> bool {
        let fits = number < Numbers::BOUND;
        if fits {
            self.0 |= 1 << number;
        }
        fits
    }

    pub fn contains(self, number: u64) -> bool {
        number < Numbers::BOUND && self.0 & (1 << number) != 0
    }
}

impl fmt::Display for Numbers {
    fn fmt<W: fmt::Write>(&self, f: &mut fmt::Formatter<W>) -> fmt::Result {
        for number in 0..Numbers::BOUND {
            if self.contains(number) {
                write!(f, " {number}")?;
            }
        }
        Ok(())
    }
}

#[derive(Clone, Copy)]
pub struct Rows([Numbers; ROWS]);

impl Rows {
    pub fn empty() -> Rows {
        Rows([Numbers(0); ROWS])
    }

    pub fn of(&self, row: Row) -> Numbers {
        self.0.get(row.index()).copied().unwrap_or(Numbers(0))
    }

    // Whether a row has room for a number, which then is among its own.
    pub fn insert(&mut self, row: Row, number: u64) -> bool {
        match self.0.get_mut(row.index()) {
            Some(numbers) => numbers.insert(number),
            None => false,
        }
    }
}

// The epochs with a carry into bit 8, 16, 24, 32 and the uppermost, and the last one.
#[derive(Clone, Copy, PartialEq, Eq)]
pub enum Mark {
    Bit8,
    Bit16,
    Bit24,
    Bit32,
    Bit39,
    Last,
}

impl Mark {
    pub const ALL: [Mark; 6] = [
        Mark::Bit8,
        Mark::Bit16,
        Mark::Bit24,
        Mark::Bit32,
        Mark::Bit39,
        Mark::Last,
    ];

    pub fn epoch(self) -> u64 {
        match self {
            Mark::Bit8 => 1 << 8,
            Mark::Bit16 => 1 << 16,
            Mark::Bit24 => 1 << 24,
            Mark::Bit32 => 1 << 32,
            Mark::Bit39 => 1 << 39,
            Mark::Last => (1 << 40) - 1,
        }
    }
}

impl fmt::Display for Mark {
    fn fmt<W: fmt::Write>(&self, f: &mut fmt::Formatter<W>) -> fmt::Result {
        f.write_str(match self {
            Mark::Bit8 => "2^8",
            Mark::Bit16 => "2^16",
            Mark::Bit24 => "2^24",
            Mark::Bit32 => "2^32",
            Mark::Bit39 => "2^39",
            Mark::Last => "2^40 - 1",
        })
    }
}
