// Runs a trace: recorded calls, one after the other, on a fresh board that has powered up, and the totals of the board stores that they make.
// The bytes of the trace come in parts of any length.
#![tactic(auto)]

ghost use Rattle.std.specs.Prelude.{◌≡◌, ◌+◌, ◌<◌, ◌≤◌, length};
ghost use Rattle.benchboard.specs.Calls.{started};
ghost use Rattle.text.specs.Printing.{Prints, PrintsOn};
ghost use Rattle.trace.specs.Run.{plus, counted, started_state, called, line_text};
ghost use Rattle.trace.specs.Steps.{machine_of, new_run, reading_run, ended_run, resting, turned, stepped, has_record, fed, finished, broken};
ghost use Rattle.trace.specs.Promises.{Runs, Feeds};
ghost use Rattle.trace.specs.Line.{longest};

use benchboard::FULL_ALLOWANCE;
use checks::Registers;
use records::{Call, RECORD_BYTES, Reader};
use status::Status;
use text::Printer;

// The board stores made by the calls of each kind, each a sum modulo 2^64. Commits make none.
#[derive(Clone, Copy, Default, PartialEq, Eq)]
pub struct Totals {
    pub loads: u64,
    pub stores: u64,
    pub evictions: u64,
    pub scans: u64,
}

// A run between two bytes of its trace. The memories are the caller's, of any length, and stay two slices beside it: `start`,
// `feed_bytes`, `finish` and `fail` promise what they leave on each (`Runs`).
#[derive(Clone, Copy)]
pub struct Run {
    // What has ended the run, or ok. The line prints ok as it prints the others, so an Option would be turned back into it there.
    pub status: Status,
    pub registers: Registers,
    pub totals: Totals,
    // The record whose bytes are coming in.
    reader: Reader,
}

fn sum(total: u64, stores: u32) -> u64
    ensures { result ≡ plus total stores }
{
    total.wrapping_add(u64::from(stores))
}

impl Totals {
    // The totals once a call has answered that it made so many stores.
    pub fn counting(self, call: Call, stores: u32) -> Totals
        ensures { result ≡ counted self call stores }
    {
        match call {
            Call::Load(_) => Totals {
                loads: sum(self.loads, stores),
                ..self
            },
            Call::Store(_, _) => Totals {
                stores: sum(self.stores, stores),
                ..self
            },
            Call::Evict(_) => Totals {
                evictions: sum(self.evictions, stores),
                ..self
            },
            Call::Scan => Totals {
                scans: sum(self.scans, stores),
                ..self
            },
            Call::Commit => self,
        }
    }
}

impl Run {
    // A run that begins, or that something has ended before its first record.
    pub fn new(status: Status, registers: Registers) -> Run
        ensures { result ≡ new_run status registers }
    {
        Run {
            status,
            registers,
            totals: Totals::default(),
            reader: Reader::new(),
        }
    }

    // The same run with so much of its next record.
    fn reading(self, reader: Reader) -> Run
        ensures { result ≡ reading_run self reader }
    {
        Run { reader, ..self }
    }

    fn ended(self, status: Status) -> Run
        ensures { result ≡ ended_run self status }
    {
        Run {
            status,
            reader: Reader::new(),
            ..self
        }
    }
}

// Format and power-up, on the words that are the board and the work memory of the run.
pub fn start(board: &mut [u64], work: &mut [u64], lines: u64, entries: u64) -> Run
    ensures { Runs (resting (started_state (started lines entries board.old work.old))) board.new work.new result }
{
    let answer = benchboard::start(board, work, lines, entries);
    Run::new(answer.status, answer.registers)
}

fn perform(run: Run, call: Call, board: &mut [u64], work: &mut [u64]) -> Run
    ensures { Runs (resting (called (machine_of run board.old work.old).state call)) board.new work.new result }
{
    let answer = benchboard::perform(board, work, run.registers, call, FULL_ALLOWANCE);
    Run {
        registers: answer.registers,
        totals: run.totals.counting(call, answer.stores),
        reader: Reader::new(),
        ..run
    }
}

// A record's call, the end where there is none, or the refusal of what stands in its place.
#[tactic(auto, unfolding(crate::specs::Run::turn, crate::specs::Run::taken))]
fn take(run: Run, reading: Result<Option<Call>, Status>, board: &mut [u64], work: &mut [u64]) -> Run
    ensures { Runs (turned (machine_of run board.old work.old) reading) board.new work.new result }
{
    if run.status != Status::Ok {
        return run.ended(run.status);
    }
    match reading {
        Ok(Some(call)) => perform(run, call, board, work),
        Ok(None) => run.ended(run.status),
        Err(refusal) => run.ended(refusal),
    }
}

// One byte of the trace.
fn feed(run: Run, byte: u8, board: &mut [u64], work: &mut [u64]) -> Run
    ensures { Runs (stepped (machine_of run board.old work.old) byte) board.new work.new result }
{
    let next = run.reader.step(byte);
    if !next.is_full() {
        return run.reading(next);
    }
    take(run, next.reading(), board, work)
}

// Whether the next bytes, so many of them, begin with a whole record.
#[tactic(auto, unfolding(crate::specs::Steps::has_record))]
fn has_record(reader: Reader, count: usize) -> bool
    ensures { result ≡ has_record reader count }
{
    reader.is_new() && count >= RECORD_BYTES
}

// Some bytes of the trace: a whole record, or else one byte. Answers how many.
fn feed_some(run: &mut Run, input: &[u8], board: &mut [u64], work: &mut [u64]) -> usize
    requires { 0 < length input.now }
    ensures { Feeds (machine_of run.old board.old work.old) input.now board.new work.new run.new result }
{
    if has_record(run.reader, input.len()) {
        *run = take(*run, records::read(input), board, work);
        return RECORD_BYTES;
    }
    *run = feed(*run, input[0], board, work);
    1
}

// Bytes of the trace.
pub fn feed_bytes(mut run: Run, input: &[u8], board: &mut [u64], work: &mut [u64]) -> Run
    ensures { Runs (fed (machine_of run board.old work.old) input.now) board.new work.new result }
{
    let mut rest = input;
    // A while loop: each turn takes a whole record, or else one byte.
    while !rest.is_empty() {
        let taken = feed_some(&mut run, rest, board, work);
        rest = &rest[taken..];
    }
    run
}

// The end of the trace: what is left of it is a record that ends early.
pub fn finish(run: Run, board: &mut [u64], work: &mut [u64]) -> Run
    ensures { Runs (finished (machine_of run board.old work.old)) board.new work.new result }
{
    take(run, run.reader.reading(), board, work)
}

// The trace can not be read, or not be read on.
pub fn fail(run: Run, board: &mut [u64], work: &mut [u64]) -> Run
    ensures { Runs (broken (machine_of run board.old work.old)) board.new work.new result }
{
    take(run, Err(Status::Trace), board, work)
}

// The line of a run: the name of what ended it, and the totals.
fn put_run(printer: &mut Printer<'_>, run: Run)
    requires { printer.old.used + longest ≤ length printer.old.out.now }
    ensures { PrintsOn longest printer.old (line_text run.status run.totals) printer.new }
{
    let totals = run.totals;
    let numbers = [totals.loads, totals.stores, totals.evictions, totals.scans];
    printer.put_name(run.status);
    printer.put_numbers(&numbers);
    printer.put_byte(b'\n');
}

// Answers how many bytes the line has.
pub fn put_line(out: &mut [u8], run: Run) -> usize
    requires { longest ≤ length out.old }
    ensures { Prints longest out.old 0 (line_text run.status run.totals) out.new result }
{
    let mut printer = Printer::new(out, 0);
    put_run(&mut printer, run);
    printer.used
}
