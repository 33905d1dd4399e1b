// Runs a recorded trace on a fresh board that has powered up: `loomtrace N L S FILE`. Prints one line, the name of what ended the run and the
// totals of the board stores that loads, stores, evictions and scans made. The file may be of any length: it goes through a buffer
// of a fixed size.
#![tactic(auto)]

ghost use Rattle.std.specs.Prelude.{◌≤◌, length, IfSome};
ghost use Rattle.benchboard.specs.Sizes.{bench_board, bench_work};
ghost use Rattle.layout.specs.Memory.{board_words, work_words};

use benchboard::{BOARD_WORDS, WORK_WORDS};
use checks::Registers;
use script::{Command, Reader};
use status::Status;
use std::env::FillError;
use std::io::Read;
use std::ops::ControlFlow;
use std::rt::{Env, Files};
use std::{fs, io, str};
use trace::Run;

// The places of the arguments, behind the program's name, and how many words that makes.
const FIRST_SIZE: usize = 1;

const FILE: usize = 4;

const WORDS: usize = 5;

// An argument has no more bytes, and a line has no more.
const TEXT_BYTES: usize = 4096;

// A read of the file goes through a buffer of so many bytes.
const FILE_BYTES: usize = 65536;

// Reads once. The run goes on where the file may have more for it. Run, board and work memory go beside each other, here and below,
// since `trace`'s functions, to which they all go, take them so.
fn run_some(
    run: Run,
    file: &mut impl Read,
    board: &mut [u64],
    work: &mut [u64],
) -> ControlFlow<Run, Run> {
    let mut input = [0u8; FILE_BYTES];
    match file.read(&mut input) {
        Err(_) => ControlFlow::Break(trace::fail(run, board, work)),
        Ok(0) => ControlFlow::Break(trace::finish(run, board, work)),
        Ok(count) => run_bytes(run, &input[..count], board, work),
    }
}

fn run_bytes(run: Run, input: &[u8], board: &mut [u64], work: &mut [u64]) -> ControlFlow<Run, Run> {
    let after = trace::feed_bytes(run, input, board, work);
    match after.status {
        Status::Ok => ControlFlow::Continue(after),
        _ => ControlFlow::Break(after),
    }
}

// A proved loop has to end, and nothing says that a file does: no run uses up so many turns.
fn run_all(run: Run, file: &mut impl Read, board: &mut [u64], work: &mut [u64]) -> Run {
    let mut run = run;
    for _ in 0..u64::MAX {
        match run_some(run, file, board, work) {
            ControlFlow::Continue(after) => run = after,
            ControlFlow::Break(last) => return last,
        }
    }
    run
}

// An argument, in a buffer. One that is missing or too long is empty.
// It is read by its bytes: `env::args` fails for all arguments where one is no text, and here that one alone is no number, or no
// file's name.
fn argument<'a>(rt: &impl Env, place: usize, buffer: &'a mut [u8]) -> &'a [u8]
    ensures { length result.now ≤ length buffer.old }
{
    let length = rt.arg(place, buffer).unwrap_or(0);
    &buffer[..length]
}

// The file, opened. A name that is no text names none.
fn open_file<R: Env + Files>(rt: &R) -> Option<R::File> {
    let mut buffer = [0u8; TEXT_BYTES];
    let name = argument(rt, FILE, &mut buffer);
    let name = str::from_utf8(name).ok()?;
    fs::open(rt, name).ok()
}

fn run_file<R: Env + Files>(rt: &R, run: Run, board: &mut [u64], work: &mut [u64]) -> Run {
    match open_file(rt) {
        Some(mut file) => run_all(run, &mut file, board, work),
        None => trace::fail(run, board, work),
    }
}

fn is_given(rt: &impl Env, place: usize) -> bool {
    let mut buffer = [0u8; TEXT_BYTES];
    !matches!(rt.arg(place, &mut buffer), Err(FillError::NotPresent))
}

// A space and an argument. One that is missing or too long is empty here, and so no number.
fn step_argument(rt: &impl Env, reader: Reader, place: usize) -> Reader {
    let mut buffer = [0u8; TEXT_BYTES];
    let mut reader = reader.step(b' ');
    for byte in argument(rt, place, &mut buffer) {
        reader = reader.step(*byte);
    }
    reader
}

// N, L and S are what the replay reads in its line `n N L S`: an argument that has a space is no number there either. None, where the
// arguments are others, or these are not the sizes of a bench.
fn sizes(rt: &impl Env) -> Option<(u64, u64, u64)>
    ensures board { IfSome result (λ sizes. board_words sizes.0 sizes.1 ≤ bench_board) }
    ensures work { IfSome result (λ sizes. work_words sizes.2 ≤ bench_work) }
{
    if !is_given(rt, FILE) || is_given(rt, WORDS) {
        return None;
    }
    let mut reader = Reader::new().step(b'n');
    // The places of arguments, which are in no slice.
    for place in FIRST_SIZE..FILE {
        reader = step_argument(rt, reader, place);
    }
    match reader.command()? {
        Command::Format(lines, entries, slots)
            if benchboard::is_bench_sized(lines, entries, slots) => {
            Some((lines, entries, slots))
        }
        _ => None,
    }
}

// The run that the arguments ask for. The board powers up before the file is opened.
fn run_arguments<R: Env + Files>(rt: &R) -> Option<Run> {
    let (lines, entries, slots) = sizes(rt)?;
    // Of the largest sizes, and lent in part: fixed memory.
    let mut board = [0u64; BOARD_WORDS];
    let mut work = [0u64; WORK_WORDS];
    let board = &mut board[..layout::board_words(lines, entries)];
    let work = &mut work[..layout::work_words(slots as usize)];
    let run = trace::start(board, work, lines, entries);
    match run.status {
        Status::Ok => Some(run_file(rt, run, board, work)),
        _ => Some(run),
    }
}

fn main(rt: HostRuntime) -> io::Result<()> {
    let refused = Run::new(Status::Shape, Registers::all_zero());
    let run = run_arguments(&rt).unwrap_or(refused);
    let mut out = [0u8; TEXT_BYTES];
    let length = trace::put_line(&mut out, run);
    rt.write_all(&out[..length])
}
