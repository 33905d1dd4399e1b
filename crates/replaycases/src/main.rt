// Replays the scripts of the data folder, one after the other, each on a bench of its own, and compares what those of a file print
// with its file of expected output, byte for byte.
#![tactic(auto)]

ghost use Rattle.std.specs.Prelude.{◌≤◌, length};

use benchboard::{BOARD_WORDS, WORK_WORDS};
use std::io::Read;
use std::rt::Files;
use std::{fs, io, str};
use transcript::Session;

// What a file has behind so many bytes is not read, and what a script prints behind so many is not compared.
const BUFFER_BYTES: usize = 65536;

// The same of the names of the cases.
const NAMES_BYTES: usize = 4096;

// A name that has more names no file.
const NAME_BYTES: usize = 48;

// As long as the longer of the two suffixes of a case's files.
const SUFFIX_BYTES: usize = 9;

// It ends a script, and another begins behind it in the same file.
const BAR: u8 = b'|';

// Puts what the script prints into a buffer, and answers how many bytes that is. No case prints as much as the buffer holds. One that
// did would lack its last lines here, and fail. The memories are arrays of a bench's largest sizes: nothing here can fail.
fn print(script: &[u8], out: &mut [u8; BUFFER_BYTES]) -> usize
    ensures { result ≤ BUFFER_BYTES }
{
    let mut board = [0u64; BOARD_WORDS];
    let mut work = [0u64; WORK_WORDS];
    let fed = transcript::feed_bytes(Session::new(), script, &mut board, &mut work, out);
    let session = fed.session;
    if !session.is_roomy(BUFFER_BYTES) {
        return session.used;
    }
    let end = transcript::finish(session, &mut board, &mut work, out);
    end.used
}

// How many bytes two texts have in common before they differ, or one ends.
fn agreeing(a: &[u8], b: &[u8]) -> usize
    ensures { (result ≤ length a.now) × (result ≤ length b.now) }
{
    a.iter().zip(b).take_while(|(x, y)| x == y).count()
}

// The first place at which what the scripts of a file print, one after the other, is not what is expected.
fn difference(scripts: &[u8], expected: &[u8]) -> Option<usize> {
    let mut out = [0u8; BUFFER_BYTES];
    let mut agreed = 0;
    for script in scripts.split(|byte| *byte == BAR) {
        let printed = print(script, &mut out);
        let same = agreeing(&out[..printed], &expected[agreed..]);
        agreed += same;
        if same < printed {
            return Some(agreed);
        }
    }
    if agreed < expected.len() {
        return Some(agreed);
    }
    None
}

// The file of a case's name and a suffix, opened. A name that is no text names none. Names and files are read into arrays, which a heap
// has no part in: no memory can run out here.
fn open<R: Files>(rt: &R, name: &[u8], suffix: &[u8]) -> io::Result<R::File> {
    if name.len() > NAME_BYTES {
        return fs::open(rt, "");
    }
    let mut path = [0u8; NAME_BYTES + SUFFIX_BYTES];
    for (place, byte) in path.iter_mut().zip(name.iter().chain(suffix)) {
        *place = *byte;
    }
    let end = name.len() + suffix.len().min(SUFFIX_BYTES);
    match str::from_utf8(&path[..end]) {
        Ok(path) => fs::open(rt, path),
        Err(_) => Err(io::Error::from(io::ErrorKind::InvalidInput)),
    }
}

// Puts the first bytes of a file into a buffer: what comes until that is full, the file is at its end, or a read fails. Answers how many.
fn read(mut file: impl Read + Drop, bytes: &mut [u8]) -> usize
    ensures { result ≤ length bytes.new }
{
    let mut count = 0;
    while count < bytes.len() {
        let more = file.read(&mut bytes[count..]).unwrap_or(0);
        if more == 0 {
            break;
        }
        count += more;
    }
    count
}

// Prints the case's line, and answers whether the case passed.
fn judge<R: Files + Print>(
    rt: &R,
    name: &[u8],
    scripts: R::File,
    expected: R::File,
) -> io::Result<bool> {
    let mut script = [0u8; BUFFER_BYTES];
    let mut wanted = [0u8; BUFFER_BYTES];
    let script_bytes = read(scripts, &mut script);
    let wanted_bytes = read(expected, &mut wanted);
    let place = difference(&script[..script_bytes], &wanted[..wanted_bytes]);
    rt.write_all(name)?;
    match place {
        None => println!(rt; " ok")?,
        Some(place) => println!(rt; " differs at byte {place}")?,
    }
    Ok(place.is_none())
}

// A case whose files do not open has failed.
fn run_case<R: Files + Print + Eprint>(rt: &R, name: &[u8]) -> io::Result<bool> {
    match open_both(rt, name) {
        Ok((scripts, expected)) => judge(rt, name, scripts, expected),
        Err(error) => {
            let text = str::from_utf8(name).unwrap_or("?");
            eprintln!(rt; "{text}: {error}")?;
            Ok(false)
        }
    }
}

fn open_both<R: Files>(rt: &R, name: &[u8]) -> io::Result<(R::File, R::File)> {
    let scripts = open(rt, name, b".script")?;
    let expected = open(rt, name, b".expected")?;
    Ok((scripts, expected))
}

fn run_all<R: Files + Print + Eprint>(rt: &R, names: &[u8]) -> io::Result<()> {
    let mut cases = 0u64;
    let mut passed = 0u64;
    for line in names.split_inclusive(|byte| *byte == b'\n') {
        let name = line.strip_suffix(b"\n").unwrap_or(line);
        passed = passed.saturating_add(u64::from(run_case(rt, name)?));
        cases = cases.saturating_add(1);
    }
    println!(rt; "{cases} cases, {passed} ok")
}

fn main(rt: HostRuntime) -> io::Result<()> {
    let mut names = [0u8; NAMES_BYTES];
    let file = fs::open(&rt, "cases")?;
    let count = read(file, &mut names);
    run_all(&rt, &names[..count])
}
