// Replays a script from standard input on a bench of its own, and prints a line for each call. The script may be of any length,
// and so may its lines: input and output go through buffers of a fixed size.
#![tactic(auto)]

ghost use Rattle.std.specs.Prelude.{◌≡◌, ◌<◌, ◌≤◌, length, IfOk};
ghost use Rattle.transcript.specs.Session.{emptied_session};

use benchboard::{BOARD_WORDS, WORK_WORDS};
use std::io;
use std::io::Read;
use std::marker::Model;
use transcript::Session;

// A read goes through a buffer of so many bytes, and so does what is printed.
const BUFFER_BYTES: usize = 65536;

// Writes out what has been printed, and answers the session behind that.
fn write_out(rt: &impl Print, session: Session, out: &[u8]) -> io::Result<Session>
    requires { session.used ≤ length out.now }
    ensures { IfOk result (λ after. after ≡ emptied_session session) }
{
    rt.write_all(&out[..session.used])?;
    Ok(session.emptied())
}

// A replay, its memories, and what it prints. In contracts: whether it is over.
#[derive(Drop)]
struct Replay {
    session: Session,
    board: [u64; BOARD_WORDS],
    work: [u64; WORK_WORDS],
    out: [u8; BUFFER_BYTES],
}

impl Model for Replay {
    ghost use Rattle.std.specs.Prelude.{Bool};
    ghost use Rattle.transcript.specs.Session.{Ready};

    ghost Value = { Bool };

    ghost view = { λ r. r.session.over };

    // Memories and buffer have room for the next byte.
    ghost invariant = { λ r. Ready r.session r.board r.work r.out };
}

impl Replay {
    fn new() -> Replay {
        Replay {
            session: Session::new(),
            board: [0; BOARD_WORDS],
            work: [0; WORK_WORDS],
            out: [0; BUFFER_BYTES],
        }
    }

    // Replays as much of the input as there is room for, which is some of it, and answers how many bytes. Where what is
    // printed can't be written, that is lost, and the replay is over for its caller.
    fn feed(&mut self, rt: &impl Print, input: &[u8]) -> io::Result<usize>
        requires { 0 < length input.now }
        ensures some { IfOk result (λ taken. 0 < taken) }
        ensures most { IfOk result (λ taken. taken ≤ length input.now) }
    {
        let fed = transcript::feed_bytes(
            self.session,
            input,
            &mut self.board,
            &mut self.work,
            &mut self.out,
        );
        self.session = write_out(rt, fed.session, &self.out)?;
        Ok(fed.taken)
    }

    fn feed_all(&mut self, rt: &impl Print, input: &[u8]) -> io::Result<()> {
        // A while loop: each turn takes as many bytes as what they print has room for.
        let mut rest = input;
        while !rest.is_empty() {
            let taken = self.feed(rt, rest)?;
            rest = &rest[taken..];
        }
        Ok(())
    }

    fn finish(&mut self, rt: &impl Print) -> io::Result<()> {
        let finished = transcript::finish(
            self.session,
            &mut self.board,
            &mut self.work,
            &mut self.out,
        );
        self.session = write_out(rt, finished, &self.out)?;
        Ok(())
    }

    // Reads once. Where nothing comes, or the read fails, the script is at its end.
    fn read(&mut self, rt: &impl Print, source: &mut impl Read) -> io::Result<()> {
        let mut input = [0u8; BUFFER_BYTES];
        match source.read(&mut input) {
            Ok(0) => self.finish(rt),
            Ok(count) => self.feed_all(rt, &input[..count]),
            Err(_) => self.finish(rt),
        }
    }
}

// A proved loop has to end, and nothing says that a script does: no run uses up so many turns.
fn main(rt: HostRuntime) -> io::Result<()> {
    let mut replay = Replay::new();
    let mut source = rt.stdin();
    for _ in 0..u64::MAX {
        if replay.session.over {
            break;
        }
        replay.read(&rt, &mut source)?;
    }
    Ok(())
}
