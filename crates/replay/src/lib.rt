// The bench of the replay: performs a script's commands one by one on a board memory and a work memory that the caller lends.
// The state of a bench goes in by value and comes back by value. The memories stay two slices beside it: `perform` takes any that are
// long enough, and what it leaves on each stands in its contract.
#![tactic(auto)]

ghost use Rattle.std.specs.Prelude.{◌≡◌, Some};
ghost use Rattle.benchboard.specs.Calls.{Leaves};
ghost use Rattle.benchboard.specs.Sizes.{Sizes};
ghost use Rattle.replay.specs.Calls.{requested};
ghost use Rattle.replay.specs.Bench.{answered_bench, bad_step, allowed_step, line_of, start_reply};
ghost use Rattle.replay.specs.Bench.{running, requesting, starting, formatting, performed};
ghost use Rattle.replay.specs.Promises.{Performs, Lent};

use benchboard::FULL_ALLOWANCE;
use checks::Registers;
use layout::{CONTROL_AT, Control};
use picl::Answer;
use records::Call;
use script::Command;
use status::Status;

// What is asked of the board that `n` has formatted.
#[derive(Clone, Copy, PartialEq, Eq)]
pub enum Request {
    Call(Call),
    PowerUp,
}

// A line of output, behind its letter. Status and value are printed both, whatever they are: no Result.
#[derive(Clone, Copy, PartialEq, Eq)]
pub struct Line {
    pub status: Status,
    pub value: u64,
    pub stores: u32,
    pub epoch: u64,
    pub persisted: u64,
    pub length: u64,
    pub buffered: u64,
}

// What a command prints, and whether the replay goes on. A Result of an Option would need a second enum for the two ends, and says
// no more.
#[derive(Clone, Copy, PartialEq, Eq)]
pub enum Reply {
    // Nothing is printed, and the replay goes on.
    Quiet,
    // The replay goes on.
    Said(Line),
    // The line of a refused `n`, which ends the replay.
    Last(Line),
    // The bad line, which ends the replay.
    Bad,
}

// The bench once `n` was done: there is none before.
#[derive(Clone, Copy)]
pub struct Bench {
    // How many words of the memories are the board, and the work memory.
    pub board: usize,
    pub work: usize,
    pub registers: Registers,
    // The allowance of the next call.
    pub allowance: u32,
}

// The bench after a command, and what that prints.
#[derive(Clone, Copy)]
pub struct Step {
    pub bench: Option<Bench>,
    pub reply: Reply,
}

impl Bench {
    // A refused call uses up the allowance too.
    fn answered(self, registers: Registers) -> Bench
        ensures { result ≡ answered_bench self registers }
    {
        Bench {
            registers,
            allowance: FULL_ALLOWANCE,
            ..self
        }
    }
}

fn bad(bench: Option<Bench>) -> Step
    ensures { result ≡ bad_step bench }
{
    Step {
        bench,
        reply: Reply::Bad,
    }
}

// `k count`
#[tactic(auto, unfolding(crate::specs::Bench::allowed_step))]
fn allow(bench: Option<Bench>, count: u32) -> Step
    ensures { result ≡ allowed_step bench count }
{
    match bench {
        Some(ready) => Step {
            bench: Some(Bench {
                allowance: count,
                ..ready
            }),
            reply: Reply::Quiet,
        },
        None => bad(bench),
    }
}

// The request itself, on the words that are the board and the work memory.
fn run(
    board: &mut [u64],
    work: &mut [u64],
    registers: Registers,
    request: Request,
    allowance: u32,
) -> Answer
    ensures { Leaves (requested request registers allowance board.old work.old) board.new work.new result }
{
    match request {
        Request::Call(call) => benchboard::perform(board, work, registers, call, allowance),
        Request::PowerUp => picl::power_up(board, work, allowance),
    }
}

// The line of an answer, with what the control word then says.
fn line_of(answer: Answer, word: u64) -> Line
    ensures { result ≡ line_of answer word }
{
    let control = Control::from(word);
    Line {
        status: answer.status,
        value: answer.value,
        stores: answer.stores,
        epoch: answer.registers.epoch,
        persisted: control.persisted,
        length: control.length,
        buffered: answer.registers.buffered,
    }
}

fn run_within(board: &mut [u64], work: &mut [u64], bench: Bench, request: Request) -> Step
    requires { Lent (Some bench) board.old work.old }
    ensures { Performs (running bench request board.old work.old) board.new work.new result }
{
    let answer = run(
        &mut board[..bench.board],
        &mut work[..bench.work],
        bench.registers,
        request,
        bench.allowance,
    );
    Step {
        bench: Some(bench.answered(answer.registers)),
        reply: Reply::Said(line_of(answer, board[CONTROL_AT])),
    }
}

fn perform_request(
    board: &mut [u64],
    work: &mut [u64],
    bench: Option<Bench>,
    request: Request,
) -> Step
    requires { Lent bench board.old work.old }
    ensures { Performs (requesting bench request board.old work.old) board.new work.new result }
{
    match bench {
        Some(ready) => run_within(board, work, ready, request),
        None => bad(bench),
    }
}

// A refused `n` ends the replay after its own line.
fn start_reply(line: Line) -> Reply
    ensures { result ≡ start_reply line }
{
    if line.status == Status::Ok {
        Reply::Said(line)
    } else {
        Reply::Last(line)
    }
}

fn start(board: &mut [u64], work: &mut [u64], lines: u64, entries: u64, slots: u64) -> Step
    requires { Sizes lines entries slots board.old work.old }
    ensures { Performs (starting lines entries slots board.old work.old) board.new work.new result }
{
    let words = layout::board_words(lines, entries);
    let work_words = layout::work_words(slots as usize);
    let answer = benchboard::start(&mut board[..words], &mut work[..work_words], lines, entries);
    let bench = Bench {
        board: words,
        work: work_words,
        registers: answer.registers,
        allowance: FULL_ALLOWANCE,
    };
    Step {
        bench: Some(bench),
        reply: start_reply(line_of(answer, board[CONTROL_AT])),
    }
}

// `n N L S`: first, and once.
fn format(
    board: &mut [u64],
    work: &mut [u64],
    bench: Option<Bench>,
    lines: u64,
    entries: u64,
    slots: u64,
) -> Step
    requires { Lent bench board.old work.old }
    ensures { Performs (formatting bench lines entries slots board.old work.old) board.new work.new result }
{
    if bench.is_some() {
        return bad(bench);
    }
    if !benchboard::is_bench_sized(lines, entries, slots) {
        return bad(bench);
    }
    start(board, work, lines, entries, slots)
}

// One line of the script: its command, or none where the line is bad.
#[tactic(auto, unfolding(crate::specs::Bench::performed))]
pub fn perform(
    board: &mut [u64],
    work: &mut [u64],
    bench: Option<Bench>,
    command: Option<Command>,
) -> Step
    requires { Lent bench board.old work.old }
    ensures { Performs (performed bench command board.old work.old) board.new work.new result }
{
    let Some(command) = command else {
        return bad(bench);
    };
    match command {
        Command::Format(lines, entries, slots) => format(board, work, bench, lines, entries, slots),
        Command::Call(call) => perform_request(board, work, bench, Request::Call(call)),
        Command::PowerUp => perform_request(board, work, bench, Request::PowerUp),
        Command::Allow(count) => allow(bench, count),
    }
}
