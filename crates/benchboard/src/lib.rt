// What bench programs share: the largest sizes and the memories that these take, starting on a fresh board, and performing a call.
#![tactic(auto)]

ghost use Rattle.std.specs.Prelude.{◌≡◌};
ghost use Rattle.picl.specs.Promises.{Calls};
ghost use Rattle.benchboard.specs.Sizes.{bench_sized};
ghost use Rattle.benchboard.specs.Calls.{call_of, started, Leaves};

use checks::Registers;
use layout::{BUFFER_WORDS, ENTRY_WORDS, LOG_AT, SLOT_WORDS};
use picl::Answer;
use records::Call;
use status::Status;

// The largest sizes.
const MOST_LINES: u64 = 2048;

const MOST_ENTRIES: u64 = 1024;

const MOST_SLOTS: u64 = 64;

// The words of a bench's memories: as many as the largest sizes take.
pub const BOARD_WORDS: usize = LOG_AT + ENTRY_WORDS * MOST_ENTRIES as usize + MOST_LINES as usize;

pub const WORK_WORDS: usize = SLOT_WORDS * MOST_SLOTS as usize + BUFFER_WORDS;

// The allowance of a call that is given no other.
pub const FULL_ALLOWANCE: u32 = u32::MAX;

#[tactic(auto, using(base::specs::Tests::tests), unfolding(crate::specs::Sizes::bench_sized))]
pub fn is_bench_sized(lines: u64, entries: u64, slots: u64) -> bool
    ensures { result ≡ bench_sized lines entries slots }
{
    lines <= MOST_LINES && entries <= MOST_ENTRIES && slots <= MOST_SLOTS
}

// Format and power-up, on the words that are the board and the work memory. The answer is power-up's, or format's where that
// refuses.
pub fn start(board: &mut [u64], work: &mut [u64], lines: u64, entries: u64) -> Answer
    ensures { Leaves (started lines entries board.old work.old) board.new work.new result }
{
    let report = picl::format(board, lines, entries);
    if report.status != Status::Ok {
        // Here alone a report becomes an answer, so there is no From.
        return Answer {
            status: report.status,
            value: report.value,
            stores: report.stores,
            registers: Registers::all_zero(),
        };
    }
    picl::power_up(board, work, FULL_ALLOWANCE)
}

// The call itself, on the words that are the board and the work memory. Memories, registers and allowance stay parameters of their
// own, as `picl` takes them for C.
pub fn perform(
    board: &mut [u64],
    work: &mut [u64],
    registers: Registers,
    call: Call,
    allowance: u32,
) -> Answer
    ensures { Calls (call_of call) allowance registers board.old work.old board.new work.new result }
{
    match call {
        Call::Load(address) => picl::load(board, work, registers, address, allowance),
        Call::Store(address, value) => picl::store(
            board, work, registers, address, value, allowance,
        ),
        Call::Evict(address) => picl::evict(board, work, registers, address, allowance),
        Call::Commit => picl::commit(board, work, registers, allowance),
        Call::Scan => picl::scan(board, work, registers, allowance),
    }
}
