// The two sides, the library and the second model: a call of either, from memories and registers that are the
// same on both.
use crate::kinds::{Call, Kind};
use crate::memories::Memory;
use crate::packing::*;
use status::Status;

// The registers as words, in the order s, b, c, the count of dirty slots and the target of a pass: so a state
// holds them, and so they are compared; damage draws one by its place.
pub const REGISTERS: usize = 5;

pub type Words = [u64; REGISTERS];

pub const EPOCH: usize = 0;

pub const BUFFERED: usize = 1;

pub const DIRTY: usize = 3;

pub const TARGET: usize = 4;

// What a call is lent, and the registers that it is given.
#[derive(Clone, Copy)]
pub struct State {
    pub board: Memory<BOARD_ROOM>,
    pub work: Memory<WORK_ROOM>,
    pub registers: Words,
}

impl State {
    pub fn persisted(&self) -> u64 {
        self.board.field(CONTROL, New::PERSISTED)
    }

    pub fn log_length(&self) -> u64 {
        self.board.field(CONTROL, New::LENGTH)
    }

    pub fn lines(&self) -> u64 {
        self.board.field(SHAPE, New::LINES)
    }

    pub fn entries(&self) -> u64 {
        self.board.field(SHAPE, New::ENTRIES)
    }

    pub fn slots(&self) -> u64 {
        slots_in(self.work.words)
    }
}

// What a call answers. Format, tally and the status question return no registers: theirs are those
// given. The status is its number, since one that either side alone knows must show.
#[derive(Clone, Copy)]
pub struct Outcome {
    pub number: u64,
    pub value: u64,
    pub stores: u64,
    pub registers: Words,
}

impl Outcome {
    pub fn is(&self, status: Status) -> bool {
        self.number == u64::from(status)
    }
}

// The two impls look alike and stay two: the functions that they call and the answers that they get are those of two crates.
pub trait Side {
    fn call(board: &mut [u64], work: &mut [u64], registers: Words, call: Call) -> Outcome;

    fn convert(old: &[u64], board: &mut [u64]) -> Outcome;
}

// A call of one side, made from a state, which becomes what the call leaves.
pub fn made<S: Side>(state: &mut State, call: Call) -> Outcome {
    let board = state.board.lent_mut();
    let work = state.work.lent_mut();
    let outcome = S::call(board, work, state.registers, call);
    let registers = outcome.registers;
    state.registers = registers;
    outcome
}

pub struct Library;

fn of_report(report: picl::Report, registers: Words) -> Outcome {
    Outcome {
        number: u64::from(report.status),
        value: report.value,
        stores: u64::from(report.stores),
        registers,
    }
}

// Here alone the library's registers are made of words and listed; the model makes and lists its own.
fn of_answer(answer: picl::Answer) -> Outcome {
    let r = answer.registers;
    Outcome {
        number: u64::from(answer.status),
        value: answer.value,
        stores: u64::from(answer.stores),
        registers: [r.epoch, r.buffered, r.cursor, r.dirty, r.target],
    }
}

impl Side for Library {
    fn call(board: &mut [u64], work: &mut [u64], registers: Words, call: Call) -> Outcome {
        let [epoch, buffered, cursor, dirty, target] = registers;
        let r = checks::Registers {
            epoch,
            buffered,
            cursor,
            dirty,
            target,
        };
        let Call {
            kind,
            address,
            value,
            allowance,
        } = call;
        match kind {
            Kind::Format => of_report(picl::format(board, address, value), registers),
            Kind::PowerUp => of_answer(picl::power_up(board, work, allowance)),
            Kind::Load => of_answer(picl::load(board, work, r, address, allowance)),
            Kind::Store => of_answer(picl::store(board, work, r, address, value, allowance)),
            Kind::Evict => of_answer(picl::evict(board, work, r, address, allowance)),
            Kind::Commit => of_answer(picl::commit(board, work, r, allowance)),
            Kind::Begin => of_answer(picl::begin(board, work, r, value)),
            Kind::Scan => of_answer(picl::scan(board, work, r, allowance)),
            Kind::Tally => of_report(picl::tally(board, work, r), registers),
            Kind::FilterBits => of_report(picl::filter_bits(work), registers),
        }
    }

    fn convert(old: &[u64], board: &mut [u64]) -> Outcome {
        of_report(convert::convert(old, board), [0; REGISTERS])
    }
}

pub struct SecondModel;

fn of_model(answer: model::Answer) -> Outcome {
    of_model_report(answer, answer.registers.into())
}

fn of_model_report(answer: model::Answer, registers: Words) -> Outcome {
    Outcome {
        number: u64::from(answer.status),
        value: answer.value,
        stores: answer.stores,
        registers,
    }
}

impl Side for SecondModel {
    fn call(board: &mut [u64], work: &mut [u64], registers: Words, call: Call) -> Outcome {
        let r = model::Registers::from(registers);
        let Call {
            kind,
            address,
            value,
            allowance,
        } = call;
        match kind {
            Kind::Format => of_model_report(model::format(board, address, value), registers),
            Kind::PowerUp => of_model(model::power_up(board, work, allowance)),
            Kind::Load => of_model(model::load(board, work, r, address, allowance)),
            Kind::Store => of_model(model::store(board, work, r, address, value, allowance)),
            Kind::Evict => of_model(model::evict(board, work, r, address, allowance)),
            Kind::Commit => of_model(model::commit(board, work, r, allowance)),
            Kind::Begin => of_model(model::begin(board, work, r, value)),
            Kind::Scan => of_model(model::scan(board, work, r, allowance)),
            Kind::Tally => of_model_report(model::tally(board, work, r), registers),
            Kind::FilterBits => of_model_report(model::filter_bits(work), registers),
        }
    }

    fn convert(old: &[u64], board: &mut [u64]) -> Outcome {
        of_model_report(model::convert(old, board), [0; REGISTERS])
    }
}
