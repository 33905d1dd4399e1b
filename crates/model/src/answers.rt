// What a call answers, by the paper's "What an answer says".
use crate::registers::Registers;

// Why a call is refused: "Returned: number, name". The numbers are those of the table.
#[derive(Clone, Copy, PartialEq, Eq)]
pub enum Refusal {
    Shape = 1,
    Work = 2,
    Entry = 3,
    Registers = 4,
    Address = 5,
    Slot = 6,
    Buffer = 7,
    Room = 8,
    Waiting = 9,
    Last = 10,
    None = 11,
    // "14 filter, a buffered entry with either bit unset".
    Filter = 14,
    // "15 target, a begin call inside a pass or with a target out of range".
    Target = 15,
    // "18 logheld, log length not 0".
    LogHeld = 18,
    // "19 record, a malformed record, a wrong sum or one after the end; 20 outside, data not at a multiple of 8,
    // running over its bank or past the last line".
    Record = 19,
    Outside = 20,
}

// What became of a call: it went through, it was refused, or "12 cut". No Result: a cut is neither of the two, and has made stores.
#[derive(Clone, Copy, PartialEq, Eq)]
pub enum Status {
    Ok,
    Refused(Refusal),
    Cut,
}

impl From<Status> for u64 {
    fn from(status: Status) -> u64 {
        match status {
            Status::Ok => 0,
            Status::Refused(refusal) => refusal as u64,
            Status::Cut => 12,
        }
    }
}

// A call's answer: its status, its value, the board stores made, the registers. No Result: stores and registers stand in every
// answer, a refused one too.
#[derive(Clone, Copy, PartialEq, Eq)]
pub struct Answer {
    pub status: Status,
    pub value: u64,
    pub stores: u64,
    pub registers: Registers,
}

impl Answer {
    // The answer of a call that is not refused and reports no store.
    pub fn ok(value: u64, registers: Registers) -> Answer {
        Answer {
            status: Status::Ok,
            value,
            stores: 0,
            registers,
        }
    }

    // "Numbers 1 to 11 return value 0 (3 excepted), 0 stores, registers as given (power-up: all zero), both memories
    // as given."
    pub fn refused(refusal: Refusal, registers: Registers) -> Answer {
        Answer {
            status: Status::Refused(refusal),
            value: 0,
            stores: 0,
            registers,
        }
    }

    // "3 entry: a log entry is not proper; value is i of the first". Only power-up and the converter refuse by it, and
    // no registers are theirs.
    pub fn improper(i: u64) -> Answer {
        Answer {
            value: i,
            ..Answer::refused(Refusal::Entry, Registers::default())
        }
    }
}
