// Where registers and answer stand in the arrays that C lends, by the names that include/picl.h has for them.
ghost use Rattle.std.specs.Prelude.{◌≡◌, true, ◌≤◌, length};
ghost use Rattle.capi.specs.Places.{register_words, answer_words, has_answer, has_places, read_registers, write_registers, write_answer};
ghost use Rattle.capi.specs.Promises.{Gives, Reports, LeavesPass};

use checks::Registers;
use picl::{Answer, Report};
use status::Status;

const EPOCH_AT: usize = 0;

const BUFFERED_AT: usize = 1;

const CURSOR_AT: usize = 2;

const DIRTY_AT: usize = 3;

const TARGET_AT: usize = 4;

const REGISTER_WORDS: usize = 5;

const VALUE_AT: usize = 0;

const STORES_AT: usize = 1;

const ANSWER_WORDS: usize = 2;

// The number of a call whose registers, reader, answer, record or name's text is too short. C's own: no Status has it.
pub const TOO_SHORT: u64 = 255;

pub fn has_answer(answer: &[u64]) -> bool
    ensures { result ≡ has_answer answer.now }
{
    answer.len() >= ANSWER_WORDS
}

// A reader's words have a test of their own, in importing.rt: one of both would be told at each of nine calls how many words are due.
pub fn has_places(registers: &[u64], answer: &[u64]) -> bool
    ensures { result ≡ has_places registers.now answer.now }
{
    if registers.len() < REGISTER_WORDS {
        return false;
    }
    has_answer(answer)
}

pub fn read_registers(registers: &[u64]) -> Registers
    requires { register_words ≤ length registers.now }
    ensures { result ≡ read_registers registers.now }
{
    Registers {
        epoch: registers[EPOCH_AT],
        buffered: registers[BUFFERED_AT],
        cursor: registers[CURSOR_AT],
        dirty: registers[DIRTY_AT],
        target: registers[TARGET_AT],
    }
}

fn write_registers(registers: &mut [u64], new: Registers)
    requires { register_words ≤ length registers.old }
    ensures { registers.new ≡ write_registers registers.old new }
{
    registers[EPOCH_AT] = new.epoch;
    registers[BUFFERED_AT] = new.buffered;
    registers[CURSOR_AT] = new.cursor;
    registers[DIRTY_AT] = new.dirty;
    registers[TARGET_AT] = new.target;
}

fn write_answer(answer: &mut [u64], value: u64, stores: u32)
    requires { answer_words ≤ length answer.old }
    ensures { answer.new ≡ write_answer answer.old value stores }
{
    answer[VALUE_AT] = value;
    answer[STORES_AT] = stores as u64;
}

// What a call with registers answers, to its places and as the result.
pub fn give(registers: &mut [u64], answer: &mut [u64], given: Answer) -> u64
    requires { has_places registers.old answer.old ≡ true }
    ensures { Gives registers.old answer.old given registers.new answer.new result }
{
    write_registers(registers, given.registers);
    write_answer(answer, given.value, given.stores);
    u64::from(given.status)
}

// The same for a call on one line. Unless it was cut it leaves s, c and the target as they were, and so as they stand.
pub fn give_line(registers: &mut [u64], answer: &mut [u64], given: Answer) -> u64
    requires answer_value { has_places registers.old answer.old ≡ true }
    requires leaves_pass { LeavesPass (read_registers registers.old) given }
    ensures { Gives registers.old answer.old given registers.new answer.new result }
{
    if given.status == Status::Cut {
        return give(registers, answer, given);
    }
    registers[BUFFERED_AT] = given.registers.buffered;
    registers[DIRTY_AT] = given.registers.dirty;
    write_answer(answer, given.value, given.stores);
    u64::from(given.status)
}

// The same for a call that returns no registers.
pub fn report(answer: &mut [u64], made: Report) -> u64
    requires { has_answer answer.old ≡ true }
    ensures { Reports answer.old made answer.new result }
{
    write_answer(answer, made.value, made.stores);
    u64::from(made.status)
}
