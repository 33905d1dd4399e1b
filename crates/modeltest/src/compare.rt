// A call made on both sides, what differs, and what has been seen.
use crate::kinds::{Call, Kind};
use crate::rows::{Mark, Row, Rows};
use crate::sides::*;
use status::Status;
use std::fmt;

// Of how many differences each is printed; all are counted.
const SHOWN: usize = 5;

#[derive(Clone, Copy)]
pub enum Part {
    Number,
    Value,
    Stores,
    Register,
    Board,
    Work,
    DirtySlots,
    Persisted,
    Line,
    SecondMemory,
}

impl fmt::Display for Part {
    fn fmt<W: fmt::Write>(&self, f: &mut fmt::Formatter<W>) -> fmt::Result {
        f.write_str(match self {
            Part::Number => "number",
            Part::Value => "value",
            Part::Stores => "stores",
            Part::Register => "register",
            Part::Board => "board word",
            Part::Work => "work word",
            Part::DirtySlots => "count of dirty slots",
            Part::Persisted => "P against the reference machine",
            Part::Line => "line against the reference machine",
            Part::SecondMemory => "word of the second memory",
        })
    }
}

// Two numbers that ought to be the same: what the library has, and what the model or the reference machine
// has.
#[derive(Clone, Copy)]
pub struct Difference {
    part: Part,
    place: u64,
    found: u64,
    wanted: u64,
}

impl fmt::Display for Difference {
    fn fmt<W: fmt::Write>(&self, f: &mut fmt::Formatter<W>) -> fmt::Result {
        let Difference {
            part,
            place,
            found,
            wanted,
        } = *self;
        write!(f, "{part} {place} is {found:x}, not {wanted:x}")
    }
}

pub fn between(part: Part, place: u64, found: u64, wanted: u64) -> Option<Difference> {
    if found == wanted {
        return None;
    }
    Some(Difference {
        part,
        place,
        found,
        wanted,
    })
}

// The first of two lists of words, as far as both go.
pub fn between_words(part: Part, found: &[u64], wanted: &[u64]) -> Option<Difference> {
    for (place, (x, y)) in found.iter().zip(wanted).enumerate() {
        if x != y {
            return between(part, place as u64, *x, *y);
        }
    }
    None
}

pub fn between_outcomes(found: &Outcome, wanted: &Outcome) -> Option<Difference> {
    between(Part::Number, 0, found.number, wanted.number)
        .or_else(|| between(Part::Value, 0, found.value, wanted.value))
        .or_else(|| between(Part::Stores, 0, found.stores, wanted.stores))
        .or_else(|| between_words(Part::Register, &found.registers, &wanted.registers))
}

// The registers are those of the outcomes.
fn between_states(found: &State, wanted: &State) -> Option<Difference> {
    between_words(Part::Board, &found.board.room, &wanted.board.room).or_else(|| between_words(
        Part::Work,
        &found.work.room,
        &wanted.work.room,
    ))
}

// Where a difference was found: in a call from a state, of which is printed how many words are lent and the
// registers that are given, or in a call of a row's, on a board of so many words.
#[derive(Clone, Copy)]
pub enum Place {
    From {
        call: Call,
        board: u64,
        work: u64,
        registers: Words,
    },
    On {
        row: Row,
        board: u64,
    },
}

impl Place {
    pub fn of(state: &State, call: Call) -> Place {
        Place::From {
            call,
            board: state.board.words,
            work: state.work.words,
            registers: state.registers,
        }
    }
}

impl fmt::Display for Place {
    fn fmt<W: fmt::Write>(&self, f: &mut fmt::Formatter<W>) -> fmt::Result {
        match self {
            Place::On { row, board } => write!(f, "{row} board {board}"),
            Place::From {
                call,
                board,
                work,
                registers,
            } => {
                write!(f, "{call} board {board} work {work} registers")?;
                for register in registers {
                    write!(f, " {register}")?;
                }
                Ok(())
            }
        }
    }
}

// A difference that is printed, and the number of calls before it.
#[derive(Clone, Copy)]
pub struct Note {
    calls: u64,
    place: Place,
    what: Difference,
}

impl fmt::Display for Note {
    fn fmt<W: fmt::Write>(&self, f: &mut fmt::Formatter<W>) -> fmt::Result {
        write!(f, "{}: {}: {}", self.calls, self.place, self.what)
    }
}

// What the test has seen: calls, those of them on boards that the converter made, differences, the most stores
// of a call that is no power-up, of each row its numbers, and what is printed of the first differences.
// It goes beside a state and a seed, in no struct with them: there is one score, and a state and a seed of its own for each call.
#[derive(Clone, Copy)]
pub struct Score {
    pub calls: u64,
    pub on_converted: u64,
    pub differences: u64,
    pub most_stores: u64,
    pub rows: Rows,
    pub notes: [Option<Note>; SHOWN],
}

impl Score {
    pub fn empty() -> Score {
        Score {
            calls: 0,
            on_converted: 0,
            differences: 0,
            most_stores: 0,
            rows: Rows::empty(),
            notes: [None; SHOWN],
        }
    }

    // A number more in a row. One past those of a row is a difference.
    pub fn see(&mut self, row: Row, number: u64) {
        if !self.rows.insert(row, number) {
            self.differences = self.differences.wrapping_add(1);
        }
    }

    // A difference more, where there is one.
    pub fn note(&mut self, place: Place, what: Option<Difference>) {
        let Some(what) = what else {
            return;
        };
        let calls = self.calls;
        if let Some(note) = self.notes.get_mut(self.differences as usize) {
            *note = Some(Note { calls, place, what });
        }
        self.differences = self.differences.wrapping_add(1);
    }

    // One answer more.
    pub fn count(&mut self, row: Row, outcome: &Outcome) {
        self.see(row, outcome.number);
        self.calls = self.calls.wrapping_add(1);
        if row != Row::Call(Kind::PowerUp) {
            self.most_stores = self.most_stores.max(outcome.stores);
        }
    }

    // An accepted call is about those epochs of a mark where P was below it, and s is now not.
    pub fn mark(&mut self, kind: Kind, persisted: u64, outcome: &Outcome) {
        if !outcome.is(Status::Ok) {
            return;
        }
        for mark in Mark::ALL {
            if persisted < mark.epoch() && mark.epoch() <= outcome.registers[EPOCH] {
                self.see(Row::About(mark), kind as u64);
            }
        }
    }
}

// One call, made on both sides and compared. It goes on from the library's state, so that one
// difference does not show again in each later call.
pub fn compared(state: &mut State, call: Call, score: &mut Score) -> Outcome {
    let place = Place::of(state, call);
    let mut wanted_state = *state;
    let found = made::<Library>(state, call);
    let wanted = made::<SecondModel>(&mut wanted_state, call);
    let difference = between_outcomes(&found, &wanted).or_else(|| between_states(
        state,
        &wanted_state,
    ));
    score.note(place, difference);
    score.count(Row::Call(call.kind), &found);
    found
}
