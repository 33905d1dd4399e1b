// Lists of calls that begin with format and power-up, held to the reference machine: after each call
// the control word's P, after each accepted power-up the lines, after each accepted load its value. The
// count of dirty slots is held to the slot words.
use crate::compare::*;
use crate::damage::damage_state;
use crate::faults::Fault;
use crate::kinds::{Call, Kind};
use crate::lists::List;
use crate::memories::Memory;
use crate::old_lists::*;
use crate::old_packing::{Board, OLD_EPOCHS, is_old};
use crate::packing::*;
use crate::random::{Purpose, Seed};
use crate::sides::*;
use crate::spans::with_any_span;
use model::Reference;
use status::Status;

// More than any call of these boards owes.
const MOST_ALLOWANCES: u32 = 160;

const PROBES: u64 = 4;

#[derive(Clone, Copy)]
pub struct History {
    list: List,
    is_converted: bool,
    state: State,
    reference: Reference,
}

impl History {
    // A list at its beginning: a board of other words is formatted, and powered up.
    pub fn opened(n: u64, score: &mut Score) -> History {
        let list = List::at(n);
        let mut h = History {
            list,
            is_converted: false,
            state: State {
                board: Memory {
                    room: [7; BOARD_ROOM],
                    words: board_words(list.lines, list.entries),
                },
                work: Memory {
                    room: [7; WORK_ROOM],
                    words: work_words(list.slots),
                },
                registers: [0; REGISTERS],
            },
            reference: Reference::fresh(list.lines),
        };
        h.make(Call::format(list.lines, list.entries), score);
        h.start_from(list.persisted);
        h.make(Call::plain(Kind::PowerUp), score);
        h
    }

    // A formatted board whose control word gets the P that a list starts from, and the reference machine
    // with the same.
    fn start_from(&mut self, persisted: u64) {
        let control = New::control_word(persisted, 0, 0);
        self.state.board.put(CONTROL, control);
        self.persist(persisted);
    }

    fn persist(&mut self, persisted: u64) {
        self.reference.persisted_epoch = persisted;
        self.reference.running_epoch = persisted.wrapping_add(1);
    }

    // The reference machine after a power-up.
    fn restarted(&self) -> Reference {
        let mut reference = self.reference;
        reference.power_up();
        reference
    }

    // One call more of a list.
    fn make(&mut self, call: Call, score: &mut Score) {
        let place = Place::of(&self.state, call);
        let persisted = self.state.persisted();
        let outcome = compared(&mut self.state, call, score);
        self.feed(call, &outcome);
        score.note(place, self.between_histories(call, &outcome));
        score.mark(call.kind, persisted, &outcome);
    }

    // The reference machine is told of accepted calls.
    fn feed(&mut self, call: Call, outcome: &Outcome) {
        if !outcome.is(Status::Ok) {
            return;
        }
        match call.kind {
            Kind::PowerUp => self.reference.power_up(),
            Kind::Store => self.reference.store(call.address, call.value),
            Kind::Commit => self.reference.commit(),
            Kind::Scan => self.reference.scan(outcome.value),
            _ => {}
        }
    }

    fn between_histories(&self, call: Call, outcome: &Outcome) -> Option<Difference> {
        let wanted = self.reference.persisted();
        between(Part::Persisted, 0, self.state.persisted(), wanted)
            .or_else(|| self.between_counts(outcome))
            .or_else(|| self.between_accepted(call, outcome))
    }

    fn dirty_slots(&self) -> u64 {
        model::dirty_count(self.state.work.lent())
    }

    // The count of the registers is "true after each accepted call and each cut". Of a controller that is
    // not running nothing is said.
    fn between_counts(&self, outcome: &Outcome) -> Option<Difference> {
        if outcome.registers[EPOCH] == 0 {
            return None;
        }
        let count = outcome.registers[DIRTY];
        between(Part::DirtySlots, 0, count, self.dirty_slots())
    }

    fn between_accepted(&self, call: Call, outcome: &Outcome) -> Option<Difference> {
        if !outcome.is(Status::Ok) {
            return None;
        }
        let at = call.address;
        match call.kind {
            Kind::PowerUp => between_lines(&self.state.board, &self.reference),
            Kind::Load => between(Part::Line, at, outcome.value, self.reference.line(at)),
            Kind::Tally => between(Part::DirtySlots, 0, outcome.value, self.dirty_slots()),
            _ => None,
        }
    }

    // For a power-up: any words, and now and then as many as another S has, which may be refused.
    fn lend(&mut self, seed: Seed) {
        let slots = if seed.once_in(Purpose::IsOtherSize, 8) {
            seed.below(Purpose::Slots, 24)
        } else {
            self.list.slots
        };
        self.state.work.fill(seed);
        self.state.work.words = work_words(slots);
    }

    // Two calls from a damaged state, the second from where the first has left it.
    fn probe(&self, seed: Seed, score: &mut Score) {
        let mut state = self.state;
        damage_state(&mut state, seed);
        let first = self.list.any_call(&state, seed);
        compared(&mut state, first, score);
        let second = self.list.any_call(&state, seed.hashed());
        compared(&mut state, second, score);
    }

    fn probes(&self, seed: Seed, score: &mut Score) {
        for i in 0..PROBES {
            self.probe(seed.plus(i), score);
        }
    }

    // A turn of a list: calls are made from states that are its own but for some damage or the span of an entry,
    // and a conversion; then its next call is made under every allowance that cuts it, and then as it is.
    fn next(&mut self, seed: Seed, score: &mut Score) {
        let call = self.list.next_call(&self.state, seed);
        let restarted = self.restarted();
        self.probes(seed, score);
        with_any_span(&self.state, seed, score);
        any_conversion(&self.state, &restarted, seed, score);
        if call.kind == Kind::PowerUp {
            self.lend(seed);
        }
        cuts(&self.state, call, &restarted, score);
        self.make(call, score);
    }

    // The history on the board that the converter has made, which has to be powered up. Its epochs are those of
    // before modulo 2^24, and the reference machine's are too: their copies stay where they are.
    fn go_on(&mut self, board: Board, score: &mut Score) {
        self.is_converted = true;
        self.state.board = board;
        self.state.work.words = work_words(self.list.slots);
        self.reference.power_up();
        self.persist(self.reference.persisted_epoch % OLD_EPOCHS);
        self.make(Call::plain(Kind::PowerUp), score);
    }

    // A list goes on with the board that the converter makes of its own.
    fn convert(&mut self, seed: Seed, score: &mut Score) {
        if !is_old(&self.state.board) {
            return;
        }
        let restarted = self.restarted();
        let (c, outcome) = convert_left(&self.state, &restarted, Fault::ByCall, seed, score);
        if outcome.is(Status::Ok) {
            self.go_on(c.board, score);
        }
    }

    // The next turn of a list. One list in three is converted, now and then. The calls are counted that are made on
    // boards from the converter.
    pub fn turn(&mut self, seed: Seed, score: &mut Score) {
        if self.list.seed.once_in(Purpose::Moves, 3) && seed.once_in(Purpose::IsMoved, 50) {
            self.convert(seed, score);
        }
        let before = score.calls;
        self.next(seed, score);
        if self.is_converted {
            let made = score.calls.wrapping_sub(before);
            score.on_converted = score.on_converted.wrapping_add(made);
        }
    }
}

// Behind a cut: a power-up, which brings the copy of the persisted epoch.
fn recover(mut state: State, wanted: &Reference, score: &mut Score) {
    let call = Call::plain(Kind::PowerUp);
    let place = Place::of(&state, call);
    compared(&mut state, call, score);
    score.note(place, between_lines(&state.board, wanted));
}

// Now and then the board is converted instead, which brings it too.
fn recover_or_convert(cut: State, wanted: &Reference, score: &mut Score) {
    let seed = Seed(score.calls);
    if seed.once_in(Purpose::IsConverted, 4) {
        as_left(&cut, wanted, Fault::ByCut, seed, score);
    } else {
        recover(cut, wanted, score);
    }
}

// A call under the allowances 0, 1, 2 and so on, until one does not cut it.
fn cuts(s: &State, call: Call, wanted: &Reference, score: &mut Score) {
    for allowance in 0..MOST_ALLOWANCES {
        let mut state = *s;
        let outcome = compared(&mut state, Call { allowance, ..call }, score);
        if !outcome.is(Status::Cut) {
            return;
        }
        recover_or_convert(state, wanted, score);
    }
}
