// Entries of the log and of the buffer that are as a list leaves them but for their span.
use crate::compare::*;
use crate::kinds::{Call, Kind};
use crate::packing::*;
use crate::random::{Purpose, Seed};
use crate::rows::Row;
use crate::sides::*;
use status::Status;
use std::fmt;

// The spans at which a test turns: 0 and 1, the longest and one above, the last that 8 bits hold, that which
// leads to ValidFrom 0, and one above.
#[derive(Clone, Copy, PartialEq, Eq)]
pub enum Span {
    Zero,
    One,
    Longest,
    AboveLongest,
    LastByte,
    Till,
    AboveTill,
}

impl Span {
    pub const ALL: [Span; 7] = [
        Span::Zero,
        Span::One,
        Span::Longest,
        Span::AboveLongest,
        Span::LastByte,
        Span::Till,
        Span::AboveTill,
    ];

    fn of(self, till: u64) -> u64 {
        match self {
            Span::Zero => 0,
            Span::One => 1,
            Span::Longest => MOST_SPAN,
            Span::AboveLongest => MOST_SPAN + 1,
            Span::LastByte => 255,
            Span::Till => till,
            Span::AboveTill => till.wrapping_add(1),
        }
    }

    // Whether it stands alone: not above ValidTill but where it is to be, and then not too long.
    fn stands_alone(self, till: u64) -> bool {
        let most = match self {
            Span::Till | Span::AboveTill => MOST_SPAN,
            _ => till,
        };
        self.of(till) <= most
    }

    // The packed word of an entry with this span, where that stands alone.
    fn given(self, word: u64) -> Option<u64> {
        let till = New::TILL.of(word);
        if !self.stands_alone(till) {
            return None;
        }
        Some(New::SPAN.replaced(word, self.of(till)))
    }
}

impl fmt::Display for Span {
    fn fmt<W: fmt::Write>(&self, f: &mut fmt::Formatter<W>) -> fmt::Result {
        f.write_str(match self {
            Span::Zero => "span 0",
            Span::One => "span 1",
            Span::Longest => "span 16",
            Span::AboveLongest => "span 17",
            Span::LastByte => "span 255",
            Span::Till => "span ValidTill",
            Span::AboveTill => "span ValidTill + 1",
        })
    }
}

// An entry of the log is given a span, and the board is powered up.
fn log_span(s: &State, i: u64, span: Span, score: &mut Score) {
    let start = s.board.field(CONTROL, New::START);
    let place = log_place(start, s.entries(), i);
    let Some(word) = span.given(s.board.word(place)) else {
        return;
    };
    let mut state = *s;
    state.board.put(place, word);
    let call = Call::plain(Kind::PowerUp);
    let from = Place::of(&state, call);
    let outcome = compared(&mut state, call, score);
    let wanted = if outcome.is(Status::Entry) { i } else { 0 };
    score.note(from, between(Part::Value, 0, outcome.value, wanted));
    score.see(Row::LogSpan(span), outcome.number);
}

// A buffered entry is given a span, and commit is called.
fn buffered_span(s: &State, i: u64, span: Span, score: &mut Score) {
    let place = buffer_place(s.slots(), i);
    let Some(word) = span.given(s.work.word(place)) else {
        return;
    };
    let mut state = *s;
    state.work.put(place, word);
    let outcome = compared(&mut state, Call::plain(Kind::Commit), score);
    score.see(Row::BufferedSpan(span), outcome.number);
}

// A span of an entry of a controller that is running.
pub fn with_any_span(s: &State, seed: Seed, score: &mut Score) {
    let span = seed.pick(Purpose::Span, &Span::ALL);
    let length = s.log_length();
    let buffered = s.registers[BUFFERED];
    if s.registers[EPOCH] == 0 {
        return;
    }
    if seed.once_in(Purpose::IsBuffered, 2) {
        if buffered != 0 {
            buffered_span(s, seed.below(Purpose::Place, buffered), span, score);
        }
    } else if length != 0 {
        log_span(s, seed.below(Purpose::Place, length), span, score);
    }
}
