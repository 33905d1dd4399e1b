// The program's lines: the first differences, the numbers of each row, and how many calls there were.
use crate::compare::Score;
use crate::faults::Fault;
use crate::kinds::Kind;
use crate::large::Size;
use crate::rows::{Mark, Row};
use crate::spans::Span;
use std::io;

fn line(rt: &impl Print, score: &Score, row: Row) -> io::Result<()> {
    let numbers = score.rows.of(row);
    println!(rt; "{row}:{numbers}")
}

fn lines<T: Copy, F: Fn(T) -> Row>(
    rt: &impl Print,
    score: &Score,
    all: &[T],
    row: F,
) -> io::Result<()>
    requires { F.IsAlwaysCallable row }
{
    for x in all {
        line(rt, score, row(*x))?;
    }
    Ok(())
}

// The kinds of calls that were accepted about an epoch.
fn kinds(rt: &impl Print, score: &Score, mark: Mark) -> io::Result<()> {
    let row = Row::About(mark);
    let seen = score.rows.of(row);
    print!(rt; "{row}:")?;
    for kind in Kind::ALL {
        if seen.contains(kind as u64) {
            print!(rt; " {kind}")?;
        }
    }
    println!(rt;)
}

fn marks(rt: &impl Print, score: &Score) -> io::Result<()> {
    for mark in Mark::ALL {
        kinds(rt, score, mark)?;
    }
    Ok(())
}

fn rows(rt: &impl Print, score: &Score) -> io::Result<()> {
    lines(rt, score, &Kind::ALL, Row::Call)?;
    line(rt, score, Row::Convert)?;
    lines(rt, score, &Span::ALL, Row::LogSpan)?;
    lines(rt, score, &Span::ALL, Row::BufferedSpan)?;
    marks(rt, score)?;
    lines(rt, score, &Fault::ALL, Row::OldBoard)?;
    lines(rt, score, &Size::ALL, Row::OldSize)?;
    lines(rt, score, &Size::ALL, Row::FormatSize)?;
    line(rt, score, Row::FullLog)
}

// A line for each of the first differences and for each row, and last how many calls there were.
pub fn report(rt: &impl Print, score: &Score) -> io::Result<()> {
    for note in score.notes.iter().flatten() {
        println!(rt; "{note}")?;
    }
    rows(rt, score)?;
    println!(rt;
        "{} calls, on converted boards {}, most stores {}, {} differences",
        score.calls, score.on_converted, score.most_stores, score.differences
    )
}
