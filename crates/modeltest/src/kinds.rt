// The calls that are made from a board and a work memory.
use std::fmt;

#[derive(Clone, Copy, PartialEq, Eq)]
pub enum Kind {
    Format,
    PowerUp,
    Load,
    Store,
    Evict,
    Commit,
    Begin,
    Scan,
    Tally,
    FilterBits,
}

impl Kind {
    pub const ALL: [Kind; 10] = [
        Kind::Format,
        Kind::PowerUp,
        Kind::Load,
        Kind::Store,
        Kind::Evict,
        Kind::Commit,
        Kind::Begin,
        Kind::Scan,
        Kind::Tally,
        Kind::FilterBits,
    ];
}

impl fmt::Display for Kind {
    fn fmt<W: fmt::Write>(&self, f: &mut fmt::Formatter<W>) -> fmt::Result {
        f.write_str(match self {
            Kind::Format => "format",
            Kind::PowerUp => "power-up",
            Kind::Load => "load",
            Kind::Store => "store",
            Kind::Evict => "evict",
            Kind::Commit => "commit",
            Kind::Begin => "begin",
            Kind::Scan => "scan",
            Kind::Tally => "tally",
            Kind::FilterBits => "status question",
        })
    }
}

// A call and its arguments. Format has N as its address and L as its value, begin its target as its
// value.
#[derive(Clone, Copy)]
pub struct Call {
    pub kind: Kind,
    pub address: u64,
    pub value: u64,
    pub allowance: u32,
}

impl Call {
    pub fn plain(kind: Kind) -> Call {
        Call {
            kind,
            address: 0,
            value: 0,
            allowance: u32::MAX,
        }
    }

    pub fn format(lines: u64, entries: u64) -> Call {
        Call {
            address: lines,
            value: entries,
            ..Call::plain(Kind::Format)
        }
    }
}

impl fmt::Display for Call {
    fn fmt<W: fmt::Write>(&self, f: &mut fmt::Formatter<W>) -> fmt::Result {
        let Call {
            kind,
            address,
            value,
            allowance,
        } = *self;
        write!(
            f,
            "{kind} address {address} value {value} allowance {allowance}"
        )
    }
}
