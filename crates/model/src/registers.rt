// The paper's registers s, b and c; by document 02's request 5/13 "the count of dirty slots"; by its
// request 8/13 "the target, 0 outside a pass": their words in this order.
pub const COUNT: usize = 5;

// "registers .. are all zero": these are the default.
#[derive(Clone, Copy, Default, PartialEq, Eq)]
pub struct Registers {
    pub epoch: u64,
    pub buffered: u64,
    pub cursor: u64,
    pub dirty: u64,
    pub target: u64,
}

impl From<[u64; COUNT]> for Registers {
    fn from(words: [u64; COUNT]) -> Registers {
        let [epoch, buffered, cursor, dirty, target] = words;
        Registers {
            epoch,
            buffered,
            cursor,
            dirty,
            target,
        }
    }
}

impl From<Registers> for [u64; COUNT] {
    fn from(registers: Registers) -> [u64; COUNT] {
        [
            registers.epoch,
            registers.buffered,
            registers.cursor,
            registers.dirty,
            registers.target,
        ]
    }
}
