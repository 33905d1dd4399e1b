// What an answer says: the numbers of the paper and their names.
#![tactic(auto)]

mod names;

ghost use Rattle.std.specs.Prelude.{◌≡◌};
ghost use Rattle.status.specs.Numbers.{number_of};

pub use names::put_name;

// In the order in which their numbers were given out.
#[derive(Clone, Copy, Debug, PartialEq, Eq)]
pub enum Status {
    Ok = 0,
    Shape = 1,
    Work = 2,
    Entry = 3,
    Regs = 4,
    Address = 5,
    Slot = 6,
    Buffer = 7,
    Room = 8,
    Waiting = 9,
    Last = 10,
    None = 11,
    Cut = 12,
    Trace = 13,
    Filter = 14,
    Short = 16,
    Past = 17,
    LogHeld = 18,
    Target = 15,
    Record = 19,
    Outside = 20,
}

impl From<Status> for u64 {
    ghost from_gives = { λ status number. number ≡ number_of status };

    fn from(status: Status) -> u64 {
        status as u64
    }
}
