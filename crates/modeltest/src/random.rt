// Pseudo-random numbers: each is a hash of a seed and of what it is drawn for, so that every run of the
// program draws the same numbers, and no draw moves another.
ghost use Rattle.std.specs.Prelude.{◌<◌, length};

// What numbers are drawn for.
#[derive(Clone, Copy)]
pub enum Purpose {
    // Those of a list, ..
    Lines = 1,
    Entries = 2,
    Sets = 3,
    Start = 4,
    EpochsBehind = 5,
    Choices = 6,
    FirstCard = 8,
    SecondCard = 9,
    ThirdCard = 10,
    FourthCard = 11,
    FifthCard = 12,
    SixthCard = 13,
    SeventhCard = 14,
    EighthCard = 15,
    // .. of a call and of what a power-up is lent, ..
    StaysOff = 16,
    IsRare = 17,
    Card = 18,
    IsFar = 19,
    Address = 20,
    Value = 21,
    TargetChoice = 22,
    IsCut = 23,
    IsSmall = 24,
    Allowance = 25,
    IsOdd = 26,
    IsOtherSize = 27,
    Slots = 28,
    // .. of damage, ..
    Times = 32,
    Region = 33,
    Place = 34,
    OtherPlace = 35,
    Change = 36,
    Field = 37,
    Edge = 38,
    Bit = 39,
    // .. of conversions, and of what a list is converted for, ..
    Moves = 48,
    IsMoved = 49,
    Conversion = 50,
    Fault = 51,
    IsConverted = 52,
    // .. and of spans.
    Span = 54,
    IsBuffered = 55,
}

pub const DECK: [Purpose; 8] = [
    Purpose::FirstCard,
    Purpose::SecondCard,
    Purpose::ThirdCard,
    Purpose::FourthCard,
    Purpose::FifthCard,
    Purpose::SixthCard,
    Purpose::SeventhCard,
    Purpose::EighthCard,
];

#[derive(Clone, Copy)]
pub struct Seed(pub u64);

impl Seed {
    // Wang's hash of 64 bits. It has sums between its shifts, so that words for several purposes from one
    // seed have nothing to do with each other.
    pub fn hashed(self) -> Seed {
        let Seed(word) = self;
        let a = (!word).wrapping_add(word << 21);
        let b = a ^ (a >> 24);
        let c = b.wrapping_add(b << 3).wrapping_add(b << 8);
        let d = c ^ (c >> 14);
        let e = d.wrapping_add(d << 2).wrapping_add(d << 4);
        let f = e ^ (e >> 28);
        Seed(f.wrapping_add(f << 31))
    }

    // The seed so many behind this one.
    pub fn plus(self, n: u64) -> Seed {
        Seed(self.0.wrapping_add(n))
    }

    // Any word for each place.
    pub fn fill(self, words: &mut [u64]) {
        for (place, word) in words.iter_mut().enumerate() {
            *word = self.plus(place as u64).hashed().0;
        }
    }

    pub fn word(self, purpose: Purpose) -> u64 {
        Seed(self.0 ^ ((purpose as u64) << 56)).hashed().0
    }

    // A number below a bound; 0 where there is none. Where one is matched, an arm has as many numbers as its share of the draws is: an
    // enum of the arms would need the shares beside it.
    pub fn below(self, purpose: Purpose, bound: u64) -> u64
        ensures { 0 < bound → result < bound }
    {
        if bound == 0 {
            return 0;
        }
        self.word(purpose) % bound
    }

    // Whether something happens that happens once in so many times.
    pub fn once_in(self, purpose: Purpose, times: u64) -> bool {
        self.below(purpose, times) == 0
    }

    // A word of which one bit is the other way round.
    pub fn flipped(self, word: u64) -> u64 {
        word ^ (1 << self.below(Purpose::Bit, 64))
    }

    // One of these.
    pub fn pick<T: Copy>(self, purpose: Purpose, choices: &[T]) -> T
        requires { 0 < length choices.now }
    {
        choices[(self.word(purpose) % choices.len() as u64) as usize]
    }
}
