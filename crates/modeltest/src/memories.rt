// Memories of which a call is lent the first words.
ghost use Rattle.std.specs.Prelude.{◌<◌};

use crate::packing::Field;
use crate::random::Seed;

// Behind the lent words there may be room for more, which no call may touch: so it is no slice and no Vec. That there is room stays a clause
// of what indexes: the rooms are constants, and each literal of a type that said so would prove it as well.
#[derive(Clone, Copy)]
pub struct Memory<const ROOM: usize> {
    pub room: [u64; ROOM],
    pub words: u64,
}

// An index into an array of `room` words: `at` itself, where that is one.
pub fn index(at: u64, room: usize) -> usize
    requires { 0 < room }
    ensures { result < room }
{
    let wanted = at as usize;
    if wanted < room { wanted } else { 0 }
}

impl<const ROOM: usize> Memory<ROOM> {
    pub fn lent(&self) -> &[u64] {
        let end = (self.words as usize).min(ROOM);
        &self.room[..end]
    }

    pub fn lent_mut(&mut self) -> &mut [u64] {
        let end = (self.words as usize).min(ROOM);
        &mut self.room[..end]
    }

    // The word at a place; past the room the first.
    pub fn word(&self, place: u64) -> u64
        requires { 0 < ROOM }
    {
        self.room[index(place, ROOM)]
    }

    pub fn put(&mut self, place: u64, word: u64)
        requires { 0 < ROOM }
    {
        self.room[index(place, ROOM)] = word;
    }

    pub fn field(&self, place: u64, field: Field) -> u64
        requires { 0 < ROOM }
    {
        field.of(self.word(place))
    }

    pub fn put_field(&mut self, place: u64, field: Field, value: u64)
        requires { 0 < ROOM }
    {
        self.put(place, field.replaced(self.word(place), value));
    }

    // Any words in all of the room.
    pub fn fill(&mut self, seed: Seed) {
        seed.fill(&mut self.room);
    }
}
