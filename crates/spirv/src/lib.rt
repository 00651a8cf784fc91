// What the SPIR-V back end writes with: packed strings, storage classes, images, the instructions of document 01's rules, ids, and
// the module's layout. Words go to the front of what is left of a buffer that the caller lends.
#![tactic(auto)]

pub mod decorations;
pub mod helpers;
pub mod images;
pub mod instructions;
pub mod layout;
pub mod layouter;
pub mod opcodes;
pub mod words;

ghost use Rattle.std.specs.Prelude.{◌≡◌, ◌^◌, ◌<◌};
ghost use Rattle.spirv.specs.Ids.{Next, low};

// Hands out ids. The last id given out is held in 64 bits: a sheet may say that ids up to 2^32 - 1 are given out already, and
// its records are judged before the bound is, so the count must be able to pass 32 bits and not wrap.
#[derive(Clone, Copy)]
pub struct IdGenerator {
    pub last: u64,
}

// An id, and the generator moved on past it: by value, since document 01 has a generator that is handed back with its count moved on.
#[derive(Clone, Copy)]
pub struct NextId {
    pub id: u64,
    pub idgen: IdGenerator,
}

impl IdGenerator {
    pub fn next(mut self) -> NextId
        requires { self.last < 2 ^ 63 }
        ensures { Next self.last result }
    {
        self.last += 1;
        let id = self.last;
        NextId { id, idgen: self }
    }
}

// An id as a word. Ids are words only where the bound is known to be small enough.
pub fn low_word(id: u64) -> u32
    ensures { result ≡ low id }
{
    (id % 4294967296) as u32
}
