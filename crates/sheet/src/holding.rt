// What is held of the records that were read; a record's tests, 5 to 12, which look at it; and holding one that passed them.
ghost use Rattle.std.specs.Prelude.{◌≡◌, ◌+◌, ◌<◌, ◌≤◌, length, take, drop, set};
ghost use Rattle.definition.specs.Sheet.{record_at, entry_of};
ghost use Rattle.definition.specs.Tests.{Seen, types_most, repeated, entry_test, reading_test};
ghost use Rattle.refusals.specs.Numbers.{test_number};
ghost use Rattle.records.specs.Places.{record_from, WithinLimits};
ghost use Rattle.records.specs.Ranks.{rank_number};
ghost use Rattle.sheet_fields.specs.Fields.{record_of};
ghost use Rattle.sheet.specs.Hash.{HashFor};
ghost use Rattle.sheet.specs.Holding.{places_in, no_counts, type_noted, noted_at, add_counts, SameHeld, PassedAt, RecordHeld};
ghost use Rattle.sheet.specs.Reading.{Looked, Stored};

use crate::repeats;
use records::{Counts, Earlier, Rank, TYPES_MOST};
use refusals::Refusal;

// What is held of the records that were read: where those of each kind stand in the sheet, the types' hashes behind their places,
// and counts. That the slices are long enough for the counts is asked where they are looked at, and is no invariant of the type: it may
// be made of any slices.
#[derive(Drop)]
pub struct Holding<'a> {
    pub sheet: &'a [u8],
    pub remaps: &'a mut [u32],
    pub types: &'a mut [u32],
    pub constants: &'a mut [u32],
    pub globals: &'a mut [u32],
    pub counts: Counts,
}

pub fn nothing() -> Counts
    ensures { result ≡ no_counts }
{
    Counts {
        rank: 0,
        available: None,
        remaps: 0,
        types: 0,
        functions: 0,
        constants: 0,
        globals: 0,
    }
}

// Keeps a place as the n-th of its kind; n is where it goes, and no length.
fn put(places: &mut [u32], n: usize, at: usize)
    requires { at < 4294967296 }
    ensures { places.new ≡ set places.old n at }
{
    if n < places.len() {
        places[n] = at as u32;
    }
}

// Keeps the place and the hash of the n-th type.
fn note_type(types: &mut [u32], n: usize, at: usize, hash: u32)
    requires { (n ≤ types_most) × (at < 4294967296) }
    ensures { types.new ≡ type_noted types.old n at hash }
{
    put(types, n, at);
    put(types, TYPES_MOST + n, hash as usize);
}

// The counts after a record of a rank.
#[tactic(auto, unfolding(crate::specs::Holding::add_counts))]
fn added(mut k: Counts, rank: Option<Rank>, at: usize) -> Counts
    requires { WithinLimits k }
    ensures { result ≡ add_counts k (rank_number rank) at }
{
    match rank {
        Some(Rank::Available) => k.available = Some(at),
        Some(Rank::Remaps) => k.remaps += 1,
        Some(Rank::Types) => k.types += 1,
        Some(Rank::Functions) => k.functions += 1,
        Some(Rank::Constants) => k.constants += 1,
        Some(Rank::Globals) => k.globals += 1,
        None => {}
    }
    k.rank = rank.map_or(0, Rank::number);
    k
}

impl Holding<'_> {
    // The types that were read.
    pub fn types(&self) -> Earlier<'_>
        requires { self.now.counts.types ≤ length self.now.types.now }
        ensures { (result.sheet.now ≡ self.now.sheet.now) × (result.places.now ≡ take self.now.counts.types self.now.types.now) }
    {
        Earlier {
            sheet: self.sheet,
            places: &self.types[..self.counts.types],
        }
    }

    // The remaps that were read.
    pub fn remaps(&self) -> Earlier<'_>
        requires { self.now.counts.remaps ≤ length self.now.remaps.now }
        ensures { (result.sheet.now ≡ self.now.sheet.now) × (result.places.now ≡ take self.now.counts.remaps self.now.remaps.now) }
    {
        Earlier {
            sheet: self.sheet,
            places: &self.remaps[..self.counts.remaps],
        }
    }

    // The hashes of the types that were read, in the types' order.
    fn hashes(&self) -> &[u32]
        requires { types_most + self.now.counts.types ≤ length self.now.types.now }
        ensures { result.now ≡ take self.now.counts.types (drop types_most self.now.types.now) }
    {
        &self.types[TYPES_MOST..TYPES_MOST + self.counts.types]
    }

    // Test 12 of a record of a tag and a body.
    #[tactic(auto, unfolding(definition::specs::Sheet::entry_of))]
    fn is_repeated(&self, tag: u8, body: &[u8], hash: u32) -> bool
        requires { Stored self.now.sheet.now self.now.remaps.now self.now.types.now self.now.counts × HashFor (record_of tag body.now) hash }
        ensures { (n : Seen) → Looked self.now.sheet.now self.now.remaps.now self.now.types.now self.now.counts n → result ≡ repeated n (entry_of (record_of tag body.now)).value }
    {
        match records::rank_of(tag) {
            Some(Rank::Remaps) => repeats::remap_read(self.remaps(), body),
            Some(Rank::Types) => repeats::type_read(self.types(), self.hashes(), tag, body, hash),
            Some(Rank::Functions) => false,
            _ => false,
        }
    }

    // Tests 8 to 12 of a record of a tag and a body: the first that fails.
    #[tactic(auto, using(crate::proofs::Order::fields_first, refusals::proofs::Tests::not_zero))]
    fn entry_test(&self, tag: u8, body: &[u8], hash: u32) -> Result<(), Refusal>
        requires { Stored self.now.sheet.now self.now.remaps.now self.now.types.now self.now.counts × HashFor (record_of tag body.now) hash }
        ensures { (n : Seen) → Looked self.now.sheet.now self.now.remaps.now self.now.types.now self.now.counts n → test_number result ≡ entry_test n (record_of tag body.now) (entry_of (record_of tag body.now)).value (entry_of (record_of tag body.now)).end }
    {
        sheet_fields::fields_test(tag, body, self.counts.types, self.counts.constants)?;
        if self.is_repeated(tag, body, hash) {
            return Err(Refusal::Repeated);
        }
        Ok(())
    }

    // Tests 5 to 12 of the record at the front of what is left: the first that fails.
    #[tactic(auto, using(refusals::proofs::Tests::not_zero), unfolding(definition::specs::Tests::reading_test))]
    pub fn record_test(&self, rest: &[u8], hash: u32) -> Result<(), Refusal>
        requires { Stored self.now.sheet.now self.now.remaps.now self.now.types.now self.now.counts × HashFor (record_at rest.now) hash }
        ensures { (n : Seen) → Looked self.now.sheet.now self.now.remaps.now self.now.types.now self.now.counts n → test_number result ≡ reading_test n (record_at rest.now) }
    {
        let tag = records::tag_of(rest);
        records::place_test(self.counts, tag)?;
        self.entry_test(tag, records::body_of(rest), hash)
    }

    // Keeps the place of a record of a rank, and a type's hash. Of a function nothing is kept, since no record names one.
    #[tactic(auto, unfolding(crate::specs::Holding::noted_at))]
    fn note(&mut self, rank: Option<Rank>, at: usize, hash: u32)
        requires { WithinLimits self.old.counts × (at < 4294967296) }
        ensures noted { places_in self.new ≡ noted_at (places_in self.old) self.old.counts (rank_number rank) at hash }
        ensures counts { self.new.counts ≡ self.old.counts }
        ensures same { SameHeld self.old self.new }
    {
        match rank {
            Some(Rank::Remaps) => put(self.remaps, self.counts.remaps, at),
            Some(Rank::Types) => note_type(self.types, self.counts.types, at, hash),
            Some(Rank::Constants) => put(self.constants, self.counts.constants, at),
            Some(Rank::Globals) => put(self.globals, self.counts.globals, at),
            _ => {}
        }
    }

    // Holds the record at a place, which passed its tests, with what was held before; a type's hash is given.
    pub fn hold(&mut self, at: usize, hash: u32)
        requires { PassedAt self.old.sheet.now (places_in self.old) self.old.counts at × HashFor (record_from self.old.sheet.now at) hash }
        ensures held { RecordHeld self.old.sheet.now (places_in self.old) self.old.counts at (places_in self.new) self.new.counts }
        ensures same { SameHeld self.old self.new }
    {
        let rest = records::rest_at(self.sheet, at);
        let rank = records::rank_of(records::tag_of(rest));
        self.note(rank, at, hash);
        self.counts = added(self.counts, rank, at);
    }
}
