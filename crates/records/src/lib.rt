// The sheet's frame: its header, the record at a place, the rank of a tag, and how many records of each kind were read.
// Decides tests 1 to 7 of document 01. A record's body is handed on as that part of the sheet, and not looked into here.
#![tactic(auto)]

ghost use Rattle.std.specs.Prelude.{◌≡◌, Some, MatchOption, ◌+◌, ◌<◌, ◌≤◌, length, drop, get_or};
ghost use Rattle.definition.specs.Bytes.{u16_at};
ghost use Rattle.definition.specs.Sheet.{flags_of, options_of, record_at, tag_rank};
ghost use Rattle.definition.specs.Tests.{Seen, header_test, no_record, out_of_order, room, place_test};
ghost use Rattle.records.specs.Counted.{Counted};
ghost use Rattle.records.specs.Flags.{options_from};
ghost use Rattle.records.specs.Ranks.{rank_number};
ghost use Rattle.refusals.specs.Numbers.{test_number};

use refusals::Refusal;

pub const SHEET_LEAST: usize = 6;

pub const SHEET_MOST: usize = 16384;

pub const HEADER: usize = 6;

pub const REMAPS_MOST: usize = 64;

pub const TYPES_MOST: usize = 256;

pub const FUNCTIONS_MOST: usize = 64;

pub const CONSTANTS_MOST: usize = 256;

pub const GLOBALS_MOST: usize = 64;

// What has been read: the rank of the last record, the place of Available if there is one, and how many records there are of each
// other kind. Where those stand is kept in slices, which the caller lends; but no record names a
// function, so of those only the number is kept. The numbers are of one width, since a copy of narrower ones with gaps between them
// takes longer, and a record's turn makes many.
#[derive(Clone, Copy)]
pub struct Counts {
    pub rank: usize,
    pub available: Option<usize>,
    pub remaps: usize,
    pub types: usize,
    pub functions: usize,
    pub constants: usize,
    pub globals: usize,
}

// The kinds of records, in the order in which a sheet has them.
#[derive(Clone, Copy)]
pub enum Rank {
    Available = 1,
    Remaps = 2,
    Types = 3,
    Functions = 4,
    Constants = 5,
    Globals = 6,
}

impl Rank {
    pub fn number(self) -> usize
        ensures { result ≡ rank_number (Some self) }
    {
        self as usize
    }
}

// What the flags of a sheet ask for: bit 0 debug names, bit 1 native workgroup zeroing.
#[derive(Clone, Copy)]
pub struct Options {
    pub debug: bool,
    pub zeroing: bool,
}

// Tests 1, 2 and 3: the first that fails.
#[tactic(auto, unfolding(definition::specs::Tests::header_test))]
pub fn header_test(sheet: &[u8]) -> Result<(), Refusal>
    ensures { test_number result ≡ header_test sheet.now }
{
    if sheet.len() < SHEET_LEAST || SHEET_MOST < sheet.len() {
        return Err(Refusal::SheetLength);
    }
    if fields::u8_at(sheet, 0) != 1 {
        return Err(Refusal::Version);
    }
    if 4 <= fields::u8_at(sheet, 5) {
        return Err(Refusal::Flags);
    }
    Ok(())
}

// The options of a sheet, by its flags.
pub fn options_of(sheet: &[u8]) -> Options
    ensures { options_from result ≡ options_of (flags_of sheet.now) }
{
    let flags = fields::u8_at(sheet, 5);
    Options {
        debug: flags % 2 == 1,
        zeroing: flags / 2 % 2 == 1,
    }
}

// What is left of the sheet from a place on.
pub fn rest_at(sheet: &[u8], at: usize) -> &[u8]
    ensures { result.now ≡ drop at sheet.now }
{
    fields::part(sheet, at, sheet.len())
}

// The entries of one kind that were read before: where each stands in the sheet.
#[derive(Clone, Copy)]
pub struct Earlier<'a> {
    pub sheet: &'a [u8],
    pub places: &'a [u32],
}

impl<'a> Earlier<'a> {
    // What is left of the sheet from the record of the i-th of them on, where there are so many.
    pub fn rest_at(self, index: usize) -> Option<&'a [u8]>
        ensures { MatchOption result (length self.entry.places.now ≤ index) (λ r. (index < length self.entry.places.now) × (r.now ≡ drop (get_or self.entry.places.now index 0) self.entry.sheet.now)) }
    {
        self.places
            .get(index)
            .map(|place| rest_at(self.sheet, *place as usize))
    }
}

// Test 4: whether no whole record stands at the front of what is left.
pub fn no_record(rest: &[u8]) -> bool
    ensures { result ≡ no_record rest.now }
{
    if rest.len() < 2 {
        return true;
    }
    let n = fields::u16_at(rest, 0) as usize;
    if n == 0 {
        return true;
    }
    rest.len() < 2 + n
}

// The tag of the record at the front of what is left.
pub fn tag_of(rest: &[u8]) -> u8
    ensures { result ≡ (record_at rest.now).tag }
{
    fields::u8_at(rest, 2)
}

// Its body: the part of the sheet behind the length and the tag.
pub fn body_of(rest: &[u8]) -> &[u8]
    ensures { result.now ≡ (record_at rest.now).body }
{
    let n = fields::u16_at(rest, 0) as usize;
    if n == 0 {
        return fields::part(rest, 3, 0);
    }
    fields::part(rest, 3, n - 1)
}

// The place behind the record that stands at `at`, at the front of `rest`. Places have 32 bits; whoever adds to one asks for that.
pub fn next_place(rest: &[u8], at: usize) -> usize
    requires { at < 4294967296 }
    ensures { result ≡ at + (2 + u16_at rest.now 0) }
{
    at + (2 + fields::u16_at(rest, 0) as usize)
}

// The rank of a tag; none of what is no tag.
#[tactic(auto, unfolding(definition::specs::Sheet::tag_rank))]
pub fn rank_of(tag: u8) -> Option<Rank>
    ensures { rank_number result ≡ tag_rank tag }
{
    match tag {
        1 => Some(Rank::Available),
        2 => Some(Rank::Remaps),
        16..=28 => Some(Rank::Types),
        48 => Some(Rank::Functions),
        64..=68 => Some(Rank::Constants),
        96 => Some(Rank::Globals),
        _ => None,
    }
}

// Test 6 of a record of a rank.
fn out_of_order(k: Counts, rank: Rank) -> bool
    ensures { (n : Seen) → Counted n k → result ≡ out_of_order n (rank_number (Some rank)) }
{
    if rank.number() < k.rank {
        return true;
    }
    match rank {
        Rank::Available => k.available.is_some(),
        _ => false,
    }
}

// Test 7 of a record of a rank.
fn has_room(k: Counts, rank: Rank) -> bool
    ensures { (n : Seen) → Counted n k → result ≡ room n (rank_number (Some rank)) }
{
    match rank {
        Rank::Available => true,
        Rank::Remaps => k.remaps < REMAPS_MOST,
        Rank::Types => k.types < TYPES_MOST,
        Rank::Functions => k.functions < FUNCTIONS_MOST,
        Rank::Constants => k.constants < CONSTANTS_MOST,
        Rank::Globals => k.globals < GLOBALS_MOST,
    }
}

// Tests 5, 6 and 7 of a record of tag t: the first that fails.
#[tactic(auto, unfolding(definition::specs::Tests::place_test))]
pub fn place_test(counts: Counts, tag: u8) -> Result<(), Refusal>
    ensures { (n : Seen) → Counted n counts → test_number result ≡ place_test n tag }
{
    let Some(rank) = rank_of(tag) else {
        return Err(Refusal::UnknownTag);
    };
    if out_of_order(counts, rank) {
        return Err(Refusal::OutOfOrder);
    }
    if !has_room(counts, rank) {
        return Err(Refusal::TooMany);
    }
    Ok(())
}
