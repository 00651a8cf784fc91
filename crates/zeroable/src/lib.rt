// Whether a type is zeroable: whether every part under it is (part of test 13 of document 01).
// A recursive walk over the type entries, in which the entry's index falls at each call. The caller lends a memo of a flag
// for each entry, 0 for not yet known, and `Memo` asks that it has one for each: so an entry is looked into once, however often
// it is a part. Without its flag the walk could be exponential in how deep the parts go.
#![tactic(auto)]

ghost use Rattle.std.specs.Prelude.{◌≡◌, ◌<◌, length, set};
ghost use Rattle.definition.specs.Zeroable.{zeroable};
ghost use Rattle.members.specs.Walk.{members_left};
ghost use Rattle.records.specs.Places.{types_in};
ghost use Rattle.zeroable.specs.Memo.{Memo, memo_flag, part_zeroable, zero_members};

use fields::Named;
use members::Members;
use records::Earlier;

// Keeps what was found of type i.
fn keep(memo: &mut [u8], i: usize, z: bool)
    requires { i < length memo.old }
    ensures { memo.new ≡ set memo.old i (memo_flag z) }
{
    memo[i] = if z { 1 } else { 2 };
}

// Whether type i is zeroable. That i is one of the types, and what the memo says of them, is asked at each call: the types are others
// at each record of the sheet, and the memo is lent for the whole of it, so that a struct of both would be made anew for each record.
#[cycle(zeroable_parts)]
pub fn is_zeroable(types: Earlier<'_>, i: usize, memo: &mut [u8]) -> bool
    requires { (i < length types.places.now) × Memo (types_in types) memo.old }
    ensures { (result ≡ zeroable (types_in types.entry) i) × Memo (types_in types.entry) memo.new }
{
    match fields::u8_at(memo, i) {
        1 => true,
        2 => false,
        _ => {
            let z = zero_entry(types, i, memo);
            keep(memo, i, z);
            z
        }
    }
}

// The same, by the type's tag: a sized Array as its base, a Struct as its members.
#[cycle(zeroable_parts)]
#[tactic(auto, using(crate::proofs::Order::one), unfolding(definition::specs::Sheet::type_fields))]
fn zero_entry(types: Earlier<'_>, i: usize, memo: &mut [u8]) -> bool
    requires { (i < length types.places.now) × Memo (types_in types) memo.old }
    ensures { (result ≡ zeroable (types_in types.entry) i) × Memo (types_in types.entry) memo.new }
{
    let rest = records::rest_at(types.sheet, types.places[i] as usize);
    let named = Named::new(records::body_of(rest));
    match records::tag_of(rest) {
        16 => true,
        17 => true,
        18 => true,
        19 => true,
        22 => named.u32_at(2) != 0 && zero_part(types, i, named.u16_at(0) as usize, memo),
        23 => zero_members(types, i, Members::behind(named.body, named.end), memo),
        _ => false,
    }
}

// The same of type j, which counts as a part of type i only where it stands before it.
#[cycle(zeroable_parts)]
fn zero_part(types: Earlier<'_>, i: usize, j: usize, memo: &mut [u8]) -> bool
    requires { (i < length types.places.now) × Memo (types_in types) memo.old }
    ensures { (result ≡ part_zeroable (types_in types.entry) i j) × Memo (types_in types.entry) memo.new }
{
    j < i && is_zeroable(types, j, memo)
}

// The same of each of these members. By `all`, which was tried, the closure's calls of `zero_part` stayed unproved, since each changes the memo.
#[cycle(zeroable_parts)]
#[tactic(auto, unfolding(definition::specs::Tests::member_types))]
fn zero_members(types: Earlier<'_>, i: usize, members: Members<'_>, memo: &mut [u8]) -> bool
    requires { (i < length types.places.now) × Memo (types_in types) memo.old }
    ensures { (result ≡ zero_members (types_in types.entry) i (members_left members.entry)) × Memo (types_in types.entry) memo.new }
{
    for m in members {
        if !zero_part(types, i, m.ty as usize, memo) {
            return false;
        }
    }
    true
}
