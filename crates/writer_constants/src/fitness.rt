// Test 13 of a constant: whether it fits the constants and the types before it.
ghost use Rattle.std.specs.Prelude.{◌≡◌, true, ℕ, length};
ghost use Rattle.definition.specs.Bytes.{name_end};
ghost use Rattle.definition.specs.Shapes.{kind_of};
ghost use Rattle.definition.specs.Sheet.{u16s_at, type_fields};
ghost use Rattle.definition.specs.Tests.{member_types, expression_types, below};
ghost use Rattle.definition.specs.Rules.{inner_at};
ghost use Rattle.definition.specs.Unfit.{part_places_of, each, members};
ghost use Rattle.kinds.specs.Numbers.{kind_number};
ghost use Rattle.lookup.specs.Local.{key_of};
ghost use Rattle.members.specs.Walk.{members_left};
ghost use Rattle.records.specs.Places.{types_in};
ghost use Rattle.entries.specs.Constants.{expression_of};
ghost use Rattle.zeroable.specs.Memo.{Memo};
ghost use Rattle.writer.specs.Cost.{no_cost};
ghost use Rattle.writer.specs.Held.{RoomIn};
ghost use Rattle.writer_constants.specs.Fitting.{TestsEachPart, TestsParts, TestsConstant};

use entries::constants::Expression;
use fields::Named;
use finding::type_id;
use kinds::ScalarKind;
use lookup::{LookupType, value_type};
use members::Members;
use records::Earlier;
use writer::Writer;

// The kind of a number; one that test 10 refuses is taken for a Bool's, as the definition takes it.
#[tactic(auto, unfolding(definition::specs::Shapes::kind_of))]
fn kind_for(k: u8) -> ScalarKind
    ensures { (w : ℕ) → kind_of (kind_number result) w ≡ kind_of k w }
{
    if 3 < k {
        return ScalarKind::Bool;
    }
    kinds::kind_of(k)
}

// Whether the n parts of a Compose, which stand in its body b, two bytes each, are of the type with this id.
#[tactic(auto, using(crate::proofs::Fitting::none_left))]
fn all_of_type(w: &Writer<'_, '_>, b: &[u8], n: u16, id: u64) -> bool
    requires { RoomIn no_cost w.now }
    ensures { TestsEachPart id (u16s_at b.now 4 n) w.now result }
{
    for i in 0..n as usize {
        let v = w.value_at(fields::u16_at(b, 4 + 2 * i) as usize);
        if v.ty != id {
            return false;
        }
    }
    true
}

// Whether they are so many, and each of this type. A size may be far more than the parts are, so the two are compared first.
#[tactic(auto, using(fields::proofs::Numbers::u16s_length))]
fn each_fits(w: &Writer<'_, '_>, b: &[u8], n: u16, size: u32, t: LookupType) -> bool
    requires { RoomIn no_cost w.now }
    ensures { TestsParts (each size (key_of t)) (u16s_at b.now 4 n) w.now result }
{
    if n as u32 != size {
        return false;
    }
    let id = type_id(w, t);
    all_of_type(w, b, n, id)
}

// Whether there is one for each of the members wanted, of the member's type.
#[tactic(auto, using(crate::proofs::Fitting::other_number, crate::proofs::Fitting::unmatched))]
fn members_fit(w: &Writer<'_, '_>, b: &[u8], n: u16, wanted: Members<'_>) -> bool
    requires { RoomIn no_cost w.now }
    ensures { TestsParts (members (member_types (members_left wanted.entry))) (u16s_at b.now 4 n) w.now result }
{
    if n as usize != wanted.len() {
        return false;
    }
    for (i, m) in wanted.enumerate() {
        let v = w.value_at(fields::u16_at(b, 4 + 2 * i) as usize);
        let id = type_id(w, LookupType::Handle(m.ty));
        if v.ty != id {
            return false;
        }
    }
    true
}

// Whether they have the places that a type of a tag and of body d gives: a vector, a matrix, a sized Array or a struct.
#[tactic(auto, unfolding(definition::specs::Sheet::type_fields, definition::specs::Shapes::kind_of))]
fn places_fit(w: &Writer<'_, '_>, tag: u8, d: &[u8], b: &[u8], n: u16) -> bool
    requires { RoomIn no_cost w.now }
    ensures { TestsParts (part_places_of (type_fields tag d.now (name_end d.now 0)).value) (u16s_at b.now 4 n) w.now result }
{
    let named = Named::new(d);
    match tag {
        17 => {
            let kind = kind_for(named.u8_at(1));
            let component = value_type(None, kind, named.u8_at(2));
            each_fits(w, b, n, named.u8_at(0) as u32, component)
        }
        18 => {
            let column = value_type(Some(named.u8_at(1)), ScalarKind::Float, named.u8_at(2));
            each_fits(w, b, n, named.u8_at(0) as u32, column)
        }
        22 => {
            let size = named.u32_at(2);
            if size == 0 {
                return false;
            }
            each_fits(w, b, n, size, LookupType::Handle(named.u16_at(0)))
        }
        23 => members_fit(w, b, n, Members::behind(d, named.end)),
        _ => false,
    }
}

// Whether a Compose of type t of those read before fits; its parts stand in its record's body b.
fn compose_fits(w: &Writer<'_, '_>, types: Earlier<'_>, t: u16, b: &[u8], count: u16) -> bool
    requires { RoomIn no_cost w.now }
    ensures { TestsParts (part_places_of (inner_at (types_in types.entry) t)) (u16s_at b.now 4 count) w.now result }
{
    match types.rest_at(t as usize) {
        None => false,
        Some(rest) => places_fit(w, records::tag_of(rest), records::body_of(rest), b, count),
    }
}

// Whether the constant e fits, the parts of which stand in its record's body b; the types that it names are among those read before.
#[tactic(auto, unfolding(definition::specs::Unfit::constant_fits))]
pub fn expression_fits(
    w: &Writer<'_, '_>,
    types: Earlier<'_>,
    memo: &mut [u8],
    body: &[u8],
    expr: Expression,
) -> bool
    requires { (below (length types.places.now) (expression_types (expression_of body.now expr)) ≡ true) × (RoomIn no_cost w.now × Memo (types_in types) memo.old) }
    ensures { TestsConstant (types_in types.entry) (expression_of body.now expr) w.now result × Memo (types_in types.entry) memo.new }
{
    match expr {
        Expression::Literal(_) => true,
        Expression::Constant(_) => true,
        Expression::ZeroValue(t) => zeroable::is_zeroable(types, t as usize, memo),
        Expression::Compose { ty, count } => compose_fits(w, types, ty, body, count),
        Expression::Splat { size: _, value } => {
            let v = w.value_at(value as usize);
            v.kind != 0
        }
    }
}
