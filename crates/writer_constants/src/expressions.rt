// The five expressions of the sheet, each entered as a constant: its id, its type's id, and its kind where a Splat may
// repeat it.
ghost use Rattle.std.specs.Prelude.{◌≡◌, ◌<◌, Some};
ghost use Rattle.definition.specs.Bytes.{name_end};
ghost use Rattle.definition.specs.Sheet.{type_fields};
ghost use Rattle.definition.specs.Shapes.{kind_of};
ghost use Rattle.definition.specs.Finding.{literal_kind};
ghost use Rattle.definition.specs.Rules.{inner_at, kind_of_scalar};
ghost use Rattle.literals.specs.Forms.{literal_of};
ghost use Rattle.lookup.specs.Local.{key_of};
ghost use Rattle.records.specs.Places.{types_in};
ghost use Rattle.entries.specs.Constants.{expression_of};
ghost use Rattle.writer.specs.Cost.{a_value};
ghost use Rattle.writer.specs.Held.{RoomIn, Room, kind_code};
ghost use Rattle.writer_constants.specs.Entered.{EnteredFound, SplatType, ConstantWritten, expression_cost, FewParts};

use crate::composites::{get_constant_composite, stage_parts, stage_splat};
use entries::constants::Expression;
use fields::Named;
use finding::{get_constant_null, get_constant_scalar, literal_type, type_id};
use kinds::ScalarKind;
use literals::Literal;
use lookup::{LookupType, value_type};
use records::Earlier;
use writer::Writer;

// Enters a constant of a type, once both are found.
fn enter_found(w: &mut Writer<'_, '_>, id: u64, t: LookupType, kind: u64)
    requires { RoomIn a_value w.old }
    ensures { EnteredFound (key_of t) kind id w.old w.new }
{
    let ty = type_id(w, t);
    w.enter_value(id, ty, kind);
}

// ---- kinds, as the constants' table has them

// Of a kind's number and a width in bytes.
#[tactic(auto, unfolding(definition::specs::Shapes::kind_of))]
fn kind_code(k: u8, width: u8) -> u64
    ensures { (result ≡ kind_code (Some (kind_of k width))) × (result < 1025) }
{
    match k {
        0 => 1 + 4 * (width as u64),
        1 => 2 + 4 * (width as u64),
        2 => 3 + 4 * (width as u64),
        _ => 4,
    }
}

#[tactic(auto, unfolding(definition::specs::Shapes::kind_of))]
fn literal_code(l: Literal) -> u64
    ensures { (result ≡ kind_code (Some (literal_kind (literal_of l)))) × (result < 1025) }
{
    match l {
        Literal::F64(_) => kind_code(2, 8),
        Literal::F32(_) => kind_code(2, 4),
        Literal::Nan64(_) => kind_code(2, 8),
        Literal::Nan32(_) => kind_code(2, 4),
        Literal::U32(_) => kind_code(1, 4),
        Literal::I32(_) => kind_code(0, 4),
        Literal::Bool(_) => kind_code(3, 1),
    }
}

// The kind of a type of a tag and a body, where it is a Scalar; an Atomic has none here, though it is declared as one.
#[tactic(auto, unfolding(definition::specs::Sheet::type_fields))]
fn kind_in(tag: u8, body: &[u8]) -> u64
    ensures { (result ≡ kind_code (kind_of_scalar (type_fields tag body.now (name_end body.now 0)).value)) × (result < 1025) }
{
    let named = Named::new(body);
    match tag {
        16 => kind_code(named.u8_at(0), named.u8_at(1)),
        17 => 0,
        18 => 0,
        19 => 0,
        20 => 0,
        21 => 0,
        22 => 0,
        23 => 0,
        24 => 0,
        25 => 0,
        26 => 0,
        27 => 0,
        28 => 0,
        _ => 0,
    }
}

// The same of type t of those read before.
fn scalar_kind(types: Earlier<'_>, t: u16) -> u64
    ensures { (result ≡ kind_code (kind_of_scalar (inner_at (types_in types.entry) t))) × (result < 1025) }
{
    match types.rest_at(t as usize) {
        None => 0,
        Some(rest) => kind_in(records::tag_of(rest), records::body_of(rest)),
    }
}

// The vector type of a Splat of a constant of this kind; of a code that no kind has it is some vector type.
fn splat_type(size: u8, kind: u64) -> LookupType
    ensures { SplatType size kind (key_of result) }
{
    if kind == 0 {
        return value_type(Some(size), ScalarKind::Bool, 0);
    }
    let k = kinds::kind_of(((kind - 1) % 4) as u8);
    value_type(Some(size), k, ((kind - 1) / 4 % 256) as u8)
}

// Writes the constant e, the parts of which stand in its record's body b; `types` are those read before.
#[tactic(auto, using(fields::proofs::Numbers::u16s_length))]
pub fn write_constant_expr(
    w: &mut Writer<'_, '_>,
    types: Earlier<'_>,
    body: &[u8],
    expr: Expression,
)
    requires { FewParts (expression_of body.now expr) × Room (expression_cost (expression_of body.now expr)) w.old }
    ensures { ConstantWritten (expression_cost (expression_of body.now expr)) (types_in types.entry) (expression_of body.now expr) w.old w.new }
{
    match expr {
        Expression::Literal(l) => {
            let id = get_constant_scalar(w, l);
            enter_found(w, id, literal_type(l), literal_code(l));
        }
        Expression::Constant(c) => {
            let v = w.value_at(c as usize);
            w.enter_value(v.id, v.ty, v.kind);
        }
        Expression::ZeroValue(t) => {
            let ty = type_id(w, LookupType::Handle(t));
            let id = get_constant_null(w, ty);
            enter_found(w, id, LookupType::Handle(t), scalar_kind(types, t));
        }
        Expression::Compose { ty, count } => {
            stage_parts(w, body, count);
            let id = get_constant_composite(w, LookupType::Handle(ty), count as usize);
            enter_found(w, id, LookupType::Handle(ty), 0);
        }
        Expression::Splat { size, value } => {
            let v = w.value_at(value as usize);
            let t = splat_type(size, v.kind);
            stage_splat(w, v.id, size as usize);
            let id = get_constant_composite(w, t, size as usize);
            enter_found(w, id, t, 0);
        }
    }
}
