// Finding a type's id may declare it, and declaring it may find another's: the nesting rank of the shape falls.
// With them what is found or declared the same way: a literal and a null. Nothing here reads the sheet: an entry is found by its
// index, and declared by `writer_types` alone.
#![tactic(auto)]

ghost use Rattle.std.specs.Prelude.{◌≡◌};
ghost use Rattle.definition.specs.Choice.{or_else};
ghost use Rattle.definition.specs.Shapes.{kind_of, scalar, shape};
ghost use Rattle.definition.specs.State.{State, id_of};
ghost use Rattle.definition.specs.Literals.{u32 as unsigned};
ghost use Rattle.definition.specs.Finding.{find, literal, literal_kind, literal_op, null_of};
ghost use Rattle.literals.specs.Forms.{literal_of};
ghost use Rattle.lookup.specs.Local.{local_shape, key_of};
ghost use Rattle.lookup.specs.Packed.{SmallShape};
ghost use Rattle.writer.specs.Regions.{declarations};
ghost use Rattle.writer.specs.Cost.{no_cost, declaring};
ghost use Rattle.writer.specs.Held.{HeldByTables, RoomIn, RoomFor, Room};
ghost use Rattle.writer.specs.Steps.{GotBy, Kept, Puts};
ghost use Rattle.finding.specs.Costs.{own_cost, declared_cost, cost_of, literal_cost, null_cost};
ghost use Rattle.finding.specs.Found.{shape_declared, ShapePut};

use kinds::ScalarKind;
use literals::Literal;
use lookup::{LocalType, LookupType, value_type};
use spirv::low_word;
use writer::Writer;

// ---- types

// Declares a shape under its id, once what it names is found, and lists its capabilities. x is the id of the type that it
// names, y that of its length.
fn put_declaration(w: &mut Writer<'_, '_>, l: LocalType, id: u64, x: u64, y: u64)
    requires { SmallShape (local_shape l) × RoomFor (own_cost (local_shape l)) w.old }
    ensures { ShapePut (local_shape l) id x y w.old w.new }
{
    let c = lookup::capabilities_of(l);
    w.list_capability(c.first);
    w.list_capability(c.second);
    w.declare(|left| lookup::put_shape(left, l, low_word(id), low_word(x), low_word(y)));
}

// The id of a type, which is declared if it has none yet. Of an entry that is not there it is 0.
#[cycle(find_and_declare)]
pub fn get_type_id(w: &mut Writer<'_, '_>, ty: LookupType) -> u64
    requires { Room (cost_of (key_of ty)) w.old }
    ensures { GotBy (cost_of (key_of ty)) (find (key_of ty)) w.old result w.new }
{
    match ty {
        LookupType::Handle(h) => w.find_type(lookup::handle_key(h)).unwrap_or(0),
        LookupType::Local(l) => {
            let k = lookup::local_key(l);
            match w.find_type(k) {
                Some(id) => id,
                None => {
                    let id = w.take_id();
                    w.enter_type(k, id);
                    write_type_declaration_local(w, l, id);
                    id
                }
            }
        }
    }
}

// Declares a shape under its id: what it names first, then the shape.
#[cycle(find_and_declare)]
fn write_type_declaration_local(w: &mut Writer<'_, '_>, l: LocalType, id: u64)
    requires { SmallShape (local_shape l) × Room (declared_cost (local_shape l)) w.old }
    ensures { Kept (declared_cost (local_shape l)) (shape_declared (local_shape l) id) w.old w.new }
{
    match lookup::inner_type(l) {
        None => put_declaration(w, l, id, 0, 0),
        Some(t) => {
            let x = get_type_id(w, t);
            match lookup::length_of(l) {
                None => put_declaration(w, l, id, x, 0),
                Some(n) => {
                    let y = get_constant_scalar(w, Literal::U32(n));
                    put_declaration(w, l, id, x, y);
                }
            }
        }
    }
}

// The id of a type that is entered; 0 where it is not. Of an entry this is all that `get_type_id` does, one search: an entry is never
// declared by being found.
pub fn type_id(w: &Writer<'_, '_>, ty: LookupType) -> u64
    requires { RoomIn no_cost w.now }
    ensures { (s : State) → HeldByTables w.now s → result ≡ or_else 0 (id_of s (key_of ty)) }
{
    w.find_type(lookup::key(ty)).unwrap_or(0)
}

// ---- literals

#[tactic(auto, unfolding(definition::specs::Shapes::kind_of))]
pub fn literal_type(value: Literal) -> LookupType
    ensures { key_of result ≡ shape (scalar (literal_kind (literal_of value))) }
{
    match value {
        Literal::F64(_) | Literal::Nan64(_) => value_type(None, ScalarKind::Float, 8),
        Literal::F32(_) | Literal::Nan32(_) => value_type(None, ScalarKind::Float, 4),
        Literal::U32(_) => value_type(None, ScalarKind::Uint, 4),
        Literal::I32(_) => value_type(None, ScalarKind::Sint, 4),
        Literal::Bool(_) => value_type(None, ScalarKind::Bool, 1),
    }
}

// A literal's own instruction, once its type is found.
fn write_literal(w: &mut Writer<'_, '_>, l: Literal, ty: u64, id: u64)
    requires { RoomFor (declaring 5) w.old }
    ensures { Puts declarations 5 (literal_op (literal_of l) ty id) w.old w.new }
{
    let low = literals::first_word(l);
    let high = literals::second_word(l);
    match l {
        Literal::F64(_) => w.constant_64bit(ty, id, low, high),
        Literal::F32(_) => w.constant_32bit(ty, id, low),
        Literal::Nan64(_) => w.constant_64bit(ty, id, low, high),
        Literal::Nan32(_) => w.constant_32bit(ty, id, low),
        Literal::U32(_) => w.constant_32bit(ty, id, low),
        Literal::I32(_) => w.constant_32bit(ty, id, low),
        Literal::Bool(true) => w.constant_true(ty, id),
        Literal::Bool(false) => w.constant_false(ty, id),
    }
}

// The id of a literal, which takes its id before its type is found.
#[cycle(find_and_declare)]
pub fn get_constant_scalar(w: &mut Writer<'_, '_>, value: Literal) -> u64
    requires { Room literal_cost w.old }
    ensures { GotBy literal_cost (literal (literal_of value)) w.old result w.new }
{
    let form = literals::form(value) as u64;
    let bits = literals::bits(value);
    match w.find_literal(form, bits) {
        Some(id) => id,
        None => {
            let id = w.take_id();
            let ty = get_type_id(w, literal_type(value));
            write_literal(w, value, ty, id);
            w.enter_literal(form, bits, id);
            id
        }
    }
}

// The id of a U32 literal: an array's length.
pub fn get_index_constant(w: &mut Writer<'_, '_>, index: u32) -> u64
    requires { Room literal_cost w.old }
    ensures { GotBy literal_cost (literal (unsigned index)) w.old result w.new }
{
    get_constant_scalar(w, Literal::U32(index))
}

// ---- nulls

// The id of the null of the type with an id.
pub fn get_constant_null(w: &mut Writer<'_, '_>, ty: u64) -> u64
    requires { Room null_cost w.old }
    ensures { GotBy null_cost (null_of ty) w.old result w.new }
{
    match w.find_null(ty) {
        Some(id) => id,
        None => {
            let id = w.take_id();
            w.constant_null(ty, id);
            w.enter_null(ty, id);
            id
        }
    }
}
