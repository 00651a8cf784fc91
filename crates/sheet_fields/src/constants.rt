// The fields of a constant: an arm for each tag, and for each form of a literal, in the order of document 01's list. What is no
// constant's tag (test 5) or no form (test 10) has the fields of the last, here as in the definition.
#![tactic(auto, unfolding(definition::specs::Sheet::constant_fields, definition::specs::Sheet::literal_fields))]

ghost use Rattle.std.specs.Prelude.{◌≡◌, ◌&&◌, [], ◌∷◌};
ghost use Rattle.definition.specs.Bytes.{u16_at};
ghost use Rattle.definition.specs.Sheet.{literal_fields, constant_fields, u16s_at};
ghost use Rattle.definition.specs.Tests.{literal_fits, expression_fits, expression_types, expression_constants, below};

use crate::values::size_fits;

// Forms 0 F64, 1 F32, 2 U32, 3 I32, 4 Bool.
fn literal_end(b: &[u8]) -> usize
    ensures { result ≡ (literal_fields b.now).end }
{
    match fields::u8_at(b, 0) {
        0 => 9,
        1 => 5,
        2 => 5,
        3 => 5,
        4 => 2,
        _ => 2,
    }
}

pub fn end_of(tag: u8, body: &[u8]) -> usize
    ensures { result ≡ (constant_fields tag body.now).end }
{
    match tag {
        64 => literal_end(body),
        65 => 2,
        66 => 2,
        67 => 4 + 2 * fields::u16_at(body, 2) as usize,
        68 => 3,
        _ => 3,
    }
}

// Of the literals only a Bool has values that it may not have.
fn literal_fits(b: &[u8]) -> bool
    ensures { result ≡ literal_fits (literal_fields b.now).value }
{
    match fields::u8_at(b, 0) {
        0 => true,
        1 => true,
        2 => true,
        3 => true,
        4 => fields::u8_at(b, 1) <= 1,
        _ => fields::u8_at(b, 1) <= 1,
    }
}

pub fn values_fit(tag: u8, body: &[u8]) -> bool
    ensures { result ≡ expression_fits (constant_fields tag body.now).value }
{
    match tag {
        64 => literal_fits(body),
        65 => true,
        66 => true,
        67 => true,
        68 => size_fits(fields::u8_at(body, 0)),
        _ => size_fits(fields::u8_at(body, 0)),
    }
}

// Whether the number at `at` is below `most`.
pub fn one_below(body: &[u8], at: usize, most: usize) -> bool
    ensures { result ≡ below most (u16_at body.now at ∷ []) }
{
    (fields::u16_at(body, at) as usize) < most
}

// Whether each of the n numbers from `first` on is below `most`.
pub fn each_below(b: &[u8], first: u16, n: u16, most: usize) -> bool
    ensures { result ≡ below most (u16s_at b.now first n) }
{
    (0..n as usize).all(|i| (fields::u16_at(b, first as usize + 2 * i) as usize) < most)
}

fn compose_read(b: &[u8], types: usize, constants: usize) -> bool
    ensures { result ≡ (below types (u16_at b.now 0 ∷ []) && below constants (u16s_at b.now 4 (u16_at b.now 2))) }
{
    one_below(b, 0, types) && each_below(b, 4, fields::u16_at(b, 2), constants)
}

// `types` and `constants` are how many were read.
pub fn read_already(tag: u8, body: &[u8], types: usize, constants: usize) -> bool
    ensures { result ≡ (below types (expression_types (constant_fields tag body.now).value) && below constants (expression_constants (constant_fields tag body.now).value)) }
{
    match tag {
        64 => true,
        65 => one_below(body, 0, constants),
        66 => one_below(body, 0, types),
        67 => compose_read(body, types, constants),
        68 => one_below(body, 1, constants),
        _ => one_below(body, 1, constants),
    }
}
