// Constants.
#![tactic(auto, unfolding(definition::specs::Sheet::constant_fields, definition::specs::Sheet::literal_fields))]

ghost use Rattle.std.specs.Prelude.{◌≡◌, true};
ghost use Rattle.definition.specs.Sheet.{literal_fields};
ghost use Rattle.definition.specs.Tests.{literal_fits};
ghost use Rattle.literals.specs.Forms.{literal_of};
ghost use Rattle.entries.specs.Constants.{ConstantTaken};

use literals::Literal;

// A Constant is document 01's Alias. Types and constants by their indexes.
#[derive(Clone, Copy)]
pub enum Expression {
    Literal(Literal),
    Constant(u16),
    ZeroValue(u16),
    Compose { ty: u16, count: u16 },
    Splat { size: u8, value: u16 },
}

fn literal_of(b: &[u8]) -> Literal
    ensures { literal_fits (literal_fields b.now).value ≡ true → literal_of result ≡ (literal_fields b.now).value }
{
    match fields::u8_at(b, 0) {
        0 => literals::f64_of_bits(fields::u64_at(b, 1)),
        1 => literals::f32_of_bits(fields::u32_at(b, 1)),
        2 => literals::u32_of_bits(fields::u32_at(b, 1)),
        3 => literals::i32_of_bits(fields::u32_at(b, 1)),
        4 => Literal::Bool(fields::u8_at(b, 1) == 1),
        _ => Literal::Bool(fields::u8_at(b, 1) == 1),
    }
}

// The constant of tag t and body b; of what is no constant's tag a Splat, as in the definition.
pub fn expression_of(tag: u8, body: &[u8]) -> Expression
    ensures { ConstantTaken tag body.now result }
{
    match tag {
        64 => Expression::Literal(literal_of(body)),
        65 => Expression::Constant(fields::u16_at(body, 0)),
        66 => Expression::ZeroValue(fields::u16_at(body, 0)),
        67 => Expression::Compose {
            ty: fields::u16_at(body, 0),
            count: fields::u16_at(body, 2),
        },
        68 => Expression::Splat {
            size: fields::u8_at(body, 0),
            value: fields::u16_at(body, 1),
        },
        _ => Expression::Splat {
            size: fields::u8_at(body, 0),
            value: fields::u16_at(body, 1),
        },
    }
}
