// Literals that keep every bit, and are told apart by form and bits, never as numbers. Reading them from a record is for
// `entries`, giving them an id for `finding`.
#![tactic(auto)]

ghost use Rattle.std.specs.Prelude.{◌≡◌, get_or};
ghost use Rattle.definition.specs.Literals.{f64, f32, u32 as unsigned, i32 as signed, literal_words};
ghost use Rattle.literals.specs.Forms.{literal_of, literal_form, bits_of};

use std::num;

// A float's bits are not always there to be had: from_bits and to_bits are undefined at a NaN, of which the logic knows
// one without payload. So the pattern of a NaN stands in a case of its own, as a number.
#[derive(Clone, Copy)]
pub enum Literal {
    F64(f64),
    F32(f32),
    Nan64(u64),
    Nan32(u32),
    U32(u32),
    I32(i32),
    Bool(bool),
}

// The literal of each form, by its bits. A pattern is a NaN's where it is above an infinity's, its sign put aside.
// Each width of float by itself: a trait for the two would have to name its two cases, its constants and `from_bits` again.
pub fn f64_of_bits(pattern: u64) -> Literal
    ensures { literal_of result ≡ f64 pattern }
{
    if 0x7FF0_0000_0000_0000 < pattern % 0x8000_0000_0000_0000 {
        Literal::Nan64(pattern)
    } else {
        Literal::F64(f64::from_bits(pattern))
    }
}

pub fn f32_of_bits(pattern: u32) -> Literal
    ensures { literal_of result ≡ f32 pattern }
{
    if 0x7F80_0000 < pattern % 0x8000_0000 {
        Literal::Nan32(pattern)
    } else {
        Literal::F32(f32::from_bits(pattern))
    }
}

pub fn u32_of_bits(n: u32) -> Literal
    ensures { literal_of result ≡ unsigned n }
{
    Literal::U32(n)
}

pub fn i32_of_bits(n: u32) -> Literal
    ensures { literal_of result ≡ signed n }
{
    Literal::I32(n.cast_signed())
}

// The form byte of a literal. No cast: the cases carry their values, and a NaN's has the form of its width.
pub fn form(value: Literal) -> u8
    ensures { result ≡ literal_form (literal_of value) }
{
    match value {
        Literal::F64(_) | Literal::Nan64(_) => 0,
        Literal::F32(_) | Literal::Nan32(_) => 1,
        Literal::U32(_) => 2,
        Literal::I32(_) => 3,
        Literal::Bool(_) => 4,
    }
}

// The bits of a literal, whatever its form. Floats are not compared as numbers but by these, so +0 and -0 differ, and a NaN
// is equal to itself.
pub fn bits(value: Literal) -> u64
    ensures { result ≡ bits_of (literal_of value) }
{
    match value {
        Literal::F64(x) => num::f64_to_bits_with_nan(x),
        Literal::F32(x) => num::f32_to_bits_with_nan(x) as u64,
        Literal::Nan64(n) => n,
        Literal::Nan32(n) | Literal::U32(n) => n as u64,
        Literal::I32(x) => x.cast_unsigned() as u64,
        Literal::Bool(b) => b as u64,
    }
}

// The first word of a literal's value, and 0 where it has none.
pub fn first_word(value: Literal) -> u32
    ensures { result ≡ get_or (literal_words (literal_of value)) 0 0 }
{
    match value {
        Literal::F64(_) | Literal::Nan64(_) => (bits(value) & 0xFFFF_FFFF) as u32,
        Literal::F32(x) => num::f32_to_bits_with_nan(x),
        Literal::Nan32(n) | Literal::U32(n) => n,
        Literal::I32(x) => x.cast_unsigned(),
        Literal::Bool(_) => 0,
    }
}

// The second word of a literal's value, and 0 where it has none.
pub fn second_word(value: Literal) -> u32
    ensures { result ≡ get_or (literal_words (literal_of value)) 1 0 }
{
    match value {
        Literal::F64(_) | Literal::Nan64(_) => (bits(value) >> 32) as u32,
        _ => 0,
    }
}
