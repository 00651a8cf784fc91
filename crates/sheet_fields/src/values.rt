// Which values a field may have (test 10), each field or pair of fields by itself.
#![tactic(auto, unfolding(definition::specs::Tests::scalar_fits, definition::specs::Tests::space_fits, definition::specs::Tests::class_fits))]

ghost use Rattle.std.specs.Prelude.{◌≡◌, ◌||◌, [], ◌∷◌, eqb};
ghost use Rattle.definition.specs.Choice.{among};
ghost use Rattle.definition.specs.Tests.{scalar_fits, size_fits, float_width, space_fits, class_fits};

fn int_width(w: u8) -> bool
    ensures { result ≡ among w (1 ∷ 2 ∷ 4 ∷ 8 ∷ []) }
{
    matches!(w, 1 | 2 | 4 | 8)
}

pub fn float_width(w: u8) -> bool
    ensures { result ≡ float_width w }
{
    matches!(w, 2 | 4 | 8)
}

pub fn scalar_fits(kind: u8, width: u8) -> bool
    ensures { result ≡ scalar_fits kind width }
{
    match kind {
        0 | 1 => int_width(width),
        2 => float_width(width),
        3 => width == 1,
        _ => false,
    }
}

pub fn size_fits(n: u8) -> bool
    ensures { result ≡ size_fits n }
{
    (2..=4).contains(&n)
}

// The size of a value pointer: 0 for none.
pub fn pointed_size_fits(n: u8) -> bool
    ensures { result ≡ (eqb n 0 || size_fits n) }
{
    n == 0 || size_fits(n)
}

// Only Storage, 4, has an access.
pub fn space_fits(space: u8, access: u8) -> bool
    ensures { result ≡ space_fits space access }
{
    space <= 6 && access <= if space == 4 { 3 } else { 0 }
}

pub fn class_fits(class: u8, x: u8, y: u8) -> bool
    ensures { result ≡ class_fits class x y }
{
    match class {
        0 => x <= 2 && y <= 1,
        1 => x == 0 && y <= 1,
        2 => x <= 39 && y <= 3,
        _ => false,
    }
}
