// The cases that document 01 numbers, under the Rust's names (its IR), and how a number is taken for its case. Whether a number
// is one that document 01 allows is test 10, in `sheet_fields`; here every number is taken for some case.
#![tactic(auto)]

ghost use Rattle.std.specs.Prelude.{◌≡◌, true, ◌≤◌, ◌<◌};
ghost use Rattle.definition.specs.Tests.{space_fits, class_fits};
ghost use Rattle.kinds.specs.Numbers.{kind_number, space_number, space_access, dimension_number, class_number, class_first, class_second};

#[derive(Clone, Copy)]
pub enum ScalarKind {
    Sint,
    Uint,
    Float,
    Bool,
}

// Only Storage has an access: bit 0 load, bit 1 store.
#[derive(Clone, Copy)]
pub enum AddressSpace {
    Function,
    Private,
    WorkGroup,
    Uniform,
    Storage { access: u8 },
    Handle,
    PushConstant,
}

#[derive(Clone, Copy)]
pub enum ImageDimension {
    D1,
    D2,
    D3,
    Cube,
}

// The format and the access of a storage image are document 01's numbers; the Rust has an enum and flags for them.
#[derive(Clone, Copy)]
pub enum ImageClass {
    Sampled { kind: ScalarKind, multi: bool },
    Depth { multi: bool },
    Storage { format: u8, access: u8 },
}

// From the sheet's numbers. Not `TryFrom`, which may fail: these answer for every byte, and the tests see to it that only those of
// document 01 come here.
pub fn kind_of(k: u8) -> ScalarKind
    ensures { k ≤ 3 → kind_number result ≡ k }
{
    match k {
        0 => ScalarKind::Sint,
        1 => ScalarKind::Uint,
        2 => ScalarKind::Float,
        _ => ScalarKind::Bool,
    }
}

#[tactic(auto, unfolding(definition::specs::Tests::space_fits))]
pub fn space_of(space: u8, access: u8) -> AddressSpace
    ensures { space_fits space access ≡ true → (space_number result ≡ space) × (space_access result ≡ access) }
{
    match space {
        0 => AddressSpace::Function,
        1 => AddressSpace::Private,
        2 => AddressSpace::WorkGroup,
        3 => AddressSpace::Uniform,
        4 => AddressSpace::Storage { access },
        5 => AddressSpace::Handle,
        _ => AddressSpace::PushConstant,
    }
}

// The number of a space, the inverse of space_of's first byte. No cast: one of the cases carries its access.
pub fn space_number(space: AddressSpace) -> u8
    ensures { (result ≡ space_number space) × (result < 8) }
{
    match space {
        AddressSpace::Function => 0,
        AddressSpace::Private => 1,
        AddressSpace::WorkGroup => 2,
        AddressSpace::Uniform => 3,
        AddressSpace::Storage { .. } => 4,
        AddressSpace::Handle => 5,
        AddressSpace::PushConstant => 6,
    }
}

// The access byte behind it.
pub fn space_access(space: AddressSpace) -> u8
    ensures { result ≡ space_access space }
{
    match space {
        AddressSpace::Storage { access } => access,
        _ => 0,
    }
}

pub fn dimension_of(d: u8) -> ImageDimension
    ensures { d ≤ 3 → dimension_number result ≡ d }
{
    match d {
        0 => ImageDimension::D1,
        1 => ImageDimension::D2,
        2 => ImageDimension::D3,
        _ => ImageDimension::Cube,
    }
}

// The two bytes behind the class are kind and multi, 0 and multi, or format and access.
#[tactic(auto, unfolding(definition::specs::Tests::class_fits))]
pub fn class_of(class: u8, x: u8, y: u8) -> ImageClass
    ensures { class_fits class x y ≡ true → (class_number result ≡ class) × ((class_first result ≡ x) × (class_second result ≡ y)) }
{
    match class {
        0 => ImageClass::Sampled {
            kind: kind_of(x),
            multi: y == 1,
        },
        1 => ImageClass::Depth { multi: y == 1 },
        _ => ImageClass::Storage {
            format: x,
            access: y,
        },
    }
}
