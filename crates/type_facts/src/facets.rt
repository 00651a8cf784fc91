// Facets: a type as far as the rules ask of a type that was read before. Its tag is looked at once, in `facet_of`; each question
// is then put to the facet. Other fields are read by the tag where they are asked for, since a facet that had them all would be
// the whole type: `sheet_fields` tests them, `entries` takes them for the type's own declaration, `zeroable` walks what is under a
// type, and `writer_constants` asks for a scalar's kind and for the places of a Compose.
ghost use Rattle.std.specs.Prelude.{◌≡◌};
ghost use Rattle.definition.specs.Bytes.{name_end};
ghost use Rattle.definition.specs.Sheet.{type_fields};
ghost use Rattle.definition.specs.Rules.{inner_at};
ghost use Rattle.records.specs.Places.{types_in};
ghost use Rattle.type_facts.specs.Facets.{facet_of, image_facet, dynamic_in, stride_of, stride_in, element_in, access_in, base_in, pointer_in};

use fields::Named;
use records::Earlier;
use sheet_fields::values::{float_width, size_fits};
use spirv::layouter::matrix_stride;

// A type as far as the rules ask of it.
#[derive(Clone, Copy)]
pub enum Facet {
    Matrix { rows: u8, width: u8 },
    Array { base: u16, dynamic: bool },
    Struct,
    StorageImage { access: u8 },
    Pointer,
    BindingArray { base: u16 },
    Other,
}

// Of an image with a class byte and its second byte, which is a storage image's access.
fn image_facet(class: u8, access: u8) -> Facet
    ensures { result ≡ image_facet class access }
{
    if class == 2 {
        Facet::StorageImage { access }
    } else {
        Facet::Other
    }
}

// Of a type with a tag and a body. Other are Scalar, Vector, Atomic, Sampler, AccelerationStructure and RayQuery. What is no
// type's tag is a BindingArray, here as in the definition: test 5 lets none through.
#[tactic(auto, unfolding(definition::specs::Sheet::type_fields))]
pub fn facet_of(tag: u8, body: &[u8]) -> Facet
    ensures { result ≡ facet_of (type_fields tag body.now (name_end body.now 0)).value }
{
    let named = Named::new(body);
    match tag {
        16 => Facet::Other,
        17 => Facet::Other,
        18 => Facet::Matrix {
            rows: named.u8_at(1),
            width: named.u8_at(2),
        },
        19 => Facet::Other,
        20 => Facet::Pointer,
        21 => Facet::Pointer,
        22 => Facet::Array {
            base: named.u16_at(0),
            dynamic: named.u32_at(2) == 0,
        },
        23 => Facet::Struct,
        24 => image_facet(named.u8_at(2), named.u8_at(4)),
        25 => Facet::Other,
        26 => Facet::Other,
        27 => Facet::Other,
        28 => Facet::BindingArray {
            base: named.u16_at(0),
        },
        _ => Facet::BindingArray {
            base: named.u16_at(0),
        },
    }
}

// Of type i.
pub fn facet_at(types: Earlier<'_>, index: usize) -> Facet
    ensures { result ≡ facet_of (inner_at (types_in types.entry) index) }
{
    match types.rest_at(index) {
        None => Facet::Other,
        Some(rest) => facet_of(records::tag_of(rest), records::body_of(rest)),
    }
}

// The column stride of so many rows of a width. A matrix that test 10 would refuse has none, here as in the definition.
fn stride_of(rows: u8, width: u8) -> Option<u32>
    ensures { result ≡ stride_of rows width }
{
    if size_fits(rows) && float_width(width) {
        Some(matrix_stride(rows, width))
    } else {
        None
    }
}

impl Facet {
    // Whether it is a dynamic array.
    pub fn is_dynamic(self) -> bool
        ensures { result ≡ dynamic_in self }
    {
        matches!(self, Facet::Array { dynamic: true, .. })
    }

    // The column stride of a matrix.
    pub fn stride(self) -> Option<u32>
        ensures { result ≡ stride_in self }
    {
        match self {
            Facet::Matrix { rows, width } => stride_of(rows, width),
            _ => None,
        }
    }

    // The access of a storage image.
    pub fn access(self) -> Option<u8>
        ensures { result ≡ access_in self }
    {
        match self {
            Facet::StorageImage { access } => Some(access),
            _ => None,
        }
    }

    // The base of a BindingArray.
    pub fn binding_base(self) -> Option<u16>
        ensures { result ≡ base_in self }
    {
        match self {
            Facet::BindingArray { base } => Some(base),
            _ => None,
        }
    }

    // The base of an Array.
    pub fn element(self) -> Option<u16>
        ensures { result ≡ element_in self }
    {
        match self {
            Facet::Array { base, .. } => Some(base),
            _ => None,
        }
    }

    // Whether it is a Pointer or a ValuePointer.
    pub fn is_pointer(self) -> bool
        ensures { result ≡ pointer_in self }
    {
        matches!(self, Facet::Pointer)
    }
}
