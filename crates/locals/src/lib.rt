// The shape of a type entry: `make_local` and `LocalImageType::from_inner` of the Rust's `mod.rs`, with the conversions that they use.
// Aggregates have none. No id is given here, and no table looked at.
#![tactic(auto)]

ghost use Rattle.std.specs.Prelude.{◌≡◌, List, ℕ, option_map};
ghost use Rattle.definition.specs.Shapes.{storage_class, image_of, format_at, shape_of as defined_shape, count_of as definedCount};
ghost use Rattle.kinds.specs.Numbers.{flag_number, space_number, dimension_number, class_number, class_first, class_second};
ghost use Rattle.entries.specs.Types.{inner_of};
ghost use Rattle.lookup.specs.Local.{vector_count, local_shape};
ghost use Rattle.locals.specs.Made.{described, image_shape};

use entries::types::TypeInner;
use kinds::{AddressSpace, ImageClass, ImageDimension, ScalarKind};
use lookup::{LocalImageType, LocalType};
use spirv::helpers::map_storage_class;
use spirv::images::{Dim, ImageFormat};

// OpTypeImage's operand Sampled.
const WITH_SAMPLER: u8 = 1;

const WITHOUT_SAMPLER: u8 = 2;

// Of each storage format, by its number in a sheet, the Specification's format and the kind of its scalars: what the Rust's `From`
// for `ImageFormat` and `ScalarKind` say, in one table. Whole, it is proved to be the definition's list of formats. A `static` is read
// where it lies.
static FORMATS: [(ImageFormat, ScalarKind); 40] = [
    (ImageFormat::R8, ScalarKind::Float),
    (ImageFormat::R8Snorm, ScalarKind::Float),
    (ImageFormat::R8ui, ScalarKind::Uint),
    (ImageFormat::R8i, ScalarKind::Sint),
    (ImageFormat::R16ui, ScalarKind::Uint),
    (ImageFormat::R16i, ScalarKind::Sint),
    (ImageFormat::R16f, ScalarKind::Float),
    (ImageFormat::Rg8, ScalarKind::Float),
    (ImageFormat::Rg8Snorm, ScalarKind::Float),
    (ImageFormat::Rg8ui, ScalarKind::Uint),
    (ImageFormat::Rg8i, ScalarKind::Sint),
    (ImageFormat::R32ui, ScalarKind::Uint),
    (ImageFormat::R32i, ScalarKind::Sint),
    (ImageFormat::R32f, ScalarKind::Float),
    (ImageFormat::Rg16ui, ScalarKind::Uint),
    (ImageFormat::Rg16i, ScalarKind::Sint),
    (ImageFormat::Rg16f, ScalarKind::Float),
    (ImageFormat::Rgba8, ScalarKind::Float),
    (ImageFormat::Rgba8Snorm, ScalarKind::Float),
    (ImageFormat::Rgba8ui, ScalarKind::Uint),
    (ImageFormat::Rgba8i, ScalarKind::Sint),
    (ImageFormat::Unknown, ScalarKind::Float),
    (ImageFormat::Rgb10a2ui, ScalarKind::Uint),
    (ImageFormat::Rgb10A2, ScalarKind::Float),
    (ImageFormat::R11fG11fB10f, ScalarKind::Float),
    (ImageFormat::Rg32ui, ScalarKind::Uint),
    (ImageFormat::Rg32i, ScalarKind::Sint),
    (ImageFormat::Rg32f, ScalarKind::Float),
    (ImageFormat::Rgba16ui, ScalarKind::Uint),
    (ImageFormat::Rgba16i, ScalarKind::Sint),
    (ImageFormat::Rgba16f, ScalarKind::Float),
    (ImageFormat::Rgba32ui, ScalarKind::Uint),
    (ImageFormat::Rgba32i, ScalarKind::Sint),
    (ImageFormat::Rgba32f, ScalarKind::Float),
    (ImageFormat::R16, ScalarKind::Float),
    (ImageFormat::R16Snorm, ScalarKind::Float),
    (ImageFormat::Rg16, ScalarKind::Float),
    (ImageFormat::Rg16Snorm, ScalarKind::Float),
    (ImageFormat::Rgba16, ScalarKind::Float),
    (ImageFormat::Rgba16Snorm, ScalarKind::Float),
];

// A number past the table reads as Unknown, of floats; test 10 refuses such a sheet.
#[tactic(auto, using(crate::proofs::Formats::format_is, crate::proofs::Formats::past_end))]
fn storage_format(f: u8) -> (ImageFormat, ScalarKind)
    ensures { described result ≡ format_at f }
{
    match FORMATS.get(f as usize) {
        Some(&row) => row,
        None => (ImageFormat::Unknown, ScalarKind::Float),
    }
}

// The storage class, which is small, as the byte that a shape keeps.
fn class_byte(space: AddressSpace) -> u8
    ensures { result ≡ storage_class (space_number space) }
{
    map_storage_class(space) as u8
}

// A value pointer's size byte: 0 is a scalar's.
fn vector_size(n: u8) -> Option<u8>
    ensures { vector_count result ≡ definedCount n }
{
    if n == 0 { None } else { Some(n) }
}

// `LocalImageType::from_inner`.
#[tactic(auto, unfolding(definition::specs::Shapes::image_of, definition::specs::Shapes::kind_of))]
fn image_type(dim: ImageDimension, arrayed: bool, class: ImageClass) -> LocalImageType
    ensures { image_shape result ≡ image_of (dimension_number dim) (flag_number arrayed) (class_number class) (class_first class) (class_second class) }
{
    let dim = Dim::from(dim).number() as u8;
    let arrayed = arrayed as u8;
    match class {
        ImageClass::Sampled { kind, multi } => LocalImageType {
            kind,
            dim,
            depth: 0,
            arrayed,
            multi: multi as u8,
            sampled: WITH_SAMPLER,
            format: ImageFormat::Unknown.number() as u8,
        },
        ImageClass::Depth { multi } => LocalImageType {
            kind: ScalarKind::Float,
            dim,
            depth: 1,
            arrayed,
            multi: multi as u8,
            sampled: WITH_SAMPLER,
            format: ImageFormat::Unknown.number() as u8,
        },
        ImageClass::Storage { format, .. } => {
            let (format, kind) = storage_format(format);
            LocalImageType {
                kind,
                dim,
                depth: 0,
                arrayed,
                multi: 0,
                sampled: WITHOUT_SAMPLER,
                format: format.number() as u8,
            }
        }
    }
}

// None of an aggregate, which is declared under its entry alone. The answer is the same whatever the body is that the type was read
// from: a struct's members stand there, and no shape has any.
pub fn make_local(inner: TypeInner) -> Option<LocalType>
    ensures { (b : List ℕ) (n : ℕ) → option_map local_shape result ≡ defined_shape (inner_of b n inner) }
{
    match inner {
        TypeInner::Scalar { kind, width } | TypeInner::Atomic { kind, width } => {
            Some(LocalType::Value {
                vector_size: None,
                kind,
                width,
                pointer_space: None,
            })
        }
        TypeInner::Vector { size, kind, width } => Some(LocalType::Value {
            vector_size: Some(size),
            kind,
            width,
            pointer_space: None,
        }),
        TypeInner::Matrix {
            columns,
            rows,
            width,
        } => Some(LocalType::Matrix {
            columns,
            rows,
            width,
        }),
        TypeInner::Pointer { base, space } => Some(LocalType::Pointer {
            base,
            class: class_byte(space),
        }),
        TypeInner::ValuePointer {
            size,
            kind,
            width,
            space,
        } => Some(LocalType::Value {
            vector_size: vector_size(size),
            kind,
            width,
            pointer_space: Some(class_byte(space)),
        }),
        TypeInner::Image {
            dim,
            arrayed,
            class,
        } => Some(LocalType::Image(image_type(dim, arrayed, class))),
        TypeInner::Sampler { comparison: _ } => Some(LocalType::Sampler),
        TypeInner::AccelerationStructure => Some(LocalType::AccelerationStructure),
        TypeInner::RayQuery => Some(LocalType::RayQuery),
        TypeInner::Array { .. } | TypeInner::Struct { .. } | TypeInner::BindingArray { .. } => None,
    }
}
