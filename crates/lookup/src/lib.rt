// Shapes of types (`LocalType`, `LookupType` in the Rust's `mod.rs`), the number under which each is looked up, and what the
// writer asks of a shape: the type and the length that its instruction names, its capabilities, and the instruction itself.
//
// The Rust keeps a hash table by shape. Here every shape packs into one `u64`, no two into the same (proofs/Injective.antt), so
// that the table is searched by number.
#![tactic(auto)]

ghost use Rattle.std.specs.Prelude.{◌≡◌, ◌++◌, ◌<◌, None, option_map};
ghost use Rattle.definition.specs.Shapes.{kind_of, inner, sized, type_of, scalar, entry, shape};
ghost use Rattle.definition.specs.Finding.{kind_capabilities, format_capabilities, dim_capabilities, capabilities_of};
ghost use Rattle.definition.specs.Instructions.{words};
ghost use Rattle.spirv.specs.Put.{Put};
ghost use Rattle.kinds.specs.Numbers.{kind_number};
ghost use Rattle.lookup.specs.Local.{local_shape, value_of, key_of, value_key, SmallValue, capability_number, as_list};
ghost use Rattle.lookup.specs.Packed.{code, bytes_key, base_key, packed_shape, packed_key, Bytes, SmallBase, SmallShape, Small};

use kinds::{AddressSpace, ScalarKind, space_access, space_number};
use spirv::helpers::map_storage_class;
use spirv::images::{Dim, ImageFormat};
use spirv::instructions::{
    type_acceleration_structure, type_array, type_bool, type_float, type_image, type_int,
    type_matrix, type_pointer, type_ray_query, type_sampler, type_vector,
};
use spirv::words::Word;

// `LocalImageType`: every operand of OpTypeImage under its own name, where the Rust has four of them as flags. The sampled type
// is a scalar of this kind and of width 4. The others are numbers: a shape is told of every one, also of those that no image has.
#[derive(Clone, Copy)]
pub struct LocalImageType {
    pub kind: ScalarKind,
    pub dim: u8,
    pub depth: u8,
    pub arrayed: u8,
    pub multi: u8,
    pub sampled: u8,
    pub format: u8,
}

// `LocalType`: the types that must be declared once, or that no entry of the sheet need have. Its `SampledImage` belongs to
// expressions, which no sheet has. Classes are the Specification's storage classes, bases are indexes of entries. A value is a
// vector of so many or a scalar; where it has a pointer space it is a pointer to either. Sizes are numbers: the Rust's Bi, Tri and
// Quad would not do, since a shape is told for every sheet, also where test 10 refuses the size.
#[derive(Clone, Copy)]
pub enum LocalType {
    Value {
        vector_size: Option<u8>,
        kind: ScalarKind,
        width: u8,
        pointer_space: Option<u8>,
    },
    Matrix {
        columns: u8,
        rows: u8,
        width: u8,
    },
    Pointer {
        base: u16,
        class: u8,
    },
    Image(LocalImageType),
    Sampler,
    PointerToBindingArray {
        base: u16,
        size: u32,
        space: AddressSpace,
    },
    BindingArray {
        base: u16,
        size: u32,
    },
    AccelerationStructure,
    RayQuery,
}

// `LookupType`: an entry of the sheet, or a shape.
#[derive(Clone, Copy)]
pub enum LookupType {
    Handle(u16),
    Local(LocalType),
}

// The capabilities that the rules give to a type, with the Specification's numbers.
#[derive(Clone, Copy)]
pub enum Capability {
    Float16 = 9,
    Float64 = 10,
    Int64 = 11,
    Int16 = 22,
    ImageCubeArray = 34,
    Int8 = 39,
    Sampled1D = 43,
    Image1D = 44,
    SampledCubeArray = 45,
    StorageImageExtendedFormats = 49,
    RayQueryKHR = 4472,
}

impl Word for Capability {
    ghost as_word = { capability_number };

    fn word(self) -> u32 {
        self as u32
    }
}

// Capabilities in order of use: a shape has two at most.
#[derive(Clone, Copy)]
pub struct Capabilities {
    pub first: Option<Capability>,
    pub second: Option<Capability>,
}

const DIM_1D: u8 = Dim::Dim1D as u8;

const DIM_CUBE: u8 = Dim::DimCube as u8;

// OpTypeImage's operand Sampled, of an image that is used with a sampler.
const WITH_SAMPLER: u8 = 1;

const RG32F: u8 = ImageFormat::Rg32f as u8;

const R8_SNORM: u8 = ImageFormat::R8Snorm as u8;

const RG32I: u8 = ImageFormat::Rg32i as u8;

const R8I: u8 = ImageFormat::R8i as u8;

const RGB10A2UI: u8 = ImageFormat::Rgb10a2ui as u8;

const R8UI: u8 = ImageFormat::R8ui as u8;

// OpTypeInt's operand Signedness.
#[derive(Clone, Copy)]
enum Signedness {
    Unsigned = 0,
    Signed = 1,
}

// ---- a key as one number: a last digit that says which key it is, then the key's fields

// Kind and width. A Bool has one width, so it carries none.

#[tactic(auto, unfolding(definition::specs::Shapes::kind_of))]
fn scalar_code(kind: ScalarKind, width: u8) -> u64
    ensures { (result ≡ code (kind_of (kind_number kind) width)) × (result < 1024) }
{
    match kind {
        ScalarKind::Sint => 4 * (width as u64),
        ScalarKind::Uint => 1 + 4 * (width as u64),
        ScalarKind::Float => 2 + 4 * (width as u64),
        ScalarKind::Bool => 3,
    }
}

// The key of a shape that is a scalar's code and up to six bytes.
fn bytes_key(tag: u64, k: u64, a: u8, b: u8, c: u8, d: u8, e: u8, f: u8) -> u64
    requires { (tag < 16) × (k < 1024) }
    ensures { (result ≡ bytes_key tag k a b c d e f) × Bytes k a b c d e f }
{
    tag + 16
        * (k + 1024
            * (a as u64
                + 256
                    * (b as u64
                        + 256
                            * (c as u64 + 256 * (d as u64 + 256 * (e as u64 + 256 * (f as u64)))))))
}

// The key of an entry, or of a shape over an entry.
fn base_key(tag: u64, base: u16, size: u32, space: u8, access: u8) -> u64
    requires { (tag < 16) × (space < 8) }
    ensures { (result ≡ base_key tag base size space access) × SmallBase base size space access }
{
    tag + 16
        * (base as u64 + 65536 * (size as u64 + 4294967296 * (space as u64 + 8 * (access as u64))))
}

// The key of a scalar, a vector or a pointer to either; k is the scalar's code.
fn value_key(size: Option<u8>, k: u64, class: Option<u8>) -> u64
    requires { k < 1024 }
    ensures { (result ≡ value_key size k class) × SmallValue size k class }
{
    match (size, class) {
        (None, None) => bytes_key(1, k, 0, 0, 0, 0, 0, 0),
        (Some(n), None) => bytes_key(2, k, n, 0, 0, 0, 0, 0),
        (None, Some(c)) => bytes_key(5, k, c, 0, 0, 0, 0, 0),
        (Some(n), Some(c)) => bytes_key(6, k, c, n, 0, 0, 0, 0),
    }
}

// The key of a shape.
pub fn local_key(local: LocalType) -> u64
    ensures { (result ≡ packed_shape (local_shape local)) × SmallShape (local_shape local) }
{
    match local {
        LocalType::Value {
            vector_size,
            kind,
            width,
            pointer_space,
        } => value_key(vector_size, scalar_code(kind, width), pointer_space),
        LocalType::Matrix {
            columns,
            rows,
            width,
        } => bytes_key(3, 0, columns, rows, width, 0, 0, 0),
        LocalType::Pointer { base, class } => base_key(4, base, class as u32, 0, 0),
        LocalType::Image(i) => bytes_key(
            7,
            scalar_code(i.kind, 4),
            i.dim,
            i.depth,
            i.arrayed,
            i.multi,
            i.sampled,
            i.format,
        ),
        LocalType::Sampler => 8,
        LocalType::PointerToBindingArray { base, size, space } => {
            base_key(12, base, size, space_number(space), space_access(space))
        }
        LocalType::BindingArray { base, size } => base_key(11, base, size, 0, 0),
        LocalType::AccelerationStructure => 9,
        LocalType::RayQuery => 10,
    }
}

// The key of an entry.
pub fn handle_key(handle: u16) -> u64
    ensures { (result ≡ packed_key (entry handle)) × Small (entry handle) }
{
    base_key(0, handle, 0, 0, 0)
}

// The number under which a type is looked up.
pub fn key(ty: LookupType) -> u64
    ensures { (result ≡ packed_key (key_of ty)) × Small (key_of ty) }
{
    match ty {
        LookupType::Handle(h) => handle_key(h),
        LookupType::Local(l) => local_key(l),
    }
}

// ---- what a shape's instruction names

// A scalar, or a vector of so many.
pub fn value_type(size: Option<u8>, kind: ScalarKind, width: u8) -> LookupType
    ensures { key_of result ≡ shape (value_of size (kind_of (kind_number kind) width) None) }
{
    LookupType::Local(LocalType::Value {
        vector_size: size,
        kind,
        width,
        pointer_space: None,
    })
}

// The type: a vector's scalar, a matrix's column, what a pointer points to, an image's sampled type, an array's base.
#[tactic(auto, unfolding(definition::specs::Shapes::kind_of))]
pub fn inner_type(local: LocalType) -> Option<LookupType>
    ensures { option_map key_of result ≡ inner (local_shape local) }
{
    match local {
        LocalType::Value {
            vector_size,
            kind,
            width,
            pointer_space,
        } => match (vector_size, pointer_space) {
            (None, None) => None,
            (Some(_), None) => Some(value_type(None, kind, width)),
            (_, Some(_)) => Some(value_type(vector_size, kind, width)),
        },
        LocalType::Matrix { rows, width, .. } => Some(value_type(
            Some(rows),
            ScalarKind::Float,
            width,
        )),
        LocalType::Image(i) => Some(value_type(None, i.kind, 4)),
        LocalType::Pointer { base, .. } | LocalType::BindingArray { base, .. } => {
            Some(LookupType::Handle(base))
        }
        LocalType::PointerToBindingArray { base, size, .. } => Some(LookupType::Local(
            LocalType::BindingArray { base, size },
        )),
        LocalType::Sampler | LocalType::AccelerationStructure | LocalType::RayQuery => None,
    }
}

// The length, which is declared as a literal of its own: only a binding array has one.
pub fn length_of(local: LocalType) -> Option<u32>
    ensures { result ≡ sized (local_shape local) }
{
    match local {
        LocalType::BindingArray { size, .. } => Some(size),
        _ => None,
    }
}

// ---- the capabilities that a shape uses; widths are in bytes

// What a scalar uses; the Rust asks for nothing at width 2.
#[tactic(auto, unfolding(definition::specs::Finding::kind_capabilities, definition::specs::Shapes::kind_of))]
fn kind_capability(kind: ScalarKind, width: u8) -> Option<Capability>
    ensures { as_list result ≡ kind_capabilities (kind_of (kind_number kind) width) }
{
    match (kind, width) {
        (ScalarKind::Sint | ScalarKind::Uint, 1) => Some(Capability::Int8),
        (ScalarKind::Sint | ScalarKind::Uint, 2) => Some(Capability::Int16),
        (ScalarKind::Sint | ScalarKind::Uint, 8) => Some(Capability::Int64),
        (ScalarKind::Float, 2) => Some(Capability::Float16),
        (ScalarKind::Float, 8) => Some(Capability::Float64),
        _ => None,
    }
}

// `request_image_format_capabilities`: the extended formats have the numbers of three ranges.
#[tactic(auto, using(crate::proofs::Formats::is_extended), unfolding(definition::specs::Finding::format_capabilities))]
fn format_capability(f: u8) -> Option<Capability>
    ensures { as_list result ≡ format_capabilities f }
{
    match f {
        RG32F..=R8_SNORM | RG32I..=R8I | RGB10A2UI..=R8UI => {
            Some(Capability::StorageImageExtendedFormats)
        }
        _ => None,
    }
}

// Of one dimension, or an arrayed cube; which it is depends on whether the image is used with a sampler.
#[tactic(auto, unfolding(definition::specs::Finding::dim_capabilities))]
fn dim_capability(d: u8, arrayed: u8, sampled: u8) -> Option<Capability>
    ensures { as_list result ≡ dim_capabilities d arrayed sampled }
{
    match (d, arrayed, sampled) {
        (DIM_1D, _, WITH_SAMPLER) => Some(Capability::Sampled1D),
        (DIM_1D, _, _) => Some(Capability::Image1D),
        (DIM_CUBE, 1, WITH_SAMPLER) => Some(Capability::SampledCubeArray),
        (DIM_CUBE, 1, _) => Some(Capability::ImageCubeArray),
        _ => None,
    }
}

// What a shape uses besides the types that it names.
pub fn capabilities_of(local: LocalType) -> Capabilities
    ensures { as_list result.first ++ as_list result.second ≡ capabilities_of (local_shape local) }
{
    match local {
        LocalType::Value {
            vector_size: None,
            kind,
            width,
            pointer_space: None,
        } => Capabilities {
            first: None,
            second: kind_capability(kind, width),
        },
        LocalType::Image(i) => Capabilities {
            first: format_capability(i.format),
            second: dim_capability(i.dim, i.arrayed, i.sampled),
        },
        LocalType::AccelerationStructure | LocalType::RayQuery => Capabilities {
            first: None,
            second: Some(Capability::RayQueryKHR),
        },
        _ => Capabilities {
            first: None,
            second: None,
        },
    }
}

// ---- the instruction that declares a shape under an id: x is the id of the type that it names, y that of its length

// OpTypeInt, OpTypeFloat or OpTypeBool, which take a width in bits.
#[tactic(auto, unfolding(definition::specs::Shapes::kind_of))]
fn put_scalar(sink: &mut [u32], kind: ScalarKind, width: u8, id: u32, x: u32, y: u32) -> usize
    ensures { Put (words (type_of (scalar (kind_of (kind_number kind) width)) id x y)) sink.old sink.new result }
{
    let bits = 8 * (width as u32);
    match kind {
        ScalarKind::Sint => type_int(sink, id, bits, Signedness::Signed as u32),
        ScalarKind::Uint => type_int(sink, id, bits, Signedness::Unsigned as u32),
        ScalarKind::Float => type_float(sink, id, bits),
        ScalarKind::Bool => type_bool(sink, id),
    }
}

// The end of `write_type_declaration_local`: the instruction, put into what is left of the section.
pub fn put_shape(sink: &mut [u32], local: LocalType, id: u32, x: u32, y: u32) -> usize
    ensures { Put (words (type_of (local_shape local) id x y)) sink.old sink.new result }
{
    match local {
        LocalType::Value {
            vector_size,
            kind,
            width,
            pointer_space,
        } => match pointer_space {
            Some(class) => type_pointer(sink, id, class as u32, x),
            None => match vector_size {
                Some(size) => type_vector(sink, id, x, size as u32),
                None => put_scalar(sink, kind, width, id, x, y),
            },
        },
        LocalType::Matrix { columns, .. } => type_matrix(sink, id, x, columns as u32),
        LocalType::Pointer { class, .. } => type_pointer(sink, id, class as u32, x),
        LocalType::Image(i) => type_image(
            sink,
            id,
            x,
            i.dim as u32,
            i.depth as u32,
            i.arrayed as u32,
            i.multi as u32,
            i.sampled as u32,
            i.format as u32,
        ),
        LocalType::Sampler => type_sampler(sink, id),
        LocalType::PointerToBindingArray { space, .. } => type_pointer(
            sink,
            id,
            map_storage_class(space),
            x,
        ),
        LocalType::BindingArray { .. } => type_array(sink, id, x, y),
        LocalType::AccelerationStructure => type_acceleration_structure(sink, id),
        LocalType::RayQuery => type_ray_query(sink, id),
    }
}
