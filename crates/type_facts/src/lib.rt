// What the rules ask of a type that was read before, read again from the sheet at the type's place; and the remap of a
// binding. Types and globals ask here alike. Every question has an answer for every sheet: past the types that were read
// the answer is that of the definition's `no_entry`, so that whoever asks owes no proof that the type is there.
#![tactic(auto)]

mod facets;

ghost use Rattle.std.specs.Prelude.{◌≡◌, ◌+◌};
ghost use Rattle.definition.specs.Bytes.{u8_at, name_end};
ghost use Rattle.definition.specs.Sheet.{Global, members_at};
ghost use Rattle.definition.specs.Rules.{inner_at, matrix_stride, element_of, is_dynamic, image_access, binding_base, ends_dynamic, wraps_type, needs_wrapper, remap_of};
ghost use Rattle.definition.specs.Unfit.{is_pointer};
ghost use Rattle.kinds.specs.Numbers.{space_number};
ghost use Rattle.records.specs.Places.{remaps_in, types_in};
ghost use Rattle.type_facts.specs.Facets.{wraps_in, wraps_space};

use facets::{Facet, facet_at, facet_of};
use kinds::AddressSpace;
use members::Members;
use records::Earlier;

// ---- what is asked of type i

// The column stride of a matrix, or of the matrices of an array.
#[tactic(auto, using(crate::proofs::Laws::stride, crate::proofs::Laws::element))]
pub fn element_stride(types: Earlier<'_>, index: usize) -> Option<u32>
    ensures { result ≡ matrix_stride (element_of (types_in types.entry) (inner_at (types_in types.entry) index)) }
{
    let facet = facet_at(types, index);
    match facet.element() {
        None => facet.stride(),
        Some(base) => facet_at(types, base as usize).stride(),
    }
}

// Whether it is a dynamic array; a BindingArray never is.
#[tactic(auto, using(crate::proofs::Laws::dynamic))]
pub fn is_dynamic(types: Earlier<'_>, index: usize) -> bool
    ensures { result ≡ is_dynamic (inner_at (types_in types.entry) index) }
{
    facet_at(types, index).is_dynamic()
}

// The access of a storage image.
#[tactic(auto, using(crate::proofs::Laws::access))]
pub fn image_access(types: Earlier<'_>, index: usize) -> Option<u8>
    ensures { result ≡ image_access (inner_at (types_in types.entry) index) }
{
    facet_at(types, index).access()
}

// The base of a BindingArray.
#[tactic(auto, using(crate::proofs::Laws::base))]
pub fn binding_base(types: Earlier<'_>, index: usize) -> Option<u16>
    ensures { result ≡ binding_base (inner_at (types_in types.entry) index) }
{
    facet_at(types, index).binding_base()
}

// Whether it is a Pointer or a ValuePointer.
#[tactic(auto, using(crate::proofs::Laws::pointer))]
pub fn is_pointer(types: Earlier<'_>, index: usize) -> bool
    ensures { result ≡ is_pointer (inner_at (types_in types.entry) index) }
{
    facet_at(types, index).is_pointer()
}

// ---- wrappers

// Whether the last member of a struct of body b is a dynamic array, or there is none.
fn ends_dynamic(types: Earlier<'_>, b: &[u8]) -> bool
    ensures { result ≡ ends_dynamic (types_in types.entry) (members_at b.now (name_end b.now 0 + 5) (u8_at b.now (name_end b.now 0 + 4))) }
{
    match Members::behind(b, fields::name_end(b, 0)).last() {
        None => true,
        Some(m) => is_dynamic(types, m.ty as usize),
    }
}

// Whether a type of facet f and body b is wrapped. A struct with a dynamic array at its end cannot be, nor can a
// BindingArray.
fn wraps_facet(types: Earlier<'_>, f: Facet, b: &[u8]) -> bool
    ensures { result ≡ wraps_in (types_in types.entry) f (members_at b.now (name_end b.now 0 + 5) (u8_at b.now (name_end b.now 0 + 4))) }
{
    match f {
        Facet::Struct => !ends_dynamic(types, b),
        Facet::BindingArray { .. } => false,
        _ => true,
    }
}

// Whether a global of type i is wrapped, where its space asks for it.
#[tactic(auto, using(crate::proofs::Laws::wraps, records::proofs::Entries::placed))]
fn wraps_type(types: Earlier<'_>, i: usize) -> bool
    ensures { result ≡ wraps_type (types_in types.entry) (inner_at (types_in types.entry) i) }
{
    let Some(rest) = types.rest_at(i) else {
        return true;
    };
    let b = records::body_of(rest);
    wraps_facet(types, facet_of(records::tag_of(rest), b), b)
}

// Whether a global of a space has to be a struct.
fn wraps_space(space: AddressSpace) -> bool
    ensures { result ≡ wraps_space space }
{
    matches!(
        space,
        AddressSpace::Uniform | AddressSpace::Storage { .. } | AddressSpace::PushConstant
    )
}

// Whether a global of type i and of a space is wrapped in a struct.
#[tactic(auto, using(crate::proofs::Laws::space), unfolding(definition::specs::Rules::needs_wrapper))]
pub fn global_needs_wrapper(types: Earlier<'_>, index: usize, space: AddressSpace) -> bool
    ensures { (g : Global) → g.type ≡ index → g.space ≡ space_number space → result ≡ needs_wrapper (types_in types.entry) g }
{
    wraps_space(space) && wraps_type(types, index)
}

// ---- remaps

// The size to which the first remap that fits maps a group and a binding.
#[tactic(auto, using(crate::proofs::Remaps::turn, crate::proofs::Remaps::no_more))]
pub fn remapped_size_of(remaps: Earlier<'_>, group: u32, binding: u32) -> Option<u32>
    ensures { result ≡ remap_of (remaps_in remaps.entry) group binding }
{
    for place in remaps.places {
        let rest = records::rest_at(remaps.sheet, *place as usize);
        let m = entries::globals::remap_of(records::body_of(rest));
        if m.group == group && m.binding == binding {
            return Some(m.size);
        }
    }
    None
}
