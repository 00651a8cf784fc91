// Test 14: whether the capabilities that a type's rules check are available (`require_any` and `request_type_capabilities` of the
// Rust's `writer.rs`). It is asked of types alone, and needs nothing of the writer's state.
#![tactic(auto)]

ghost use Rattle.std.specs.Prelude.{◌≡◌, true, false, List, ◌++◌, ℕ, Option, Some, None};
ghost use Rattle.definition.specs.Choice.{among, every};
ghost use Rattle.definition.specs.Sheet.{available_fields, record_at, type_fields};
ghost use Rattle.definition.specs.Tests.{Seen, add_record};
ghost use Rattle.definition.specs.Shapes.{shape_of as defined_shape};
ghost use Rattle.definition.specs.Unfit.{checked_capabilities, shape_available};
ghost use Rattle.entries.specs.Types.{inner_of};
ghost use Rattle.lookup.specs.Local.{local_shape, as_list, capability_number};
ghost use Rattle.availability.specs.Flags.{Flagged, flag_of};

use entries::types::TypeInner;
use locals::make_local;
use lookup::{Capabilities, Capability, LocalType, capabilities_of};
use records::Rank;
use spirv::words::Word;

// Whether each capability that a rule checks is available, under the Specification's name. A sheet may ask for one hundreds of
// times and list thousands, so what it lists is looked through when it is read, and never again.
#[derive(Clone, Copy)]
pub struct Available {
    pub image_cube_array: bool,
    pub sampled_1d: bool,
    pub image_1d: bool,
    pub sampled_cube_array: bool,
    pub storage_image_extended_formats: bool,
    pub ray_query_khr: bool,
}

// Without an Available record every capability is available.
pub fn everything() -> Available
    ensures { Flagged None result }
{
    Available {
        image_cube_array: true,
        sampled_1d: true,
        image_1d: true,
        sampled_cube_array: true,
        storage_image_extended_formats: true,
        ray_query_khr: true,
    }
}

// Whether a capability is among the 32-bit numbers of a body. As many are read as the body has whole; bytes behind them, which
// test 8 refuses, are not.
fn lists_capability(body: &[u8], capability: Capability) -> bool
    ensures { result ≡ among (capability_number capability) (available_fields body.now).value }
{
    let number = capability.word();
    let (words, _) = body.as_chunks::<4>();
    words
        .iter()
        .any(|word| number == fields::whole_u32_at(word, 0))
}

// What the body of an Available record lists.
fn flags_of(body: &[u8]) -> Available
    ensures { Flagged (Some (available_fields body.now).value) result }
{
    Available {
        image_cube_array: lists_capability(body, Capability::ImageCubeArray),
        sampled_1d: lists_capability(body, Capability::Sampled1D),
        image_1d: lists_capability(body, Capability::Image1D),
        sampled_cube_array: lists_capability(body, Capability::SampledCubeArray),
        storage_image_extended_formats: lists_capability(
            body,
            Capability::StorageImageExtendedFormats,
        ),
        ray_query_khr: lists_capability(body, Capability::RayQueryKHR),
    }
}

// What is available behind the record at the front of what is left: what it lists where it is Available, else what was.
#[tactic(auto, using(crate::proofs::Laws::lists, crate::proofs::Laws::keeps, records::proofs::Ranks::first_rank))]
pub fn behind(a: Available, rest: &[u8]) -> Available
    ensures { (n : Seen) → Flagged n.available a → Flagged (add_record n (record_at rest.now)).available result }
{
    match records::rank_of(records::tag_of(rest)) {
        Some(Rank::Available) => flags_of(records::body_of(rest)),
        _ => a,
    }
}

// Whether a capability is available, if a rule checks it.
fn is_available(a: Available, capability: Option<Capability>) -> bool
    ensures { result ≡ every (flag_of a) (as_list capability) }
{
    match capability {
        Some(Capability::ImageCubeArray) => a.image_cube_array,
        Some(Capability::Sampled1D) => a.sampled_1d,
        Some(Capability::Image1D) => a.image_1d,
        Some(Capability::SampledCubeArray) => a.sampled_cube_array,
        Some(Capability::StorageImageExtendedFormats) => a.storage_image_extended_formats,
        Some(Capability::RayQueryKHR) => a.ray_query_khr,
        _ => true,
    }
}

// The capabilities of a shape that must be available. A scalar's are used unasked; a vector and a pointer have none.
fn checked_capabilities(l: LocalType) -> Capabilities
    ensures { as_list result.first ++ as_list result.second ≡ checked_capabilities (local_shape l) }
{
    match l {
        LocalType::Value { .. } => Capabilities {
            first: None,
            second: None,
        },
        _ => capabilities_of(l),
    }
}

// Test 14 of a shape.
fn shape_available(a: Available, l: LocalType) -> bool
    ensures { result ≡ every (flag_of a) (checked_capabilities (local_shape l)) }
{
    let c = checked_capabilities(l);
    is_available(a, c.first) && is_available(a, c.second)
}

// Test 14 of a type, whatever the body is that it was read from: an aggregate, which alone would read it, has no shape.
pub fn type_available(a: Available, inner: TypeInner) -> bool
    ensures { (o : Option (List ℕ)) → Flagged o a → (b : List ℕ) (n : ℕ) → result ≡ shape_available o (defined_shape (inner_of b n inner)) }
{
    match make_local(inner) {
        Some(l) => shape_available(a, l),
        None => true,
    }
}

// Whether a type of this tag can need a capability that is checked: an image, an acceleration structure or a ray query.
#[tactic(auto, using(crate::proofs::Laws::unchecked))]
pub fn is_checked(tag: u8) -> bool
    ensures { result ≡ false → (o : Option (List ℕ)) (b : List ℕ) (n : ℕ) → shape_available o (defined_shape (type_fields tag b n).value) ≡ true }
{
    matches!(tag, 24 | 26 | 27)
}
