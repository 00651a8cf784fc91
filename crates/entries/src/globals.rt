// Globals and remaps.
#![tactic(auto, unfolding(definition::specs::Sheet::global_fields, definition::specs::Sheet::remap_fields))]

ghost use Rattle.std.specs.Prelude.{◌≡◌, true, ◌<◌, length, get_or};
ghost use Rattle.definition.specs.Sheet.{global_fields, remap_fields, init_of};
ghost use Rattle.definition.specs.Tests.{binding_fits};
ghost use Rattle.records.specs.Places.{remap_from};
ghost use Rattle.entries.specs.Globals.{remap_as, Bindings, GlobalTaken, GlobalTakenFrom};

use fields::Named;
use kinds::{AddressSpace, space_of};

#[derive(Clone, Copy)]
pub struct ResourceBinding {
    pub group: u32,
    pub binding: u32,
}

#[derive(Clone, Copy)]
pub struct GlobalVariable {
    pub space: AddressSpace,
    pub binding: Option<ResourceBinding>,
    pub ty: u16,
    pub init: Option<u16>,
}

// Document 01's term: an entry of the Rust's `binding_map`, a `BindingInfo` with its binding.
#[derive(Clone, Copy)]
pub struct Remap {
    pub group: u32,
    pub binding: u32,
    pub size: u32,
}

fn init_of(i: u16) -> Option<u16>
    ensures { result ≡ init_of i }
{
    if i == 65535 { None } else { Some(i) }
}

// The binding of a global.
#[tactic(auto, using(crate::proofs::Fit::unbound, crate::proofs::Fit::bound), unfolding(definition::specs::Sheet::global_fields))]
fn binding_of(named: Named<'_>) -> Option<ResourceBinding>
    ensures { binding_fits (global_fields named.entry.body.now named.entry.end).value ≡ true → Bindings result (global_fields named.entry.body.now named.entry.end).value }
{
    if named.u8_at(4) == 0 {
        return None;
    }
    Some(ResourceBinding {
        group: named.u32_at(5),
        binding: named.u32_at(9),
    })
}

// Global i, for Wrapped, which asks once all records are read.
pub fn global_at(sheet: &[u8], globals: &[u32], index: usize) -> GlobalVariable
    requires { index < length globals.now }
    ensures { GlobalTakenFrom sheet.now (get_or globals.now index 0) result }
{
    let rest = crate::entry_at(sheet, globals, index);
    global_of(records::body_of(rest))
}

// The global of body b.
pub fn global_of(body: &[u8]) -> GlobalVariable
    ensures { GlobalTaken body.now result }
{
    let named = Named::new(body);
    let space = space_of(named.u8_at(2), named.u8_at(3));
    let binding = binding_of(named);
    let init = init_of(named.u16_at(13));
    GlobalVariable {
        space,
        binding,
        ty: named.u16_at(0),
        init,
    }
}

// Remap i: globals look through the remaps at each binding, so only their places are kept.
pub fn remap_at(sheet: &[u8], remaps: &[u32], index: usize) -> Remap
    requires { index < length remaps.now }
    ensures { remap_as result ≡ remap_from sheet.now (get_or remaps.now index 0) }
{
    let rest = crate::entry_at(sheet, remaps, index);
    remap_of(records::body_of(rest))
}

// The remap of body b.
pub fn remap_of(body: &[u8]) -> Remap
    ensures { remap_as result ≡ (remap_fields body.now).value }
{
    Remap {
        group: fields::u32_at(body, 0),
        binding: fields::u32_at(body, 4),
        size: fields::u32_at(body, 8),
    }
}
