// The pointer type of a global. How it is come by is read from the sheet first; what is written then never sees the sheet.
ghost use Rattle.std.specs.Prelude.{◌≡◌, List, ℕ};
ghost use Rattle.definition.specs.State.{State};
ghost use Rattle.definition.specs.Rules.{pointer_of};
ghost use Rattle.records.specs.Places.{types_in, remaps_in};
ghost use Rattle.entries.specs.Globals.{global_of};
ghost use Rattle.writer.specs.Held.{Room};
ghost use Rattle.writer.specs.Steps.{GotBy};
ghost use Rattle.writer_globals.specs.Costs.{wrapper_cost, pointer_cost};
ghost use Rattle.writer_globals.specs.Globals.{wrap_in, pointer_by, pointer_form_in, size_for};

use entries::globals::{GlobalVariable, ResourceBinding};
use lookup::{LocalType, LookupType};
use records::Earlier;
use spirv::helpers::map_storage_class;
use writer::Writer;
use writer_members::decorate_struct_member;

// The form of a global's pointer: to its type, to a wrapper, or to a remapped array.
#[derive(Clone, Copy)]
pub enum PointerForm {
    Direct,
    Wrapped { stride: Option<u32> },
    Remapped { base: u16, size: u32 },
}

// ---- the wrapper

// A struct around a type, and the pointer to it. Each global has its own, so neither is looked for or entered.
fn write_wrapper(w: &mut Writer<'_, '_>, ty: u16, class: u32, stride: Option<u32>) -> u64
    requires { Room wrapper_cost w.old }
    ensures { GotBy wrapper_cost (wrap_in stride ty class) w.old result w.new }
{
    let id = w.take_id();
    w.put_block(id);
    decorate_struct_member(w, id, 0, 0, false, &[], stride);
    let x = finding::type_id(w, LookupType::Handle(ty));
    w.type_struct(id, &[x]);
    let pointer = w.take_id();
    w.type_pointer(pointer, class, id);
    pointer
}

// ---- the form

// The size to which a global's binding is remapped; nothing remaps a global that is not bound.
fn remapped_size(remaps: Earlier<'_>, binding: Option<ResourceBinding>) -> Option<u32>
    ensures { result ≡ size_for (remaps_in remaps.entry) binding }
{
    match binding {
        None => None,
        Some(r) => type_facts::remapped_size_of(remaps, r.group, r.binding),
    }
}

// The form of a global's pointer, given the types and the remaps before it.
pub fn pointer_form_of(
    types: Earlier<'_>,
    remaps: Earlier<'_>,
    global: GlobalVariable,
) -> PointerForm
    ensures { (b : List ℕ) (x : State) → pointer_by result global x ≡ pointer_of (pointer_form_in (types_in types.entry) (remaps_in remaps.entry) (global_of b global)) (types_in types.entry) (global_of b global) x }
{
    let ty = global.ty as usize;
    if type_facts::global_needs_wrapper(types, ty, global.space) {
        let stride = type_facts::element_stride(types, ty);
        return PointerForm::Wrapped { stride };
    }
    match type_facts::binding_base(types, ty) {
        None => PointerForm::Direct,
        Some(base) => match remapped_size(remaps, global.binding) {
            None => PointerForm::Direct,
            Some(size) => PointerForm::Remapped { base, size },
        },
    }
}

// ---- the pointer

pub fn write_pointer(w: &mut Writer<'_, '_>, form: PointerForm, global: GlobalVariable) -> u64
    requires { Room pointer_cost w.old }
    ensures { GotBy pointer_cost (pointer_by form global) w.old result w.new }
{
    let ty = global.ty;
    let space = global.space;
    let class = map_storage_class(space);
    match form {
        PointerForm::Direct => {
            let l = LocalType::Pointer {
                base: ty,
                class: class as u8,
            };
            finding::get_type_id(w, LookupType::Local(l))
        }
        PointerForm::Wrapped { stride } => write_wrapper(w, ty, class, stride),
        PointerForm::Remapped { base, size } => {
            let l = LocalType::PointerToBindingArray { base, size, space };
            finding::get_type_id(w, LookupType::Local(l))
        }
    }
}
