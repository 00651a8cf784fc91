// Globals: test 13 of one, and its declaration: its name and decorations, its pointer, Block on the base, its init, then
// the variable. Whatever is read of the sheet is read first.
#![tactic(auto)]

mod decorations;
pub mod fitness;
mod pointers;

ghost use Rattle.std.specs.Prelude.{◌≡◌, ◌&&◌, ◌||◌, List, ℕ, eqb};
ghost use Rattle.definition.specs.Bytes.{name_end};
ghost use Rattle.definition.specs.Sheet.{private_space, work_group_space};
ghost use Rattle.definition.specs.Rules.{init_for};
ghost use Rattle.kinds.specs.Numbers.{space_number};
ghost use Rattle.records.specs.Flags.{options_from};
ghost use Rattle.records.specs.Places.{types_in, remaps_in};
ghost use Rattle.entries.specs.Globals.{global_of};
ghost use Rattle.writer.specs.Held.{Room};
ghost use Rattle.finding.specs.Costs.{null_cost};
ghost use Rattle.writer_globals.specs.Costs.{global_cost};
ghost use Rattle.writer_globals.specs.Globals.{Initialised, Planned, GlobalKept, WrittenBy};

use decorations::{access_of, block_base, decorate_access, decorate_binding, name_global};
use entries::globals::GlobalVariable;
use kinds::AddressSpace;
use lookup::LookupType;
use pointers::{PointerForm, pointer_form_of, write_pointer};
use records::{Earlier, Options};
use spirv::helpers::map_storage_class;
use writer::Writer;

// ---- the init

// Whether a global without an init is null from the start: Private, or WorkGroup if memory is zeroed.
fn gets_null(space: AddressSpace, zeroing: bool) -> bool
    ensures { result ≡ (eqb (space_number space) private_space || (eqb (space_number space) work_group_space && zeroing)) }
{
    match space {
        AddressSpace::Private => true,
        AddressSpace::WorkGroup => zeroing,
        _ => false,
    }
}

// The id of a global's init, if it has one.
fn write_init(w: &mut Writer<'_, '_>, init: Option<u16>, null: bool, ty: u16) -> Option<u64>
    requires { Room null_cost w.old }
    ensures { Initialised (init_for init null ty) w.old result w.new }
{
    match init {
        Some(c) => Some(w.value_at(c as usize).id),
        None => {
            if !null {
                return None;
            }
            let x = finding::type_id(w, LookupType::Handle(ty));
            Some(finding::get_constant_null(w, x))
        }
    }
}

// ---- what is read

// What a global's declaration goes by, read of the sheet before anything is written.
#[derive(Clone, Copy)]
pub struct Plan {
    pub access: Option<u8>,
    pub form: PointerForm,
    pub base: Option<u16>,
    pub null: bool,
}

// The plan of the global g, given the types and the remaps before it.
fn plan_of(types: Earlier<'_>, remaps: Earlier<'_>, g: GlobalVariable, zeroing: bool) -> Plan
    ensures { (b : List ℕ) → Planned (types_in types.entry) (remaps_in remaps.entry) zeroing b g result }
{
    Plan {
        access: access_of(types, g),
        form: pointer_form_of(types, remaps, g),
        base: type_facts::binding_base(types, g.ty as usize),
        null: gets_null(g.space, zeroing),
    }
}

// ---- the variable

// The global g of body b by its plan.
fn write_global_variable(
    w: &mut Writer<'_, '_>,
    b: &[u8],
    g: GlobalVariable,
    plan: Plan,
    debug: bool,
)
    requires { Room (global_cost (name_end b.now 0)) w.old }
    ensures { WrittenBy plan debug b.now g w.old w.new }
{
    let space = g.space;
    let class = map_storage_class(space);
    let id = w.take_id();
    name_global(w, debug, id, b);
    decorate_access(w, id, plan.access);
    decorate_binding(w, id, g.binding);
    let pointer = write_pointer(w, plan.form, g);
    block_base(w, space, plan.base);
    let init = write_init(w, g.init, plan.null, g.ty);
    w.variable(pointer, id, class, init);
}

// The global of a record whose body is `body`, given what was read before it.
pub fn write_global(
    w: &mut Writer<'_, '_>,
    types: Earlier<'_>,
    remaps: Earlier<'_>,
    body: &[u8],
    global: GlobalVariable,
    options: Options,
)
    requires { Room (global_cost (name_end body.now 0)) w.old }
    ensures { GlobalKept (global_cost (name_end body.now 0)) (options_from options) (types_in types.entry) (remaps_in remaps.entry) (global_of body.now global) w.old w.new }
{
    let plan = plan_of(types, remaps, global, options.zeroing);
    write_global_variable(w, body, global, plan, options.debug);
}
