// The declaration of a type entry, whole: the Rust's `write_type_declaration_arena`. What it asks of the types before the
// entry is read again from the sheet.
#![tactic(auto)]

mod aggregates;
mod names;
mod structs;

ghost use Rattle.std.specs.Prelude.{◌+◌, ◌<◌, length};
ghost use Rattle.definition.specs.Sheet.{TypeEntry};
ghost use Rattle.definition.specs.Rules.{declare_aggregate, declare_type};
ghost use Rattle.records.specs.Places.{types_in};
ghost use Rattle.writer.specs.Cost.{record_cost};
ghost use Rattle.writer.specs.Held.{Room};
ghost use Rattle.writer.specs.Steps.{Kept, GotBy};
ghost use Rattle.writer_types.specs.Inner.{inner_in, inner_declared};
ghost use Rattle.writer_types.specs.Costs.{aggregate_cost, inner_cost};
ghost use Rattle.writer_types.specs.Tested.{TypeRead, EntryOf};

use entries::types::TypeInner;
use lookup::LookupType;
use records::Earlier;
use writer::Writer;

// What an aggregate of body b is, under its id.
fn write_aggregate(
    w: &mut Writer<'_, '_>,
    types: Earlier<'_>,
    b: &[u8],
    debug: bool,
    t: TypeInner,
    id: u64,
)
    requires { Room (aggregate_cost (inner_in b.now t)) w.old }
    ensures { Kept (aggregate_cost (inner_in b.now t)) (declare_aggregate debug (types_in types.entry) (inner_in b.now t) id) w.old w.new }
{
    match t {
        TypeInner::Array { base, size, stride } => {
            aggregates::write_array(w, id, base, size, stride)
        }
        TypeInner::BindingArray { base, size } => aggregates::write_elements(w, id, base, size),
        TypeInner::Struct { count, .. } => {
            let first = entries::members::first_member(b);
            structs::write_struct(w, types, b, debug, id, first, count)
        }
        // The others are shapes, of which nothing is written here.
        TypeInner::Scalar { .. }
        | TypeInner::Atomic { .. }
        | TypeInner::Vector { .. }
        | TypeInner::Matrix { .. }
        | TypeInner::Pointer { .. }
        | TypeInner::ValuePointer { .. }
        | TypeInner::Image { .. }
        | TypeInner::Sampler { .. }
        | TypeInner::AccelerationStructure
        | TypeInner::RayQuery => {}
    }
}

// The id of a type of body b: a shape is found, an aggregate takes its id first.
fn declare_inner(
    w: &mut Writer<'_, '_>,
    types: Earlier<'_>,
    b: &[u8],
    debug: bool,
    t: TypeInner,
) -> u64
    requires { Room (inner_cost (inner_in b.now t)) w.old }
    ensures { GotBy (inner_cost (inner_in b.now t)) (inner_declared debug (types_in types.entry) (inner_in b.now t)) w.old result w.new }
{
    match locals::make_local(t) {
        Some(l) => finding::get_type_id(w, LookupType::Local(l)),
        None => {
            let id = w.take_id();
            write_aggregate(w, types, b, debug, t, id);
            id
        }
    }
}

// The type `ty` of a record that passed its tests, whose body is `body`; `types` are those before it. Its own key comes behind
// all that it is made of, so that nothing in it can name it.
#[tactic(auto, using(crate::proofs::Bytes::enough, records::proofs::Entries::count), unfolding(definition::specs::Rules::declare_type))]
pub fn write_type_declaration_arena(
    w: &mut Writer<'_, '_>,
    types: Earlier<'_>,
    body: &[u8],
    ty: TypeInner,
    debug: bool,
)
    requires { (length types.places.now < 65536) × (TypeRead body.now ty × Room (record_cost 1 (length body.now + 3)) w.old) }
    ensures { (x : TypeEntry) → EntryOf body.now ty x → Kept (record_cost 1 (length body.now + 3)) (declare_type debug (types_in types.entry) x) w.old w.new }
{
    let id = declare_inner(w, types, body, debug, ty);
    let k = lookup::key(LookupType::Handle(types.places.len() as u16));
    w.enter_type(k, id);
    names::name_type(w, body, debug, id);
}
