// What a global's id is decorated with, its name, and Block on the base of a Storage binding array.
ghost use Rattle.std.specs.Prelude.{◌≡◌, false, List, [], ℕ, ◌+◌, eqb};
ghost use Rattle.definition.specs.Bytes.{name_at, name_end};
ghost use Rattle.definition.specs.Numbers.{DecorationBlock};
ghost use Rattle.definition.specs.Instructions.{decorate, name};
ghost use Rattle.definition.specs.Sheet.{storage_space};
ghost use Rattle.definition.specs.Rules.{annotate_if, label_if, access_of, decorate_access, block_base};
ghost use Rattle.kinds.specs.Numbers.{space_number};
ghost use Rattle.spirv.specs.Decorations.{decoration_number};
ghost use Rattle.records.specs.Places.{types_in};
ghost use Rattle.entries.specs.Globals.{global_of};
ghost use Rattle.writer.specs.Cost.{annotating, naming, a_block};
ghost use Rattle.writer.specs.Held.{RoomFor, Room};
ghost use Rattle.writer.specs.Steps.{Kept, Added};
ghost use Rattle.writer_globals.specs.Globals.{binding_decorated};

use entries::globals::{GlobalVariable, ResourceBinding};
use kinds::AddressSpace;
use lookup::LookupType;
use records::Earlier;
use spirv::decorations::Decoration;
use writer::Writer;

// A decoration without operands, where it is asked for; not Block.
fn decorate_if(w: &mut Writer<'_, '_>, there: bool, id: u64, decoration: Decoration)
    requires { RoomFor (annotating 3) w.old × (eqb (decoration_number decoration) DecorationBlock ≡ false) }
    ensures { Added (annotating 3) (annotate_if there (decorate id (decoration_number decoration) [])) w.old w.new }
{
    if there {
        w.decorate(id, decoration, &[]);
    }
}

// The access of a global: of its space if that is Storage, else of its type if that is a storage image.
pub fn access_of(types: Earlier<'_>, global: GlobalVariable) -> Option<u8>
    ensures { (b : List ℕ) → result ≡ access_of (types_in types.entry) (global_of b global) }
{
    let space = global.space;
    let AddressSpace::Storage { access } = space else {
        return type_facts::image_access(types, global.ty as usize);
    };
    Some(access)
}

// Bit 0 of an access is load, bit 1 store.
pub fn decorate_access(w: &mut Writer<'_, '_>, id: u64, access: Option<u8>)
    requires { RoomFor (annotating 6) w.old }
    ensures { Added (annotating 6) (decorate_access access id) w.old w.new }
{
    if let Some(x) = access {
        decorate_if(w, x % 2 == 0, id, Decoration::NonReadable);
        decorate_if(w, x / 2 % 2 == 0, id, Decoration::NonWritable);
    }
}

pub fn decorate_binding(w: &mut Writer<'_, '_>, id: u64, binding: Option<ResourceBinding>)
    requires { RoomFor (annotating 8) w.old }
    ensures { Added (annotating 8) (binding_decorated binding id) w.old w.new }
{
    if let Some(r) = binding {
        w.decorate(id, Decoration::DescriptorSet, &[r.group]);
        w.decorate(id, Decoration::Binding, &[r.binding]);
    }
}

// The name that stands at the front of the body b.
#[tactic(auto, using(crate::proofs::Notes::nameless, crate::proofs::Notes::short))]
pub fn name_global(w: &mut Writer<'_, '_>, debug: bool, id: u64, body: &[u8])
    requires { RoomFor (naming (name_end body.now 0 + 2)) w.old }
    ensures { Added (naming (name_end body.now 0 + 2)) (label_if debug (name id) (name_at body.now 0)) w.old w.new }
{
    if !debug {
        return;
    }
    let k = fields::u8_at(body, 0);
    if k != 255 {
        w.label(id, fields::part(body, 1, k as usize));
    }
}

// A Storage global is never wrapped where its type is a binding array: Block goes on the base, unless the base has it from an
// earlier global or from a dynamic array among its members.
pub fn block_base(w: &mut Writer<'_, '_>, space: AddressSpace, base: Option<u16>)
    requires { Room a_block w.old }
    ensures { Kept a_block (block_base (eqb (space_number space) storage_space) base) w.old w.new }
{
    let AddressSpace::Storage { access: _ } = space else {
        return;
    };
    match base {
        None => {}
        Some(b) => {
            let x = finding::type_id(w, LookupType::Handle(b));
            w.block_once(x);
        }
    }
}
