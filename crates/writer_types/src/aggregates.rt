// Arrays, and a struct's instruction, each under the id that was taken for it.
ghost use Rattle.std.specs.Prelude.{◌+◌, length};
ghost use Rattle.members.specs.Walk.{members_left};
ghost use Rattle.writer.specs.Cost.{no_cost, declaring};
ghost use Rattle.writer.specs.Held.{RoomIn, RoomFor, Room};
ghost use Rattle.writer.specs.Steps.{Kept};
ghost use Rattle.writer_types.specs.Arrays.{elements_declared, array_declared};
ghost use Rattle.writer_types.specs.Members.{StructPut};
ghost use Rattle.writer_types.specs.Costs.{elements_cost, array_cost};

use lookup::LookupType;
use members::Members;
use spirv::decorations::Decoration;
use spirv::low_word;
use writer::Writer;

// A BindingArray, and what an Array shares with it: the base is found, then the length; a size of 0 is dynamic.
#[tactic(auto, using(finding::proofs::Entries::entry_found, crate::proofs::Arrays::sized))]
pub fn write_elements(w: &mut Writer<'_, '_>, id: u64, base: u16, size: u32)
    requires { Room elements_cost w.old }
    ensures { Kept elements_cost (elements_declared base size id) w.old w.new }
{
    let x = finding::type_id(w, LookupType::Handle(base));
    if size == 0 {
        w.type_runtime_array(id, x);
        return;
    }
    let y = finding::get_index_constant(w, size);
    w.type_array(id, x, y);
}

// An Array: its stride is written before its base and its length are found.
pub fn write_array(w: &mut Writer<'_, '_>, id: u64, base: u16, size: u32, stride: u32)
    requires { Room array_cost w.old }
    ensures { Kept array_cost (array_declared base size stride id) w.old w.new }
{
    w.decorate(id, Decoration::ArrayStride, &[stride]);
    write_elements(w, id, base, size);
}

// OpTypeStruct of these members. Its head goes out first, since the count is known; then an id a turn, so that the ids need no
// array. A member's type is an entry, and finding an entry adds nothing.
pub fn put_struct(w: &mut Writer<'_, '_>, id: u64, members: Members<'_>)
    requires { RoomIn no_cost w.old × RoomFor (declaring (length (members_left members) + 2)) w.old }
    ensures { StructPut id (members_left members.entry) w.old w.new }
{
    let count = members.len();
    w.type_struct_head(id, count);
    for (i, m) in members.enumerate() {
        let x = finding::type_id(w, LookupType::Handle(m.ty));
        w.put_pending(i + 2, low_word(x));
    }
    w.commit(count + 2);
}
