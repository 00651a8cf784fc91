// What a struct's member is decorated with: a member of an entry, and the one member of a global's wrapper. It reads nothing
// of the sheet.
#![tactic(auto)]

ghost use Rattle.std.specs.Prelude.{◌<◌, length};
ghost use Rattle.std.specs.Prelude.{Some};
ghost use Rattle.definition.specs.Instructions.{member_name};
ghost use Rattle.definition.specs.Rules.{stride_member, label_if};
ghost use Rattle.writer.specs.Cost.{annotating, naming};
ghost use Rattle.writer.specs.Held.{RoomFor};
ghost use Rattle.writer.specs.Steps.{Added};
ghost use Rattle.writer_members.specs.Members.{name_cost, member_cost, member_decorated};

use spirv::decorations::Decoration;
use writer::Writer;

// The name of member i, where it is to be written.
fn name_member(w: &mut Writer<'_, '_>, id: u64, i: u32, named: bool, name: &[u8])
    requires { (length name.now < 256) × RoomFor (naming (name_cost named name.now)) w.old }
    ensures { Added (naming (name_cost named name.now)) (label_if named (member_name id i) (Some name.now)) w.old w.new }
{
    if named {
        w.label_member(id, i, name);
    }
}

// How the columns of member i lie, where it has columns.
fn stride_member(w: &mut Writer<'_, '_>, id: u64, i: u32, x: Option<u32>)
    requires { RoomFor (annotating 9) w.old }
    ensures { Added (annotating 9) (stride_member x id i) w.old w.new }
{
    if let Some(n) = x {
        w.member_decorate(id, i, Decoration::ColMajor, &[]);
        w.member_decorate(id, i, Decoration::MatrixStride, &[n]);
    }
}

// Member i: its Offset, its name, its columns.
pub fn decorate_struct_member(
    w: &mut Writer<'_, '_>,
    id: u64,
    index: u32,
    offset: u32,
    named: bool,
    name: &[u8],
    stride: Option<u32>,
)
    requires { (length name.now < 256) × RoomFor (member_cost named name.now) w.old }
    ensures { Added (member_cost named name.now) (member_decorated id index offset named name.now stride) w.old w.new }
{
    w.member_decorate(id, index, Decoration::Offset, &[offset]);
    name_member(w, id, index, named, name);
    stride_member(w, id, index, stride);
}
