// A struct in two passes: its members' decorations and names, and Block; then OpTypeStruct.
ghost use Rattle.std.specs.Prelude.{◌≡◌, ◌<◌};
ghost use Rattle.definition.specs.Sheet.{members_at};
ghost use Rattle.definition.specs.Rules.{decorate_member, any_dynamic, annotate_if, block, declare_struct};
ghost use Rattle.members.specs.Walk.{member_of, members_left};
ghost use Rattle.records.specs.Places.{types_in};
ghost use Rattle.writer.specs.Cost.{a_block};
ghost use Rattle.writer.specs.Held.{RoomFor, Room};
ghost use Rattle.writer.specs.Steps.{Kept, Added};
ghost use Rattle.writer_types.specs.Members.{decorated};
ghost use Rattle.writer_types.specs.Costs.{named_member_cost, members_cost, struct_cost};

use crate::aggregates::put_struct;
use crate::names::{is_written, short_name};
use members::{Member, Members};
use records::Earlier;
use type_facts::{element_stride, is_dynamic};
use writer::Writer;
use writer_members::decorate_struct_member;

// Member i.
#[tactic(auto, using(crate::proofs::Named::same_name))]
fn decorate_member(
    w: &mut Writer<'_, '_>,
    types: Earlier<'_>,
    debug: bool,
    id: u64,
    i: u32,
    m: Member<'_>,
)
    requires { RoomFor (named_member_cost (member_of m).name) w.old }
    ensures { Added (named_member_cost (member_of m.entry).name) (decorate_member debug (types_in types.entry) id i (member_of m.entry)) w.old w.new }
{
    let named = is_written(m.body, debug, m.name);
    let name = short_name(m.body, m.name);
    let stride = element_stride(types, m.ty as usize);
    decorate_struct_member(w, id, i, m.offset, named, name, stride);
}

// These members, one after the other.
fn decorate_struct_members(
    w: &mut Writer<'_, '_>,
    types: Earlier<'_>,
    debug: bool,
    id: u64,
    members: Members<'_>,
)
    requires { RoomFor (members_cost (members_left members)) w.old }
    ensures { Added (members_cost (members_left members.entry)) (decorated debug (types_in types.entry) id 0 (members_left members.entry)) w.old w.new }
{
    for (i, m) in members.enumerate() {
        decorate_member(w, types, debug, id, i as u32, m);
    }
}

// Whether one of them is a dynamic array.
fn has_runtime_array(types: Earlier<'_>, mut members: Members<'_>) -> bool
    ensures { result ≡ any_dynamic (types_in types.entry) (members_left members.entry) }
{
    members.any(|m| is_dynamic(types, m.ty as usize))
}

// Block goes on a struct with a dynamic array, whose id has just been taken: nothing is on it yet.
fn block_if(w: &mut Writer<'_, '_>, dynamic: bool, id: u64)
    requires { Room a_block w.old }
    ensures { Kept a_block (annotate_if dynamic (block id)) w.old w.new }
{
    if dynamic {
        w.put_block(id);
    }
}

// A struct of `count` members, the first of which stands at `first`.
#[tactic(auto, using(crate::proofs::Passes::two_passes, crate::proofs::Passes::ids_after))]
pub fn write_struct(
    w: &mut Writer<'_, '_>,
    types: Earlier<'_>,
    body: &[u8],
    debug: bool,
    id: u64,
    first: usize,
    count: u8,
)
    requires { (first < 1000) × Room (struct_cost (members_at body.now first count)) w.old }
    ensures { Kept (struct_cost (members_at body.now first count)) (declare_struct debug (types_in types.entry) id (members_at body.now first count)) w.old w.new }
{
    let members = Members::new(body, first, count);
    decorate_struct_members(w, types, debug, id, members);
    let dynamic = has_runtime_array(types, members);
    block_if(w, dynamic, id);
    put_struct(w, id, members);
}
