// The instructions that document 01's rules show, each put into what is left of a lent buffer; their opcodes are `Op`. A writer's answer is how many words it put: 0 where they do not fit, and then
// nothing was written. A list of ids is given as the tables hold them, and its words are taken here.
//
// Where an instruction takes a name or has parts, a bound on how many is required, with which the word count fits the high half
// of the first word. Past it no `u32` is the right first word, so refusing there would be one more case in every contract; a
// sheet's limits are far below the bound, so that callers meet it at once.
#![tactic(auto, unfolding(definition::specs::Instructions::words))]

ghost use Rattle.std.specs.Prelude.{[], ◌∷◌, map, ◌<◌, option_map};
ghost use Rattle.definition.specs.Instructions.{words, capability, name, member_name, type_void, type_bool, type_int, type_float, type_vector, type_matrix, type_image, type_sampler, type_acceleration_structure, type_ray_query, type_array, type_runtime_array, type_struct, type_pointer, type_function, decorate, member_decorate, constant_true, constant_false, constant_null, constant_op, constant_composite, variable};
ghost use Rattle.spirv.specs.Put.{Put, FitsWordCount};
ghost use Rattle.spirv.specs.Heads.{struct_head};
ghost use Rattle.spirv.specs.Ids.{low};

use crate::layout::{put_head, put_list, put_plain};
use crate::low_word;
use crate::opcodes::Op;
use crate::words::Word;

// ---- debug

pub fn name(sink: &mut [u32], target: u32, bytes: &[u8]) -> usize
    requires { FitsWordCount bytes.now }
    ensures { Put (words (name target bytes.now)) sink.old sink.new result }
{
    put_list(sink, Op::Name, &[target], bytes)
}

pub fn member_name(sink: &mut [u32], target: u32, member: u32, bytes: &[u8]) -> usize
    requires { FitsWordCount bytes.now }
    ensures { Put (words (member_name target member bytes.now)) sink.old sink.new result }
{
    put_list(sink, Op::MemberName, &[target, member], bytes)
}

// ---- annotations

pub fn decorate<D: Word>(sink: &mut [u32], target: u32, decoration: D, operands: &[u32]) -> usize
    requires { FitsWordCount operands.now }
    ensures { Put (words (decorate target (D.as_word decoration) operands.now)) sink.old sink.new result }
{
    let decoration = decoration.word();
    put_list(sink, Op::Decorate, &[target, decoration], operands)
}

pub fn member_decorate<D: Word>(
    sink: &mut [u32],
    target: u32,
    member: u32,
    decoration: D,
    operands: &[u32],
) -> usize
    requires { FitsWordCount operands.now }
    ensures { Put (words (member_decorate target member (D.as_word decoration) operands.now)) sink.old sink.new result }
{
    let decoration = decoration.word();
    put_list(
        sink,
        Op::MemberDecorate,
        &[target, member, decoration],
        operands,
    )
}

// ---- modes

pub fn capability(sink: &mut [u32], number: u32) -> usize
    ensures { Put (words (capability number)) sink.old sink.new result }
{
    put_plain(sink, Op::Capability, &[number])
}

// ---- types

pub fn type_void(sink: &mut [u32], id: u32) -> usize
    ensures { Put (words (type_void id)) sink.old sink.new result }
{
    put_plain(sink, Op::TypeVoid, &[id])
}

pub fn type_bool(sink: &mut [u32], id: u32) -> usize
    ensures { Put (words (type_bool id)) sink.old sink.new result }
{
    put_plain(sink, Op::TypeBool, &[id])
}

pub fn type_int(sink: &mut [u32], id: u32, bits: u32, signedness: u32) -> usize
    ensures { Put (words (type_int id bits signedness)) sink.old sink.new result }
{
    put_plain(sink, Op::TypeInt, &[id, bits, signedness])
}

pub fn type_float(sink: &mut [u32], id: u32, bits: u32) -> usize
    ensures { Put (words (type_float id bits)) sink.old sink.new result }
{
    put_plain(sink, Op::TypeFloat, &[id, bits])
}

pub fn type_vector(sink: &mut [u32], id: u32, component: u32, count: u32) -> usize
    ensures { Put (words (type_vector id component count)) sink.old sink.new result }
{
    put_plain(sink, Op::TypeVector, &[id, component, count])
}

pub fn type_matrix(sink: &mut [u32], id: u32, column: u32, count: u32) -> usize
    ensures { Put (words (type_matrix id column count)) sink.old sink.new result }
{
    put_plain(sink, Op::TypeMatrix, &[id, column, count])
}

pub fn type_image(
    sink: &mut [u32],
    id: u32,
    component: u32,
    dim: u32,
    depth: u32,
    arrayed: u32,
    multisampled: u32,
    sampled: u32,
    format: u32,
) -> usize
    ensures { Put (words (type_image id component dim depth arrayed multisampled sampled format)) sink.old sink.new result }
{
    put_plain(
        sink,
        Op::TypeImage,
        &[
            id,
            component,
            dim,
            depth,
            arrayed,
            multisampled,
            sampled,
            format,
        ],
    )
}

pub fn type_sampler(sink: &mut [u32], id: u32) -> usize
    ensures { Put (words (type_sampler id)) sink.old sink.new result }
{
    put_plain(sink, Op::TypeSampler, &[id])
}

pub fn type_acceleration_structure(sink: &mut [u32], id: u32) -> usize
    ensures { Put (words (type_acceleration_structure id)) sink.old sink.new result }
{
    put_plain(sink, Op::TypeAccelerationStructureKhr, &[id])
}

pub fn type_ray_query(sink: &mut [u32], id: u32) -> usize
    ensures { Put (words (type_ray_query id)) sink.old sink.new result }
{
    put_plain(sink, Op::TypeRayQueryKhr, &[id])
}

pub fn type_array(sink: &mut [u32], id: u32, element: u32, size: u32) -> usize
    ensures { Put (words (type_array id element size)) sink.old sink.new result }
{
    put_plain(sink, Op::TypeArray, &[id, element, size])
}

pub fn type_runtime_array(sink: &mut [u32], id: u32, element: u32) -> usize
    ensures { Put (words (type_runtime_array id element)) sink.old sink.new result }
{
    put_plain(sink, Op::TypeRuntimeArray, &[id, element])
}

pub fn type_struct(sink: &mut [u32], id: u32, members: &[u64]) -> usize
    requires { FitsWordCount members.now }
    ensures { Put (words (type_struct id (map low members.now))) sink.old sink.new result }
{
    put_list(sink, Op::TypeStruct, &[id], members)
}

// The beginning of an OpTypeStruct whose members' ids follow one by one.
pub fn type_struct_head(sink: &mut [u32], id: u32, count: usize) -> usize
    requires { count < 65532 }
    ensures { Put (struct_head id count) sink.old sink.new result }
{
    put_head(sink, count + 2, Op::TypeStruct, &[id])
}

pub fn type_pointer(sink: &mut [u32], id: u32, class: u32, base: u32) -> usize
    ensures { Put (words (type_pointer id class base)) sink.old sink.new result }
{
    put_plain(sink, Op::TypePointer, &[id, class, base])
}

// The id of the return type comes first, then those of the parameters.
pub fn type_function(sink: &mut [u32], id: u32, types: &[u64]) -> usize
    requires { FitsWordCount types.now }
    ensures { Put (words (type_function id (map low types.now))) sink.old sink.new result }
{
    put_list(sink, Op::TypeFunction, &[id], types)
}

// ---- constants, each with its type and its id, as in the Rust

pub fn constant_true(sink: &mut [u32], ty: u32, id: u32) -> usize
    ensures { Put (words (constant_true ty id)) sink.old sink.new result }
{
    put_plain(sink, Op::ConstantTrue, &[ty, id])
}

pub fn constant_false(sink: &mut [u32], ty: u32, id: u32) -> usize
    ensures { Put (words (constant_false ty id)) sink.old sink.new result }
{
    put_plain(sink, Op::ConstantFalse, &[ty, id])
}

pub fn constant_null(sink: &mut [u32], ty: u32, id: u32) -> usize
    ensures { Put (words (constant_null ty id)) sink.old sink.new result }
{
    put_plain(sink, Op::ConstantNull, &[ty, id])
}

pub fn constant_32bit(sink: &mut [u32], ty: u32, id: u32, value: u32) -> usize
    ensures { Put (words (constant_op ty id (value ∷ []))) sink.old sink.new result }
{
    put_plain(sink, Op::Constant, &[ty, id, value])
}

pub fn constant_64bit(sink: &mut [u32], ty: u32, id: u32, low: u32, high: u32) -> usize
    ensures { Put (words (constant_op ty id (low ∷ high ∷ []))) sink.old sink.new result }
{
    put_plain(sink, Op::Constant, &[ty, id, low, high])
}

pub fn constant_composite(sink: &mut [u32], ty: u32, id: u32, parts: &[u64]) -> usize
    requires { FitsWordCount parts.now }
    ensures { Put (words (constant_composite ty id (map low parts.now))) sink.old sink.new result }
{
    put_list(sink, Op::ConstantComposite, &[ty, id], parts)
}

// ---- variables

// The id that a variable begins with is given as the tables hold it, if there is one.
pub fn variable(sink: &mut [u32], ty: u32, id: u32, class: u32, init: Option<u64>) -> usize
    ensures { Put (words (variable ty id class (option_map low init))) sink.old sink.new result }
{
    match init {
        None => put_plain(sink, Op::Variable, &[ty, id, class]),
        Some(x) => put_plain(sink, Op::Variable, &[ty, id, class, low_word(x)]),
    }
}
