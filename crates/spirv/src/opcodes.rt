// The opcodes of the instructions that are written.
ghost use Rattle.spirv.specs.Opcodes.{opcode_of};

use crate::words::Word;

#[derive(Clone, Copy)]
pub enum Op {
    Name = 5,
    MemberName = 6,
    Capability = 17,
    TypeVoid = 19,
    TypeBool = 20,
    TypeInt = 21,
    TypeFloat = 22,
    TypeVector = 23,
    TypeMatrix = 24,
    TypeImage = 25,
    TypeSampler = 26,
    TypeArray = 28,
    TypeRuntimeArray = 29,
    TypeStruct = 30,
    TypePointer = 32,
    TypeFunction = 33,
    ConstantTrue = 41,
    ConstantFalse = 42,
    Constant = 43,
    ConstantComposite = 44,
    ConstantNull = 46,
    Variable = 59,
    Decorate = 71,
    MemberDecorate = 72,
    TypeRayQueryKhr = 4472,
    TypeAccelerationStructureKhr = 5341,
}

impl Word for Op {
    ghost as_word = { opcode_of };

    fn word(self) -> u32 {
        self as u32
    }
}
