// The decorations that are written.
ghost use Rattle.spirv.specs.Decorations.{decoration_number};

use crate::words::Word;

#[derive(Clone, Copy)]
pub enum Decoration {
    Block = 2,
    ColMajor = 5,
    ArrayStride = 6,
    MatrixStride = 7,
    NonWritable = 24,
    NonReadable = 25,
    Binding = 33,
    DescriptorSet = 34,
    Offset = 35,
}

impl Word for Decoration {
    ghost as_word = { decoration_number };

    fn word(self) -> u32 {
        self as u32
    }
}
