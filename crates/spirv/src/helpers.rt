// Packed strings and storage classes.
ghost use Rattle.std.specs.Prelude.{◌≡◌, get_or};
ghost use Rattle.definition.specs.Instructions.{packed};
ghost use Rattle.spirv.specs.Put.{Put};
ghost use Rattle.spirv.specs.Bytes.{word_of};
ghost use Rattle.definition.specs.Shapes.{storage_class};
ghost use Rattle.kinds.specs.Numbers.{space_number};

use crate::words::{Word, put_each};
use kinds::AddressSpace;

// Where a variable lies.
#[derive(Clone, Copy)]
enum StorageClass {
    UniformConstant = 0,
    Uniform = 2,
    Workgroup = 4,
    Private = 6,
    Function = 7,
    PushConstant = 9,
    StorageBuffer = 12,
}

// A byte, or 0 past the end: the zero bytes that end a string and fill its last word need no case of their own.
fn byte_at(bytes: &[u8], i: usize) -> u8
    ensures { result ≡ get_or bytes.now i 0 }
{
    bytes.get(i).copied().unwrap_or(0)
}

// The first four bytes as one word, the first in its lowest 8 bits.
fn bytes_to_word(bytes: &[u8]) -> u32
    ensures { result ≡ word_of bytes.now }
{
    [
        byte_at(bytes, 0),
        byte_at(bytes, 1),
        byte_at(bytes, 2),
        byte_at(bytes, 3),
    ]
    .word()
}

// Puts a string's words. The last one always holds the zero byte that ends it, so 4n bytes make n + 1 words.
pub fn string_to_words(sink: &mut [u32], bytes: &[u8]) -> usize
    ensures { Put (packed bytes.now) sink.old sink.new result }
{
    let (whole, rest) = bytes.as_chunks::<4>();
    let n = whole.len();
    if sink.len() <= n {
        return 0;
    }
    put_each(sink, whole);
    sink[n] = bytes_to_word(rest);
    n + 1
}

pub fn map_storage_class(space: AddressSpace) -> u32
    ensures { result ≡ storage_class (space_number space) }
{
    let class = match space {
        AddressSpace::Handle => StorageClass::UniformConstant,
        AddressSpace::Function => StorageClass::Function,
        AddressSpace::Private => StorageClass::Private,
        AddressSpace::Storage { access: _ } => StorageClass::StorageBuffer,
        AddressSpace::Uniform => StorageClass::Uniform,
        AddressSpace::WorkGroup => StorageClass::Workgroup,
        AddressSpace::PushConstant => StorageClass::PushConstant,
    };
    class as u32
}
