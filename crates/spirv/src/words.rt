// Words put at the front of what is left of a lent buffer.
ghost use Rattle.std.specs.Prelude.{◌≡◌, ℕ, map};
ghost use Rattle.spirv.specs.Put.{Put};
ghost use Rattle.spirv.specs.Bytes.{word_of};
ghost use Rattle.spirv.specs.Ids.{low};

use crate::low_word;

// What is put as one word.
pub trait Word: Copy {
    ghost as_word: { Self → ℕ };

    fn word(self) -> u32
        ensures { result ≡ as_word self };
}

impl Word for u32 {
    ghost as_word = { λ w. w };

    fn word(self) -> u32 {
        self
    }
}

// An id as the tables hold it.
impl Word for u64 {
    ghost as_word = { low };

    fn word(self) -> u32 {
        low_word(self)
    }
}

// Four bytes, the first in the word's lowest 8 bits.
impl Word for [u8; 4] {
    ghost as_word = { word_of };

    fn word(self) -> u32 {
        u32::from_le_bytes(self)
    }
}

// Puts a word for each item and says how many they are; where they do not fit it writes nothing and says 0.
pub fn put_each<W: Word>(sink: &mut [u32], items: &[W]) -> usize
    ensures { Put (map W.as_word items.now) sink.old sink.new result }
{
    if sink.len() < items.len() {
        return 0;
    }
    for (i, item) in items.iter().enumerate() {
        sink[i] = item.word();
    }
    items.len()
}

// The same of words; not `copy_from_slice`, which compiled calls memmove, and the static library may call nothing but memset.
pub fn put_words(sink: &mut [u32], ws: &[u32]) -> usize
    ensures { Put ws.now sink.old sink.new result }
{
    put_each(sink, ws)
}
