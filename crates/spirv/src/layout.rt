// An instruction's words, and the module's header.
ghost use Rattle.std.specs.Prelude.{◌≡◌, ℕ, ◌^◌, List, ◌++◌, map, ◌≤◌, ◌<◌, length, drop, get_or};
ghost use Rattle.definition.specs.Instructions.{words, packed, plain, type_op, value_op, header};
ghost use Rattle.spirv.specs.Put.{Put, FitsWordCount};
ghost use Rattle.spirv.specs.Ids.{low};
ghost use Rattle.spirv.specs.Heads.{head};

use crate::helpers::string_to_words;
use crate::words::{Word, put_each, put_words};

pub const MAGIC_NUMBER: u32 = 0x07230203;

pub const VERSION: u32 = 0x00010300;

const GENERATOR: u32 = 28;

// What is put as some words: words, ids, or a string.
pub trait Words: Copy {
    ghost words_of: { Self → List ℕ };

    fn count(self) -> usize
        ensures { result ≡ length (words_of self) };

    fn put(self, sink: &mut [u32]) -> usize
        ensures { Put (words_of self) sink.old sink.new result };
}

impl Words for &[u32] {
    ghost words_of = { λ ws. ws.now };

    fn count(self) -> usize {
        self.len()
    }

    fn put(self, sink: &mut [u32]) -> usize {
        put_words(sink, self)
    }
}

impl Words for &[u64] {
    ghost words_of = { λ ids. map low ids.now };

    fn count(self) -> usize {
        self.len()
    }

    fn put(self, sink: &mut [u32]) -> usize {
        put_each(sink, self)
    }
}

impl Words for &[u8] {
    ghost words_of = { λ bytes. packed bytes.now };

    fn count(self) -> usize {
        self.len() / 4 + 1
    }

    fn put(self, sink: &mut [u32]) -> usize {
        string_to_words(sink, self)
    }
}

// Words, and more behind them.
pub fn put_both<W: Words>(sink: &mut [u32], head: &[u32], rest: W) -> usize
    requires { (length head.now ≤ 4) × (length (W.words_of rest) < 2 ^ 63) }
    ensures { Put (head.now ++ W.words_of rest) sink.old sink.new result }
{
    let at = head.len();
    let n = at + rest.count();
    if sink.len() < n {
        return 0;
    }
    put_words(sink, head);
    rest.put(&mut sink[at..]);
    n
}

// What an instruction of so many words begins with: its first word, and its first operands. `count` is of the whole instruction, and
// no length of a slice; an opcode has 16 bits.
pub fn put_head<O: Word>(sink: &mut [u32], count: usize, op: O, operands: &[u32]) -> usize
    requires { (count < 65536) × (O.as_word op < 65536) }
    ensures { Put (head count (O.as_word op) operands.now) sink.old sink.new result }
{
    let first = 65536 * (count as u32) + op.word();
    put_both(sink, &[first], operands)
}

// An instruction whose operands are words. Its words do not tell a result id, nor its type, from the other operands, so that
// it gives an id to a type or to a value as well, as the opcode has it.
pub fn put_plain<O: Word>(sink: &mut [u32], op: O, operands: &[u32]) -> usize
    requires { (O.as_word op < 65536) × FitsWordCount operands.now }
    ensures { Put (words (plain (O.as_word op) operands.now)) sink.old sink.new result }
{
    put_head(sink, operands.len() + 1, op, operands)
}

// The same of one that gives an id to a type, which is the first of the operands.
pub fn put_type<O: Word>(sink: &mut [u32], op: O, operands: &[u32]) -> usize
    requires { (O.as_word op < 65536) × FitsWordCount operands.now × (1 ≤ length operands.now) }
    ensures { Put (words (type_op (O.as_word op) (get_or operands.now 0 0) (drop 1 operands.now))) sink.old sink.new result }
{
    put_plain(sink, op, operands)
}

// The same of one that gives an id to a value: its type comes first, then the id.
pub fn put_value<O: Word>(sink: &mut [u32], op: O, operands: &[u32]) -> usize
    requires { (O.as_word op < 65536) × FitsWordCount operands.now × (2 ≤ length operands.now) }
    ensures { Put (words (value_op (O.as_word op) (get_or operands.now 0 0) (get_or operands.now 1 0) (drop 2 operands.now))) sink.old sink.new result }
{
    put_plain(sink, op, operands)
}

// An instruction with more behind its first operands.
pub fn put_list<O: Word, W: Words>(sink: &mut [u32], op: O, operands: &[u32], more: W) -> usize
    requires { (O.as_word op < 65536) × (length operands.now < 4) × FitsWordCount (W.words_of more) }
    ensures { Put (words (plain (O.as_word op) (operands.now ++ W.words_of more))) sink.old sink.new result }
{
    let at = operands.len() + 1;
    let n = at + more.count();
    if sink.len() < n {
        return 0;
    }
    put_head(sink, n, op, operands);
    more.put(&mut sink[at..]);
    n
}

// The module's header; all but the bound is the same in each.
#[derive(Clone, Copy)]
pub struct PhysicalLayout {
    pub bound: u32,
}

impl PhysicalLayout {
    pub fn in_words(self, sink: &mut [u32]) -> usize
        ensures { Put (header self.bound) sink.old sink.new result }
    {
        put_words(sink, &[MAGIC_NUMBER, VERSION, GENERATOR, self.bound, 0])
    }
}
