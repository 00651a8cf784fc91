// Paper 3, "Reading a burnt module back": words listed instruction by instruction into a second buffer. It asks nothing of its
// caller. The words are walked over twice: first into a buffer in which nothing fits, for the refusal or the list's length, so that a
// refusal is known before anything is written, then into the caller's. Ids, and what a name says, are not judged.
#![tactic(auto)]

pub mod forms;

ghost use Rattle.std.specs.Prelude.{◌≡◌, ◌≤◌, ◌<◌, length, take, Some};
ghost use Rattle.definition.specs.Instructions.{put};
ghost use Rattle.definition.specs.Listing.{list_body, list_from, is_front};
ghost use Rattle.spirv.specs.Put.{Put};
ghost use Rattle.listing.specs.Forms.{form_of};
ghost use Rattle.listing.specs.Lists.{least_body, list_as, ListedWith, PutAt, Walked, length_of};
ghost use Rattle.listing.specs.Promise.{listing_as, ListPromise};

use crate::forms::{Form, ResultId, instruction_test};
use refusals::Refusal;
use spirv::layout::{MAGIC_NUMBER, VERSION, put_both};
use spirv::words::put_words;

const HEADER_WORDS: usize = 5;

// An instruction's list in what is left of the buffer, by where its result id stands: its opcode, the id or 0, the count of its
// other words, and those; a result type is one of them.
fn put_list(left: &mut [u32], op: u32, id: ResultId, body: &[u32]) -> usize
    requires { (least_body id ≤ length body.now) × (length body.now < 65536) }
    ensures { Put (list_as id op body.now) left.old left.new result }
{
    let n = body.len() as u32;
    match id {
        ResultId::Missing => put_both(left, &[op, 0, n], body),
        ResultId::First => put_both(left, &[op, body[0], n - 1], &body[1..]),
        ResultId::BehindType => put_both(left, &[op, body[1], n - 1, body[0]], &body[2..]),
    }
}

// An instruction's list at a place of the buffer, where it fits, and the place behind it: three words, and those behind the
// instruction's first one but for a result id.
fn list_instruction(out: &mut [u32], to: usize, op: u32, form: Form, body: &[u32]) -> usize
    requires { (to < 9223372036854775808) × (Some form ≡ form_of op) × ListedWith op body.now }
    ensures { PutAt to (list_body op body.now) out.old out.new result }
{
    let next = to + body.len() + 3 - form.result.words();
    if out.len() < next {
        return next;
    }
    put_list(&mut out[to..], op, form.result, body);
    next
}

// All instructions, in order, behind a header of five words (test 18); the first that is faulty decides. The list's place in the
// buffer begins behind the header's.
fn list_instructions(words: &[u32], out: &mut [u32]) -> Result<usize, Refusal>
    requires { 5 ≤ length words.now }
    ensures { Walked words.now out.old result out.new }
{
    let mut rest = &words[HEADER_WORDS..];
    let mut to = HEADER_WORDS;
    while let Some((first, behind)) = rest.split_first() {
        let op = *first % 65536;
        let n = (*first / 65536) as usize;
        let form = instruction_test(op, n, rest.len())?;
        let (body, later) = behind.split_at(n - 1);
        to = list_instruction(out, to, op, form, body);
        rest = later;
    }
    Ok(to)
}

// Test 18: the header is document 01's but for generator and bound.
fn is_front(words: &[u32]) -> bool
    ensures { result ≡ is_front words.now }
{
    matches!(words, [MAGIC_NUMBER, VERSION, _, _, 0, ..])
}

// The refusal, or the list's length. A list has five words at least, so that nothing fits a buffer of one word.
fn list_length(words: &[u32]) -> Result<usize, Refusal>
    requires { 5 ≤ length words.now }
    ensures { listing_as result ≡ length_of (list_from 5 words.now) }
{
    let mut one = [0u32; 1];
    list_instructions(words, &mut one)
}

// The header, and the instructions' lists behind it.
fn put_whole(words: &[u32], out: &mut [u32]) -> Result<usize, Refusal>
    requires { 5 ≤ length words.now }
    ensures { Walked words.now (put (take 5 words.now) out.old) result out.new }
{
    put_words(out, &words[..HEADER_WORDS]);
    list_instructions(words, out)
}

// Lists words into a second buffer, and says how long the list is.
pub fn list(words: &[u32], out: &mut [u32]) -> Result<usize, Refusal>
    ensures { ListPromise words.now out.old result out.new }
{
    if !is_front(words) {
        return Err(Refusal::ModuleFront);
    }
    let n = list_length(words)?;
    if out.len() < n {
        return Err(Refusal::BufferLength);
    }
    put_whole(words, out)
}
