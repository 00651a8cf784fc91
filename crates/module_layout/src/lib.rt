// The last stage: tests 15 and 16, then from the sections that a writer holds to the module in the caller's buffer.
// Each section is written into what is left of the buffer, which is lent from the current place on. Nothing is written before
// both tests are passed, and the sections are taken as they are.
#![tactic(auto)]

ghost use Rattle.std.specs.Prelude.{◌≡◌, ◌+◌, ◌*◌, ◌≤◌, ◌<◌, length, take, drop};
ghost use Rattle.definition.specs.Instructions.{all_words};
ghost use Rattle.definition.specs.State.{capability_instructions};
ghost use Rattle.spirv.specs.Put.{Put};
ghost use Rattle.module_layout.specs.Finished.{Front, Roomy, module_count, module_words_in, Finished};

use refusals::Refusal;
use spirv::instructions::capability;
use spirv::layout::PhysicalLayout;
use spirv::words::put_words;
use writer::{ANNOTATIONS, DECLARATIONS, NAMES, Used, Writer};

// A module that was written: its word count and its bound.
#[derive(Clone, Copy)]
pub struct Module {
    pub words: usize,
    pub bound: u32,
}

// The words of the header, and of an OpCapability.
const HEADER_WORDS: usize = 5;

const CAPABILITY_WORDS: usize = 2;

// The Specification's limit of a bound.
pub const BOUND_MOST: u64 = 4194303;

// An OpCapability for each number, each in what is left of the buffer behind those before it.
fn put_capabilities(out: &mut [u32], numbers: &[u32]) -> usize
    requires { 2 * length numbers.now ≤ length out.old }
    ensures { Put (all_words (capability_instructions numbers.now)) out.old out.new result }
{
    let mut at = 0;
    for number in numbers {
        at += capability(&mut out[at..], *number);
    }
    at
}

// The header, and the capabilities in what is left of the buffer behind it.
fn put_front(out: &mut [u32], bound: u32, numbers: &[u32]) -> usize
    requires { 5 + 2 * length numbers.now ≤ length out.old }
    ensures { Front bound numbers.now out.old out.new result }
{
    PhysicalLayout { bound }.in_words(out);
    put_capabilities(&mut out[HEADER_WORDS..], numbers);
    HEADER_WORDS + CAPABILITY_WORDS * numbers.len()
}

// The n words that stand from a place of the sections on, at the front of what is left of the buffer.
fn put_section(left: &mut [u32], sections: &[u32], start: usize, n: usize) -> usize
    requires { start + n ≤ length sections.now }
    ensures { Put (take n (drop start sections.now)) left.old left.new result }
{
    let end = start + n;
    put_words(left, &sections[start..end])
}

// How many words the module has.
fn module_count(u: Used) -> usize
    requires { module_count u < 4294967296 }
    ensures { result ≡ module_count u }
{
    HEADER_WORDS + CAPABILITY_WORDS * u.capabilities + u.names + u.annotations + u.declarations
}

// The header and the four sections, in a buffer that has room for them: each section's writer is lent what is left from the
// current place on.
fn put_module(out: &mut [u32], sections: &[u32], u: Used, bound: u32) -> usize
    requires { Roomy u sections.now × (module_count u ≤ length out.old) }
    ensures { Put (module_words_in u sections.now bound) out.old out.new result }
{
    let k = u.capabilities;
    let first = put_front(out, bound, &sections[..k]);
    put_section(&mut out[first..], sections, NAMES * u.bytes, u.names);
    let second = first + u.names;
    put_section(
        &mut out[second..],
        sections,
        ANNOTATIONS * u.bytes,
        u.annotations,
    );
    let third = second + u.annotations;
    put_section(
        &mut out[third..],
        sections,
        DECLARATIONS * u.bytes,
        u.declarations,
    );
    third + u.declarations
}

// Tests 15 and 16, and then the module; a refusal writes nothing.
pub fn write_module(out: &mut [u32], w: &Writer<'_, '_>) -> Result<Module, Refusal>
    requires { Roomy w.now.used w.now.sections.now }
    ensures { Finished w.now out.old result out.new }
{
    let last = w.used.idgen.last;
    if BOUND_MOST <= last {
        return Err(Refusal::Bound);
    }
    let n = module_count(w.used);
    if out.len() < n {
        return Err(Refusal::BufferLength);
    }
    let bound = (last + 1) as u32;
    put_module(out, w.sections, w.used, bound);
    Ok(Module { words: n, bound })
}
