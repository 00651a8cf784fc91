// Document 01's three operations, each with its promise (specs/Promise.antt). None asks anything of its caller: sheets and
// buffers of any length, indexes of any size.
#![tactic(auto)]

ghost use Rattle.std.specs.Prelude.{◌≡◌, ◌<◌};
ghost use Rattle.declarations.specs.Promise.{DeclarePromise, CheckPromise, WrappedPromise};
ghost use Rattle.declarations.specs.Stages.{Lent, Scratch, Roomed, Ended, Standing, WrappedAs, Answered, verdict_from};

use module_layout::{BOUND_MOST, Module};
use refusals::Refusal;
use sheet::holding;
use sheet::holding::Holding;
use writer::Writer;

// How large a sheet there is scratch for, by class, in bytes, and as many records as so many bytes can hold, or as a sheet may have; a
// function record counts as two.
const LEAST: usize = 32;

const LEAST_RECORDS: usize = 11;

const TINY: usize = 128;

const TINY_RECORDS: usize = 43;

const LITTLE: usize = 512;

const LITTLE_RECORDS: usize = 171;

const SMALL: usize = 1280;

const SMALL_RECORDS: usize = 427;

const MIDDLE: usize = 4096;

const MIDDLE_RECORDS: usize = 704;

const LARGE: usize = 16384;

const LARGE_RECORDS: usize = 704;

// The scratch of a class, as `writer` lays it out: twenty numbers of tables for each record, and one for each byte behind them for
// the parts of composites; seven words of sections for each byte.
const LEAST_TABLES: usize = 20 * LEAST_RECORDS + LEAST;

const LEAST_SECTIONS: usize = 7 * LEAST;

const TINY_TABLES: usize = 20 * TINY_RECORDS + TINY;

const TINY_SECTIONS: usize = 7 * TINY;

const LITTLE_TABLES: usize = 20 * LITTLE_RECORDS + LITTLE;

const LITTLE_SECTIONS: usize = 7 * LITTLE;

const SMALL_TABLES: usize = 20 * SMALL_RECORDS + SMALL;

const SMALL_SECTIONS: usize = 7 * SMALL;

const MIDDLE_TABLES: usize = 20 * MIDDLE_RECORDS + MIDDLE;

const MIDDLE_SECTIONS: usize = 7 * MIDDLE;

const LARGE_TABLES: usize = 20 * LARGE_RECORDS + LARGE;

const LARGE_SECTIONS: usize = 7 * LARGE;

// What Declare and Wrapped answer, both of one reading of the sheet.
#[derive(Clone, Copy)]
struct Answers {
    answer: Result<Module, Refusal>,
    wrapping: Result<bool, Refusal>,
}

// An index that no global has.
const NO_GLOBAL: usize = 64;

// ---- both, over scratch by the sheet's size

// Tests 15 and 16, and the module, once the records are declared. A refusal writes nothing.
fn finish(
    w: &Writer<'_, '_>,
    outcome: Result<(), Refusal>,
    words: &mut [u32],
) -> Result<Module, Refusal>
    requires { Roomed w.now outcome }
    ensures { Ended w.now outcome words.old result words.new }
{
    outcome?;
    module_layout::write_module(words, w)
}

// Test 15, 17, and whether the global is wrapped, once the records are read: the global stands at its place.
fn wrapping_of(
    w: &Writer<'_, '_>,
    held: &Holding<'_>,
    outcome: Result<(), Refusal>,
    index: usize,
) -> Result<bool, Refusal>
    requires { Standing held.now outcome }
    ensures { WrappedAs held.now w.now outcome index result }
{
    outcome?;
    if BOUND_MOST <= w.used.idgen.last {
        return Err(Refusal::Bound);
    }
    if held.counts.globals <= index {
        return Err(Refusal::NoGlobal);
    }
    let v = entries::globals::global_at(held.sheet, held.globals, index);
    Ok(type_facts::global_needs_wrapper(held.types(), v.ty as usize, v.space))
}

// The whole, by a writer whose slices are large enough. As many places are held of each kind as a sheet may have, and behind those of
// the types as many hashes.
fn answers_in(w: &mut Writer<'_, '_>, sheet: &[u8], words: &mut [u32], index: usize) -> Answers
    requires { Lent sheet.now w.old }
    ensures { Answered sheet.now words.old index result words.new }
{
    let mut memo = [0u8; 256];
    let mut remaps = [0u32; 64];
    let mut types = [0u32; 512];
    let mut constants = [0u32; 256];
    let mut globals = [0u32; 64];
    let mut held = Holding {
        sheet,
        remaps: &mut remaps,
        types: &mut types,
        constants: &mut constants,
        globals: &mut globals,
        counts: holding::nothing(),
    };
    let outcome = sheet_writer::write_sheet(w, &mut memo, &mut held);
    let wrapping = wrapping_of(w, &held, outcome, index);
    let answer = finish(w, outcome, words);
    Answers { answer, wrapping }
}

// The same over scratch of its own, of so many numbers and words, for a sheet of so many records and bytes. It is never inlined, so
// that the scratch of one class alone lies on the stack.
#[inline(never)]
fn answers_over<const TABLES: usize, const SECTIONS: usize>(
    sheet: &[u8],
    nrecords: usize,
    nbytes: usize,
    words: &mut [u32],
    index: usize,
) -> Answers
    requires enough { Scratch sheet.now nrecords nbytes TABLES SECTIONS }
    requires small { (TABLES < 1000000) × (SECTIONS < 1000000) }
    ensures { Answered sheet.now words.old index result words.new }
{
    let mut tables = [0u64; TABLES];
    let mut sections = [0u32; SECTIONS];
    let mut w = Writer::new(&mut tables, &mut sections, nrecords, nbytes);
    answers_in(&mut w, sheet, words, index)
}

// By the sheet's size: what is cleared at each call goes by it.
fn answers_by_size(sheet: &[u8], words: &mut [u32], index: usize) -> Answers
    ensures { Answered sheet.now words.old index result words.new }
{
    let n = sheet.len();
    if n <= LEAST {
        answers_over::<LEAST_TABLES, LEAST_SECTIONS>(sheet, LEAST_RECORDS, LEAST, words, index)
    } else if n <= TINY {
        answers_over::<TINY_TABLES, TINY_SECTIONS>(sheet, TINY_RECORDS, TINY, words, index)
    } else if n <= LITTLE {
        answers_over::<LITTLE_TABLES, LITTLE_SECTIONS>(sheet, LITTLE_RECORDS, LITTLE, words, index)
    } else if n <= SMALL {
        answers_over::<SMALL_TABLES, SMALL_SECTIONS>(sheet, SMALL_RECORDS, SMALL, words, index)
    } else if n <= MIDDLE {
        answers_over::<MIDDLE_TABLES, MIDDLE_SECTIONS>(sheet, MIDDLE_RECORDS, MIDDLE, words, index)
    } else {
        answers_over::<LARGE_TABLES, LARGE_SECTIONS>(sheet, LARGE_RECORDS, LARGE, words, index)
    }
}

// ---- the operations

// Declares a sheet into a word buffer.
pub fn declare(sheet: &[u8], words: &mut [u32]) -> Result<Module, Refusal>
    ensures { DeclarePromise sheet.now words.old result words.new }
{
    let a = answers_by_size(sheet, words, NO_GLOBAL);
    a.answer
}

// What a Declare into too short a buffer says of the sheet: 16 comes after all of Check.
fn verdict_of(a: Result<Module, Refusal>) -> Result<(), Refusal>
    ensures { result ≡ verdict_from a }
{
    match a {
        Ok(_) | Err(Refusal::BufferLength) => Ok(()),
        Err(refusal) => Err(refusal),
    }
}

// Whether a sheet is fit. A module has five words at least, so that for a fit sheet a buffer of one word is too short.
pub fn check(sheet: &[u8]) -> Result<(), Refusal>
    ensures { CheckPromise sheet.now result }
{
    let mut one = [0u32; 1];
    let a = declare(sheet, &mut one);
    verdict_of(a)
}

// Whether a global of the sheet is wrapped in a struct.
pub fn wrapped(sheet: &[u8], index: usize) -> Result<bool, Refusal>
    ensures { WrappedPromise sheet.now index result }
{
    let mut one = [0u32; 1];
    let a = answers_by_size(sheet, &mut one, index);
    a.wrapping
}
