// The four operations, their answers as numbers, for callers that know no enum of Rattle's. `exports_c` hands them to C and Rust.
#![tactic(auto)]

ghost use Rattle.std.specs.Prelude.{◌≡◌};
ghost use Rattle.module_layout.specs.Finished.{answer_of};
ghost use Rattle.declarations.specs.Promise.{verdict_as, wrapping_as};
ghost use Rattle.listing.specs.Promise.{listing_as};
ghost use Rattle.exports.specs.Numbers.{verdict_number, answer_number, wrapping_number, listing_number, LengthFits, CheckExported, DeclareExported, WrappedExported, ListExported};

use module_layout::Module;
use refusals::Refusal;

fn number_of_verdict(v: Result<(), Refusal>) -> u32
    ensures { result ≡ verdict_number (verdict_as v) }
{
    match v {
        Ok(()) => 0,
        Err(refusal) => refusal.number() as u32,
    }
}

fn number_of_answer(a: Result<Module, Refusal>) -> u64
    ensures { result ≡ answer_number (answer_of a) }
{
    match a {
        Ok(module) => 4294967296 * (module.bound as u64) + (module.words as u64) % 4294967296,
        Err(refusal) => refusal.number() as u64,
    }
}

fn number_of_wrapping(w: Result<bool, Refusal>) -> u32
    ensures { result ≡ wrapping_number (wrapping_as w) }
{
    match w {
        Ok(true) => 257,
        Ok(false) => 256,
        Err(refusal) => refusal.number() as u32,
    }
}

fn number_of_listing(l: Result<usize, Refusal>) -> u64
    requires { LengthFits (listing_as l) }
    ensures { result ≡ listing_number (listing_as l) }
{
    match l {
        Ok(n) => 256 + n as u64,
        Err(refusal) => refusal.number() as u64,
    }
}

// Check: 0 for Fit, else the number of the refusal.
pub fn voulkrod_check(sheet: &[u8]) -> u32
    ensures { CheckExported sheet.now result }
{
    number_of_verdict(declarations::check(sheet))
}

// Declare: the bound in the high half and the word count in the low half where the module is written, and a bound is
// never 0; else the number of the refusal.
pub fn voulkrod_declare(sheet: &[u8], words: &mut [u32]) -> u64
    ensures { DeclareExported sheet.now words.old result words.new }
{
    number_of_answer(declarations::declare(sheet, words))
}

// Wrapped: 256 for no, 257 for yes, else the number of the refusal.
pub fn voulkrod_wrapped(sheet: &[u8], index: usize) -> u32
    ensures { WrappedExported sheet.now index result }
{
    number_of_wrapping(declarations::wrapped(sheet, index))
}

// List: 256 and the list's length together, else the number of the refusal, which is below 256.
pub fn voulkrod_list(words: &[u32], list: &mut [u32]) -> u64
    ensures { ListExported words.now list.old result list.new }
{
    number_of_listing(listing::list(words, list))
}
