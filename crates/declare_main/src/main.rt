// Reads a sheet on standard input and prints the words of its module, one a line, or the number by which it is refused.
#![tactic(auto)]

ghost use Rattle.std.specs.Prelude.{◌*◌, ◌≤◌, length};
ghost use Rattle.module_layout.specs.Finished.{answer_of, declared_as};
ghost use Rattle.printing.specs.Text.{Printed};
ghost use Rattle.declare_main.specs.Answers.{printed, answer_to, CountWithin};

use module_layout::Module;
use printing::streams;
use refusals::Refusal;

// How many words Declare is lent.
const WORDS: usize = 16384;

// Nine bytes for each word, so that all is printed by one call.
const TEXT: usize = 147456;

// Puts the words that were written, or the refusal, at the front of the text.
fn put_answer(a: Result<Module, Refusal>, words: &[u32], text: &mut [u8]) -> usize
    requires { CountWithin (answer_of a) words.now × (9 * length words.now ≤ length text.old) × (12 ≤ length text.old) }
    ensures { Printed (printed (declared_as a words.now)) text.old text.new result }
{
    match a {
        Ok(module) => printing::put_lines(text, &words[..module.words]),
        Err(refusal) => printing::put_refusal(text, refusal.number()),
    }
}

// Puts what is printed for a sheet at the front of the text.
fn put_answer_to(sheet: &[u8], text: &mut [u8]) -> usize
    requires { 147456 ≤ length text.old }
    ensures { Printed (answer_to sheet.now) text.old text.new result }
{
    let mut words = [0u32; WORDS];
    let a = declarations::declare(sheet, &mut words);
    put_answer(a, &words, text)
}

fn print_answer_to(rt: &(impl Print + Eprint), sheet: &[u8]) {
    let mut text = [0u8; TEXT];
    let n = put_answer_to(sheet, &mut text);
    streams::print(rt, &text[..n]);
}

fn main(rt: HostRuntime) {
    let mut buffer = [0u8; streams::SHEET];
    if let Some(sheet) = streams::read(&rt, &mut buffer) {
        print_answer_to(&rt, sheet);
    }
}
