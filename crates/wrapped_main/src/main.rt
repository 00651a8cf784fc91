// Reads a sheet on standard input and prints, for each of its globals in order, whether it is wrapped in a struct, or the
// number by which the sheet is refused.
#![tactic(auto)]

ghost use Rattle.std.specs.Prelude.{◌≤◌, length};
ghost use Rattle.printing.specs.Text.{Printed};
ghost use Rattle.wrapped_main.specs.Answers.{answers, answer_to};

use printing::streams;

// So many globals a sheet may have.
const GLOBALS_MOST: usize = 64;

// Four bytes for each global, so that all is printed by one call.
const TEXT: usize = 256;

// Puts the globals' lines at the front of the text, until there is no further global.
fn put_answers(sheet: &[u8], text: &mut [u8]) -> usize
    requires { 256 ≤ length text.old }
    ensures { Printed (answers sheet.now) text.old text.new result }
{
    let mut at = 0;
    for i in 0..GLOBALS_MOST {
        let Ok(yes) = declarations::wrapped(sheet, i) else {
            break;
        };
        at = printing::put_yes_or_no(text, at, yes);
    }
    at
}

// Puts what is printed for a sheet at the front of the text.
fn put_answer_to(sheet: &[u8], text: &mut [u8]) -> usize
    requires { 256 ≤ length text.old }
    ensures { Printed (answer_to sheet.now) text.old text.new result }
{
    match declarations::check(sheet) {
        Ok(()) => put_answers(sheet, text),
        Err(refusal) => printing::put_refusal(text, refusal.number()),
    }
}

// This and `main` are as in `declare_main`: one of both would take the text's size and what fills it, and be no shorter.
fn print_answer_to(rt: &(impl Print + Eprint), sheet: &[u8]) {
    let mut text = [0u8; TEXT];
    let n = put_answer_to(sheet, &mut text);
    streams::print(rt, &text[..n]);
}

fn main(rt: HostRuntime) {
    let mut buffer = [0u8; streams::SHEET];
    if let Some(sheet) = streams::read(&rt, &mut buffer) {
        print_answer_to(&rt, sheet);
    }
}
