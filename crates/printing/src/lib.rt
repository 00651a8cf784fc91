// The text that the programs print: words as lines of hexadecimal digits, a refusal, yes and no. Each function puts its bytes
// into a text that the caller lends, so that a program writes all of it in one call; only `streams` reads and writes. They are no
// `Display`: of that the library promises what is written where it answers Ok, which a call that always fails meets; these cannot fail.
#![tactic(auto)]

pub mod streams;

ghost use Rattle.std.specs.Prelude.{◌≡◌, ◌+◌, ◌*◌, ◌<◌, ◌≤◌, length, take};
ghost use Rattle.std.proofs.lemmas.List.Edits.{sets};
ghost use Rattle.printing.specs.Text.{digit_of, digits, line_of, lines_of, digit_count, refusal_of, yes_or_no, PutText, Printed};

const NEWLINE: u8 = b'\n';

// The digit of a number below 16.
fn digit(d: u32) -> u8
    requires { d < 16 }
    ensures { result ≡ digit_of d }
{
    if d < 10 {
        b'0' + d as u8
    } else {
        b'a' - 10 + d as u8
    }
}

// Puts the last k digits of n at a place, the lowest first.
pub fn put_digits(text: &mut [u8], at: usize, base: u32, k: usize, n: u32)
    requires { (0 < base) × (base ≤ 16) × (at + k ≤ length text.old) }
    ensures { text.new ≡ sets text.old at (digits base k n) }
{
    let mut rest = n;
    for left in (0..k).rev() {
        text[at + left] = digit(rest % base);
        rest /= base;
    }
}

// Puts a word's line at a place.
fn put_line(text: &mut [u8], at: usize, w: u32)
    requires { at + 9 ≤ length text.old }
    ensures { text.new ≡ sets text.old at (line_of w) }
{
    put_digits(text, at, 16, 8, w);
    text[at + 8] = NEWLINE;
}

// Puts words at the front of the text, a word a line, and says how many bytes they take.
pub fn put_lines(text: &mut [u8], words: &[u32]) -> usize
    requires { 9 * length words.now ≤ length text.old }
    ensures printed { Printed (lines_of words.now) text.old text.new result }
    ensures value { result ≡ 9 * length words.now }
{
    for i in 0..words.len() {
        put_line(text, 9 * i, words[i]);
    }
    9 * words.len()
}

// Puts bytes at a place, and says which place is behind them.
pub fn put_bytes(text: &mut [u8], at: usize, bytes: &[u8]) -> usize
    requires { at + length bytes.now ≤ length text.old }
    ensures { PutText bytes.now text.old at text.new result }
{
    for i in 0..bytes.len() {
        text[at + i] = bytes[i];
    }
    at + bytes.len()
}

// How many decimal digits a number has.
fn places(n: u8) -> usize
    ensures value { result ≡ digit_count n }
    ensures upper_bound { result ≤ 3 }
{
    if n < 10 {
        return 1;
    }
    if n < 100 { 2 } else { 3 }
}

// Puts a refusal's line at the front of the text, and says how many bytes it takes.
pub fn put_refusal(text: &mut [u8], n: u8) -> usize
    requires { 12 ≤ length text.old }
    ensures { Printed (refusal_of n) text.old text.new result }
{
    let at = put_bytes(text, 0, b"refused ");
    let k = places(n);
    put_digits(text, at, 10, k, n as u32);
    text[at + k] = NEWLINE;
    at + k + 1
}

// Puts a line of yes or no at a place, and says which place is behind it.
pub fn put_yes_or_no(text: &mut [u8], at: usize, yes: bool) -> usize
    requires { at + 4 ≤ length text.old }
    ensures { PutText (yes_or_no yes) text.old at text.new result }
{
    if yes {
        return put_bytes(text, at, b"yes\n");
    }
    put_bytes(text, at, b"no\n")
}
