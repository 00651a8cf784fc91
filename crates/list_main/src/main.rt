// Reads the words of a module on standard input, as `declare_main` prints them or as a binary file has them, and prints their
// list: the header on one line, then a line for each instruction; or the number by which the words are refused.
#![tactic(auto)]

ghost use Rattle.std.specs.Prelude.{◌≡◌, ℕ, ◌+◌, ◌*◌, ◌^◌, ◌<◌, ◌≤◌, List, [], ◌∷◌, ◌++◌, length, Option, Some, option_map, option_copied};
ghost use Rattle.std.proofs.lemmas.List.Edits.{sets};
ghost use Rattle.printing.specs.Text.{Printed};
ghost use Rattle.list_main.specs.Answers.{at_most, text_words, binary_words, is_binary, words_of};
ghost use Rattle.list_main.specs.Answers.{following, ending, word_text, list_text};
ghost use Rattle.list_main.specs.Answers.{printed, list_answer, unread_text, answer_to, ListWithin};
ghost use Rattle.list_main.specs.Words.{both, OfCount};
ghost use Rattle.list_main.specs.Forms.{text_joined, text_counted, binary_joined, binary_counted, text_nothing, binary_nothing};
ghost use Rattle.listing.specs.Promise.{relisted_as};

use printing::streams;
use refusals::Refusal;

// How many words the program holds.
const WORDS: usize = 65536;

// A list has fewer than twice as many words as it was made of (`StaysShort`), so that none is longer than this.
const LIST: usize = 131072;

// Nine bytes for each word of a list, so that all is printed by one call.
const TEXT: usize = 1179648;

// Nine bytes for each word, and one more: a longer input is known by these bytes alone (`answer_held`).
const INPUT: usize = 589825;

const MAGIC: u32 = 0x07230203;

const NEWLINE: u8 = b'\n';

const SPACE: u8 = b' ';

const DIGITS: usize = 8;

const HEADER: usize = 5;

// A form in which words are written, so many bytes to a word, one word behind the other.
trait Form<const BYTES: usize> {
    // What bytes are read as, if they are words.
    ghost words: { List ℕ → Option (List ℕ) };

    fn word_of(&self, bytes: &[u8; BYTES]) -> Option<u32>
        ensures { option_map (λ w. w ∷ []) result ≡ words bytes.now };

    ghost nothing: { words [] ≡ Some [] };

    ghost joined: { (bytes later : List ℕ) → length bytes ≡ BYTES → words (bytes ++ later) ≡ both (words bytes) (words later) };

    ghost counted: { (bytes : List ℕ) → OfCount (λ n. length bytes ≡ BYTES * n) (words bytes) };
}

// Lines of eight hexadecimal digits.
struct Text;

impl Form<9> for Text {
    ghost words = { text_words };

    ghost nothing = { text_nothing };

    ghost joined = { text_joined };

    ghost counted = { text_counted };

    fn word_of(&self, line: &[u8; 9]) -> Option<u32> {
        let mut word = 0;
        for &digit in &line[..DIGITS] {
            word = word * 16 + char::from(digit).to_digit(16)?;
        }
        if line[DIGITS] == NEWLINE {
            Some(word)
        } else {
            None
        }
    }
}

// A file's four bytes for each word, the lowest first.
struct Binary;

impl Form<4> for Binary {
    ghost words = { binary_words };

    ghost nothing = { binary_nothing };

    ghost joined = { binary_joined };

    ghost counted = { binary_counted };

    fn word_of(&self, bytes: &[u8; 4]) -> Option<u32> {
        Some(u32::from_le_bytes(*bytes))
    }
}

// Reads the words of a form, unless they are more than there is room for.
fn read<'a, const BYTES: usize, F: Form<BYTES>>(
    form: &F,
    words: &'a mut [u32],
    input: &[u8],
) -> Option<&'a [u32]>
    requires { (0 < BYTES) × (BYTES < 2 ^ 63) }
    ensures { option_copied result ≡ at_most (length words.old) (F.words input.now) }
{
    // More bytes than there is room for words are not read at all.
    if BYTES.saturating_mul(words.len()) < input.len() {
        return None;
    }
    let mut n = 0;
    let mut rest = input;
    while let Some((bytes, later)) = rest.split_first_chunk::<BYTES>() {
        if n == words.len() {
            return None;
        }
        words[n] = form.word_of(bytes)?;
        n += 1;
        rest = later;
    }
    if rest.is_empty() {
        Some(&words[..n])
    } else {
        None
    }
}

// Says whether the input begins with the bytes of the magic number, which no text does: they are no digits.
fn is_binary(input: &[u8]) -> bool
    ensures { result ≡ is_binary input.now }
{
    input
        .first_chunk()
        .is_some_and(|first| u32::from_le_bytes(*first) == MAGIC)
}

// Reads the input's words, unless they are more than there is room for.
fn read_words<'a>(words: &'a mut [u32], input: &[u8]) -> Option<&'a [u32]>
    requires { length words.old ≡ 65536 }
    ensures { option_copied result ≡ words_of input.now }
{
    if is_binary(input) {
        read(&Binary, words, input)
    } else {
        read(&Text, words, input)
    }
}

// How many words follow one on its line, if with it so many were left. Where none was it begins a line, whose third word says how
// many follow that.
fn following(left: usize, later: &[u32]) -> usize
    ensures { result ≡ following left later.now }
{
    match left.checked_sub(1) {
        Some(follow) => follow,
        None => 2 + later.get(1).map_or(0, |n| *n as usize),
    }
}

// What stands behind a word that so many follow on its line.
fn ending_of(follow: usize) -> u8
    ensures { result ≡ ending follow }
{
    if follow == 0 { NEWLINE } else { SPACE }
}

// Puts a word at a place, and what ends it.
fn put_word(text: &mut [u8], at: usize, w: u32, follow: usize)
    requires { at + 9 ≤ length text.old }
    ensures { text.new ≡ sets text.old at (word_text w follow) }
{
    printing::put_digits(text, at, 16, DIGITS, w);
    text[at + DIGITS] = ending_of(follow);
}

// Puts a list's lines at the front of the text, and says how many bytes they take.
fn put_list(text: &mut [u8], list: &[u32]) -> usize
    requires { 9 * length list.now ≤ length text.old }
    ensures { Printed (list_text list.now) text.old text.new result }
{
    let mut left = HEADER;
    for i in 0..list.len() {
        left = following(left, &list[i + 1..]);
        put_word(text, 9 * i, list[i], left);
    }
    9 * list.len()
}

// Puts what is printed for an input that is no words at the front of the text.
fn put_unread(text: &mut [u8]) -> usize
    requires { 64 ≤ length text.old }
    ensures { Printed unread_text text.old text.new result }
{
    printing::put_bytes(text, 0, b"cannot read this as words, 65536 at most\n")
}

// Puts the list that was made, or the refusal, at the front of the text.
fn put_listing(text: &mut [u8], list: &[u32], a: Result<usize, Refusal>) -> usize
    requires { ListWithin (relisted_as a list.now).answer list.now × (9 * length list.now ≤ length text.old) × (12 ≤ length text.old) }
    ensures { Printed (printed (relisted_as a list.now)) text.old text.new result }
{
    match a {
        Ok(n) => put_list(text, &list[..n]),
        Err(refusal) => printing::put_refusal(text, refusal.number()),
    }
}

// Puts what is printed for words at the front of the text.
fn put_list_of(text: &mut [u8], words: &[u32]) -> usize
    requires { 1179648 ≤ length text.old }
    ensures { Printed (list_answer words.now) text.old text.new result }
{
    let mut lent = [0u32; LIST];
    let a = listing::list(words, &mut lent);
    put_listing(text, &lent, a)
}

// Puts what is printed for an input at the front of the text.
fn put_answer_to(text: &mut [u8], input: &[u8]) -> usize
    requires { 1179648 ≤ length text.old }
    ensures { Printed (answer_to input.now) text.old text.new result }
{
    let mut lent = [0u32; WORDS];
    match read_words(&mut lent, input) {
        Some(words) => put_list_of(text, words),
        None => put_unread(text),
    }
}

fn print_answer_to(rt: &(impl Print + Eprint), input: &[u8]) {
    let mut text = [0u8; TEXT];
    let n = put_answer_to(&mut text, input);
    streams::print(rt, &text[..n]);
}

fn main(rt: HostRuntime) {
    let mut buffer = [0u8; INPUT];
    if let Some(input) = streams::read(&rt, &mut buffer) {
        print_answer_to(&rt, input);
    }
}
