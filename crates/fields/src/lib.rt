// Numbers, names and parts of a slice of bytes, wherever they stand; which field stands where is for `sheet_fields` to say.
// A reader answers for every slice and every place: past the end a byte reads as 0, so that whoever reads owes no proof that a
// field is there. Only `whole_u32_at` and `whole_u64_at` ask for all their bytes, for loops that know they are there.
#![tactic(auto)]

mod named;
mod utf8;

ghost use Rattle.std.specs.Prelude.{◌≡◌, ℕ, slice_index, IsTrue, All, ◌+◌, ◌<◌, ◌≤◌, ◌^◌, length, take, drop};
ghost use Rattle.definition.specs.Bytes.{u8_at, u16_at, u32_at, u64_at, name_at, name_end};
ghost use Rattle.definition.specs.Utf8.{utf8, no_zero, name_fits};

pub use named::Named;
pub use utf8::is_utf8;

pub fn u8_at(s: &[u8], i: usize) -> u8
    ensures { result ≡ u8_at s.now i }
{
    s.get(i).copied().unwrap_or(0)
}

// The N bytes from i on, 0 for each past the end.
fn bytes_at<const N: usize>(s: &[u8], i: usize) -> [u8; N]
    ensures { (k : ℕ) → k < N → slice_index result k ≡ u8_at s.now (i + k) }
{
    let rest = s.get(i..).unwrap_or_default();
    std::array::from_fn(|k| u8_at(rest, k))
}

#[tactic(auto, unfolding(definition::specs::Bytes::u16_at))]
pub fn u16_at(s: &[u8], i: usize) -> u16
    ensures { result ≡ u16_at s.now i }
{
    u16::from_be_bytes(bytes_at(s, i))
}

#[tactic(auto, unfolding(definition::specs::Bytes::u32_at, definition::specs::Bytes::u16_at))]
pub fn u32_at(s: &[u8], i: usize) -> u32
    ensures { result ≡ u32_at s.now i }
{
    u32::from_be_bytes(bytes_at(s, i))
}

#[tactic(auto, unfolding(definition::specs::Bytes::u64_at, definition::specs::Bytes::u32_at, definition::specs::Bytes::u16_at))]
pub fn u64_at(s: &[u8], i: usize) -> u64
    ensures { result ≡ u64_at s.now i }
{
    u64::from_be_bytes(bytes_at(s, i))
}

// The same where all four bytes are there: without a test for the end the compiler reads them at once.
#[tactic(auto, unfolding(definition::specs::Bytes::u32_at, definition::specs::Bytes::u16_at))]
pub fn whole_u32_at(s: &[u8], i: usize) -> u32
    requires { i + 4 ≤ length s.now }
    ensures { result ≡ u32_at s.now i }
{
    u32::from_be_bytes(s[i..i + 4].try_into().unwrap())
}

// Eight bytes as a number, where all of them are there.
#[tactic(auto, unfolding(definition::specs::Bytes::u64_at, definition::specs::Bytes::u32_at, definition::specs::Bytes::u16_at))]
pub fn whole_u64_at(s: &[u8], i: usize) -> u64
    requires { i + 8 ≤ length s.now }
    ensures { result ≡ u64_at s.now i }
{
    u64::from_be_bytes(s[i..i + 8].try_into().unwrap())
}

// The n bytes of s from i on, or as many of them as s has.
pub fn part(s: &[u8], i: usize, n: usize) -> &[u8]
    ensures { result.now ≡ take n (drop i s.now) }
{
    let rest = s.get(i..).unwrap_or_default();
    &rest[..n.min(rest.len())]
}

// Where the name that starts at i ends. Here and in name_fits the bound on i, above which no slice reaches, only keeps
// the sums within a usize.
pub fn name_end(s: &[u8], i: usize) -> usize
    requires { i < 2 ^ 63 }
    ensures value { result ≡ name_end s.now i }
    ensures lower_bound { (i < result) × (result ≤ i + 255) }
{
    let n = u8_at(s, i);
    if n == 255 { i + 1 } else { i + 1 + n as usize }
}

// Whether no byte of s is 0.
pub fn no_zero(s: &[u8]) -> bool
    ensures { result ≡ no_zero s.now }
{
    !s.contains(&0)
}

// Whether every byte of s is a character of its own, and none is 0. Nearly all names are such, and one look at each byte tells.
// `all` stops early, so the compiler does not look at many bytes at once: measured, it takes twice as long.
fn is_plain(s: &[u8]) -> bool
    ensures { IsTrue result → All (λ b. (1 ≤ b) × (b ≤ 127)) s.now }
{
    let mut plain = true;
    for b in s {
        plain &= (0x01..=0x7F).contains(b);
    }
    plain
}

// Whether the name that starts at i is none, or is UTF-8 without a zero byte. Its bytes are handed on as a part of s.
pub fn name_fits(s: &[u8], i: usize) -> bool
    requires { i < 2 ^ 63 }
    ensures { result ≡ name_fits (name_at s.now i) }
{
    let n = u8_at(s, i);
    if n == 255 {
        return true;
    }
    let name = part(s, i + 1, n as usize);
    is_plain(name) || is_utf8(name) && no_zero(name)
}
