// UTF-8 by RFC 3629, section 4, a byte at a time. Between two bytes all that counts is what must still come of the
// character; the code keeps that in three numbers where the grammar has a list of ranges.
ghost use Rattle.std.specs.Prelude.{◌≡◌, Option, Some};
ghost use Rattle.definition.specs.Utf8.{utf8_char, follow_of, utf8};
ghost use Rattle.fields.specs.Pending.{ranges_of, ranges_in, step_of};

// `left` bytes must come, the first of them from low to high, and each other from 0x80 to 0xBF.
#[derive(Clone, Copy)]
struct Pending {
    left: u8,
    low: u8,
    high: u8,
}

// What a first byte leaves to come, or that none begins so: the rows of the grammar, one an arm.
fn lead(b: u8) -> Option<Pending>
    ensures { ranges_in result ≡ follow_of utf8_char b }
{
    let (left, low, high) = match b {
        0x00..=0x7F => (0, 0x80, 0xBF),
        0xC2..=0xDF => (1, 0x80, 0xBF),
        0xE0 => (2, 0xA0, 0xBF),
        0xE1..=0xEC => (2, 0x80, 0xBF),
        0xED => (2, 0x80, 0x9F),
        0xEE..=0xEF => (2, 0x80, 0xBF),
        0xF0 => (3, 0x90, 0xBF),
        0xF1..=0xF3 => (3, 0x80, 0xBF),
        0xF4 => (3, 0x80, 0x8F),
        _ => return None,
    };
    Some(Pending { left, low, high })
}

// What a byte leaves to come where p must come, or that it cannot stand there.
fn after(p: Pending, b: u8) -> Option<Pending>
    ensures { ranges_in result ≡ step_of (ranges_of p) b }
{
    if p.left == 0 {
        lead(b)
    } else if (p.low..=p.high).contains(&b) {
        Some(Pending {
            left: p.left - 1,
            low: 0x80,
            high: 0xBF,
        })
    } else {
        None
    }
}

// Whether s is UTF-8.
pub fn is_utf8(s: &[u8]) -> bool
    ensures { result ≡ utf8 s.now }
{
    let mut p = Pending {
        left: 0,
        low: 0x80,
        high: 0xBF,
    };
    for &b in s {
        let Some(q) = after(p, b) else {
            return false;
        };
        p = q;
    }
    p.left == 0
}
