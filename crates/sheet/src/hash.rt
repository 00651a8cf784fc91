// A type's hash: equal types have one hash, and of types with different hashes nothing more is compared. It only saves time:
// which number it is decides no test.
ghost use Rattle.std.specs.Prelude.{◌≡◌};
ghost use Rattle.definition.specs.Sheet.{record_at};
ghost use Rattle.sheet_fields.specs.Fields.{record_of};
ghost use Rattle.sheet.specs.Hash.{hash_step, hash_of, HashFor};

use records::Rank;

// One word more. The factor is odd, so that bodies of one length that differ in one word alone have different hashes.
fn hash_step(h: u32, w: u32) -> u32
    ensures { result ≡ hash_step h w }
{
    ((h as u64 * 2654435761 + w as u64) % 4294967296) as u32
}

// The hash of a record of tag t and body b.
fn hash_of(t: u8, b: &[u8]) -> u32
    ensures { result ≡ hash_of (record_of t b.now) }
{
    let mut h = t as u32;
    for word in b.chunks_exact(4) {
        h = hash_step(h, fields::whole_u32_at(word, 0));
    }
    hash_step(h, fields::u32_at(b, b.len() / 4 * 4))
}

// The hash of the type at the front of what is left, for its tests and for what is held of it; of any other record 0.
pub fn hash_at(rest: &[u8]) -> u32
    ensures { HashFor (record_at rest.now) result }
{
    let t = records::tag_of(rest);
    match records::rank_of(t) {
        Some(Rank::Types) => hash_of(t, records::body_of(rest)),
        _ => 0,
    }
}
