// Test 12: a type equal to an earlier one in name and all fields, or a remap of a group and binding already remapped. A function
// equal to an earlier one is fit.
// A record that passed test 8 is its fields, each in its one form, so types are equal if their tags and bodies are.
ghost use Rattle.std.specs.Prelude.{◌≡◌, true, false, ◌+◌, ◌≤◌, ◌<◌, length};
ghost use Rattle.definition.specs.Sheet.{remap_fields};
ghost use Rattle.definition.specs.Tests.{type_read, remap_read};
ghost use Rattle.records.specs.Places.{types_in, remaps_in};
ghost use Rattle.sheet_fields.specs.Fields.{record_of};
ghost use Rattle.sheet.specs.Hash.{hash_of, HashesOf, Unlike, Differ};
ghost use Rattle.std.specs.Option.{MatchOption};

use records::Earlier;

// Where the name and the fixed fields of a type end, and the members of a struct begin.
fn fixed_end(t: u8, b: &[u8]) -> usize
    ensures { result ≤ length b.now }
{
    match t {
        23 => {
            let end = fields::name_end(b, 0) + 5;
            if end < b.len() { end } else { b.len() }
        }
        _ => b.len(),
    }
}

// Where the member that begins at p ends: behind its type, its offset and its name.
fn member_end(b: &[u8], p: usize) -> usize
    requires { p < length b.now }
    ensures { (p < result) × (result ≤ length b.now) }
{
    if b.len() - p <= 6 {
        return b.len();
    }
    let end = fields::name_end(b, p + 6);
    if end < b.len() { end } else { b.len() }
}

// Whether one of the eight hashes from j on is h. All eight are compared before there is a choice, which the compiler makes into few
// instructions.
fn one_alike(hashes: &[u32], j: usize, h: u32) -> bool
    requires { j + 8 ≤ length hashes.now }
    ensures { result ≡ false → Unlike hashes.now h j (j + 8) }
{
    let mut alike = false;
    for hash in &hashes[j..j + 8] {
        alike |= *hash == h;
    }
    alike
}

// The first of the hashes from i on that is h. Eight are passed over a turn, as long as none of them is.
fn next_alike(hashes: &[u32], i: usize, h: u32) -> Option<usize>
    requires { i ≤ length hashes.now }
    ensures { MatchOption result (Unlike hashes.now h i (length hashes.now)) (λ j. (i ≤ j) × ((j < length hashes.now) × Unlike hashes.now h i j)) }
{
    let n = hashes.len();
    // Types of one hash mostly stand one behind the other.
    if i < n && hashes[i] == h {
        return Some(i);
    }
    let mut from = i;
    'eights: while 8 <= n - from && !one_alike(hashes, from, h) {
        from += 8;
    }
    for j in from..n {
        if hashes[j] == h {
            return Some(j);
        }
    }
    None
}

// Whether two bodies are the same. Bodies of one hash often differ in what comes last, so their last eight bytes are compared first.
fn same_body(e: &[u8], b: &[u8]) -> bool
    ensures same { result ≡ true → e.now ≡ b.now }
    ensures other { result ≡ false → Differ e.now b.now }
{
    let n = e.len();
    if n != b.len() {
        return false;
    }
    if 8 <= n && fields::whole_u64_at(e, n - 8) != fields::whole_u64_at(b, n - 8) {
        return false;
    }
    e == b
}

// Whether one of the types has tag t and body b, of which the hash is given: the search is left at the first that is equal, and a
// type at the first member that differs. Hashes, in which nearly all differ, are compared before all else.
pub fn type_read(types: Earlier<'_>, hashes: &[u32], t: u8, b: &[u8], hash: u32) -> bool
    requires { HashesOf types hashes.now × (hash ≡ hash_of (record_of t b.now)) }
    ensures { result ≡ type_read (record_of t b.now) (types_in types.entry) }
{
    let fixed = fixed_end(t, b);
    let mut read = false;
    let mut from = 0;
    // No `for`, since the entries are not taken one after the other, but those with the hash.
    'entries: while let Some(i) = next_alike(hashes, from, hash) {
        from = i + 1;
        let rest = records::rest_at(types.sheet, types.places[i] as usize);
        if records::tag_of(rest) != t {
            continue 'entries;
        }
        let e = records::body_of(rest);
        // As the hash, this only saves time: bodies that differ are told apart at once, many bytes at a time.
        if !same_body(e, b) {
            continue 'entries;
        }
        // No iterator of the library: where the next member begins is known once this one is read.
        let mut p = fixed;
        while p < b.len() {
            let next = member_end(b, p);
            if e[p..next] != b[p..next] {
                continue 'entries;
            }
            p = next;
        }
        read = true;
        break 'entries;
    }
    read
}

// Whether one of the remaps has the group and the binding of the body b.
#[tactic(auto, using(crate::proofs::Earlier::remap_turn, crate::proofs::Earlier::remap_end))]
pub fn remap_read(remaps: Earlier<'_>, b: &[u8]) -> bool
    ensures { result ≡ remap_read (remap_fields b.now).value (remaps_in remaps.entry) }
{
    let mut read = false;
    'entries: for &place in remaps.places {
        let e = records::body_of(records::rest_at(remaps.sheet, place as usize));
        if fields::u32_at(e, 0) != fields::u32_at(b, 0) {
            continue 'entries;
        }
        if fields::u32_at(e, 4) != fields::u32_at(b, 4) {
            continue 'entries;
        }
        read = true;
        break 'entries;
    }
    read
}
