// Names in a record's body, which have no fixed length, and where a struct's members start.
#![tactic(auto, unfolding(definition::specs::Bytes::name_at))]

ghost use Rattle.std.specs.Prelude.{◌≡◌, [], ◌+◌, ◌<◌, ◌^◌};
ghost use Rattle.definition.specs.Bytes.{name_at, name_end};
ghost use Rattle.definition.specs.Choice.{or_else};
ghost use Rattle.definition.specs.Tests.{present};

// Whether there is a name at i.
pub fn has_name(body: &[u8], index: usize) -> bool
    ensures { result ≡ present (name_at body.now index) }
{
    fields::u8_at(body, index) != 255
}

// The bytes of the name at i, a part of the body; none where there is no name.
pub fn name_part(body: &[u8], index: usize) -> &[u8]
    requires { index < 2 ^ 63 }
    ensures { result.now ≡ or_else [] (name_at body.now index) }
{
    match fields::u8_at(body, index) {
        255 => &[],
        n => fields::part(body, index + 1, n as usize),
    }
}

// Where the members of a struct start.
pub fn first_member(body: &[u8]) -> usize
    ensures value { result ≡ name_end body.now 0 + 5 }
    ensures upper_bound { result < 300 }
{
    fields::name_end(body, 0) + 5
}
