// The members of a struct, one after the other in its record's body: each a type, an offset of 32 bits and a name. A member starts
// where the name before it ends, so that they are taken from the first on; `Members` takes them so, once for all crates.
#![tactic(auto)]

ghost use Rattle.std.specs.Prelude.{◌+◌, ◌*◌, ◌<◌};

// A member, in the body that it stands in. Its name is left there, at `name`.
#[derive(Clone, Copy)]
pub struct Member<'a> {
    pub ty: u16,
    pub offset: u32,
    pub body: &'a [u8],
    pub name: usize,
    pub ghost small: { name < 100000 },
}

// The `left` members from `at` on. A name takes no more than 255 bytes, so that their places stay far below the limit of a usize.
#[derive(Clone, Copy)]
pub struct Members<'a> {
    body: &'a [u8],
    at: usize,
    left: u8,
    pub ghost small: { at + 300 * left < 100000 },
}

impl<'a> Members<'a> {
    ghost use Rattle.std.specs.Prelude.{◌≡◌, ◌∷◌};
    ghost use Rattle.definition.specs.Bytes.{u8_at};
    ghost use Rattle.definition.specs.Sheet.{members_at, members_end};
    ghost use Rattle.members.specs.Walk.{member_of, members_left, end_left};

    // The `count` members from `first` on.
    pub fn new(body: &'a [u8], first: usize, count: u8) -> Members<'a>
        requires { first < 1000 }
        ensures value { members_left result ≡ members_at body.now first count }
        ensures end { end_left result ≡ members_end body.now first count }
    {
        Members {
            body,
            at: first,
            left: count,
        }
    }

    // The members of a struct, whose own name ends at `from`: a span of 32 bits comes before them, and how many they are.
    pub fn behind(body: &'a [u8], from: usize) -> Members<'a>
        requires { from < 300 }
        ensures value { members_left result ≡ members_at body.now (from + 5) (u8_at body.now (from + 4)) }
        ensures end { end_left result ≡ members_end body.now (from + 5) (u8_at body.now (from + 4)) }
    {
        Members::new(body, from + 5, fields::u8_at(body, from + 4))
    }

    // The first of them, which is taken.
    fn take_first(&mut self) -> Member<'a>
        requires { 0 < self.old.left }
        ensures taken { members_left self.old ≡ member_of result ∷ members_left self.new }
        ensures end { end_left self.old ≡ end_left self.new }
        ensures fewer { self.new.left + 1 ≡ self.old.left }
    {
        let at = self.at;
        let name = at + 6;
        let first = Member {
            ty: fields::u16_at(self.body, at),
            offset: fields::u32_at(self.body, at + 2),
            body: self.body,
            name,
        };
        *self = Members {
            body: self.body,
            at: fields::name_end(self.body, name),
            left: self.left - 1,
        };
        first
    }

    // Where they end.
    pub fn end(mut self) -> usize
        ensures { result ≡ end_left self.entry }
    {
        // Not a `for`: what is asked is where the last one leaves `self`, which a `for` would take.
        while 0 < self.left {
            self.take_first();
        }
        self.at
    }
}

impl<'a> Iterator for Members<'a> {
    ghost use Rattle.std.specs.Iterator.{YieldsFirstBy, item_count};
    ghost use Rattle.members.specs.Walk.{member_of, members_left};

    type Item = Member<'a>;

    ghost next_gives = { YieldsFirstBy member_of members_left };

    ghost remaining = { item_count members_left };

    fn next(&mut self) -> Option<Member<'a>> {
        if self.left == 0 {
            return None;
        }
        Some(self.take_first())
    }

    fn size_hint(&self) -> (usize, Option<usize>) {
        (self.left as usize, Some(self.left as usize))
    }
}

impl ExactSizeIterator for Members<'_> {
    fn len(&self) -> usize {
        self.left as usize
    }
}
