// What stands in a body behind the name at its front, the fields of a type or a global: each by how far from the name's end it is.
ghost use Rattle.std.specs.Prelude.{◌<◌};

// A name takes no more than 256 bytes, so that its end and what stands near it are far below the limit of a usize.
#[derive(Clone, Copy)]
pub struct Named<'a> {
    pub body: &'a [u8],
    pub end: usize,
    pub ghost near: { end < 300 },
}

impl<'a> Named<'a> {
    ghost use Rattle.std.specs.Prelude.{◌≡◌, ◌+◌};
    ghost use Rattle.definition.specs.Bytes.{u8_at, u16_at, u32_at, name_end};

    pub fn new(body: &'a [u8]) -> Named<'a>
        ensures body { result.body.now ≡ body.now }
        ensures end { result.end ≡ name_end body.now 0 }
    {
        Named {
            body,
            end: crate::name_end(body, 0),
        }
    }

    pub fn u8_at(self, from_end: u8) -> u8
        ensures { result ≡ u8_at self.entry.body.now (self.entry.end + from_end) }
    {
        crate::u8_at(self.body, self.end + from_end as usize)
    }

    pub fn u16_at(self, from_end: u8) -> u16
        ensures { result ≡ u16_at self.entry.body.now (self.entry.end + from_end) }
    {
        crate::u16_at(self.body, self.end + from_end as usize)
    }

    pub fn u32_at(self, from_end: u8) -> u32
        ensures { result ≡ u32_at self.entry.body.now (self.entry.end + from_end) }
    {
        crate::u32_at(self.body, self.end + from_end as usize)
    }
}
