// Names of types and of members: each is written under the debug flag, where there is one.
ghost use Rattle.std.specs.Prelude.{◌≡◌, ◌&&◌, ◌+◌, ◌<◌, ◌^◌, [], length};
ghost use Rattle.definition.specs.Bytes.{name_at};
ghost use Rattle.definition.specs.Choice.{or_else};
ghost use Rattle.definition.specs.Instructions.{name};
ghost use Rattle.definition.specs.Tests.{present};
ghost use Rattle.definition.specs.Rules.{label_if};
ghost use Rattle.writer.specs.Cost.{naming};
ghost use Rattle.writer.specs.Held.{RoomFor};
ghost use Rattle.writer.specs.Steps.{Added};
ghost use Rattle.writer_types.specs.Costs.{name_length};

use entries::members::{has_name, name_part};
use writer::Writer;

// Whether there is a name at p that is to be written.
pub fn is_written(body: &[u8], debug: bool, p: usize) -> bool
    ensures { result ≡ (debug && present (name_at body.now p)) }
{
    debug && has_name(body, p)
}

// The bytes of the name at i, whose length is a byte.
#[tactic(auto, using(crate::proofs::Named::name_short))]
pub fn short_name(body: &[u8], i: usize) -> &[u8]
    requires { i < 2 ^ 63 }
    ensures value { result.now ≡ or_else [] (name_at body.now i) }
    ensures short { length result.now < 256 }
{
    name_part(body, i)
}

// The name of a type, which stands at the front of its body.
pub fn name_type(w: &mut Writer<'_, '_>, body: &[u8], debug: bool, id: u64)
    requires { RoomFor (naming (name_length (name_at body.now 0) + 3)) w.old }
    ensures { Added (naming (name_length (name_at body.now 0) + 3)) (label_if debug (name id) (name_at body.now 0)) w.old w.new }
{
    if is_written(body, debug, 0) {
        w.label(id, short_name(body, 0));
    }
}
