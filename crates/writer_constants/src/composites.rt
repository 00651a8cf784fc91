// Composites: the ids of a composite's parts are put behind those in use, and are in use once the composite is entered.
// So a Compose and a Splat differ only in how their parts are put there.
ghost use Rattle.std.specs.Prelude.{◌<◌, replicate};
ghost use Rattle.definition.specs.Sheet.{u16s_at};
ghost use Rattle.definition.specs.State.{State};
ghost use Rattle.definition.specs.Finding.{composite_of};
ghost use Rattle.definition.specs.Rules.{ids_of};
ghost use Rattle.lookup.specs.Local.{key_of};
ghost use Rattle.writer.specs.Cost.{staging};
ghost use Rattle.writer.specs.Held.{RoomIn, Room};
ghost use Rattle.writer.specs.Staged.{Staged};
ghost use Rattle.writer.specs.Steps.{FoundBy, staged};
ghost use Rattle.writer_constants.specs.Entered.{composite_cost};

use finding::get_type_id;
use lookup::LookupType;
use writer::Writer;

// The parts of a Compose: the ids of the n constants that its body names, of which each is two bytes there.
pub fn stage_parts(w: &mut Writer<'_, '_>, body: &[u8], n: u16)
    requires { RoomIn (staging n) w.old }
    ensures { Staged n (λ (s : State). ids_of s (u16s_at body.now 4 n)) w.old w.new }
{
    for i in 0..n as usize {
        let v = w.value_at(fields::u16_at(body, 4 + 2 * i) as usize);
        w.stage_part(i, v.id);
    }
}

// The parts of a Splat: n times one id.
pub fn stage_splat(w: &mut Writer<'_, '_>, id: u64, n: usize)
    requires { RoomIn (staging n) w.old }
    ensures { Staged n (λ (s : State). replicate n id) w.old w.new }
{
    for i in 0..n {
        w.stage_part(i, id);
    }
}

// The id of the composite of a type whose n parts stand behind those in use. It is sought by its type's key, not by its
// type's id, and it takes its id before its type is found.
pub fn get_constant_composite(w: &mut Writer<'_, '_>, ty: LookupType, n: usize) -> u64
    requires { (n < 65000) × Room (composite_cost (key_of ty) n) w.old }
    ensures { FoundBy (composite_cost (key_of ty) n) (composite_of (key_of ty) (staged n w.old)) w.old result w.new }
{
    let k = lookup::key(ty);
    match w.find_composite(k, n) {
        Some(id) => id,
        None => {
            let id = w.take_id();
            let type_id = get_type_id(w, ty);
            w.declare_composite(type_id, id, n);
            w.enter_composite(k, n, id);
            id
        }
    }
}
