// Instructions, each put behind those in its section: what a constructor of `spirv::instructions` takes, with the ids as the
// tables hold them.
ghost use Rattle.std.specs.Prelude.{◌≡◌, false, List, [], ◌∷◌, ℕ, ◌+◌, ◌≤◌, ◌<◌, eqb, length};
ghost use Rattle.definition.specs.Numbers.{DecorationBlock};
ghost use Rattle.definition.specs.Instructions.{Instruction, decorate, member_decorate, type_void, type_array, type_runtime_array, type_struct, type_pointer, type_function, constant_true, constant_false, constant_null, constant_op, constant_composite, variable};
ghost use Rattle.spirv.specs.Ids.{low};
ghost use Rattle.spirv.specs.Heads.{struct_head};
ghost use Rattle.writer.specs.Cost.{annotating, declaring};
ghost use Rattle.writer.specs.Held.{RoomFor};
ghost use Rattle.writer.specs.Steps.{Puts, Pending, Alone, PutsWords, Spells};
ghost use Rattle.writer.specs.Regions.{annotations, declarations};

use crate::{ANNOTATIONS, DECLARATIONS, Writer};
use spirv::words::Word;
use spirv::{instructions, low_word};

impl Writer<'_, '_> {
    // Puts an instruction where the declarations in use end, into what is left there, and adds its words to the count.
    pub fn declare<F: FnOnce(&mut [u32]) -> usize>(&mut self, put: F)
        requires callable { F.IsAlwaysCallable put }
        requires room { (ws : List ℕ) × PutsWords F.FnOnce put ws × RoomFor (declaring (length ws)) self.old }
        ensures { (i : Instruction) (n : ℕ) (ws : List ℕ) → PutsWords F.FnOnce put ws → Spells n i ws → RoomFor (declaring n) self.old → Puts declarations n i self.old self.new }
    {
        let start = DECLARATIONS * self.used.bytes + self.used.declarations;
        let n = put(&mut self.sections[start..]);
        self.used.declarations += n;
    }

    // The same of the annotations.
    fn annotate<F: FnOnce(&mut [u32]) -> usize>(&mut self, put: F)
        requires callable { F.IsAlwaysCallable put }
        requires room { (ws : List ℕ) × PutsWords F.FnOnce put ws × RoomFor (annotating (length ws)) self.old }
        ensures { (i : Instruction) (n : ℕ) (ws : List ℕ) → PutsWords F.FnOnce put ws → Spells n i ws → Alone annotations i → RoomFor (annotating n) self.old → Puts annotations n i self.old self.new }
    {
        let start = ANNOTATIONS * self.used.bytes + self.used.annotations;
        let n = put(&mut self.sections[start..]);
        self.used.annotations += n;
    }

    // ---- annotations

    // Any decoration but Block, which `put_block` writes: the ids that carry it are kept.
    pub fn decorate<D: Word>(&mut self, target: u64, decoration: D, operands: &[u32])
        requires { (length operands.now ≤ 8) × RoomFor (annotating (length operands.now + 3)) self.old × (eqb (D.as_word decoration) DecorationBlock ≡ false) }
        ensures { Puts annotations (length operands.now + 3) (decorate target (D.as_word decoration) operands.now) self.old self.new }
    {
        let number = decoration.word();
        self.annotate(|left| instructions::decorate(left, low_word(target), number, operands));
    }

    pub fn member_decorate<D: Word>(
        &mut self,
        target: u64,
        member: u32,
        decoration: D,
        operands: &[u32],
    )
        requires { (length operands.now ≤ 8) × RoomFor (annotating (length operands.now + 4)) self.old }
        ensures { Puts annotations (length operands.now + 4) (member_decorate target member (D.as_word decoration) operands.now) self.old self.new }
    {
        let number = decoration.word();
        self.annotate(|left| instructions::member_decorate(
            left,
            low_word(target),
            member,
            number,
            operands,
        ));
    }

    // ---- declarations, each of which asks room for its own words

    pub fn type_void(&mut self, id: u64)
        requires { RoomFor (declaring 2) self.old }
        ensures { Puts declarations 2 (type_void id) self.old self.new }
    {
        self.declare(|left| instructions::type_void(left, low_word(id)));
    }

    pub fn type_array(&mut self, id: u64, element: u64, size: u64)
        requires { RoomFor (declaring 4) self.old }
        ensures { Puts declarations 4 (type_array id element size) self.old self.new }
    {
        self.declare(|left| instructions::type_array(
            left,
            low_word(id),
            low_word(element),
            low_word(size),
        ));
    }

    pub fn type_runtime_array(&mut self, id: u64, element: u64)
        requires { RoomFor (declaring 3) self.old }
        ensures { Puts declarations 3 (type_runtime_array id element) self.old self.new }
    {
        self.declare(|left| instructions::type_runtime_array(
            left,
            low_word(id),
            low_word(element),
        ));
    }

    pub fn type_struct(&mut self, id: u64, members: &[u64])
        requires { (length members.now < 65000) × RoomFor (declaring (length members.now + 2)) self.old }
        ensures { Puts declarations (length members.now + 2) (type_struct id members.now) self.old self.new }
    {
        self.declare(|left| instructions::type_struct(left, low_word(id), members));
    }

    // The beginning of an OpTypeStruct of `count` members, behind the declarations in use. It is not whole yet.
    pub fn type_struct_head(&mut self, id: u64, count: usize)
        requires { (count < 65000) × RoomFor (declaring (count + 2)) self.old }
        ensures { Pending 0 (struct_head (low id) count) self.old self.new }
    {
        let start = DECLARATIONS * self.used.bytes + self.used.declarations;
        instructions::type_struct_head(&mut self.sections[start..], low_word(id), count);
    }

    pub fn type_pointer(&mut self, id: u64, class: u32, base: u64)
        requires { RoomFor (declaring 4) self.old }
        ensures { Puts declarations 4 (type_pointer id class base) self.old self.new }
    {
        self.declare(|left| instructions::type_pointer(left, low_word(id), class, low_word(base)));
    }

    // The return type's id first, then the parameters'.
    pub fn type_function(&mut self, id: u64, types: &[u64])
        requires { (length types.now < 65000) × RoomFor (declaring (length types.now + 2)) self.old }
        ensures { Puts declarations (length types.now + 2) (type_function id types.now) self.old self.new }
    {
        self.declare(|left| instructions::type_function(left, low_word(id), types));
    }

    pub fn constant_true(&mut self, ty: u64, id: u64)
        requires { RoomFor (declaring 3) self.old }
        ensures { Puts declarations 3 (constant_true ty id) self.old self.new }
    {
        self.declare(|left| instructions::constant_true(left, low_word(ty), low_word(id)));
    }

    pub fn constant_false(&mut self, ty: u64, id: u64)
        requires { RoomFor (declaring 3) self.old }
        ensures { Puts declarations 3 (constant_false ty id) self.old self.new }
    {
        self.declare(|left| instructions::constant_false(left, low_word(ty), low_word(id)));
    }

    pub fn constant_null(&mut self, ty: u64, id: u64)
        requires { RoomFor (declaring 3) self.old }
        ensures { Puts declarations 3 (constant_null ty id) self.old self.new }
    {
        self.declare(|left| instructions::constant_null(left, low_word(ty), low_word(id)));
    }

    pub fn constant_32bit(&mut self, ty: u64, id: u64, value: u32)
        requires { RoomFor (declaring 4) self.old }
        ensures { Puts declarations 4 (constant_op ty id (value ∷ [])) self.old self.new }
    {
        self.declare(|left| instructions::constant_32bit(left, low_word(ty), low_word(id), value));
    }

    pub fn constant_64bit(&mut self, ty: u64, id: u64, low: u32, high: u32)
        requires { RoomFor (declaring 5) self.old }
        ensures { Puts declarations 5 (constant_op ty id (low ∷ high ∷ [])) self.old self.new }
    {
        self.declare(|left| instructions::constant_64bit(
            left,
            low_word(ty),
            low_word(id),
            low,
            high,
        ));
    }

    pub fn constant_composite(&mut self, ty: u64, id: u64, parts: &[u64])
        requires { (length parts.now < 65000) × RoomFor (declaring (length parts.now + 3)) self.old }
        ensures { Puts declarations (length parts.now + 3) (constant_composite ty id parts.now) self.old self.new }
    {
        self.declare(|left| instructions::constant_composite(
            left,
            low_word(ty),
            low_word(id),
            parts,
        ));
    }

    pub fn variable(&mut self, ty: u64, id: u64, class: u32, init: Option<u64>)
        requires { RoomFor (declaring 5) self.old }
        ensures { Puts declarations 5 (variable ty id class init) self.old self.new }
    {
        self.declare(|left| instructions::variable(left, low_word(ty), low_word(id), class, init));
    }
}
