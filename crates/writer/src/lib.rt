// The writer's tables and sections, in regions of two slices that the caller lends, and how much of each is in use.
// One function for each thing that the rules do to the definition's State; whatever is above only composes them. No rule
// stands here: which id, which key and which instruction is for the callers to say.
#![tactic(auto)]

pub mod sections;

ghost use Rattle.std.specs.Prelude.{◌≡◌, List, [], ◌∷◌, ℕ, ◌+◌, ◌*◌, ◌≤◌, ◌<◌, length, Bool, option_map};
ghost use Rattle.std.specs.List.{find};
ghost use Rattle.definition.specs.State.{annotate};
ghost use Rattle.definition.specs.Rules.{block, block_once};
ghost use Rattle.definition.specs.Instructions.{Instruction, constant_composite, type_function, name, member_name};
ghost use Rattle.spirv.specs.Sections.{splice};
ghost use Rattle.lookup.specs.Local.{one_or_none};
ghost use Rattle.writer.specs.Rows.{Computes, pair, triple, table_rows, seek_in, same_list, seek_parts, part, is_listed};
ghost use Rattle.writer.specs.Regions.{names, declarations};
ghost use Rattle.writer.specs.Cost.{no_cost, a_type, a_literal, a_null, a_value, a_composite, staging, naming, a_block, declaring, listing_cost};
ghost use Rattle.writer.specs.Held.{RoomIn, RoomFor, Room};
ghost use Rattle.writer.specs.Steps.{none_used, Fresh, Emptied, Kept, Took, FindsBlock, FindsType, FindsLiteral, FindsNull, FindsComposite, EnteredType, EnteredLiteral, EnteredNull, EnteredComposite, EnteredValue, ValueAt, Puts, PutsWords, Spells, Listed, Pending, Committed, with_part, staged};

use spirv::decorations::Decoration;
use spirv::words::Word;
use spirv::{IdGenerator, instructions, low_word};

// Where a table starts, in multiples of `records`: a record adds four types at most and one row to each other table. A row is
// a key and an id, two numbers, of types and nulls, and three of the others. Behind them stand the ids that carry Block, as many
// as there are records at most, and then the ids of composites' parts.
const LITERALS: usize = 8;

const NULLS: usize = 11;

const VALUES: usize = 13;

const COMPOSITES: usize = 16;

const BLOCKED: usize = 19;

const PARTS: usize = 20;

// Where a section starts, in multiples of `bytes`: a byte of the sheet adds a capability at most, a word of names, two of
// annotations and three of declarations. The capabilities come first.
pub const NAMES: usize = 1;

pub const ANNOTATIONS: usize = 2;

pub const DECLARATIONS: usize = 4;

// How much is in use: `records` and `bytes` say how large a sheet there is room for; the other numbers are rows, ids or words.
#[derive(Clone, Copy)]
pub struct Used {
    pub records: usize,
    pub bytes: usize,
    pub idgen: IdGenerator,
    pub types: usize,
    pub literals: usize,
    pub nulls: usize,
    pub values: usize,
    pub composites: usize,
    pub blocked: usize,
    pub parts: usize,
    pub capabilities: usize,
    pub names: usize,
    pub annotations: usize,
    pub declarations: usize,
}

// The two slices that the caller lends, and how much of each is in use. That there is room is asked by each function, at what it may
// add, and is no invariant of the type: `new` takes slices and numbers of any size.
#[derive(Drop)]
pub struct Writer<'t, 's> {
    pub tables: &'t mut [u64],
    pub sections: &'s mut [u32],
    pub used: Used,
}

// A constant of the sheet: its id, its type's id, and the code of its kind where a Splat may repeat it, plus 1; 0 where not. The kind is
// as the row has it: with an Option `enter_value` could not take every number that it takes.
#[derive(Clone, Copy)]
pub struct WrittenConstant {
    pub id: u64,
    pub ty: u64,
    pub kind: u64,
}

// Nothing, but the last id already given out.
fn unused(records: usize, bytes: usize, start: u64) -> Used
    ensures { result ≡ none_used records bytes start }
{
    Used {
        records,
        bytes,
        idgen: IdGenerator { last: start },
        types: 0,
        literals: 0,
        nulls: 0,
        values: 0,
        composites: 0,
        blocked: 0,
        parts: 0,
        capabilities: 0,
        names: 0,
        annotations: 0,
        declarations: 0,
    }
}

// ---- searches and stores in one slice

// The first row that passes, four a turn: `find`, which looks for the end at each row, takes twice the instructions.
fn first<T, P: Fn(&T) -> bool + Drop>(rows: &[T], passes: P) -> Option<&T>
    requires { P.IsAlwaysCallable passes }
    ensures { (t : T → Bool) → Computes P.Fn passes t → option_map (λ r. r.now) result ≡ find t rows.now }
{
    let fours = rows.chunks_exact(4);
    let rest = fours.remainder();
    for four in fours {
        for row in four {
            if passes(row) {
                return Some(row);
            }
        }
    }
    for row in rest {
        if passes(row) {
            return Some(row);
        }
    }
    None
}

// The id of the first of n rows under a key of one number. The whole table is given, and where the rows start in it: so the definition
// speaks of rows.
fn seek_key(tables: &[u64], start: usize, n: usize, a: u64) -> Option<u64>
    requires { start + 2 * n ≤ length tables.now }
    ensures { result ≡ seek_in a 0 (table_rows pair tables.now start n) }
{
    let (rows, _) = tables[start..start + 2 * n].as_chunks::<2>();
    first(rows, |row| row[0] == a).map(|row| row[1])
}

// The same of a key of two numbers; the second first, in which rows mostly differ.
fn seek(tables: &[u64], start: usize, n: usize, a: u64, b: u64) -> Option<u64>
    requires { start + 3 * n ≤ length tables.now }
    ensures { result ≡ seek_in a b (table_rows triple tables.now start n) }
{
    let (rows, _) = tables[start..start + 3 * n].as_chunks::<3>();
    first(rows, |row| row[1] == b && row[0] == a).map(|row| row[2])
}

// Whether the n numbers from p on are those from q on: the last first, in which composites that begin alike often differ.
// By hand four a turn: `==` of the slices takes up to half as long again; `zip` and `all` over what `as_chunks` cuts into fours
// is as fast, but is not proved.
fn same_parts(tables: &[u64], p: usize, q: usize, n: usize) -> bool
    requires { (p + n ≤ length tables.now) × (q + n ≤ length tables.now) }
    ensures { result ≡ same_list (part tables.now p n) (part tables.now q n) }
{
    if n == 0 {
        return true;
    }
    if tables[p + (n - 1)] != tables[q + (n - 1)] {
        return false;
    }
    let mut j = 0;
    'fours: while 4 <= n - j {
        if tables[p + j] != tables[q + j] {
            return false;
        }
        if tables[p + j + 1] != tables[q + j + 1] {
            return false;
        }
        if tables[p + j + 2] != tables[q + j + 2] {
            return false;
        }
        if tables[p + j + 3] != tables[q + j + 3] {
            return false;
        }
        j += 4;
    }
    while j < n {
        if tables[p + j] != tables[q + j] {
            return false;
        }
        j += 1;
    }
    true
}

// The id of the first of n rows under a key and with the m parts that stand at q. A row's second number is how many parts
// it has, and the rows' parts stand one row's behind the other's from `parts` on.
fn seek_parts(
    tables: &[u64],
    start: usize,
    n: usize,
    parts: usize,
    q: usize,
    m: usize,
    key: u64,
) -> Option<u64>
    requires { (start + 3 * n ≤ length tables.now) × (parts ≤ q) × (q + m ≤ length tables.now) }
    ensures { result ≡ seek_parts key (part tables.now q m) q tables.now start parts n }
{
    let (rows, _) = tables[start..start + 3 * n].as_chunks::<3>();
    let mut at = parts;
    for row in rows {
        let count = row[1] as usize;
        if q - at < count {
            return None;
        }
        if row[0] == key && count == m && same_parts(tables, at, q, m) {
            return Some(row[2]);
        }
        at += count;
    }
    None
}

// Puts a row at a place.
fn put_row<const N: usize>(tables: &mut [u64], p: usize, row: [u64; N])
    requires { p + N ≤ length tables.old }
    ensures { tables.new ≡ splice tables.old p row.entry }
{
    tables[p..p + N].copy_from_slice(&row);
}

impl<'t, 's> Writer<'t, 's> {
    // A writer over two slices, for a sheet of so many records and bytes. It holds nothing.
    pub fn new(
        tables: &'t mut [u64],
        sections: &'s mut [u32],
        records: usize,
        bytes: usize,
    ) -> Writer<'t, 's>
        ensures lent { (result.tables.ghost_name ≡ tables.entry.ghost_name) × (result.sections.ghost_name ≡ sections.entry.ghost_name) }
        ensures same { (result.tables.now ≡ tables.old) × (result.sections.now ≡ sections.old) }
        ensures fresh { Fresh records bytes 0 result }
    {
        Writer {
            tables,
            sections,
            used: unused(records, bytes, 0),
        }
    }

    // Holds nothing from here on but the last id already given out.
    pub fn reset(&mut self, start: u64)
        ensures { Emptied start self.old self.new }
    {
        self.used = unused(self.used.records, self.used.bytes, start);
    }

    pub fn take_id(&mut self) -> u64
        requires { self.old.used.idgen.last < 9223372036854775808 }
        ensures { Took self.old result self.new }
    {
        let next = self.used.idgen.next();
        self.used.idgen = next.idgen;
        next.id
    }

    // ---- tables: searched in order of entry

    #[tactic(auto, using(crate::proofs::Search::finds_type))]
    pub fn find_type(&self, key: u64) -> Option<u64>
        requires { RoomIn no_cost self.now }
        ensures { FindsType key self.now result }
    {
        seek_key(self.tables, 0, self.used.types, key)
    }

    #[tactic(auto, using(crate::proofs::Search::finds_literal))]
    pub fn find_literal(&self, form: u64, bits: u64) -> Option<u64>
        requires { RoomIn no_cost self.now }
        ensures { FindsLiteral form bits self.now result }
    {
        seek(
            self.tables,
            LITERALS * self.used.records,
            self.used.literals,
            form,
            bits,
        )
    }

    #[tactic(auto, using(crate::proofs::Search::finds_null))]
    pub fn find_null(&self, ty: u64) -> Option<u64>
        requires { RoomIn no_cost self.now }
        ensures { FindsNull ty self.now result }
    {
        seek_key(self.tables, NULLS * self.used.records, self.used.nulls, ty)
    }

    // The composite under a key of the n parts that stand behind those in use.
    #[tactic(auto, using(crate::proofs::Parts::finds_composite))]
    pub fn find_composite(&self, key: u64, n: usize) -> Option<u64>
        requires { RoomIn (staging n) self.now }
        ensures { FindsComposite key n self.now result }
    {
        let parts = PARTS * self.used.records;
        seek_parts(
            self.tables,
            COMPOSITES * self.used.records,
            self.used.composites,
            parts,
            parts + self.used.parts,
            n,
            key,
        )
    }

    // Each puts a row of its own behind those of its table and raises that table's count; one function for all would only be told which.
    #[tactic(auto, using(crate::proofs::Tables::entered_type))]
    pub fn enter_type(&mut self, key: u64, id: u64)
        requires { RoomIn a_type self.old }
        ensures { EnteredType key id self.old self.new }
    {
        put_row(self.tables, 2 * self.used.types, [key, id]);
        self.used.types += 1;
    }

    #[tactic(auto, using(crate::proofs::Tables::entered_literal))]
    pub fn enter_literal(&mut self, form: u64, bits: u64, id: u64)
        requires { RoomIn a_literal self.old }
        ensures { EnteredLiteral form bits id self.old self.new }
    {
        let p = LITERALS * self.used.records + 3 * self.used.literals;
        put_row(self.tables, p, [form, bits, id]);
        self.used.literals += 1;
    }

    #[tactic(auto, using(crate::proofs::Tables::entered_null))]
    pub fn enter_null(&mut self, ty: u64, id: u64)
        requires { RoomIn a_null self.old }
        ensures { EnteredNull ty id self.old self.new }
    {
        let p = NULLS * self.used.records + 2 * self.used.nulls;
        put_row(self.tables, p, [ty, id]);
        self.used.nulls += 1;
    }

    // A constant of the sheet.
    #[tactic(auto, using(crate::proofs::Tables::entered_value))]
    pub fn enter_value(&mut self, id: u64, ty: u64, kind: u64)
        requires { RoomIn a_value self.old }
        ensures { EnteredValue id ty kind self.old self.new }
    {
        let p = VALUES * self.used.records + 3 * self.used.values;
        put_row(self.tables, p, [id, ty, kind]);
        self.used.values += 1;
    }

    // Constant c of the sheet; past the end it reads as none.
    #[tactic(auto, using(crate::proofs::Values::value_there))]
    pub fn value_at(&self, c: usize) -> WrittenConstant
        requires { RoomIn no_cost self.now }
        ensures { ValueAt c self.now result }
    {
        if self.used.values <= c {
            return WrittenConstant {
                id: 0,
                ty: 0,
                kind: 0,
            };
        }
        let p = VALUES * self.used.records + 3 * c;
        WrittenConstant {
            id: self.tables[p],
            ty: self.tables[p + 1],
            kind: self.tables[p + 2],
        }
    }

    // ---- composites: parts are put behind those in use, where no composite has them, until theirs is entered

    // Part i of a composite that is not entered yet.
    pub fn stage_part(&mut self, i: usize, id: u64)
        requires { RoomIn (staging (i + 1)) self.old }
        ensures { self.new ≡ with_part i id self.old }
    {
        let p = PARTS * self.used.records + self.used.parts + i;
        self.tables[p] = id;
    }

    // The n parts that stand behind those in use are a composite's.
    #[tactic(auto, using(crate::proofs::Tables::entered_composite))]
    pub fn enter_composite(&mut self, key: u64, n: usize, id: u64)
        requires { RoomIn (a_composite n) self.old }
        ensures { EnteredComposite key n id self.old self.new }
    {
        let p = COMPOSITES * self.used.records + 3 * self.used.composites;
        put_row(self.tables, p, [key, n as u64, id]);
        self.used.composites += 1;
        self.used.parts += n;
    }

    // ---- names, and what is put from the tables; `sections` has the other instructions

    // Puts an instruction behind the names in use, into what is left there, and adds its words to the count.
    fn put_name<F: FnOnce(&mut [u32]) -> usize>(&mut self, put: F)
        requires callable { F.IsAlwaysCallable put }
        requires room { (ws : List ℕ) × PutsWords F.FnOnce put ws × RoomFor (naming (length ws)) self.old }
        ensures { (i : Instruction) (n : ℕ) (ws : List ℕ) → PutsWords F.FnOnce put ws → Spells n i ws → RoomFor (naming n) self.old → Puts names n i self.old self.new }
    {
        let start = NAMES * self.used.bytes + self.used.names;
        let n = put(&mut self.sections[start..]);
        self.used.names += n;
    }

    // Whether names are wanted is for the caller to ask (flag bit 0).
    pub fn label(&mut self, target: u64, bytes: &[u8])
        requires { (length bytes.now < 256) × RoomFor (naming (length bytes.now + 3)) self.old }
        ensures { Puts names (length bytes.now + 3) (name target bytes.now) self.old self.new }
    {
        self.put_name(|left| instructions::name(left, low_word(target), bytes));
    }

    // The same of a member, which has no id of its own: the struct's, and its place there.
    pub fn label_member(&mut self, target: u64, member: u32, bytes: &[u8])
        requires { (length bytes.now < 256) × RoomFor (naming (length bytes.now + 4)) self.old }
        ensures { Puts names (length bytes.now + 4) (member_name target member bytes.now) self.old self.new }
    {
        self.put_name(|left| instructions::member_name(left, low_word(target), member, bytes));
    }

    // Declares the composite of the n parts that stand behind those in use. The bound on n, here and below, keeps the word count in 16
    // bits.
    pub fn declare_composite(&mut self, ty: u64, id: u64, n: usize)
        requires { (n < 65000) × RoomIn (staging n) self.old × RoomFor (declaring (n + 3)) self.old }
        ensures { Puts declarations (n + 3) (constant_composite ty id (staged n self.old)) self.old self.new }
    {
        let from = PARTS * self.used.records + self.used.parts;
        let start = DECLARATIONS * self.used.bytes + self.used.declarations;
        // Taken out for the call, which is lent the sections too.
        let tables = std::mem::take(&mut self.tables);
        let words = instructions::constant_composite(
            &mut self.sections[start..],
            low_word(ty),
            low_word(id),
            &tables[from..from + n],
        );
        self.tables = tables;
        self.used.declarations += words;
    }

    // Declares the function type of the n ids that stand there, the return type's first.
    pub fn declare_function(&mut self, id: u64, n: usize)
        requires { (n < 65000) × RoomIn (staging n) self.old × RoomFor (declaring (n + 2)) self.old }
        ensures { Puts declarations (n + 2) (type_function id (staged n self.old)) self.old self.new }
    {
        let from = PARTS * self.used.records + self.used.parts;
        let start = DECLARATIONS * self.used.bytes + self.used.declarations;
        let tables = std::mem::take(&mut self.tables);
        let words = instructions::type_function(
            &mut self.sections[start..],
            low_word(id),
            &tables[from..from + n],
        );
        self.tables = tables;
        self.used.declarations += words;
    }

    // ---- Block, whose ids are kept: it goes on an id once

    // Whether an id carries Block.
    fn is_blocked(&self, id: u64) -> bool
        requires { RoomIn no_cost self.now }
        ensures { FindsBlock id self.now result }
    {
        let start = BLOCKED * self.used.records;
        self.tables[start..start + self.used.blocked].contains(&id)
    }

    // Puts Block on an id that has none yet, which is for the caller to know.
    pub fn put_block(&mut self, id: u64)
        requires { Room a_block self.old }
        ensures { Kept a_block (annotate (block id)) self.old self.new }
    {
        let start = ANNOTATIONS * self.used.bytes + self.used.annotations;
        let n = instructions::decorate(
            &mut self.sections[start..],
            low_word(id),
            Decoration::Block,
            &[],
        );
        let p = BLOCKED * self.used.records + self.used.blocked;
        self.tables[p] = id;
        self.used.annotations += n;
        self.used.blocked += 1;
    }

    // The same of any id: where Block is, it stays, and is not written again.
    pub fn block_once(&mut self, id: u64)
        requires { Room a_block self.old }
        ensures { Kept a_block (block_once id) self.old self.new }
    {
        if !self.is_blocked(id) {
            self.put_block(id);
        }
    }

    // ---- an instruction word by word

    // A word of an instruction that is not whole yet, behind the declarations in use.
    pub fn put_pending(&mut self, k: usize, x: u32)
        requires { RoomFor (declaring (k + 1)) self.old }
        ensures { Pending k (x ∷ []) self.old self.new }
    {
        let p = DECLARATIONS * self.used.bytes + self.used.declarations + k;
        self.sections[p] = x;
    }

    // The n words pending are an instruction.
    pub fn commit(&mut self, n: usize)
        requires { self.old.used.declarations + n < 9223372036854775808 }
        ensures { Committed n self.old self.new }
    {
        self.used.declarations += n;
    }

    // ---- capabilities

    // Whether a capability is listed.
    #[tactic(auto, using(crate::proofs::Words::is_any))]
    fn is_listed(&self, capability: u32) -> bool
        requires { self.now.used.capabilities ≤ length self.now.sections.now }
        ensures { result ≡ is_listed capability (part self.now.sections.now 0 self.now.used.capabilities) }
    {
        self.sections[..self.used.capabilities].contains(&capability)
    }

    // Lists a capability, if there is one, behind the others at its first use.
    #[tactic(auto, using(crate::proofs::Words::lists_none, crate::proofs::Words::lists_old))]
    pub fn list_capability<C: Word>(&mut self, capability: Option<C>)
        requires { self.old.used.capabilities < length self.old.sections.now }
        ensures { Listed (one_or_none (option_map C.as_word capability)) self.old self.new }
    {
        let Some(capability) = capability else {
            return;
        };
        let number = capability.word();
        if self.is_listed(number) {
            return;
        }
        self.sections[self.used.capabilities] = number;
        self.used.capabilities += 1;
    }
}
