// Function types, of records with tag 48: the Rust's `get_function_type`. Two records with equal return id and equal parameter ids
// share one id. Void is declared by the first record that returns it. Both stand in the table of composites, under keys that no
// type has, so that one search serves all that is shared by ids.
#![tactic(auto)]

ghost use Rattle.std.specs.Prelude.{◌∷◌, ◌+◌, ◌<◌};
ghost use Rattle.definition.specs.Bytes.{u8_at};
ghost use Rattle.definition.specs.Instructions.{type_void, type_function};
ghost use Rattle.definition.specs.Sheet.{init_of, u16s_at, function_fields};
ghost use Rattle.definition.specs.State.{State, function, void, entry_ids};
ghost use Rattle.definition.specs.Rules.{shared_type, result_of};
ghost use Rattle.writer.specs.Cost.{staging};
ghost use Rattle.writer.specs.Held.{RoomIn, Room};
ghost use Rattle.writer.specs.Staged.{Staged};
ghost use Rattle.writer.specs.Steps.{FoundBy, staged};
ghost use Rattle.writer_functions.specs.Written.{void_cost, signature_cost, function_cost, FunctionWritten};

use finding::type_id;
use lookup::LookupType;
use writer::Writer;

// Keys of the table of composites. The last digit of a type's key, to base 16, is 12 at most.
const FUNCTION_KEY: u64 = 13;

const VOID_KEY: u64 = 14;

// The return type of a record that returns nothing.
const VOID: u16 = 65535;

// The id of void, which is declared if it has none yet.
fn get_void_type(w: &mut Writer<'_, '_>) -> u64
    requires { Room void_cost w.old }
    ensures { FoundBy void_cost (shared_type void type_void) w.old result w.new }
{
    match w.find_composite(VOID_KEY, 0) {
        Some(id) => id,
        None => {
            let id = w.take_id();
            w.type_void(id);
            w.enter_composite(VOID_KEY, 0, id);
            id
        }
    }
}

// The id of what a record returns: void, or a type's entry.
fn return_type_id(w: &mut Writer<'_, '_>, ty: u16) -> u64
    requires { Room void_cost w.old }
    ensures { FoundBy void_cost (result_of (init_of ty)) w.old result w.new }
{
    if ty == VOID {
        return get_void_type(w);
    }
    type_id(w, LookupType::Handle(ty))
}

// Puts the ids that a function type is shared by behind the parts in use: the return type's, then those of the n parameters that
// the record's body names.
fn stage_signature(w: &mut Writer<'_, '_>, body: &[u8], res: u64, n: u8)
    requires { RoomIn (staging (n + 1)) w.old }
    ensures { Staged (n + 1) (λ (s : State). res ∷ entry_ids s (u16s_at body.now 3 n)) w.old w.new }
{
    w.stage_part(0, res);
    for i in 0..n as usize {
        let ty = fields::u16_at(body, 3 + 2 * i);
        let id = type_id(w, LookupType::Handle(ty));
        w.stage_part(i + 1, id);
    }
}

// The id of the function type of the n ids that stand behind the parts in use, which is declared if it has none yet.
fn get_function_type(w: &mut Writer<'_, '_>, n: usize) -> u64
    requires { (n < 65000) × Room (signature_cost n) w.old }
    ensures { FoundBy (signature_cost n) (shared_type (function (staged n w.old)) (λ i. type_function i (staged n w.old))) w.old result w.new }
{
    match w.find_composite(FUNCTION_KEY, n) {
        Some(id) => id,
        None => {
            let id = w.take_id();
            w.declare_function(id, n);
            w.enter_composite(FUNCTION_KEY, n, id);
            id
        }
    }
}

// Declares the function type of a record's body, and void before it where it is the first to return it. Nothing refers to the
// record, so its id is not kept.
pub fn write_function_type(w: &mut Writer<'_, '_>, body: &[u8])
    requires { Room (function_cost (u8_at body.now 2)) w.old }
    ensures { FunctionWritten (function_cost (u8_at body.now 2)) (function_fields body.now).value w.old w.new }
{
    let res = return_type_id(w, fields::u16_at(body, 0));
    let n = fields::u8_at(body, 2);
    stage_signature(w, body, res, n);
    get_function_type(w, n as usize + 1);
}
