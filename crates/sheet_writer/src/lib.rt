// The records of a sheet, each tested in the state that those before it left and then declared: what all three operations
// share. It decides refusals in document 01's order: 13 at one record comes before 5 at the next. 15 is left to the operations.
#![tactic(auto)]

ghost use Rattle.std.specs.Prelude.{◌≡◌, List, ℕ, ◌+◌, ◌<◌, length};
ghost use Rattle.std.specs.Prelude.{Option};
ghost use Rattle.definition.specs.Sheet.{type_fields, constant_fields};
ghost use Rattle.definition.specs.Shapes.{shape_of};
ghost use Rattle.definition.specs.Rules.{declare_type};
ghost use Rattle.definition.specs.Unfit.{shape_available, constant_fits, global_fits};
ghost use Rattle.records.specs.Flags.{options_from};
ghost use Rattle.records.specs.Places.{type_of_record, types_in, remaps_in, Ample};
ghost use Rattle.sheet_fields.specs.Fields.{record_of};
ghost use Rattle.sheet.specs.Holding.{places_in, SameHeld};
ghost use Rattle.zeroable.specs.Memo.{Memo};
ghost use Rattle.entries.specs.Types.{inner_of};
ghost use Rattle.availability.specs.Flags.{Flagged};
ghost use Rattle.writer.specs.Cost.{record_cost};
ghost use Rattle.writer.specs.Held.{SameLent, Room};
ghost use Rattle.writer.specs.Steps.{Kept};
ghost use Rattle.writer_types.specs.Tested.{TypeTested};
ghost use Rattle.writer_constants.specs.Tested.{ConstantTested};
ghost use Rattle.writer_constants.specs.Entered.{ConstantWritten};
ghost use Rattle.writer_globals.specs.Records.{global_in, GlobalTested};
ghost use Rattle.writer_globals.specs.Globals.{GlobalKept};
ghost use Rattle.sheet_writer.specs.Turning.{Ready, ComesTo, TestsType, TestsUnfit, RecordWritten};
ghost use Rattle.sheet_writer.specs.Whole.{Capacity, SheetWritten};

use availability::Available;
use entries::types::TypeInner;
use records::{Earlier, Options, Rank};
use refusals::Refusal;
use sheet::holding::Holding;
use sheet::{hash, holding};
use writer::Writer;
use writer_constants::expressions::write_constant_expr;
use writer_constants::fitness::expression_fits;
use writer_functions::write_function_type;
use writer_globals::fitness::global_fits;
use writer_types::write_type_declaration_arena;

// Test 14 of a type of a tag, taken as `ty`. Where no type of the tag can fail it, nothing is asked.
fn type_fits(available: Available, tag: u8, ty: TypeInner) -> bool
    ensures { (o : Option (List ℕ)) → Flagged o available → (b : List ℕ) (n : ℕ) → inner_of b n ty ≡ (type_fields tag b n).value → result ≡ shape_available o (shape_of (type_fields tag b n).value) }
{
    if !availability::is_checked(tag) {
        return true;
    }
    availability::type_available(available, ty)
}

// A record of a type, of a tag and a body that passed the tests before: test 14, then its declaration.
fn write_type(
    w: &mut Writer<'_, '_>,
    types: Earlier<'_>,
    available: Available,
    tag: u8,
    body: &[u8],
    debug: bool,
) -> Result<(), Refusal>
    requires { (length types.places.now < 65536) × (TypeTested (record_of tag body.now) × Room (record_cost 1 (length body.now + 3)) w.old) }
    ensures { ComesTo (TestsType available (record_of tag body.now)) (Kept (record_cost 1 (length body.now + 3)) (declare_type debug (types_in types.entry) (type_of_record (record_of tag body.now))) w.old w.new) w.old w.new result }
{
    let ty = entries::types::inner_of(tag, body);
    if !type_fits(available, tag, ty) {
        return Err(Refusal::Unavailable);
    }
    write_type_declaration_arena(w, types, body, ty, debug);
    Ok(())
}

// The same of a constant: test 13, then its declaration.
fn write_constant(
    w: &mut Writer<'_, '_>,
    types: Earlier<'_>,
    memo: &mut [u8],
    tag: u8,
    body: &[u8],
) -> Result<(), Refusal>
    requires { ConstantTested (length types.places.now) (record_of tag body.now) × (Room (record_cost 0 (length body.now + 3)) w.old × Memo (types_in types) memo.old) }
    ensures { ComesTo (TestsUnfit (λ x. constant_fits (types_in types.entry) x (constant_fields tag body.now).value) w.old) (ConstantWritten (record_cost 0 (length body.now + 3)) (types_in types.entry) (constant_fields tag body.now).value w.old w.new) w.old w.new result × Memo (types_in types.entry) memo.new }
{
    let expr = entries::constants::expression_of(tag, body);
    if !expression_fits(w, types, memo, body, expr) {
        return Err(Refusal::Unfit);
    }
    write_constant_expr(w, types, body, expr);
    Ok(())
}

// The same of a global, which has one tag.
fn write_global(
    w: &mut Writer<'_, '_>,
    types: Earlier<'_>,
    remaps: Earlier<'_>,
    memo: &mut [u8],
    body: &[u8],
    options: Options,
) -> Result<(), Refusal>
    requires { GlobalTested (length types.places.now) body.now × (Room (record_cost 2 (length body.now + 3)) w.old × Memo (types_in types) memo.old) }
    ensures { ComesTo (TestsUnfit (λ x. global_fits (types_in types.entry) x (global_in body.now)) w.old) (GlobalKept (record_cost 2 (length body.now + 3)) (options_from options) (types_in types.entry) (remaps_in remaps.entry) (global_in body.now) w.old w.new) w.old w.new result × Memo (types_in types.entry) memo.new }
{
    let global = entries::globals::global_of(body);
    if !global_fits(w, types, memo, global) {
        return Err(Refusal::Unfit);
    }
    writer_globals::write_global(w, types, remaps, body, global, options);
    Ok(())
}

// The turn of the record at the front of what is left: tests 5 to 12, then those of its kind and its declaration. A type's hash is
// given. Each kind takes its entry from the record once, for its test and for its declaration; a function record has no test more.
fn write_record(
    w: &mut Writer<'_, '_>,
    memo: &mut [u8],
    held: &Holding<'_>,
    available: Available,
    rest: &[u8],
    hash: u32,
    options: Options,
) -> Result<(), Refusal>
    requires { Ready held.now rest.now hash memo.old w.old }
    ensures { RecordWritten held.now available rest.now (options_from options) w.old result w.new memo.new }
{
    held.record_test(rest, hash)?;
    let tag = records::tag_of(rest);
    let body = records::body_of(rest);
    match records::rank_of(tag) {
        Some(Rank::Types) => write_type(w, held.types(), available, tag, body, options.debug),
        Some(Rank::Functions) => {
            write_function_type(w, body);
            Ok(())
        }
        Some(Rank::Constants) => write_constant(w, held.types(), memo, tag, body),
        Some(Rank::Globals) => write_global(w, held.types(), held.remaps(), memo, body, options),
        Some(Rank::Available) => Ok(()),
        Some(Rank::Remaps) => Ok(()),
        None => Ok(()),
    }
}

// A sheet whole, but for its bound: tests 1 to 3, then its records in their order. Where they stand is held in the end; the writer has
// room for a sheet of so many records and bytes.
// No `for`: where the next record begins is known only once the one at hand is known to be whole (test 4), so that an iterator of
// records would make that test as well.
pub fn write_sheet(
    w: &mut Writer<'_, '_>,
    memo: &mut [u8],
    held: &mut Holding<'_>,
) -> Result<(), Refusal>
    requires { Capacity held.old.sheet.now w.old memo.old × Ample (places_in held.old) }
    ensures written { SheetWritten held.old.sheet.now held.new w.old result w.new }
    ensures lent { SameLent w.old w.new }
    ensures same { SameHeld held.old held.new }
{
    let sheet = held.sheet;
    records::header_test(sheet)?;
    let options = records::options_of(sheet);
    w.reset(fields::u32_at(sheet, 1) as u64);
    held.counts = holding::nothing();
    let mut at = records::HEADER;
    let mut available = availability::everything();
    while at < sheet.len() {
        let rest = records::rest_at(sheet, at);
        if records::no_record(rest) {
            return Err(Refusal::NoRecord);
        }
        let hash = hash::hash_at(rest);
        write_record(w, memo, held, available, rest, hash, options)?;
        available = availability::behind(available, rest);
        held.hold(at, hash);
        at = records::next_place(rest, at);
    }
    Ok(())
}
