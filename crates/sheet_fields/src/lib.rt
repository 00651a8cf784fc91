// A record's fields, by its tag: tests 8 to 11 in document 01's order, where the fields end (8), the names (9), the values (10)
// and the references (11), each over the whole record; `sheet` puts tests 5 to 7 before them and 12 behind. There is a test for
// each kind of record, which finds the end of the name once. No field is kept here: `entries` takes them by value once the tests
// are passed. What is no tag, which test 5 refuses, has a global's fields, here as in the definition.
#![tactic(auto)]

mod constants;
mod functions;
mod globals;
mod types;
pub mod values;

ghost use Rattle.std.specs.Prelude.{◌≡◌};
ghost use Rattle.definition.specs.Bytes.{name_end};
ghost use Rattle.definition.specs.Choice.{unless};
ghost use Rattle.definition.specs.Sheet.{map_fields, available, available_fields, remap, remap_fields, type, type_entry, type_fields, function, function_fields, constant, constant_fields, global, global_fields};
ghost use Rattle.definition.specs.Tests.{form_known};
ghost use Rattle.refusals.specs.Numbers.{test_number};
ghost use Rattle.sheet_fields.specs.Fields.{record_of, tests_of, fields_test};

use fields::Named;
use records::Rank;
use refusals::Refusal;

// ---- tests 8 to 11 of each kind: the first that fails

// Capability numbers: any number of them, of any value.
#[tactic(auto, unfolding(definition::specs::Sheet::available_fields))]
fn available_test(body: &[u8]) -> Result<(), Refusal>
    ensures { test_number result ≡ tests_of 0 0 body.now (map_fields available (available_fields body.now)) }
{
    if body.len() / 4 * 4 != body.len() {
        return Err(Refusal::FieldsEnd);
    }
    Ok(())
}

// A size of 0 is no size.
#[tactic(auto, unfolding(definition::specs::Sheet::remap_fields))]
fn remap_test(body: &[u8]) -> Result<(), Refusal>
    ensures { test_number result ≡ tests_of 0 0 body.now (map_fields remap (remap_fields body.now)) }
{
    if 12 != body.len() {
        return Err(Refusal::FieldsEnd);
    }
    if fields::u32_at(body, 8) == 0 {
        return Err(Refusal::Value);
    }
    Ok(())
}

// A type's own name is the first of its names. It names no constant.
#[tactic(auto, using(crate::proofs::Laws::unless_both))]
fn type_test(tag: u8, body: &[u8], types: usize) -> Result<(), Refusal>
    ensures { test_number result ≡ tests_of types 0 body.now (map_fields (λ i. type (type_entry (record_of tag body.now) i)) (type_fields tag body.now (name_end body.now 0))) }
{
    let named = Named::new(body);
    if types::end_of(tag, named) != body.len() {
        return Err(Refusal::FieldsEnd);
    }
    if !fields::name_fits(body, 0) || !types::names_fit(tag, named) {
        return Err(Refusal::Name);
    }
    if !types::values_fit(tag, named) {
        return Err(Refusal::Value);
    }
    if !types::read_already(tag, named, types) {
        return Err(Refusal::Reference);
    }
    Ok(())
}

// A function has no name, and names no constant.
fn function_test(body: &[u8], types: usize) -> Result<(), Refusal>
    ensures { test_number result ≡ tests_of types 0 body.now (map_fields function (function_fields body.now)) }
{
    if functions::end_of(body) != body.len() {
        return Err(Refusal::FieldsEnd);
    }
    if !functions::values_fit(body) {
        return Err(Refusal::Value);
    }
    if !functions::read_already(body, types) {
        return Err(Refusal::Reference);
    }
    Ok(())
}

// The part of test 10 that comes before test 8: a literal's form is known.
fn form_known(tag: u8, body: &[u8]) -> bool
    ensures { result ≡ form_known (record_of tag body.now) }
{
    match tag {
        64 => fields::u8_at(body, 0) <= 4,
        _ => true,
    }
}

// A constant has no name. Where it is a literal, its form comes before all else.
fn constant_test(tag: u8, body: &[u8], types: usize, constants: usize) -> Result<(), Refusal>
    ensures { test_number result ≡ unless (form_known (record_of tag body.now)) 10 (tests_of types constants body.now (map_fields constant (constant_fields tag body.now))) }
{
    if !form_known(tag, body) {
        return Err(Refusal::Value);
    }
    if constants::end_of(tag, body) != body.len() {
        return Err(Refusal::FieldsEnd);
    }
    if !constants::values_fit(tag, body) {
        return Err(Refusal::Value);
    }
    if !constants::read_already(tag, body, types, constants) {
        return Err(Refusal::Reference);
    }
    Ok(())
}

// A global has its own name alone.
#[tactic(auto, unfolding(definition::specs::Sheet::global_fields))]
fn global_test(body: &[u8], types: usize, constants: usize) -> Result<(), Refusal>
    ensures { test_number result ≡ tests_of types constants body.now (map_fields global (global_fields body.now (name_end body.now 0))) }
{
    let named = Named::new(body);
    if named.end + 15 != body.len() {
        return Err(Refusal::FieldsEnd);
    }
    if !fields::name_fits(body, 0) {
        return Err(Refusal::Name);
    }
    if !globals::values_fit(named) {
        return Err(Refusal::Value);
    }
    if !globals::read_already(named, types, constants) {
        return Err(Refusal::Reference);
    }
    Ok(())
}

// ---- and of every kind

// Tests 8 to 11 of a record, where so many types and constants were read, and of a literal before them whether its form is known: the
// first that fails.
#[tactic(auto, using(crate::proofs::Laws::no_form), unfolding(crate::specs::Fields::fields_test, definition::specs::Sheet::entry_of))]
pub fn fields_test(tag: u8, body: &[u8], types: usize, constants: usize) -> Result<(), Refusal>
    ensures { test_number result ≡ fields_test types constants (record_of tag body.now) }
{
    match records::rank_of(tag) {
        Some(Rank::Available) => available_test(body),
        Some(Rank::Remaps) => remap_test(body),
        Some(Rank::Types) => type_test(tag, body, types),
        Some(Rank::Functions) => function_test(body, types),
        Some(Rank::Constants) => constant_test(tag, body, types, constants),
        Some(Rank::Globals) | None => global_test(body, types, constants),
    }
}
