// The fields of a function: the return type, which like an init is 65,535 for none, how many parameters there are, and the type of
// each.
#![tactic(auto, unfolding(definition::specs::Sheet::function_fields))]

ghost use Rattle.std.specs.Prelude.{◌≡◌, ◌++◌, leb, length};
ghost use Rattle.definition.specs.Sheet.{function_fields};
ghost use Rattle.definition.specs.Tests.{parameters_most, init_list, below};

use crate::constants::each_below;
use crate::globals::init_below;

pub fn end_of(body: &[u8]) -> usize
    ensures { result ≡ (function_fields body.now).end }
{
    3 + 2 * fields::u8_at(body, 2) as usize
}

// There are not too many parameters.
#[tactic(auto, using(fields::proofs::Numbers::u16s_length), unfolding(definition::specs::Sheet::function_fields))]
pub fn values_fit(body: &[u8]) -> bool
    ensures { result ≡ leb (length (function_fields body.now).value.parameters) parameters_most }
{
    fields::u8_at(body, 2) <= 16
}

// Only the return type may be void: of a parameter 65,535 is a type like any other, and one that was not read.
pub fn read_already(body: &[u8], types: usize) -> bool
    ensures { result ≡ below types (init_list (function_fields body.now).value.result ++ (function_fields body.now).value.parameters) }
{
    init_below(fields::u16_at(body, 0), types)
        && each_below(body, 3, fields::u8_at(body, 2) as u16, types)
}
