// The fields of a global behind its name.
#![tactic(auto, unfolding(definition::specs::Sheet::global_fields, definition::specs::Tests::binding_fits))]

ghost use Rattle.std.specs.Prelude.{◌≡◌, ◌&&◌, [], ◌∷◌};
ghost use Rattle.definition.specs.Sheet.{init_of};
ghost use Rattle.definition.specs.Tests.{space_fits, binding_fits, init_list, below};
ghost use Rattle.sheet_fields.specs.Fields.{global_behind};

use crate::constants::one_below;
use crate::values::space_fits;
use fields::Named;

// Bound 0 or 1; unbound, group and binding are 0.
fn binding_fits(named: Named<'_>) -> bool
    ensures { result ≡ binding_fits (global_behind named.entry).value }
{
    match named.u8_at(4) {
        0 => named.u32_at(5) == 0 && named.u32_at(9) == 0,
        1 => true,
        _ => false,
    }
}

pub fn values_fit(named: Named<'_>) -> bool
    ensures { result ≡ (space_fits (global_behind named.entry).value.space (global_behind named.entry).value.access && binding_fits (global_behind named.entry).value) }
{
    space_fits(named.u8_at(2), named.u8_at(3)) && binding_fits(named)
}

// Whether an init is below `most`; 65,535 is none. A return type is read so too, where none is void.
pub fn init_below(init: u16, most: usize) -> bool
    ensures { result ≡ below most (init_list (init_of init)) }
{
    init == 65535 || (init as usize) < most
}

pub fn read_already(named: Named<'_>, types: usize, constants: usize) -> bool
    ensures { result ≡ (below types ((global_behind named.entry).value.type ∷ []) && below constants (init_list (global_behind named.entry).value.init)) }
{
    one_below(named.body, named.end, types) && init_below(named.u16_at(13), constants)
}
