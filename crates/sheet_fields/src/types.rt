// The fields of a type behind its name, which ends at n: an arm for each tag, in the order of document 01's list. What is no
// type's tag, which test 5 refuses, has the fields of the last, here as in the definition.
#![tactic(auto, unfolding(definition::specs::Sheet::type_fields))]

ghost use Rattle.std.specs.Prelude.{◌≡◌};
ghost use Rattle.definition.specs.Choice.{every};
ghost use Rattle.definition.specs.Utf8.{name_fits};
ghost use Rattle.definition.specs.Tests.{inner_names, inner_fits, inner_types, member_names, member_types, below};
ghost use Rattle.sheet_fields.specs.Fields.{type_behind};
ghost use Rattle.members.specs.Walk.{members_left};

use crate::constants::one_below;
use crate::values::{
    class_fits, float_width, pointed_size_fits, scalar_fits, size_fits, space_fits,
};
use fields::Named;
use members::Members;

pub fn end_of(tag: u8, named: Named<'_>) -> usize
    ensures { result ≡ (type_behind tag named.entry).end }
{
    let n = named.end;
    match tag {
        16 => n + 2,
        17 => n + 3,
        18 => n + 3,
        19 => n + 2,
        20 => n + 4,
        21 => n + 5,
        22 => n + 10,
        23 => Members::behind(named.body, n).end(),
        24 => n + 5,
        25 => n + 1,
        26 => n,
        27 => n,
        28 => n + 6,
        _ => n + 6,
    }
}

// Only a struct has names besides its own.
pub fn names_fit(tag: u8, named: Named<'_>) -> bool
    ensures { result ≡ every name_fits (inner_names (type_behind tag named.entry).value) }
{
    match tag {
        16 => true,
        17 => true,
        18 => true,
        19 => true,
        20 => true,
        21 => true,
        22 => true,
        23 => member_names_fit(Members::behind(named.body, named.end)),
        24 => true,
        25 => true,
        26 => true,
        27 => true,
        28 => true,
        _ => true,
    }
}

#[tactic(auto, using(definition::proofs::Passing::members_count), unfolding(definition::specs::Sheet::type_fields))]
pub fn values_fit(tag: u8, named: Named<'_>) -> bool
    ensures { result ≡ inner_fits (type_behind tag named.entry).value }
{
    match tag {
        16 => scalar_fits(named.u8_at(0), named.u8_at(1)),
        17 => vector_fits(named),
        18 => matrix_fits(named),
        19 => scalar_fits(named.u8_at(0), named.u8_at(1)),
        20 => space_fits(named.u8_at(2), named.u8_at(3)),
        21 => value_pointer_fits(named),
        22 => true,
        23 => named.u8_at(4) <= 64,
        24 => image_fits(named),
        25 => named.u8_at(0) <= 1,
        26 => true,
        27 => true,
        28 => true,
        _ => true,
    }
}

// The tags that name one type name it first.
pub fn read_already(tag: u8, named: Named<'_>, types: usize) -> bool
    ensures { result ≡ below types (inner_types (type_behind tag named.entry).value) }
{
    match tag {
        16 => true,
        17 => true,
        18 => true,
        19 => true,
        20 => one_below(named.body, named.end, types),
        21 => true,
        22 => one_below(named.body, named.end, types),
        23 => members_read_already(Members::behind(named.body, named.end), types),
        24 => true,
        25 => true,
        26 => true,
        27 => true,
        28 => one_below(named.body, named.end, types),
        _ => one_below(named.body, named.end, types),
    }
}

// ---- the tags with several values

fn vector_fits(named: Named<'_>) -> bool
    ensures { result ≡ inner_fits (type_behind 17 named.entry).value }
{
    size_fits(named.u8_at(0)) && scalar_fits(named.u8_at(1), named.u8_at(2))
}

fn matrix_fits(named: Named<'_>) -> bool
    ensures { result ≡ inner_fits (type_behind 18 named.entry).value }
{
    size_fits(named.u8_at(0)) && size_fits(named.u8_at(1)) && float_width(named.u8_at(2))
}

fn value_pointer_fits(named: Named<'_>) -> bool
    ensures { result ≡ inner_fits (type_behind 21 named.entry).value }
{
    pointed_size_fits(named.u8_at(0))
        && scalar_fits(named.u8_at(1), named.u8_at(2))
        && space_fits(named.u8_at(3), named.u8_at(4))
}

fn image_fits(named: Named<'_>) -> bool
    ensures { result ≡ inner_fits (type_behind 24 named.entry).value }
{
    named.u8_at(0) <= 3
        && named.u8_at(1) <= 1
        && class_fits(named.u8_at(2), named.u8_at(3), named.u8_at(4))
}

// Whether each member's name is fit.
fn member_names_fit(mut members: Members<'_>) -> bool
    ensures { result ≡ every name_fits (member_names (members_left members.entry)) }
{
    members.all(|m| fields::name_fits(m.body, m.name))
}

// Whether each member's type is among the first `types`.
fn members_read_already(mut members: Members<'_>, types: usize) -> bool
    ensures { result ≡ below types (member_types (members_left members.entry)) }
{
    members.all(|m| (m.ty as usize) < types)
}
