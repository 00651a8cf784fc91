// Types: the fields behind the name.
#![tactic(auto, using(kinds::proofs::Fit::kind), unfolding(definition::specs::Sheet::type_fields))]

ghost use Rattle.definition.specs.Bytes.{name_end};
ghost use Rattle.entries.specs.Types.{TypeTaken};

use fields::Named;
use kinds::{
    AddressSpace, ImageClass, ImageDimension, ScalarKind, class_of, dimension_of, kind_of, space_of,
};

// Widths in bytes; a base is an index within the types; a size of 0 is dynamic or, of a value pointer, none.
#[derive(Clone, Copy)]
pub enum TypeInner {
    Scalar {
        kind: ScalarKind,
        width: u8,
    },
    Vector {
        size: u8,
        kind: ScalarKind,
        width: u8,
    },
    Matrix {
        columns: u8,
        rows: u8,
        width: u8,
    },
    Atomic {
        kind: ScalarKind,
        width: u8,
    },
    Pointer {
        base: u16,
        space: AddressSpace,
    },
    ValuePointer {
        size: u8,
        kind: ScalarKind,
        width: u8,
        space: AddressSpace,
    },
    Array {
        base: u16,
        size: u32,
        stride: u32,
    },
    Struct {
        span: u32,
        count: u8,
    },
    Image {
        dim: ImageDimension,
        arrayed: bool,
        class: ImageClass,
    },
    Sampler {
        comparison: bool,
    },
    AccelerationStructure,
    RayQuery,
    BindingArray {
        base: u16,
        size: u32,
    },
}

// The fields of a type of tag t and body b; of what is no type's tag those of the last, as in the definition.
pub fn inner_of(tag: u8, body: &[u8]) -> TypeInner
    ensures { TypeTaken tag body.now (name_end body.now 0) result }
{
    let named = Named::new(body);
    match tag {
        16 => scalar(named),
        17 => vector(named),
        18 => matrix(named),
        19 => atomic(named),
        20 => pointer(named),
        21 => value_pointer(named),
        22 => array(named),
        23 => structure(named),
        24 => image(named),
        25 => sampler(named),
        26 => TypeInner::AccelerationStructure,
        27 => TypeInner::RayQuery,
        28 => binding_array(named),
        _ => binding_array(named),
    }
}

fn scalar(named: Named<'_>) -> TypeInner
    ensures { TypeTaken 16 named.entry.body.now named.entry.end result }
{
    TypeInner::Scalar {
        kind: kind_of(named.u8_at(0)),
        width: named.u8_at(1),
    }
}

fn vector(named: Named<'_>) -> TypeInner
    ensures { TypeTaken 17 named.entry.body.now named.entry.end result }
{
    TypeInner::Vector {
        size: named.u8_at(0),
        kind: kind_of(named.u8_at(1)),
        width: named.u8_at(2),
    }
}

fn matrix(named: Named<'_>) -> TypeInner
    ensures { TypeTaken 18 named.entry.body.now named.entry.end result }
{
    TypeInner::Matrix {
        columns: named.u8_at(0),
        rows: named.u8_at(1),
        width: named.u8_at(2),
    }
}

fn atomic(named: Named<'_>) -> TypeInner
    ensures { TypeTaken 19 named.entry.body.now named.entry.end result }
{
    TypeInner::Atomic {
        kind: kind_of(named.u8_at(0)),
        width: named.u8_at(1),
    }
}

fn pointer(named: Named<'_>) -> TypeInner
    ensures { TypeTaken 20 named.entry.body.now named.entry.end result }
{
    TypeInner::Pointer {
        base: named.u16_at(0),
        space: space_of(named.u8_at(2), named.u8_at(3)),
    }
}

fn value_pointer(named: Named<'_>) -> TypeInner
    ensures { TypeTaken 21 named.entry.body.now named.entry.end result }
{
    TypeInner::ValuePointer {
        size: named.u8_at(0),
        kind: kind_of(named.u8_at(1)),
        width: named.u8_at(2),
        space: space_of(named.u8_at(3), named.u8_at(4)),
    }
}

fn array(named: Named<'_>) -> TypeInner
    ensures { TypeTaken 22 named.entry.body.now named.entry.end result }
{
    TypeInner::Array {
        base: named.u16_at(0),
        size: named.u32_at(2),
        stride: named.u32_at(6),
    }
}

fn structure(named: Named<'_>) -> TypeInner
    ensures { TypeTaken 23 named.entry.body.now named.entry.end result }
{
    TypeInner::Struct {
        span: named.u32_at(0),
        count: named.u8_at(4),
    }
}

fn image(named: Named<'_>) -> TypeInner
    ensures { TypeTaken 24 named.entry.body.now named.entry.end result }
{
    let class = class_of(named.u8_at(2), named.u8_at(3), named.u8_at(4));
    TypeInner::Image {
        dim: dimension_of(named.u8_at(0)),
        arrayed: named.u8_at(1) == 1,
        class,
    }
}

fn sampler(named: Named<'_>) -> TypeInner
    ensures { TypeTaken 25 named.entry.body.now named.entry.end result }
{
    TypeInner::Sampler {
        comparison: named.u8_at(0) == 1,
    }
}

fn binding_array(named: Named<'_>) -> TypeInner
    ensures { TypeTaken 28 named.entry.body.now named.entry.end result }
{
    TypeInner::BindingArray {
        base: named.u16_at(0),
        size: named.u32_at(2),
    }
}
