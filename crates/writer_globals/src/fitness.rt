// Test 13 of a global: each test by itself, and the first that fails.
ghost use Rattle.std.specs.Prelude.{◌≡◌, not, ◌||◌, List, [], ◌∷◌, ℕ, ◌<◌, eqb, length};
ghost use Rattle.definition.specs.Choice.{among};
ghost use Rattle.definition.specs.Sheet.{Global, private_space, work_group_space, uniform_space, storage_space, handle_space};
ghost use Rattle.definition.specs.State.{State};
ghost use Rattle.definition.specs.Unfit.{init_fits};
ghost use Rattle.kinds.specs.Numbers.{space_number};
ghost use Rattle.records.specs.Places.{types_in};
ghost use Rattle.zeroable.specs.Memo.{Memo};
ghost use Rattle.entries.specs.Globals.{global_of, bound_number};
ghost use Rattle.writer.specs.Cost.{no_cost};
ghost use Rattle.writer.specs.Held.{HeldByTables, RoomIn};
ghost use Rattle.writer_globals.specs.Fitness.{TestsGlobal};

use entries::globals::{GlobalVariable, ResourceBinding};
use kinds::AddressSpace;
use lookup::LookupType;
use records::Earlier;
use writer::Writer;

// Whether a space may hold bound globals.
fn may_be_bound(space: AddressSpace) -> bool
    ensures { result ≡ among (space_number space) (uniform_space ∷ storage_space ∷ handle_space ∷ []) }
{
    matches!(
        space,
        AddressSpace::Uniform | AddressSpace::Storage { access: _ } | AddressSpace::Handle
    )
}

// A bound global is Uniform, Storage or Handle.
fn bound_space_fits(binding: Option<ResourceBinding>, space: AddressSpace) -> bool
    ensures { result ≡ (not (eqb (bound_number binding) 1) || among (space_number space) (uniform_space ∷ storage_space ∷ handle_space ∷ [])) }
{
    binding.is_none() || may_be_bound(space)
}

// Whether the type must be zeroable: of a Private or WorkGroup global.
fn is_zeroed(space: AddressSpace) -> bool
    ensures { result ≡ among (space_number space) (private_space ∷ work_group_space ∷ []) }
{
    matches!(space, AddressSpace::Private | AddressSpace::WorkGroup)
}

// An init is of a Private global, and of its type's id.
fn init_fits(w: &Writer<'_, '_>, init: Option<u16>, space: AddressSpace, ty: u16) -> bool
    requires { RoomIn no_cost w.now }
    ensures { (s : State) → HeldByTables w.now s → (g : Global) → g.space ≡ space_number space → g.type ≡ ty → result ≡ init_fits s g init }
{
    match init {
        None => true,
        Some(c) => {
            let AddressSpace::Private = space else {
                return false;
            };
            let x = w.value_at(c as usize);
            x.ty == finding::type_id(w, LookupType::Handle(ty))
        }
    }
}

// Whether a global fits, given the types before it.
#[tactic(auto, using(crate::proofs::Spaces::not_function), unfolding(definition::specs::Unfit::global_fits))]
pub fn global_fits(
    w: &Writer<'_, '_>,
    types: Earlier<'_>,
    memo: &mut [u8],
    global: GlobalVariable,
) -> bool
    requires { (global.ty < length types.places.now) × RoomIn no_cost w.now × Memo (types_in types) memo.old }
    ensures { (b : List ℕ) → TestsGlobal (types_in types.entry) (global_of b global) w.now result memo.new }
{
    let space = global.space;
    if let AddressSpace::Function = space {
        return false;
    }
    if type_facts::is_pointer(types, global.ty as usize) {
        return false;
    }
    if !bound_space_fits(global.binding, space) {
        return false;
    }
    if !init_fits(w, global.init, space, global.ty) {
        return false;
    }
    if is_zeroed(space) {
        return zeroable::is_zeroable(types, global.ty as usize, memo);
    }
    true
}
