//! Fields of records that are read one after the other: `a.x.y`.

ghost use Rattle.std.specs.Prelude.{◌≡◌, ◌∷◌, [], ◌++◌, ℕ, Err, IfOk, OnOk, map};
ghost use Rattle.std.specs.List.{AllByRecursion};
ghost use Rattle.elm_canon.specs.Tree as tree;
ghost use Rattle.elm_canon.specs.View.{accessed};
ghost use Rattle.type_items.specs.Items.{Wanted, child};
ghost use Rattle.type_store.specs.Shape.{IsStore};
ghost use Rattle.type_walks.specs.Links.{Live};
ghost use Rattle.type_walks.specs.Regions.{below};
ghost use Rattle.infer_steps.specs.Codes.{Code};
ghost use Rattle.infer_steps.specs.Codes as plain;
ghost use Rattle.infer_steps.specs.Ready.{Follows};
ghost use Rattle.infer_steps.specs.View.{here, bad_view};
ghost use Rattle.infer_steps.specs.declared.bad.Bad.{Bad};
ghost use Rattle.infer_steps.specs.declared.bad.InferError.TheVariants as error;
ghost use Rattle.infer_parts.specs.Steps.{CanWalk, one, Stuck};
ghost use Rattle.infer_parts.specs.Parts.{listed};
ghost use Rattle.infer_parts.specs.Chains.{IsRead};
ghost use Rattle.infer_parts.specs.Reading.{field_view, FieldLive, read_of, ReadCloses, ReadStops, BeginsReads};
ghost use Rattle.infer_parts.specs.Reading.{ReadsClose, ReadsStop};

use crate::parts::enter_both;
use elm_base::names::Name;
use elm_base::position::Pos;
use infer_steps::ask::same;
use infer_steps::bad::InferError;
use infer_steps::fields::{Access, begin_access};
use infer_steps::state::State;
use std::alloc::{AllocError, Global};

/// A field that is read: its variable, and the one that it is wanted at.
#[derive(Clone, Copy)]
pub struct Field {
    pub variable: u32,
    pub wanted: u32,
}

/// Fields that are read, and the variable that the record is wanted at.
#[derive(Drop)]
pub struct Begun {
    pub owner: u32,
    pub fields: Vec<Field>,
}

/// Begins the reading of the field `name`, which stands at `position` and is wanted at the type of the variable
/// `wanted`: goes to the place of the record. The errors: the rest of the record has the field; memory or numbers ran
/// out.
fn begin_read(
    alloc: Global,
    state: &mut State,
    name: &Name,
    position: Pos,
    wanted: u32,
) -> Result<Access, InferError>
    requires whole { IsStore (here state.old).store }
    requires wanted { Live (here state.old).depth (here state.old).store wanted }
    ensures whole { OnOk result (IsStore (here state.new).store) }
    ensures owner { IfOk result (λ x. Live (here state.new).depth (here state.new).store x.owner) }
    ensures begins { IfOk result (λ x. (code : Code) → CanWalk code (here state.old)
        → IsRead code position name.now (x.field, wanted) (here state.old) wanted (here state.new) x.owner) }
    ensures stops { (b : Bad) → result ≡ Err (error.Bad b) → (code : Code) (e : tree.Expr)
        → Stuck Wanted code (one wanted) below (listed (read_of e name.now) position) (here state.old)
        (here state.new) (bad_view b) }
{
    let access = match begin_access(alloc, state, name, position) {
        Ok(access) => access,
        Err(error) => return Err(error),
    };
    enter_both(state, 0, 0)?;
    Ok(access)
}

/// The fields and one more. The error means that memory ran out.
fn and_field(fields: Vec<Field>, field: Field) -> Result<Vec<Field>, AllocError>
    ensures { IfOk result (λ all. all.items ≡ fields.items ++ field ∷ []) }
{
    let mut all = fields;
    all.push(field)?;
    Ok(all)
}

/// Begins `a.x.y`, which stands at `position` and is wanted at the type of the variable `wanted`, where `names` are the
/// fields: goes to the place of the record. The errors: the rest of a record has a field; memory or numbers ran out.
pub fn begin_reads(
    alloc: Global,
    state: &mut State,
    names: &[Name],
    position: Pos,
    wanted: u32,
) -> Result<Begun, InferError>
    requires whole { IsStore (here state.old).store }
    requires wanted { Live (here state.old).depth (here state.old).store wanted }
    ensures whole { OnOk result (IsStore (here state.new).store) }
    ensures owner { IfOk result (λ b. Live (here state.new).depth (here state.new).store b.owner) }
    ensures begins { IfOk result (λ b. (code : Code) → CanWalk code (here state.old)
        → BeginsReads code position names.now (map field_view b.fields.items) (here state.old) wanted
        (here state.new) b.owner) }
    ensures stops { (b : Bad) → result ≡ Err (error.Bad b) → (code : Code) → CanWalk code (here state.old)
        → (e : tree.Expr) → Stuck Wanted code (one wanted) below (listed (accessed e names.now) position)
        (here state.old) (here state.new) (bad_view b) }
{
    let count = names.len();
    let mut fields = Vec::new(alloc);
    let mut owner = wanted;
    for i in 0..count {
        let access = match begin_read(alloc, state, &names[count - 1 - i], position, owner) {
            Ok(access) => access,
            Err(error) => return Err(error),
        };
        let field = Field {
            variable: access.field,
            wanted: owner,
        };
        fields = and_field(fields, field)?;
        owner = access.owner;
    }
    Ok(Begun { owner, fields })
}

/// Goes back from the place of a record to that of the field.
fn leave_owner(state: &mut State)
    ensures store { (here state.new).store ≡ (here state.old).store }
    ensures depth { (here state.new).depth ≡ (here state.old).depth }
    ensures back { (s : plain.State) (i j : ℕ) → here state.old ≡ record s { place = child (child s.place i) j }
        → here state.new ≡ s }
{
    state.place.pop();
    state.place.pop();
}

/// Ends the reading of one field after the record was walked, and goes back from the record's place: the field has the
/// type that is wanted of it. The errors: it has not; memory or numbers ran out.
fn end_read(state: &mut State, position: Pos, field: Field) -> Result<(), InferError>
    requires whole { IsStore (here state.old).store }
    requires live { FieldLive (here state.old).depth (here state.old).store (field_view field) }
    ensures later { OnOk result (Follows (record (here state.old) { place = (here state.new).place })
        (here state.new)) }
    ensures closes { OnOk result (ReadCloses position (field_view field) (here state.old) (here state.new)) }
    ensures stops { (b : Bad) → result ≡ Err (error.Bad b)
        → ReadStops position (field_view field) (here state.old) (here state.new) (bad_view b) }
{
    leave_owner(state);
    same(state, position, field.variable, field.wanted)
}

/// Ends them after the record was walked: each field has the type that is wanted of it. The errors: it has not; memory
/// or numbers ran out.
pub fn end_reads(
    state: &mut State,
    names: &[Name],
    position: Pos,
    fields: Vec<Field>,
) -> Result<(), InferError>
    requires whole { IsStore (here state.old).store }
    requires live { AllByRecursion (FieldLive (here state.old).depth (here state.old).store)
        (map field_view fields.items) }
    ensures closes { OnOk result (ReadsClose position names.now (map field_view fields.items) (here state.old)
        (here state.new)) }
    ensures stops { (b : Bad) → result ≡ Err (error.Bad b)
        → ReadsStop position names.now (map field_view fields.items) (here state.old) (here state.new) (bad_view b) }
{
    let mut rest = fields;
    while let Some(field) = rest.pop() {
        match end_read(state, position, field) {
            Ok(()) => {}
            Err(error) => return Err(error),
        }
    }
    Ok(())
}
