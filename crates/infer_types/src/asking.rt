//! What annotations ask of variables.

ghost use Rattle.std.specs.Prelude.{◌≡◌, ◌<◌, ℕ, Err, OnOk, Some, length, map};
ghost use Rattle.elm_type.specs.View.{kind_view};
ghost use Rattle.type_store.specs.Shape.{IsStore};
ghost use Rattle.type_walks.specs.Links.{Live};
ghost use Rattle.infer_steps.specs.Ready.{IsReady};
ghost use Rattle.infer_steps.specs.View.{here, bad_view, code_of};
ghost use Rattle.infer_steps.specs.declared.bad.Bad.{Bad};
ghost use Rattle.infer_steps.specs.declared.bad.InferError.TheVariants as error;
ghost use Rattle.infer_types.specs.Asking.{AsksKind, RefusesKind, AsksName, RefusesName};
ghost use Rattle.infer_types.specs.Asking.{AsksAround, RefusesAround};

use elm_base::names::Name;
use elm_base::position::Pos;
use elm_type::scheme::Kind;
use infer_steps::ask::lacks_each;
use infer_steps::bad::InferError;
use infer_steps::operator::in_some_class;
use infer_steps::scope::Scope;
use infer_steps::state::State;

/// Adds that the type of the variable `variable` is of the kind `kind`, which is asked at `position`. The errors: it is
/// not; memory or numbers ran out.
pub fn ask_kind(
    state: &mut State,
    position: Pos,
    variable: u32,
    kind: &Kind,
) -> Result<(), InferError>
    requires whole { IsStore (here state.old).store }
    requires inside { variable < length (here state.old).store }
    ensures asks { OnOk result (AsksKind (here state.old) (here state.new) position variable (kind_view kind.now)) }
    ensures refuses { (b : Bad) → result ≡ Err (error.Bad b)
        → RefusesKind (here state.old) (here state.new) position variable (kind_view kind.now) (bad_view b) }
{
    match in_some_class(state, position, variable, kind.class) {
        Ok(()) => lacks_each(state, position, variable, &kind.lacks),
        Err(error) => Err(error),
    }
}

/// Adds that the variable `name` of an annotation around, if it is one, is of the kind `kind`.
fn ask_name(
    state: &mut State,
    scope: &Scope,
    position: Pos,
    name: &Name,
    kind: &Kind,
) -> Result<(), InferError>
    requires whole { IsStore (here state.old).store }
    requires live { (v : ℕ) → (code_of scope.now).constants name.now ≡ Some v
        → Live (here state.old).depth (here state.old).store v }
    ensures asks { OnOk result (AsksName (code_of scope.now) (here state.old) (here state.new) position name.now
        (kind_view kind.now)) }
    ensures refuses { (b : Bad) → result ≡ Err (error.Bad b)
        → RefusesName (code_of scope.now) (here state.old) (here state.new) position name.now (kind_view kind.now)
        (bad_view b) }
{
    match scope.constant(name) {
        None => Ok(()),
        Some(variable) => ask_kind(state, position, variable, kind),
    }
}

/// Adds that the variables `names` of annotations around are of the kinds `kinds`, in turn. Each of the names that is
/// none of them asks nothing. The errors: one is not of its kind; memory or numbers ran out.
pub fn ask_around(
    state: &mut State,
    scope: &Scope,
    position: Pos,
    names: &[Name],
    kinds: &[Kind],
) -> Result<(), InferError>
    requires ready { IsReady (code_of scope.now) (here state.old).depth (here state.old).store }
    requires number { length kinds.now ≡ length names.now }
    ensures asks { OnOk result (AsksAround (code_of scope.now) (here state.old) (here state.new) position names.now
        (map kind_view kinds.now)) }
    ensures refuses { (b : Bad) → result ≡ Err (error.Bad b)
        → RefusesAround (code_of scope.now) (here state.old) (here state.new) position names.now
        (map kind_view kinds.now) (bad_view b) }
{
    for i in 0..names.len() {
        match ask_name(state, scope, position, &names[i], &kinds[i]) {
            Ok(()) => {}
            Err(error) => return Err(error),
        }
    }
    Ok(())
}
