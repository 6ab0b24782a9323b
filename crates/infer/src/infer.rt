//! Inference of the types of a module.

ghost use Rattle.std.specs.Prelude.{◌≡◌, [], List, Err, None, length, IfOk};
ghost use Rattle.std.specs.Map.{lookup};
ghost use Rattle.elm_canon.specs.Names.{same_ref};
ghost use Rattle.elm_canon.specs.View.{module_view};
ghost use Rattle.elm_canon.specs.declared.reference.Ref.{Ref as PlainRef};
ghost use Rattle.elm_type.specs.Types.{Name as PlainName};
ghost use Rattle.type_items.specs.Faults.{FirstBad};
ghost use Rattle.type_items.specs.Inferred.{Inferred, Refused};
ghost use Rattle.type_items.specs.Items.{Item};
ghost use Rattle.type_items.specs.Modules.{known_in, module_items};
ghost use Rattle.type_items.specs.Scopes.{Known as PlainKnown};
ghost use Rattle.type_store.specs.Shape.{IsStore};
ghost use Rattle.type_constructs.specs.Failing.{FailsAt};
ghost use Rattle.type_constructs.specs.TypeModulesGroups as modules;
ghost use Rattle.infer_steps.specs.Ready.{AreWritten};
ghost use Rattle.infer_steps.specs.View.{bad_view, code_of, here, known_view};
ghost use Rattle.infer_steps.specs.declared.bad.Bad.{Bad as PlainBad};
ghost use Rattle.infer_steps.specs.declared.bad.InferError.TheVariants as error;
ghost use Rattle.infer_parts.specs.Steps.{CanWalk};
ghost use Rattle.infer.specs.declared.explain.Said.{Said as PlainSaid};
ghost use Rattle.infer.specs.Middle.{Middle, Starts, StopsSomewhere};
ghost use Rattle.infer.specs.Modules.{CanInfer, SchemesWritten, root, written_groups};
ghost use Rattle.infer.specs.Told.{told_views};
ghost use Rattle.infer.specs.Types.{schemes_of};
ghost use Rattle.infer.specs.declared.infer.Stop.TheVariants as stop;

use crate::declared::module_groups;
use crate::explain::{Said, explain};
use crate::groups::infer_definitions;
use crate::infer_known_laws::known_law;
use crate::infer_known_types::add_own_types;
use crate::laws::stop_law;
use crate::told::Told;
use crate::types::Types;
use elm_canon::tree::Module;
use infer_order::order::order_of;
use infer_steps::bad::{Bad, InferError};
use infer_steps::known::Known;
use infer_steps::scope::Scope;
use infer_steps::state::State;
use std::alloc::{AllocError, Global};
use type_constructs::type_answers_laws::refusal_law;
use type_constructs::type_modules_laws::module_law;

/// Why a module has no types.
#[derive(Drop)]
pub enum Stop {
    /// It is not typable: the first fault, where it stands, and its text in UTF-16 units.
    Refused(Said),
    /// Memory ran out, or the numbers below 2^32 did.
    NoMemory(AllocError),
}

impl From<AllocError> for Stop {
    ghost from_gives = { λ error s. s ≡ stop.NoMemory error };

    fn from(error: AllocError) -> Stop {
        Stop::NoMemory(error)
    }
}

/// The types by their names. Of several types of one name the first is the one that is found. The error is that memory
/// ran out.
fn table(alloc: Global, told: Vec<Told>) -> Result<Types, Stop>
    ensures types { IfOk result (λ types. (x : PlainRef)
        → schemes_of types x ≡ lookup (same_ref x) (told_views told.items)) }
    ensures never { (f : PlainSaid) → result ≡ Err (stop.Refused f) → ⊥ }
{
    let mut rest = told;
    let mut types = Types::new(alloc);
    while let Some(last) = rest.pop() {
        let Told { name, scheme } = last;
        types.insert(name, scheme)?;
    }
    Ok(types)
}

/// What is said of the bad item `bad`, at which the items of a module stop.
fn refusal(alloc: Global, state: &mut State, bad: &Bad) -> Result<Said, AllocError>
    requires { StopsSomewhere (bad_view bad.now) (here state.old).store }
    ensures { IfOk result (λ said. (items : List Item) → FailsAt root items (bad_view bad.now) (here state.old).store
        → FirstBad root items said.code said.position said.text.items) }
{
    stop_law();
    refusal_law();
    state.store.open(0)?;
    explain(alloc, &mut state.store, bad)
}

/// Why a module has no types, where its items stop because of `why`.
fn stop_of(alloc: Global, state: &mut State, why: InferError) -> Stop
    requires { (b : PlainBad) → why ≡ error.Bad b → StopsSomewhere (bad_view b) (here state.old).store }
    ensures { (f : PlainSaid) → result ≡ stop.Refused f → (items : List Item)
        → ((b : PlainBad) → why ≡ error.Bad b → FailsAt root items (bad_view b) (here state.old).store)
        → FirstBad root items f.code f.position f.text.items }
{
    match why {
        InferError::Bad(bad) => match refusal(alloc, state, &bad) {
            Ok(said) => Stop::Refused(said),
            Err(error) => Stop::NoMemory(error),
        },
        InferError::NoMemory(error) => Stop::NoMemory(error),
    }
}

/// The types of the names that the definitions of a module define, in turn. The errors: their items stop at a bad one;
/// memory or numbers ran out.
fn tell_module(
    alloc: Global,
    state: &mut State,
    scope: &mut Scope,
    module: &Module,
) -> Result<Vec<Told>, InferError>
    requires can { CanWalk (code_of scope.old) (here state.old) }
    requires module { CanInfer (module_view module.now) }
    ensures whole { IfOk result (λ told. IsStore (here state.new).store) }
    ensures told { IfOk result (λ told. (env : PlainKnown)
        → Starts (module_view module.now) env (written_groups (module_view module.now)) (code_of scope.old)
        (here state.old) → Middle (module_view module.now) env (length (modules.groups_of (module_view module.now)))
        (code_of scope.new) (here state.new) (told_views told.items)) }
    ensures stopped { (b : PlainBad) → result ≡ Err (error.Bad b) → (env : PlainKnown)
        → Starts (module_view module.now) env (written_groups (module_view module.now)) (code_of scope.old)
        (here state.old) → FailsAt root (module_items (module_view module.now) env root) (bad_view b) (here state.new).store }
{
    let groups = module_groups(alloc, &module.declarations)?;
    let order = order_of(alloc, &groups)?;
    infer_definitions(alloc, state, scope, &groups, &order)
}

/// The types of the names that a module defines, where no name is in scope and nothing is in the store.
fn infer_module(
    alloc: Global,
    state: &mut State,
    scope: &mut Scope,
    module: &Module,
) -> Result<Types, Stop>
    requires module { CanInfer (module_view module.now) }
    requires state { here state.old ≡ record { store = []; depth = 0; place = [] } }
    requires names { code_of scope.old
        ≡ record { known = (code_of scope.old).known; names = λ x. None; constants = λ a. None } }
    requires written { AreWritten (code_of scope.old).known }
    requires known { (env : PlainKnown) × ((m x : PlainName)
        → (code_of scope.old).known m x ≡ known_in (module_view module.now) env m x) }
    ensures inferred { IfOk result (λ types. (env : PlainKnown)
        → ((m x : PlainName) → (code_of scope.old).known m x ≡ known_in (module_view module.now) env m x)
        → Inferred (module_view module.now) env root (schemes_of types)) }
    ensures written { IfOk result (λ types. SchemesWritten (schemes_of types)) }
    ensures refused { (f : PlainSaid) → result ≡ Err (stop.Refused f) → (env : PlainKnown)
        → ((m x : PlainName) → (code_of scope.old).known m x ≡ known_in (module_view module.now) env m x)
        → Refused (module_view module.now) env root f.code f.position f.text.items }
{
    module_law();
    state.enter(0)?;
    match tell_module(alloc, state, scope, module) {
        Ok(told) => table(alloc, told),
        Err(error) => Err(stop_of(alloc, state, error)),
    }
}

/// The types of the names that a module defines, where `known` has the types of what is declared elsewhere.
fn infer_knowing(alloc: Global, module: &Module, known: Known) -> Result<Types, Stop>
    requires module { CanInfer (module_view module.now) }
    requires written { AreWritten (known_view known) }
    requires known { (env : PlainKnown) × ((m x : PlainName)
        → known_view known m x ≡ known_in (module_view module.now) env m x) }
    ensures inferred { IfOk result (λ types. (env : PlainKnown)
        → ((m x : PlainName) → known_view known m x ≡ known_in (module_view module.now) env m x)
        → Inferred (module_view module.now) env root (schemes_of types)) }
    ensures written { IfOk result (λ types. SchemesWritten (schemes_of types)) }
    ensures refused { (f : PlainSaid) → result ≡ Err (stop.Refused f) → (env : PlainKnown)
        → ((m x : PlainName) → known_view known m x ≡ known_in (module_view module.now) env m x)
        → Refused (module_view module.now) env root f.code f.position f.text.items }
{
    let mut scope = Scope::new(alloc, known);
    let mut state = State::new(alloc);
    infer_module(alloc, &mut state, &mut scope, module)
}

/// Infers the types of the names that the module `module` defines: the written ones of those with an annotation, and
/// the principal ones of the others. `env` has the types of what other modules offer; a name that is neither there nor
/// in the module has no type, so its use is a fault. The errors: the module is not typable; memory or numbers ran out.
pub fn infer(alloc: Global, module: &Module, env: Known) -> Result<Types, Stop>
    requires module { CanInfer (module_view module.now) }
    requires env { AreWritten (known_view env) }
    ensures inferred { IfOk result (λ types.
        Inferred (module_view module.now) (known_view env) root (schemes_of types)) }
    ensures written { IfOk result (λ types. SchemesWritten (schemes_of types)) }
    ensures refused { (f : PlainSaid) → result ≡ Err (stop.Refused f)
        → Refused (module_view module.now) (known_view env) root f.code f.position f.text.items }
{
    known_law();
    let mut known = env;
    add_own_types(alloc, module, &mut known)?;
    infer_knowing(alloc, module, known)
}
