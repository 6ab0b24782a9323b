//! The names of definitions with annotations, in scope.

ghost use Rattle.std.specs.Prelude.{◌≡◌, ◌++◌, ◌∷◌, [], List, Err, map, IfOk, OnOk};
ghost use Rattle.elm_canon.specs.Tree.{Group, Title as PlainTitle};
ghost use Rattle.elm_canon.specs.View.{annotation_view};
ghost use Rattle.type_items.specs.Definitions as plain;
ghost use Rattle.type_walks.specs.Regions.{none};
ghost use Rattle.infer_types.specs.Once.{FieldsOnce};
ghost use Rattle.infer_steps.specs.Codes.{State as PlainState};
ghost use Rattle.infer_steps.specs.Leaving.{without};
ghost use Rattle.infer_steps.specs.Ready.{IsReady};
ghost use Rattle.infer_steps.specs.View.{bad_view, code_of, declared_view, here};
ghost use Rattle.infer_steps.specs.declared.bad.Bad.{Bad};
ghost use Rattle.infer_steps.specs.declared.bad.InferError.TheVariants as error;
ghost use Rattle.infer_groups.specs.Defined.{Defined, DefinitionsStop};
ghost use Rattle.infer_groups.specs.Lets.{listed_names};
ghost use Rattle.infer_order.specs.Order.{AreDefinitions};
ghost use Rattle.infer_exprs.specs.Titles.{AnnotationsOnce, titles_of, title_list};
ghost use Rattle.infer_exprs.specs.Reading.{IsRead, IsRefused, reading_view, with_readings, AreRead, NotRead};

use elm_base::position::Pos;
use elm_canon::reference::Ref;
use elm_canon::tree::Annotation;
use infer_order::order::Definition;
use infer_steps::bad::InferError;
use infer_steps::laws::{entering_law, following_law, scope_law, setting_law};
use infer_steps::scope::{Declared, Entered, Meaning, Scope};
use infer_steps::state::State;
use infer_types::asking::ask_around;
use infer_types::declaring::declared;
use std::alloc::{AllocError, Global};
use type_schemes::written::written_scheme;

/// A name with an annotation, and its type.
#[derive(Drop)]
pub(crate) struct Reading<'a> {
    name: &'a Ref,
    declared: Declared,
}

/// The type of an annotation that is written at `position`, after what it asks of the variables of annotations around.
/// The errors: what it asks is not so; memory or numbers ran out.
fn read(
    alloc: Global,
    state: &mut State,
    scope: &Scope,
    position: Pos,
    annotation: &Annotation,
) -> Result<Declared, InferError>
    requires ready { IsReady (code_of scope.now) (here state.old).depth (here state.old).store }
    requires once { FieldsOnce (annotation_view annotation.now) }
    ensures read { IfOk result (λ t. IsRead (code_of scope.now) position (annotation_view annotation.now)
        (here state.old) (here state.new) (declared_view t)) }
    ensures refused { (b : Bad) → result ≡ Err (error.Bad b) → IsRefused (code_of scope.now) position
        (annotation_view annotation.now) (here state.old) (here state.new) (bad_view b) }
{
    following_law();
    let written = written_scheme(alloc, annotation)?;
    match ask_around(
        state,
        scope,
        position,
        &written.names,
        &written.scheme.kinds,
    ) {
        Ok(()) => {}
        Err(error) => return Err(error),
    }
    let ty = declared(
        alloc,
        scope,
        &written.names,
        &written.scheme.kinds,
        &written.scheme.ty,
    )?;
    Ok(ty)
}

/// Adds a name and its type to `readings`. The error means that memory ran out.
fn push_reading<'a>(
    readings: &mut Vec<Reading<'a>>,
    name: &'a Ref,
    declared: Declared,
) -> Result<(), AllocError>
    ensures { OnOk result (map reading_view readings.new.items
        ≡ map reading_view readings.old.items ++ (name.now, declared_view declared) ∷ []) }
{
    readings.push(Reading { name, declared })?;
    Ok(())
}

/// Adds the name of a definition and its type to `readings`, if it has an annotation. The errors: what the annotation
/// asks is not so; memory or numbers ran out.
fn read_definition<'a>(
    alloc: Global,
    state: &mut State,
    scope: &Scope,
    definition: &Definition<'a>,
    readings: &mut Vec<Reading<'a>>,
) -> Result<(), InferError>
    requires ready { IsReady (code_of scope.now) (here state.old).depth (here state.old).store }
    requires once { AnnotationsOnce (title_list definition.now.title) }
    ensures read { OnOk result ((titles : List PlainTitle) (start : PlainState) → AreRead (code_of scope.now) titles
        (map reading_view readings.old.items) start (here state.old) → AreRead (code_of scope.now)
        (titles ++ title_list definition.now.title) (map reading_view readings.new.items) start (here state.new)) }
    ensures refused { (b : Bad) → result ≡ Err (error.Bad b) → NotRead (code_of scope.now)
        (title_list definition.now.title) (here state.old) (here state.new) (bad_view b) }
{
    let title = match definition.title {
        None => return Ok(()),
        Some(title) => title,
    };
    match &title.annotation {
        None => Ok(()),
        Some(annotation) => {
            let declared = match read(alloc, state, scope, title.place, annotation) {
                Ok(declared) => declared,
                Err(error) => return Err(error),
            };
            push_reading(readings, &title.name, declared)?;
            Ok(())
        }
    }
}

/// The names of definitions that have an annotation, and their types, after what the annotations ask of the variables
/// of annotations around. The errors: what an annotation asks is not so; memory or numbers ran out.
fn read_all<'a>(
    alloc: Global,
    state: &mut State,
    scope: &Scope,
    definitions: &[Definition<'a>],
) -> Result<Vec<Reading<'a>>, InferError>
    requires ready { IsReady (code_of scope.now) (here state.old).depth (here state.old).store }
    requires once { AnnotationsOnce (titles_of definitions.now) }
    ensures read { IfOk result (λ rs. AreRead (code_of scope.now) (titles_of definitions.now)
        (map reading_view rs.items) (here state.old) (here state.new)) }
    ensures refused { (b : Bad) → result ≡ Err (error.Bad b) → NotRead (code_of scope.now) (titles_of definitions.now)
        (here state.old) (here state.new) (bad_view b) }
{
    following_law();
    let mut readings = Vec::new(alloc);
    for definition in definitions {
        match read_definition(alloc, state, scope, definition, &mut readings) {
            Ok(()) => {}
            Err(error) => return Err(error),
        }
    }
    Ok(readings)
}

/// Lets names stand for their types: the last one first, so the first is the innermost. The result is for
/// `Scope::leave`. The error means that memory ran out.
fn enter_readings(
    alloc: Global,
    scope: &mut Scope,
    readings: Vec<Reading<'_>>,
) -> Result<Vec<Entered>, AllocError>
    ensures scope { OnOk result (code_of scope.new
        ≡ with_readings (map reading_view readings.entry.items) (code_of scope.old)) }
    ensures entered { IfOk result (λ es. without es.items (code_of scope.new) ≡ code_of scope.old) }
{
    let mut rest = readings;
    let mut entered = Vec::new(alloc);
    while let Some(last) = rest.pop() {
        let Reading { name, declared } = last;
        let one = scope.enter(name, Meaning::Each(declared))?;
        entered.push(one)?;
    }
    Ok(entered)
}

/// Asks what the annotations of definitions ask of the variables of annotations around, in the order of `definitions`,
/// and lets the names that have an annotation stand for it. The result is for `Scope::leave`. The errors: what an
/// annotation asks is not so; memory or numbers ran out.
pub fn declare(
    alloc: Global,
    state: &mut State,
    scope: &mut Scope,
    definitions: &[Definition<'_>],
) -> Result<Vec<Entered>, InferError>
    requires ready { IsReady (code_of scope.old) (here state.old).depth (here state.old).store }
    requires once { AnnotationsOnce (titles_of definitions.now) }
    ensures declared { IfOk result (λ es. (gs : List Group) (ds : List plain.Definition)
        → AreDefinitions gs definitions.now ds → Defined (code_of scope.old) (code_of scope.new) (λ q. none)
        (listed_names ds) (here state.old) (here state.new)) }
    ensures left { IfOk result (λ es. without es.items (code_of scope.new) ≡ code_of scope.old) }
    ensures refused { (b : Bad) → result ≡ Err (error.Bad b) → (gs : List Group) (ds : List plain.Definition)
        → AreDefinitions gs definitions.now ds → DefinitionsStop (code_of scope.old) (λ q. none) (listed_names ds)
        (here state.old) (here state.new) (bad_view b) }
{
    following_law();
    setting_law();
    entering_law();
    scope_law();
    let readings = match read_all(alloc, state, scope, definitions) {
        Ok(readings) => readings,
        Err(error) => return Err(error),
    };
    let entered = enter_readings(alloc, scope, readings)?;
    Ok(entered)
}
