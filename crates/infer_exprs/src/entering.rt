//! Definitions with annotations, up to their bodies.

ghost use Rattle.std.specs.Prelude.{◌≡◌, Err, map, IfOk};
ghost use Rattle.elm_canon.specs.View.{annotation_view};
ghost use Rattle.elm_type.specs.View.{kind_view};
ghost use Rattle.type_items.specs.Items.{child};
ghost use Rattle.type_items.specs.Definitions.{Definition};
ghost use Rattle.infer_types.specs.Once.{FieldsOnce};
ghost use Rattle.infer_groups.specs.Annotated.{listed_annotated, own_names};
ghost use Rattle.infer_steps.specs.Leaving.{without_constant};
ghost use Rattle.infer_steps.specs.Ready.{IsReady};
ghost use Rattle.infer_steps.specs.View.{bad_view, code_of, here};
ghost use Rattle.infer_steps.specs.declared.bad.Bad.{Bad};
ghost use Rattle.infer_steps.specs.declared.bad.InferError.TheVariants as error;
ghost use Rattle.infer_groups.specs.Defined.{IsClear, DefinitionsStop, group_places};
ghost use Rattle.infer_groups.specs.Members.{at_number};
ghost use Rattle.infer_exprs.specs.Beginning.{AnnotatedOpens};

use crate::laws::fixing_law;
use elm_base::names::Name;
use elm_base::position::Pos;
use elm_canon::tree::Annotation;
use elm_type::scheme::Kind;
use infer_groups::annotated::{Inside, open_annotated};
use infer_groups::infer_annotated_laws::opening_law;
use infer_steps::bad::InferError;
use infer_steps::scope::Scope;
use infer_steps::state::State;
use infer_types::fixing::fixed;
use infer_types::own::{OwnVariable, own_variables};
use std::alloc::{AllocError, Global};
use type_schemes::written::written_scheme;

/// A definition with an annotation, which was entered.
#[derive(Drop)]
pub struct Begun {
    pub inside: Inside,
    /// The variable of its type.
    pub variable: u32,
}

/// The names of variables, and their kinds.
#[derive(Drop)]
struct NamesAndKinds {
    names: Vec<Name>,
    kinds: Vec<Kind>,
}

/// The names and the kinds of variables. The error means that memory ran out.
fn apart(alloc: Global, own: Vec<OwnVariable>) -> Result<NamesAndKinds, AllocError>
    ensures names { IfOk result (λ a. a.names.items ≡ map (λ o. o.name) own.items) }
    ensures kinds { IfOk result (λ a. map kind_view a.kinds.items ≡ map (λ o. kind_view o.kind) own.items) }
{
    let mut names = Vec::new(alloc);
    let mut kinds = Vec::new(alloc);
    for variable in own {
        let OwnVariable { name, kind } = variable;
        names.push(name)?;
        kinds.push(kind)?;
    }
    Ok(NamesAndKinds { names, kinds })
}

/// Goes to the child `number` of the place, inside the definition that is there, and asks at `position` what its
/// annotation `annotation` asks. The errors: that is not so; memory or numbers ran out.
pub fn enter_annotated(
    alloc: Global,
    state: &mut State,
    scope: &mut Scope,
    position: Pos,
    annotation: &Annotation,
    number: usize,
) -> Result<Begun, InferError>
    requires ready { IsReady (code_of scope.old) (here state.old).depth (here state.old).store }
    requires clear { IsClear (here state.old) }
    requires once { FieldsOnce (annotation_view annotation.now) }
    ensures opens { IfOk result (λ b. AnnotatedOpens (code_of scope.old) (code_of scope.new) position
        (annotation_view annotation.now) number b.inside.slots.items b.variable (here state.old) (here state.new)) }
    ensures names { IfOk result (λ b. b.inside.names.items
        ≡ own_names (code_of scope.old) (annotation_view annotation.now)) }
    ensures left { IfOk result (λ b. without_constant b.inside.entered.items (code_of scope.new) ≡ code_of scope.old) }
    ensures stops { (b : Bad) → result ≡ Err (error.Bad b) → (d : Definition) → d.place ≡ position
        → DefinitionsStop (code_of scope.old) (λ q. group_places (child q number)) (at_number number (listed_annotated d
        (annotation_view annotation.now))) (here state.old) (here state.new) (bad_view b) }
{
    opening_law();
    fixing_law();
    let written = written_scheme(alloc, annotation)?;
    let own = own_variables(alloc, scope, &written.names, &written.scheme.kinds)?;
    let parts = apart(alloc, own)?;
    let inside = open_annotated(alloc, state, scope, parts.names, &parts.kinds, number)?;
    match fixed(
        alloc,
        state,
        scope,
        position,
        &written.names,
        &written.scheme.kinds,
        &written.scheme.ty,
    ) {
        Ok(variable) => Ok(Begun { inside, variable }),
        Err(error) => Err(error),
    }
}
