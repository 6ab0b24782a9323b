//! Inference of a module, one type group after another.

ghost use Rattle.type_constructs.specs.TypeModulesLaws.{ModuleBegins, ModuleEnds, ModuleFails, ModuleGoesOn, ModuleTells};

use crate::type_answers_laws::{inference_law, refusal_law};

/// A module is inferred where each of its groups was walked in turn, and it is refused where one of them fails.
pub fn module_law()
    ensures begins { ModuleBegins }
    ensures on { ModuleGoesOn }
    ensures tells { ModuleTells }
    ensures ends { ModuleEnds }
    ensures fails { ModuleFails }
{
    inference_law();
    refusal_law()
}
