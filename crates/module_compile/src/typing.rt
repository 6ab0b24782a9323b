//! The phase of types.

ghost use Rattle.std.specs.Prelude.{IfOk};
ghost use Rattle.elm_canon.specs.View.{module_view};
ghost use Rattle.infer.specs.Modules.{CanInfer};
ghost use Rattle.module_compile.specs.ModulePhasesView.{around_view};
ghost use Rattle.module_compile.specs.Typing.{TellsTypes};

use crate::Imports;
use crate::laws::sound_law;
use crate::told::Inferred;
use elm_canon::tree::Module;
use infer::explain::Said;
use infer::infer::{Stop, infer};
use infer_proper::module_ready_laws::ready_law;
use std::alloc::{AllocError, Global};

/// What inference says of a module.
#[derive(Drop)]
pub(crate) enum Typed {
    /// The types of its definitions.
    Types(Inferred),
    /// The first fault.
    Fault(Said),
}

/// The types of the module `module`, which is compiled in `imports`, or its first fault.
pub(crate) fn types_of(
    alloc: Global,
    imports: &Imports,
    module: &Module,
) -> Result<Typed, AllocError>
    requires { CanInfer (module_view module.now) }
    ensures { IfOk result (TellsTypes (around_view imports.now) (module_view module.now)) }
{
    sound_law();
    ready_law();
    let env = imports.types(alloc)?;
    match infer(alloc, module, env) {
        Ok(types) => Ok(Typed::Types(Inferred { types })),
        Err(stop) => match stop {
            Stop::Refused(said) => Ok(Typed::Fault(said)),
            Stop::NoMemory(error) => Err(error),
        },
    }
}
