//! What makes a type of others.

ghost use Rattle.std.specs.Prelude.{◌≡◌, IfOk};

use elm_base::names::Name;
use std::alloc::AllocError;

/// What makes a type of its parts.
#[derive(Drop)]
pub enum Head {
    /// The module of a named type, and its name. The parts are the arguments.
    Named(Name, Name),
    /// A function. The parts are the parameter and the result.
    Function,
    /// A tuple, or `()` where there are no parts.
    Tuple,
}

impl Head {
    /// The same head once more. The names are shared. The error means that memory ran out.
    pub fn copy(&self) -> Result<Head, AllocError>
        ensures { IfOk result (λ copy. copy ≡ self.now) }
    {
        match self {
            Head::Named(module, name) => Ok(Head::Named(module.clone()?, name.clone()?)),
            Head::Function => Ok(Head::Function),
            Head::Tuple => Ok(Head::Tuple),
        }
    }
}
