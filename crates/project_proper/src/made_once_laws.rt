//! What a module means and compiles to is determined.

ghost use Rattle.project_proper.specs.Once.{OneModule, OneMade};

use elm_parser::laws::text_law;

/// Declarations make one module at most, by what it is resolved against.
pub fn module_law()
    ensures { OneModule }
{}

/// A text compiles to one value at most, by what the module is compiled in.
pub fn made_law()
    ensures { OneMade }
{
    text_law();
}
