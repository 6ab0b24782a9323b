//! What holds of the constructors and ports of each module in which no fault was found.

ghost use Rattle.told_modules.specs.Once.{DeclaredOnce, NoneDefined};

/// Each has one type: that by which its name is known. No definition of the module has its name.
pub fn once_law()
    ensures once { DeclaredOnce }
    ensures undefined { NoneDefined }
{}
