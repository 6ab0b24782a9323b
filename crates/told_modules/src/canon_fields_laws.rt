//! What holds of each resolved module.

ghost use Rattle.told_modules.specs.Laws.{ModulesHaveFields};

/// Each record pattern of a resolved module names a field, and so does each record update, where each update that is
/// written does. The pattern `{}` matches anything, and takes no record apart.
pub fn fields_law()
    ensures { ModulesHaveFields }
{}
