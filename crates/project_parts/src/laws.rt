//! What holds of the modules of each build.

ghost use Rattle.project_parts.specs.Laws.{Ordered, Apart, Fitting, Builds, AlwaysBuilds, AllNumbered};

/// Each module of a build imports modules of lower numbers alone.
pub fn ordered_law()
    ensures { Ordered }
{}

/// No two modules of a build have one name, by its units.
pub fn apart_law()
    ensures { Apart }
{}

/// No text of a module of a build is over the limit.
pub fn fitting_law()
    ensures { Fitting }
{}

/// What the modules of a build are made by holds of them: the three laws in one.
pub fn build_law()
    ensures { Builds }
{}

/// The same of each build, whatever its files hold.
pub fn any_build_law()
    ensures { AlwaysBuilds }
{}

/// The name of each module of the project has a number in the build.
pub fn number_law()
    ensures { AllNumbered }
{}
