//! Programs that a link makes of modules that leave commands and subscriptions as ports made them.

ghost use Rattle.build_safety.specs.KeptLinks.{BuildsLeave, LinksLeavePorts};

use program_safety::kept_signs_laws::modules_law;

/// The declarations of modules that were compiled without faults leave commands and subscriptions as ports made them,
/// and use no constructor of theirs as a name.
pub fn leaving_law()
    ensures { BuildsLeave }
{
    modules_law();
}

/// Where each declaration of the modules of a build leaves commands and subscriptions as ports made them, so does each
/// declaration of a program that a link makes of them: a constructor that ports use is never linked as a name.
pub fn kept_law()
    ensures { LinksLeavePorts }
{}
