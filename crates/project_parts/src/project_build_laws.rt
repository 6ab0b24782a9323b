//! Small projects, worked out.

ghost use Rattle.project_parts.specs.Examples.{Graph, Defaults, IsBlocked, Reported, Unlinked, Output};
ghost use Rattle.project_parts.specs.Examples.{NoProject, Older, Line};

/// Which modules each imports; modules that are not good; and the first steps of builds.
pub fn examples()
    ensures graph { Graph }
    ensures defaults { Defaults }
    ensures is_blocked { IsBlocked }
    ensures reported { Reported }
    ensures unlinked { Unlinked }
    ensures output { Output }
    ensures no_project { NoProject }
    ensures older { Older }
    ensures line { Line }
{}
