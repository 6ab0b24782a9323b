//! What builds of good modules link.

ghost use Rattle.project_proper.specs.Builds.{BuildsAreLinked, LinksAreNamed};

/// The modules of a build that are all good were resolved without faults, one after another; and the program that a
/// link from one of them makes has proper names: the laws of what is emitted speak of it.
pub fn build_law()
    ensures linked { BuildsAreLinked }
    ensures named { LinksAreNamed }
{}
