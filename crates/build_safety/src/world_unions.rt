//! What holds of the unions of the world of a build.

ghost use Rattle.build_safety.specs.WorldUnions.{UnionsAreSound, UnionsAreDeclared};

/// They are as the law of typed programs asks, where the variables of fields are parameters and the nodes of
/// dictionaries are as they are declared. A union that a module declares has these constructors.
pub fn unions_law()
    ensures sound { UnionsAreSound }
    ensures declared { UnionsAreDeclared }
{}
