//! What holds of the ports of a program's world.

ghost use Rattle.build_safety.specs.PortWorlds.{LinksCarry, ProgramsHavePorts};

/// The ports of a program are those of its world. In a program that a link makes no two ports have one name, so each
/// carries what its name carries in the world.
pub fn worlds_law()
    ensures ports { ProgramsHavePorts }
    ensures carried { LinksCarry }
{}
