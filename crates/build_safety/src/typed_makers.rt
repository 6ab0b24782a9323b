//! What holds of the constructors and ports of the programs of a build.

ghost use Rattle.build_safety.specs.TypedMakers.{GivenAreTyped, LinkedAreTyped};

/// What a module of a build declares without a body has the types that the law of typed programs asks: constructors of
/// unions and of records, and ports, where these carry what the world says. So has that of each program that a link
/// makes.
pub fn typed_law()
    ensures given { GivenAreTyped }
    ensures linked { LinkedAreTyped }
{}
