//! What holds of the types of constructors and ports.

ghost use Rattle.told_modules.specs.Schemes.{MakersHaveSchemes, RecordsHaveSchemes, PortsHaveSchemes};
ghost use Rattle.told_modules.specs.Schemes.{PayloadsHaveOnce};

/// A constructor of a union is a function of its fields, the constructor of a record one of the fields in written order.
/// A port has the type of what crosses it. Where the records in that have words for fields, each once, it has each of
/// them once.
pub fn schemes_law()
    ensures makers { MakersHaveSchemes }
    ensures records { RecordsHaveSchemes }
    ensures ports { PortsHaveSchemes }
    ensures once { PayloadsHaveOnce }
{}
