//! What holds of the types that each module offers in which no fault was found.

ghost use Rattle.told_modules.specs.Offers.{OffersAreTold};

/// They are told as the law of typed programs asks: of a definition the type that was inferred, of a constructor and of
/// a port the type that is declared, or another scheme that has no instances but those of it.
pub fn offers_law()
    ensures { OffersAreTold }
{}
