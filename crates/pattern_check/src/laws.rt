//! What holds of missing and redundant patterns.

ghost use Rattle.pattern_check.specs.Examples.{EmptyAlone, AllOfList, SameTwice, FirstItem, Literals, SomeLiterals};
ghost use Rattle.pattern_check.specs.Laws.{ReportsMissing, ReportsAll, TellsRedundant, ProperShapes};
ghost use Rattle.pattern_check.specs.TextExamples.{TextExamples};
ghost use Rattle.pattern_check.specs.Examples.{Pairs, Truth, TruthMissing, UnitCovered, Named, Texts, Deep};

/// Missing and redundant patterns, worked out.
pub fn examples()
    ensures empty_alone { EmptyAlone }
    ensures all_of_list { AllOfList }
    ensures same_twice { SameTwice }
    ensures first_item { FirstItem }
    ensures literals { Literals }
    ensures some_literals { SomeLiterals }
    ensures pairs { Pairs }
    ensures truth { Truth }
    ensures truth_missing { TruthMissing }
    ensures unit_covered { UnitCovered }
    ensures named { Named }
    ensures texts { Texts }
    ensures deep { Deep }
{}

/// What is reported of patterns of one type is right: a reported pattern is missing, nothing is missing where nothing
/// is reported, and a pattern is told redundant exactly where each special case of it overlaps an earlier one.
pub fn reports_law()
    ensures missing { ReportsMissing }
    ensures all { ReportsAll }
    ensures redundant { TellsRedundant }
{}

/// The shape of a proper pattern is proper.
pub fn proper_law()
    ensures { ProperShapes }
{}

/// Texts of patterns, worked out.
pub fn text_examples()
    ensures { TextExamples }
{}
