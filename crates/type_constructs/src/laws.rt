//! The walk of each pattern and expression, from the walks of its parts.

ghost use Rattle.type_constructs.specs.Patterns.{MatchesAnything, MatchesName, MatchesLiteral, MatchesFields};
ghost use Rattle.type_constructs.specs.Patterns.{MatchesAs, MatchesLocated, MatchesConstructor, ShapesTuple};
ghost use Rattle.type_constructs.specs.Patterns.{ShapesList, MatchesNone, MatchesOneMore};
ghost use Rattle.type_constructs.specs.Faults.{FailsLiteral, FailsFieldsLack, FailsFields, FailsShape};
ghost use Rattle.type_constructs.specs.Faults.{FailsConstructor, FailsParts, FailsNext, FailsMore, FailsFewer};
ghost use Rattle.type_constructs.specs.Expressions.{WalksNumber, WalksType, WalksCopy, WalksAccessor, WalksFunction};
ghost use Rattle.type_constructs.specs.Expressions.{WalksApply, WalksNone, WalksOneMore, WalksIf, WalksLogical};
ghost use Rattle.type_constructs.specs.Expressions.{WalksCase, WalksNoBranch, WalksOneBranch, WalksLet, WalksTuple};
ghost use Rattle.type_constructs.specs.Expressions.{WalksList, WalksBuild, WalksRecord, WalksAccess, WalksUpdate};
ghost use Rattle.type_constructs.specs.Expressions.{WalksNegate, WalksBinary};

/// A pattern is walked, and its names have variables, where its parts are, in turn.
pub fn pattern_law()
    ensures anything { MatchesAnything }
    ensures name { MatchesName }
    ensures literal { MatchesLiteral }
    ensures fields { MatchesFields }
    ensures also { MatchesAs }
    ensures located { MatchesLocated }
    ensures constructor { MatchesConstructor }
    ensures tuple { ShapesTuple }
    ensures list { ShapesList }
    ensures none { MatchesNone }
    ensures one_more { MatchesOneMore }
{}

/// A pattern stops where one of its parts does, after those before it.
pub fn pattern_fault_law()
    ensures literal { FailsLiteral }
    ensures lack { FailsFieldsLack }
    ensures fields { FailsFields }
    ensures shape { FailsShape }
    ensures constructor { FailsConstructor }
    ensures parts { FailsParts }
    ensures next { FailsNext }
    ensures more { FailsMore }
    ensures fewer { FailsFewer }
{}

/// An expression is walked where its parts are, in turn.
pub fn expression_law()
    ensures number { WalksNumber }
    ensures type_of { WalksType }
    ensures copy { WalksCopy }
    ensures accessor { WalksAccessor }
    ensures function { WalksFunction }
    ensures apply { WalksApply }
    ensures none { WalksNone }
    ensures one_more { WalksOneMore }
    ensures choice { WalksIf }
    ensures logical { WalksLogical }
    ensures case_of { WalksCase }
    ensures no_branch { WalksNoBranch }
    ensures one_branch { WalksOneBranch }
    ensures let_in { WalksLet }
{}

/// An operation with the values of all its parts is walked where they are, in turn.
pub fn operation_law()
    ensures tuple { WalksTuple }
    ensures list { WalksList }
    ensures build { WalksBuild }
    ensures record_of { WalksRecord }
    ensures access { WalksAccess }
    ensures update { WalksUpdate }
    ensures negate { WalksNegate }
    ensures binary { WalksBinary }
{}
