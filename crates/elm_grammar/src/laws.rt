//! What holds of the grammar, and small texts worked out.

ghost use Rattle.std.specs.Prelude.{IsTrue};
ghost use Rattle.elm_grammar.specs.Kinded.{is_kinded};
ghost use Rattle.elm_grammar.specs.Laws.{EachHasValue, OneValue, ReadSpells};
ghost use Rattle.elm_grammar.specs.Examples.{NegativeArgument, Difference, TightDifference, NegatedFunction};
ghost use Rattle.elm_grammar.specs.Examples.{MinusApart, MinusFunction, BracketedNegative, FlatChain, Accesses};
ghost use Rattle.elm_grammar.specs.Examples.{BracketAccess, Updated, LastOperand, Branches, OtherColumn, InLet};
ghost use Rattle.elm_grammar.specs.Examples.{ArrowType, NamedPattern, AliasName, PortModule};

/// Each action fits its production.
pub fn kinds_law()
    ensures { IsTrue is_kinded }
{}

/// The derivation of a text has one value, and what the examples compute is what tokens spell.
pub fn derivation_law()
    ensures some { EachHasValue }
    ensures one { OneValue }
    ensures computed { ReadSpells }
{}

/// What small texts spell.
pub fn examples()
    ensures negative_argument { NegativeArgument }
    ensures difference { Difference }
    ensures tight_difference { TightDifference }
    ensures negated_function { NegatedFunction }
    ensures minus_apart { MinusApart }
    ensures minus_function { MinusFunction }
    ensures bracketed_negative { BracketedNegative }
    ensures flat_chain { FlatChain }
    ensures accesses { Accesses }
    ensures bracket_access { BracketAccess }
    ensures updated { Updated }
    ensures last_operand { LastOperand }
    ensures branches { Branches }
    ensures other_column { OtherColumn }
    ensures in_let { InLet }
    ensures arrow_type { ArrowType }
    ensures named_pattern { NamedPattern }
    ensures alias_name { AliasName }
    ensures port_module { PortModule }
{}
