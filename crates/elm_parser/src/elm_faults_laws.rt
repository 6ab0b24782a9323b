//! The faults of small texts, worked out.

ghost use Rattle.elm_parser.specs.Examples.{FourParts, ThreeParts, Comparisons, LoneInLet, WithDefinition, LoneAtEnd};

/// The faults of small texts.
pub fn examples()
    ensures four_parts { FourParts }
    ensures three_parts { ThreeParts }
    ensures comparisons { Comparisons }
    ensures lone_in_let { LoneInLet }
    ensures with_definition { WithDefinition }
    ensures lone_at_end { LoneAtEnd }
{}
