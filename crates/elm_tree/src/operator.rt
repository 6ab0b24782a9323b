//! The operators of the language: how tight they bind, and which side groups first.

ghost use Rattle.std.specs.Prelude.{◌≡◌};
ghost use Rattle.std.specs.Str.{bytes_eq};
ghost use Rattle.elm_tree.specs.Regroup.{row_among, tight_rows, row_of};

/// The side to which operators of one level group.
#[derive(Clone, Copy, Debug, PartialEq, Eq)]
pub enum Side {
    ToLeft,
    ToRight,
    Neither,
}

/// How an operator groups.
#[derive(Clone, Copy, Debug)]
pub struct Strength {
    pub level: u8,
    pub side: Side,
}

fn is(operator: &[u8], text: &str) -> bool
    ensures { result ≡ bytes_eq operator.now text.now }
{
    operator == text.as_bytes()
}

impl Strength {
    fn new(level: u8, side: Side) -> Strength
        ensures level { result.level ≡ level }
        ensures side { result.side ≡ side }
    {
        Strength { level, side }
    }
}

/// The same of operators from level 5 on.
fn tight_strength(operator: &[u8]) -> Strength
    ensures level { result.level ≡ (row_among operator.now tight_rows).level }
    ensures side { result.side ≡ (row_among operator.now tight_rows).side }
{
    if is(operator, "++") {
        Strength::new(5, Side::ToRight)
    } else if is(operator, "::") {
        Strength::new(5, Side::ToRight)
    } else if is(operator, "+") {
        Strength::new(6, Side::ToLeft)
    } else if is(operator, "-") {
        Strength::new(6, Side::ToLeft)
    } else if is(operator, "*") {
        Strength::new(7, Side::ToLeft)
    } else if is(operator, "//") {
        Strength::new(7, Side::ToLeft)
    } else if is(operator, "^") {
        Strength::new(8, Side::ToRight)
    } else if is(operator, "<<") {
        Strength::new(9, Side::ToLeft)
    } else if is(operator, ">>") {
        Strength::new(9, Side::ToRight)
    } else {
        Strength::new(10, Side::ToLeft)
    }
}

/// How an operator groups. One that is not of the language binds tightest.
#[tactic(auto, unfolding(crate::specs::Regroup::row_of))]
pub fn strength_of(operator: &[u8]) -> Strength
    ensures level { result.level ≡ (row_of operator.now).level }
    ensures side { result.side ≡ (row_of operator.now).side }
{
    if is(operator, "<|") {
        Strength::new(0, Side::ToRight)
    } else if is(operator, "|>") {
        Strength::new(0, Side::ToLeft)
    } else if is(operator, "||") {
        Strength::new(2, Side::ToRight)
    } else if is(operator, "&&") {
        Strength::new(3, Side::ToRight)
    } else if is(operator, "==") {
        Strength::new(4, Side::Neither)
    } else if is(operator, "/=") {
        Strength::new(4, Side::Neither)
    } else if is(operator, "<") {
        Strength::new(4, Side::Neither)
    } else if is(operator, ">") {
        Strength::new(4, Side::Neither)
    } else if is(operator, "<=") {
        Strength::new(4, Side::Neither)
    } else if is(operator, ">=") {
        Strength::new(4, Side::Neither)
    } else {
        tight_strength(operator)
    }
}
