//! White space and comments.

ghost use Rattle.std.specs.Prelude.{◌≡◌, ℕ, suc, ◌+◌, ◌<◌, ◌≤◌, ◌^◌, List, length, MatchOption, IfSome, IsTrue};
ghost use Rattle.elm_lexer.specs.Gaps.{begins_with, begins_gap, after_line, IsBlock, IsGap};

use crate::characters::is_white;

fn begins_with(text: &[u8], first: u8, second: u8) -> bool
    ensures value { result ≡ begins_with first second text.now }
    ensures long { IsTrue result → 2 ≤ length text.now }
{
    match text {
        [a, b, ..] => *a == first && *b == second,
        _ => false,
    }
}

/// Whether the text begins with white space or a comment.
pub(crate) fn begins_gap(text: &[u8]) -> bool
    ensures { result ≡ begins_gap text.now }
{
    match text {
        [c, ..] => is_white(*c) || begins_with(text, b'-', b'-') || begins_with(text, b'{', b'-'),
        [] => false,
    }
}

fn after_line(text: &[u8]) -> &[u8]
    ensures value { result.now ≡ after_line text.now }
    ensures shorter { length result.now ≤ length text.now }
{
    let mut rest = text;
    while let [c, after @ ..] = rest {
        if *c == b'\n' {
            return rest;
        }
        rest = after;
    }
    rest
}

/// One step into a text that stands inside of block comments: the depth after it, and the text that is left.
fn block_step(depth: u32, text: &[u8]) -> (u32, &[u8])
    requires deep { 0 < depth }
    requires few { depth + length text.now < 2 ^ 32 }
    requires more { 0 < length text.now }
    ensures few { result.0 + length result.1.now ≤ depth + length text.now }
    ensures shorter { length result.1.now < length text.now }
    ensures whole { (rest : List ℕ) → IsBlock result.0 result.1.now rest → IsBlock depth text.now rest }
    ensures only { (rest : List ℕ) → IsBlock depth text.now rest → IsBlock result.0 result.1.now rest }
{
    if begins_with(text, b'{', b'-') {
        return (depth + 1, &text[2..]);
    }
    if begins_with(text, b'-', b'}') {
        return (depth - 1, &text[2..]);
    }
    (depth, &text[1..])
}

/// What follows the block comment that is open before the text, or nothing where it has no end.
fn after_block(text: &[u8]) -> Option<&[u8]>
    requires { length text.now < 2 ^ 31 }
    ensures block { MatchOption result ((rest : List ℕ) → IsBlock 1 text.now rest → ⊥) (λ r. IsBlock 1 text.now r.now) }
    ensures shorter { IfSome result (λ r. length r.now ≤ length text.now) }
{
    let mut depth = 1;
    let mut rest = text;
    while depth > 0 {
        if rest.is_empty() {
            return None;
        }
        (depth, rest) = block_step(depth, rest);
    }
    Some(rest)
}

/// What follows the white character or the comment that the text begins with, or nothing where the comment has no end.
pub(crate) fn after_gap(text: &[u8]) -> Option<&[u8]>
    requires short { length text.now < 2 ^ 31 }
    requires begins { IsTrue (begins_gap text.now) }
    ensures gap { MatchOption result ((rest : List ℕ) → IsGap text.now rest → ⊥) (λ r. IsGap text.now r.now) }
    ensures shorter { IfSome result (λ r. length r.now < length text.now) }
{
    if begins_with(text, b'-', b'-') {
        return Some(after_line(&text[1..]));
    }
    if begins_with(text, b'{', b'-') {
        return after_block(&text[2..]);
    }
    Some(&text[1..])
}
