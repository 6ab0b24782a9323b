//! What holds of the tree of each text.

ghost use Rattle.std.specs.Prelude.{ℕ, ◌<◌, ◌^◌, List, length};
ghost use Rattle.elm_lexer.specs.Tokens.{Token, Tokens};
ghost use Rattle.elm_tree.specs.Tree.{Module};
ghost use Rattle.canon_proper.specs.Spelled.{IsSpelledModule, SpellModule};

/// The module that the tokens of a text spell, where the tokens or the bytes are fewer than 2^32, has names that can be
/// spelled, exact literals, lambdas with parameters, tuples and unions of fewer than 2^32 parts, and names of one `let`
/// at places of their own. What the parser reads is such a module.
pub fn spelled_law()
    ensures tokens { (text : List ℕ) (tokens : List Token) (m : Module) → Tokens text tokens
        → length tokens < 2 ^ 32 → SpellModule tokens m → IsSpelledModule m }
    ensures text { (text : List ℕ) (tokens : List Token) (m : Module) → Tokens text tokens
        → length text < 2 ^ 32 → SpellModule tokens m → IsSpelledModule m }
{}
