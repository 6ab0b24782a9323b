//! What holds of the tokens and the fault of each text.

ghost use Rattle.std.specs.Prelude.{◌≡◌, ℕ, List, ◌⊎◌};
ghost use Rattle.elm_lexer.specs.Names.{AreNames, AreValues};
ghost use Rattle.elm_lexer.specs.Values.{AreSpelled};
ghost use Rattle.elm_lexer.specs.Tokens.{Fault, HasFault, HasTokens, IsFaulty, Token, Tokens};

/// A text has at most one list of tokens.
pub fn tokens_law()
    ensures { (text : List ℕ) (ts us : List Token) → Tokens text ts → Tokens text us → ts ≡ us }
{}

/// A text has at most one fault.
pub fn faults_law()
    ensures { (text : List ℕ) (f g : Fault) → HasFault text f → HasFault text g → f ≡ g }
{}

/// A text with a fault has no list of tokens.
pub fn one_law()
    ensures { (text : List ℕ) (f : Fault) (ts : List Token) → HasFault text f → Tokens text ts → ⊥ }
{}

/// Each text has a list of tokens or a fault.
pub fn each_law()
    ensures { (text : List ℕ) → HasTokens text ⊎ IsFaulty text }
{}

/// The text of each name without points is an ASCII letter, of lower or upper case as its kind says, and then
/// characters of names.
pub fn names_law()
    ensures { (text : List ℕ) (ts : List Token) → Tokens text ts → AreNames ts }
{}

/// The text of each token that is a text or a character is a literal, which has a value.
pub fn values_law()
    ensures { (text : List ℕ) (ts : List Token) → Tokens text ts → AreValues ts }
{}

/// Each text and each character spells its value: its escapes are those of the language, and its units are what its
/// characters and escapes stand for. A character has one code.
pub fn spelled_law()
    ensures { (text : List ℕ) (ts : List Token) → Tokens text ts → AreSpelled ts }
{}
