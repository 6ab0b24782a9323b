//! The words that expressions and statements begin with.

ghost use Rattle.std.specs.Prelude.{◌≡◌};
ghost use Rattle.std.specs.List.{list_any};
ghost use Rattle.std.specs.Str.{bytes_eq};
ghost use Rattle.js_scope.specs.Words.{found_word};
ghost use Rattle.js_tree.specs.Automaton as machine;

use js_tree::tree::Helper;

/// A word that an expression begins with.
#[derive(Clone, Copy)]
pub enum Word {
    /// `true`
    True,
    /// `false`
    False,
    /// `_list([`
    List,
    /// The name of a function of the fixed text, and `(`.
    Helper(Helper),
}

/// The words that an expression begins with, each by its text.
const WORDS: [(&[u8], Word); 44] = [
    (b"true", Word::True),
    (b"false", Word::False),
    (b"_list([", Word::List),
    (b"_crash(", Word::Helper(Helper::Crash)),
    (b"_quot(", Word::Helper(Helper::Quotient)),
    (b"_rem(", Word::Helper(Helper::Remainder)),
    (b"_mod(", Word::Helper(Helper::Modulo)),
    (b"_and(", Word::Helper(Helper::BitAnd)),
    (b"_or(", Word::Helper(Helper::BitOr)),
    (b"_xor(", Word::Helper(Helper::BitXor)),
    (b"_not(", Word::Helper(Helper::BitNot)),
    (b"_shl(", Word::Helper(Helper::ShiftLeft)),
    (b"_shr(", Word::Helper(Helper::ShiftRight)),
    (b"_shz(", Word::Helper(Helper::ShiftRightZero)),
    (b"_fromInt(", Word::Helper(Helper::FromInt)),
    (b"_length(", Word::Helper(Helper::Length)),
    (b"_unitAt(", Word::Helper(Helper::UnitAt)),
    (b"_fromUnit(", Word::Helper(Helper::FromUnit)),
    (b"_slice(", Word::Helper(Helper::Slice)),
    (b"_find(", Word::Helper(Helper::Find)),
    (b"_same(", Word::Helper(Helper::Same)),
    (b"_update(", Word::Helper(Helper::Update)),
    (b"_array(", Word::Helper(Helper::ArrayOf)),
    (b"_append(", Word::Helper(Helper::Append)),
    (b"_pairs(", Word::Helper(Helper::Pairs)),
    (b"_size(", Word::Helper(Helper::Size)),
    (b"_eq(", Word::Helper(Helper::Equal)),
    (b"_cmp(", Word::Helper(Helper::Compare)),
    (b"_dInt(", Word::Helper(Helper::DecodeInt)),
    (b"_dBool(", Word::Helper(Helper::DecodeBool)),
    (b"_dText(", Word::Helper(Helper::DecodeText)),
    (b"_dNull(", Word::Helper(Helper::DecodeNull)),
    (b"_dAny(", Word::Helper(Helper::DecodeAny)),
    (b"_dMaybe(", Word::Helper(Helper::DecodeMaybe)),
    (b"_all(", Word::Helper(Helper::All)),
    (b"_dList(", Word::Helper(Helper::DecodeList)),
    (b"_dTuple(", Word::Helper(Helper::DecodeTuple)),
    (b"_dRecord(", Word::Helper(Helper::DecodeRecord)),
    (b"_eSame(", Word::Helper(Helper::EncodeSame)),
    (b"_eNull(", Word::Helper(Helper::EncodeNull)),
    (b"_eMaybe(", Word::Helper(Helper::EncodeMaybe)),
    (b"_eList(", Word::Helper(Helper::EncodeList)),
    (b"_eTuple(", Word::Helper(Helper::EncodeTuple)),
    (b"_eRecord(", Word::Helper(Helper::EncodeRecord)),
];

/// The words that a statement begins with.
const KEYWORDS: [&[u8]; 6] = [
    b"const ",
    b"let ",
    b"return ",
    b"if(",
    b"while(true){",
    b"continue;",
];

/// Whether the bytes are this word.
pub fn is(word: &[u8], bytes: &[u8]) -> bool
    ensures { result ≡ bytes_eq word.now bytes.now }
{
    word == bytes
}

/// Whether this word begins with the bytes.
#[tactic(auto, using(crate::proofs::Words::begins_like))]
fn begins(word: &[u8], bytes: &[u8]) -> bool
    ensures { result ≡ machine.begins_with word.now bytes.now }
{
    word.starts_with(bytes)
}

/// The word that these bytes are, if they are one.
pub fn find_word(bytes: &[u8]) -> Option<Word>
    ensures { (none : machine.State) (found : machine.Word → machine.State)
        → machine.find_word machine.words bytes.now none found ≡ found_word result none found }
{
    for (text, word) in &WORDS {
        if is(text, bytes) {
            return Some(*word);
        }
    }
    None
}

/// Whether a word begins with these bytes.
pub fn begins_word(bytes: &[u8]) -> bool
    ensures { result ≡ list_any (λ w. machine.begins_with (machine.word_text w) bytes.now) machine.words }
{
    for (text, _) in &WORDS {
        if begins(text, bytes) {
            return true;
        }
    }
    false
}

/// Whether a word that a statement begins with begins with these bytes.
pub fn begins_keyword(bytes: &[u8]) -> bool
    ensures { result ≡ list_any (λ w. machine.begins_with w bytes.now) machine.begin_statement_words }
{
    for keyword in &KEYWORDS {
        if begins(keyword, bytes) {
            return true;
        }
    }
    false
}
