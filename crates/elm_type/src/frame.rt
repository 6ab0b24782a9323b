//! What is left to write of a type that a walk over its nodes has entered.

ghost use Rattle.std.specs.Prelude.{◌≡◌, ◌∷◌, ◌++◌, ◌<◌, [], reverse, nat_eq, IfOk, IfSome, IfNone, OnOk, ℕ};
ghost use Rattle.elm_type.specs.Types.{Name, Leaf};
ghost use Rattle.elm_type.specs.Spelling.{Read};
ghost use Rattle.elm_type.specs.Frames.{separator_of, colon_of, around_of, next_of, has_fields, closing_text};
ghost use Rattle.elm_type.specs.Frames.{pending, wanted, with_top};

use std::alloc::AllocError;

/// Where a type stands.
#[derive(Clone, Copy)]
pub enum Around {
    /// Where it needs no brackets.
    Alone,
    /// As a parameter of a function.
    Parameter,
    /// As an argument of a type.
    Argument,
}

/// What is written of the parts that are left.
#[derive(Clone, Copy)]
pub enum Kind {
    /// A type.
    Single,
    /// The arguments of a type.
    Arguments,
    /// The parameters of a function, and its result.
    Parameters,
    /// The same, with an arrow before them.
    Arrows,
    /// The parts of a tuple.
    Parts,
    /// The same, with a comma before each.
    MoreParts,
    /// The fields of a record.
    Fields,
    /// The same, with a comma before each.
    MoreFields,
}

/// What is written after the last part.
#[derive(Clone, Copy)]
pub enum Closing {
    Nothing,
    Bracket,
    TupleEnd,
    RecordEnd,
}

/// So many parts that are left, what is written of them, and what is written after them.
#[derive(Clone, Copy)]
pub struct Frame {
    pub kind: Kind,
    pub left: usize,
    pub closing: Closing,
}

/// What is written before a part.
pub fn separator(kind: Kind) -> &'static [u8]
    ensures { result.now ≡ separator_of kind }
{
    match kind {
        Kind::Arguments => b" ",
        Kind::Arrows => b" -> ",
        Kind::MoreParts | Kind::MoreFields => b", ",
        Kind::Single | Kind::Parameters | Kind::Parts | Kind::Fields => b"",
    }
}

/// Whether fields are written.
pub fn has_fields(kind: Kind) -> bool
    ensures { result ≡ has_fields kind }
{
    matches!(kind, Kind::Fields | Kind::MoreFields)
}

/// What stands between the name of a field and its type.
pub fn colon(kind: Kind) -> &'static [u8]
    ensures { result.now ≡ colon_of kind }
{
    match kind {
        Kind::Fields | Kind::MoreFields => b" : ",
        _ => b"",
    }
}

/// Where a part stands that has so many parts after it.
pub fn standing(kind: Kind, behind: usize) -> Around
    ensures { result ≡ around_of kind behind }
{
    match kind {
        Kind::Arguments => Around::Argument,
        Kind::Parameters | Kind::Arrows => {
            if behind == 0 {
                Around::Alone
            } else {
                Around::Parameter
            }
        }
        Kind::Single | Kind::Parts | Kind::MoreParts | Kind::Fields | Kind::MoreFields => {
            Around::Alone
        }
    }
}

/// What is written of the parts after a part.
pub fn next(kind: Kind) -> Kind
    ensures { result ≡ next_of kind }
{
    match kind {
        Kind::Parameters => Kind::Arrows,
        Kind::Parts => Kind::MoreParts,
        Kind::Fields => Kind::MoreFields,
        other => other,
    }
}

/// What is written after the last part.
fn closing_ascii(closing: Closing) -> &'static [u8]
    ensures { result.now ≡ closing_text closing }
{
    match closing {
        Closing::Nothing => b"",
        Closing::Bracket => b")",
        Closing::TupleEnd => b" )",
        Closing::RecordEnd => b" }",
    }
}

/// Adds a text in ASCII.
pub fn put(text: &mut Vec<u16>, ascii: &[u8]) -> Result<(), AllocError>
    ensures { OnOk result (text.new.items ≡ text.old.items ++ ascii.now) }
{
    for byte in ascii {
        text.push(u16::from(*byte))?;
    }
    Ok(())
}

/// Puts a frame on top.
pub fn push_frame(frames: &mut Vec<Frame>, frame: Frame) -> Result<(), AllocError>
    ensures { OnOk result (reverse frames.new.items ≡ frame ∷ reverse frames.old.items) }
{
    frames.push(frame)?;
    Ok(())
}

/// Closes the frames that have no parts left, and takes the next one, if there is one.
pub fn next_frame(frames: &mut Vec<Frame>, text: &mut Vec<u16>) -> Result<Option<Frame>, AllocError>
    ensures text { IfOk result (λ top. (name : Leaf ℕ → Name) (rs : Read) → text.new.items
        ++ pending name (with_top top (reverse frames.new.items)) rs ≡ text.old.items
        ++ pending name (reverse frames.old.items) rs) }
    ensures wanted { IfOk result (λ top. wanted (with_top top (reverse frames.new.items))
        ≡ wanted (reverse frames.old.items)) }
    ensures some { IfOk result (λ top. IfSome top (λ f. 0 < f.left)) }
    ensures none { IfOk result (λ top. IfNone top (reverse frames.new.items ≡ [])) }
{
    while let Some(top) = frames.pop() {
        if top.left > 0 {
            return Ok(Some(top));
        }
        put(text, closing_ascii(top.closing))?;
    }
    Ok(None)
}

/// Closes all frames.
pub fn close_all(mut frames: Vec<Frame>, text: &mut Vec<u16>) -> Result<(), AllocError>
    ensures { OnOk result ((name : Leaf ℕ → Name) → text.new.items ≡ text.old.items
        ++ pending name (reverse frames.items) []) }
{
    while let Some(top) = frames.pop() {
        put(text, closing_ascii(top.closing))?;
    }
    Ok(())
}
