//! What was found.

ghost use Rattle.std.specs.Prelude.{◌≡◌, [], ◌∷◌, Some};
ghost use Rattle.elm_parser.specs.Faults.{fault_if, lone};
ghost use Rattle.elm_parser.specs.Scan.{found_view, earlier, first_among, is_before, finding_view};
ghost use Rattle.elm_parser.specs.Standing.{number_of};

use elm_base::fault::Code;
use parse_machine::table::Token;

/// A fault: which token, and what is wrong with it.
#[derive(Clone, Copy)]
pub struct Finding {
    pub index: u32,
    pub code: Code,
}

/// The number of a code of these faults, by which two at one place are ordered.
fn number_of(code: Code) -> u8
    ensures { result ≡ number_of code }
{
    match code {
        Code::TooDeep => 8,
        Code::MixedOperators => 35,
        Code::TupleTooLarge => 36,
        Code::LoneAnnotation => 37,
        _ => 3,
    }
}

fn is_before(first: Finding, second: Finding) -> bool
    ensures { result ≡ is_before (finding_view first) (finding_view second) }
{
    if first.index < second.index {
        return true;
    }
    first.index == second.index && number_of(first.code) < number_of(second.code)
}

/// The first of what was found and one more.
fn earlier(found: Option<Finding>, more: Finding) -> Finding
    ensures { Some (finding_view result) ≡ earlier (found_view found) (finding_view more) }
{
    match found {
        Some(finding) if !is_before(more, finding) => finding,
        _ => more,
    }
}

/// What was found, and the fault at the token if it has it.
pub(crate) fn note(
    found: Option<Finding>,
    has: bool,
    token: Token,
    code: Code,
    ended: bool,
) -> Option<Finding>
    ensures { found_view result ≡ first_among ended (found_view found) (fault_if has token code) }
{
    if !has {
        return found;
    }
    Some(earlier(
        found,
        Finding {
            index: token.index,
            code,
        },
    ))
}

/// What was found, and the annotation that stands alone, as a token decides or the end of the text.
pub(crate) fn note_lone(
    found: Option<Finding>,
    annotated: Token,
    by: Option<Token>,
    ended: bool,
) -> Option<Finding>
    ensures { found_view result ≡ first_among ended (found_view found) (lone annotated by) }
{
    if by.is_none() && !ended {
        return found;
    }
    Some(earlier(
        found,
        Finding {
            index: annotated.index,
            code: Code::LoneAnnotation,
        },
    ))
}
