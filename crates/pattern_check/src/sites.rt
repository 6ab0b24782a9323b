//! The faults of one `case`, and of patterns that stand alone.

ghost use Rattle.std.specs.Prelude.{◌≡◌, ◌∷◌, ◌++◌, [], map, get_or, IfOk, OnOk};
ghost use Rattle.elm_canon.specs.Tree.{Anything, branches_of};
ghost use Rattle.elm_canon.specs.View.{pattern_view, patterns_view, branch_view};
ghost use Rattle.canon_env.specs.Sites.{utf8};
ghost use Rattle.pattern_check.specs.Sites as spec;
ghost use Rattle.pattern_check.specs.Sites.{branch_patterns, sole_sites};
ghost use Rattle.pattern_check.specs.Faults as faults;

use crate::check::{missing_text, redundant};
use canon_env::finding::Finding;
use elm_base::fault::Code;
use elm_base::position::Pos;
use elm_base::text::Text;
use elm_base::units::Units;
use elm_canon::tree::{Branch, Pattern};
use std::alloc::{AllocError, Global};

/// Where the pattern begins, which stands at `here` if it does not say.
#[tactic(auto, using(elm_canon::proofs::Views::anything_pattern, elm_canon::proofs::Views::named_pattern, elm_canon::proofs::Views::as_pattern, elm_canon::proofs::Views::exact_pattern, elm_canon::proofs::Views::construct_pattern, elm_canon::proofs::Views::pattern_of_tuple, elm_canon::proofs::Views::list_pattern, elm_canon::proofs::Views::items_pattern, elm_canon::proofs::Views::fields_pattern, elm_canon::proofs::Views::located_pattern, crate::proofs::Placing::list_place))]
fn place_of(here: Pos, pattern: &Pattern) -> Pos
    ensures { result ≡ faults.place_of here (pattern_view pattern.now) }
{
    match pattern {
        Pattern::Located(place, _) => *place,
        Pattern::Items(items, rest) => {
            if items.len() == 0 {
                place_of(here, rest)
            } else {
                here
            }
        }
        Pattern::Anything
        | Pattern::Named(_)
        | Pattern::As(_, _)
        | Pattern::Exactly(_)
        | Pattern::Construct(_, _, _)
        | Pattern::Tuple(_)
        | Pattern::List(_)
        | Pattern::Fields(_) => here,
    }
}

/// The text in UTF-8.
fn utf8_of(alloc: Global, text: &Units) -> Result<Text, AllocError>
    ensures { IfOk result (λ t. t ≡ utf8 text.now) }
{
    let text = String::from_utf16_lossy(alloc, text.as_slice())?;
    Text::copy(alloc, text.as_bytes())
}

/// Adds the fault of what the patterns leave out, if they do.
fn push_missing(
    alloc: Global,
    code: Code,
    place: Pos,
    patterns: &[&Pattern],
    findings: &mut Vec<Finding>,
) -> Result<(), AllocError>
    ensures { OnOk result (findings.new.items ≡ findings.old.items
        ++ faults.missing_faults code place (map pattern_view (map (λ p. p.now) patterns.now))) }
{
    match missing_text(alloc, patterns)? {
        None => Ok(()),
        Some(text) => {
            let detail = utf8_of(alloc, &text)?;
            findings.push(Finding {
                code,
                place,
                detail,
            })?;
            Ok(())
        }
    }
}

/// Where the pattern with that number begins, or `here`.
fn place_at(here: Pos, patterns: &[&Pattern], number: usize) -> Pos
    ensures { result ≡ faults.place_of here
        (get_or (map pattern_view (map (λ p. p.now) patterns.now)) number Anything) }
{
    if number < patterns.len() {
        place_of(here, patterns[number])
    } else {
        here
    }
}

/// The fault of the redundant pattern with that number.
fn redundant_at(alloc: Global, here: Pos, patterns: &[&Pattern], number: usize) -> Finding
    ensures { result ≡ faults.redundant_fault here (map pattern_view (map (λ p. p.now) patterns.now)) number }
{
    Finding {
        code: Code::RedundantPattern,
        place: place_at(here, patterns, number),
        detail: Text::empty(alloc),
    }
}

/// Adds the faults of the patterns that earlier ones cover.
fn push_redundant(
    alloc: Global,
    here: Pos,
    patterns: &[&Pattern],
    findings: &mut Vec<Finding>,
) -> Result<(), AllocError>
    ensures { OnOk result (findings.new.items ≡ findings.old.items
        ++ faults.redundant_faults here (map pattern_view (map (λ p. p.now) patterns.now))) }
{
    let numbers = redundant(alloc, patterns)?;
    push_each(alloc, here, patterns, &numbers, findings)
}

/// Adds the faults of the redundant patterns with these numbers.
fn push_each(
    alloc: Global,
    here: Pos,
    patterns: &[&Pattern],
    numbers: &[usize],
    findings: &mut Vec<Finding>,
) -> Result<(), AllocError>
    ensures { OnOk result (findings.new.items ≡ findings.old.items
        ++ map (faults.redundant_fault here (map pattern_view (map (λ p. p.now) patterns.now))) numbers.now) }
{
    for number in numbers {
        findings.push(redundant_at(alloc, here, patterns, *number))?;
    }
    Ok(())
}

/// The patterns of branches.
fn patterns_of<'a>(alloc: Global, branches: &'a [Branch]) -> Result<Vec<&'a Pattern>, AllocError>
    ensures { IfOk result (λ qs. map pattern_view (map (λ q. q.now) qs.items)
        ≡ branch_patterns (branches_of (map branch_view branches.now))) }
{
    let mut patterns = Vec::new(alloc);
    for branch in branches {
        patterns.push(&branch.pattern)?;
    }
    Ok(patterns)
}

/// Adds the faults of a `case` that stands at `here` with these branches: what its patterns leave out, and the branches
/// that earlier ones cover. The error means that memory ran out.
#[tactic(auto, unfolding(crate::specs::Faults::faults_at))]
pub fn push_choice(
    alloc: Global,
    here: Pos,
    branches: &[Branch],
    findings: &mut Vec<Finding>,
) -> Result<(), AllocError>
    ensures { OnOk result (findings.new.items ≡ findings.old.items
        ++ faults.faults_at (spec.Choice here (branch_patterns (branches_of (map branch_view branches.now))))) }
{
    let patterns = patterns_of(alloc, branches)?;
    push_missing(alloc, Code::MissingPatterns, here, &patterns, findings)?;
    push_redundant(alloc, here, &patterns, findings)
}

/// Adds the fault of a pattern that has to take every value, if it does not. It stands at `here` if it does not say
/// where. The error means that memory ran out.
#[tactic(auto, unfolding(crate::specs::Faults::faults_at))]
pub fn push_sole(
    alloc: Global,
    here: Pos,
    pattern: &Pattern,
    findings: &mut Vec<Finding>,
) -> Result<(), AllocError>
    ensures { OnOk result (findings.new.items ≡ findings.old.items
        ++ faults.faults_at (spec.Sole here (pattern_view pattern.now))) }
{
    let place = place_of(here, pattern);
    let mut alone = Vec::new(alloc);
    alone.push(pattern)?;
    push_missing(alloc, Code::PartialParameter, place, &alone, findings)
}

/// Adds the faults of patterns that each have to take every value. Each stands at `here` if it does not say where. The
/// error means that memory ran out.
pub fn push_soles(
    alloc: Global,
    here: Pos,
    patterns: &[Pattern],
    findings: &mut Vec<Finding>,
) -> Result<(), AllocError>
    ensures { OnOk result (findings.new.items ≡ findings.old.items
        ++ faults.faults (sole_sites here (patterns_view patterns.now))) }
{
    for pattern in patterns {
        push_sole(alloc, here, pattern, findings)?;
    }
    Ok(())
}
