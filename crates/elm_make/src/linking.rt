//! Modules that are all good, as a link takes them.

ghost use Rattle.std.specs.Prelude.{◌≡◌, length, map, option_map, IfOk};
ghost use Rattle.std.specs.List.{zip};
ghost use Rattle.std.specs.Str.Lossy.{utf8_lossy};
ghost use Rattle.elm_base.specs.Units.{text_units};
ghost use Rattle.link.specs.FragmentsView.{fragment_view};
ghost use Rattle.link.specs.View as linked;
ghost use Rattle.project_parts.specs.Modules as build;
ghost use Rattle.project_parts.specs.Outcomes as outcome;
ghost use Rattle.project_parts.specs.View.{part_view};
ghost use Rattle.elm_make.specs.ProjectCompileView.{value_view};

use elm_base::names::Name;
use elm_base::text::Text;
use link::fragment::Fragment;
use link::part::Part as LinkedPart;
use module_compile::made::Made;
use project_parts::Part;
use std::alloc::{AllocError, Global};

/// The name of a module, by its units.
fn home_of(alloc: Global, name: &Text) -> Result<Name, AllocError>
    ensures { IfOk result (λ home. home ≡ text_units (utf8_lossy name.now)) }
{
    let text = String::from_utf8_lossy(alloc, name.as_bytes())?;
    Name::of_text(alloc, text.as_str())
}

/// A module with this fragment, as a link takes it.
fn with_fragment<'a>(
    alloc: Global,
    part: &Part<'_>,
    fragment: &'a Fragment,
) -> Result<LinkedPart<'a>, AllocError>
    ensures { IfOk result (λ q. linked.part_view q ≡ record {
      name = build.home_of (part_view part.now);
      path = (part_view part.now).module_.source.path;
      fragment = fragment_view fragment.now;
    }) }
{
    Ok(LinkedPart {
        name: home_of(alloc, &part.module.name)?,
        path: String::from_str(alloc, part.module.path.as_str())?,
        fragment,
    })
}

/// A module of this value, as a link takes it, if it is good.
fn linked_part<'a>(
    alloc: Global,
    part: &Part<'_>,
    value: &'a Option<Made>,
) -> Result<Option<LinkedPart<'a>>, AllocError>
    ensures { IfOk result (λ o. option_map linked.part_view o
        ≡ outcome.linked_part (part_view part.now) (value_view value.now)) }
{
    match value {
        Some(Made::Good(_, fragment)) => Ok(Some(with_fragment(alloc, part, fragment)?)),
        Some(Made::Bad(_)) => Ok(None),
        None => Ok(None),
    }
}

/// Modules of these values, as a link takes them, if all are good.
pub(crate) fn linked_parts<'a>(
    alloc: Global,
    parts: &[Part<'_>],
    values: &'a [Option<Made>],
) -> Result<Option<Vec<LinkedPart<'a>>>, AllocError>
    requires { length values.now ≡ length parts.now }
    ensures { IfOk result (λ o. option_map (λ v. map linked.part_view v.items) o
        ≡ outcome.linked_parts (zip (map part_view parts.now) (map value_view values.now))) }
{
    let mut linked = Vec::with_capacity(alloc, parts.len())?;
    for number in 0..parts.len() {
        match linked_part(alloc, &parts[number], &values[number])? {
            Some(one) => linked.push(one)?,
            None => return Ok(None),
        }
    }
    Ok(Some(linked))
}
