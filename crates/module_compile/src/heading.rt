//! The faults of the header and of imports.

ghost use Rattle.std.specs.Prelude.{◌≡◌, ◌++◌, map, flat_map, option_map, IfOk, OnOk};
ghost use Rattle.elm_tree.specs.View.{header_view, head_view, word_view};
ghost use Rattle.elm_tree.specs.View as tree_view;
ghost use Rattle.elm_tree.specs.Turns.{tokens_view};
ghost use Rattle.canon_env.specs.Order.{IsInOrder};
ghost use Rattle.module_made.specs.Around as spec;
ghost use Rattle.module_compile.specs.Parts.{found_view};
ghost use Rattle.module_compile.specs.ModulePhasesView.{around_view};

use crate::imports::Imports;
use canon_env::finding::{Finding, finding_at, place_at};
use canon_env::order::in_order;
use elm_base::fault::Code;
use elm_base::position::Pos;
use elm_base::text::Text;
use elm_lexer::Token;
use elm_tree::tree::{Head, Header, Import, Word};
use elm_tree::turns::text_at;
use import_graph::Found;
use std::alloc::{AllocError, Global};

/// Adds the fault of a module of the name `name` that is written as another.
fn push_mismatch(
    place: Pos,
    written: &[u8],
    name: &Text,
    findings: &mut Vec<Finding>,
) -> Result<(), AllocError>
    ensures { OnOk result (findings.new.items ≡ findings.old.items ++ spec.mismatch_at place written.now name.now) }
{
    if written != name.as_bytes() {
        findings.push(Finding {
            code: Code::NameMismatch,
            place,
            detail: name.clone()?,
        })?;
    }
    Ok(())
}

/// Adds the fault of a header, or of none.
fn push_header_fault(
    tokens: &[Token<'_>],
    name: &Text,
    header: &Option<Header>,
    findings: &mut Vec<Finding>,
) -> Result<(), AllocError>
    ensures { OnOk result (findings.new.items ≡ findings.old.items
        ++ spec.header_faults name.now (option_map (header_view (tokens_view tokens.now)) header.now)) }
{
    match header {
        Some(header) => push_mismatch(
            place_at(tokens, header.name),
            text_at(tokens, header.name),
            name,
            findings,
        ),
        None => push_mismatch(Pos { row: 1, column: 1 }, b"Main", name, findings),
    }
}

/// Adds the fault of an import of which that was found.
fn push_place_fault(
    alloc: Global,
    tokens: &[Token<'_>],
    found: Found,
    word: Word,
    findings: &mut Vec<Finding>,
) -> Result<(), AllocError>
    ensures { OnOk result (findings.new.items ≡ findings.old.items
        ++ spec.place_faults found (word_view (tokens_view tokens.now) word)) }
{
    let code = match found {
        Found::Nowhere => Code::ImportNotFound,
        Found::Core => return Ok(()),
        Found::File => return Ok(()),
        Found::Several => Code::ImportAmbiguous,
    };
    findings.push(finding_at(alloc, tokens, code, word)?)?;
    Ok(())
}

impl Imports {
    /// Which modules have the name.
    #[tactic(auto, unfolding(crate::specs::Parts::found_view))]
    fn found_at(&self, alloc: Global, name: &[u8]) -> Result<Found, AllocError>
        ensures { IfOk result (λ f. f ≡ found_view self.now.found name.now) }
    {
        let text = Text::copy(alloc, name)?;
        match self.found.get(&text) {
            Some(found) => Ok(*found),
            None => Ok(Found::Nowhere),
        }
    }

    /// Adds the fault of an import, if it has one.
    fn push_import_fault(
        &self,
        alloc: Global,
        tokens: &[Token<'_>],
        import: &Import,
        findings: &mut Vec<Finding>,
    ) -> Result<(), AllocError>
        ensures { OnOk result (findings.new.items ≡ findings.old.items ++ spec.import_faults
            (found_view self.now.found) (tree_view.import_view (tokens_view tokens.now) import.now)) }
    {
        let found = self.found_at(alloc, text_at(tokens, import.name))?;
        push_place_fault(alloc, tokens, found, import.name, findings)
    }

    /// Adds the faults of imports.
    fn push_import_faults(
        &self,
        alloc: Global,
        tokens: &[Token<'_>],
        imports: &[Import],
        findings: &mut Vec<Finding>,
    ) -> Result<(), AllocError>
        ensures { OnOk result (findings.new.items ≡ findings.old.items
            ++ flat_map (spec.import_faults (found_view self.now.found))
            (map (tree_view.import_view (tokens_view tokens.now)) imports.now)) }
    {
        for import in imports {
            self.push_import_fault(alloc, tokens, import, findings)?;
        }
        Ok(())
    }

    /// The faults of the header and of the imports of a module, in order.
    #[tactic(auto, unfolding(crate::specs::ModulePhasesView::around_view))]
    pub(crate) fn head_faults(
        &self,
        alloc: Global,
        tokens: &[Token<'_>],
        head: &Head,
    ) -> Result<Vec<Finding>, AllocError>
        ensures { IfOk result (λ v. IsInOrder (spec.head_faults (around_view self.now)
            (head_view (tokens_view tokens.now) head.now)) v.items) }
    {
        let mut findings = Vec::new(alloc);
        push_header_fault(tokens, &self.name, &head.header, &mut findings)?;
        self.push_import_faults(alloc, tokens, &head.imports, &mut findings)?;
        in_order(alloc, findings)
    }
}
