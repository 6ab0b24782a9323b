//! What the names of a module are resolved against.

ghost use Rattle.std.specs.Prelude.{◌≡◌, ◌++◌, [], ◌∷◌, List, map, IfOk, OnOk};
ghost use Rattle.elm_lexer.specs.Tokens as lexed;
ghost use Rattle.elm_tree.specs.View as tree_view;
ghost use Rattle.elm_tree.specs.Turns.{tokens_view};
ghost use Rattle.canon_env.specs.Env.{known_view};
ghost use Rattle.canon_env.specs.Exposing.{written_view};
ghost use Rattle.canon_env.specs.Imports as plain;
ghost use Rattle.canon_env.specs.Imports.{import_view, import_of};
ghost use Rattle.canon_env.specs.Shown.{unions_view};
ghost use Rattle.canon_module.specs.Kept.{setting_view};
ghost use Rattle.canon_expr.specs.Literals.{AreLiterals};
ghost use Rattle.module_made.specs.Around.{setting_of};
ghost use Rattle.module_compile.specs.Parts.{interfaces_view};
ghost use Rattle.module_compile.specs.Settings.{parsed_view, given_view, seen_known, seen_written, known_of};
ghost use Rattle.module_compile.specs.Settings.{written_of, known_before, AreSeen, IsResolved};
ghost use Rattle.module_compile.specs.ModulePhasesView.{around_view};

use crate::imports::Imports;
use crate::outcomes::{boxed, put};
use crate::seen::Seen;
use canon_env::env::Known;
use canon_env::exposing::Written;
use canon_env::import::{Import, default_imports};
use canon_module::module::{Resolved, Setting, resolve};
use core_modules::given::{GivenImport, given_imports, given_types};
use elm_canon::tree::UnionDeclaration;
use elm_lexer::Token;
use elm_parser::Parsed;
use elm_tree::tree;
use module_offers::showing::shown_by;
use std::alloc::{AllocError, Global};
use std::sync::Arc;

impl Imports {
    /// Adds the import `import`, if it is known what its module shows.
    #[tactic(auto, unfolding(crate::specs::Parts::interfaces_view))]
    fn push_known(
        &self,
        alloc: Global,
        import: Import,
        known: &mut Vec<GivenImport>,
    ) -> Result<(), AllocError>
        ensures { OnOk result (map given_view known.new.items ≡ map given_view known.old.items
            ++ known_of (interfaces_view self.now.interfaces) (import_view import ∷ [])) }
    {
        match self.interfaces.get(&import.home) {
            Some(offered) => {
                let shown = shown_by(alloc, &import.home, &offered.interface)?;
                put(known, GivenImport { import, shown })
            }
            None => Ok(()),
        }
    }

    /// The default imports of which it is known what their modules show.
    fn known_defaults(&self, alloc: Global) -> Result<Vec<GivenImport>, AllocError>
        ensures { IfOk result (λ v. map given_view v.items
            ≡ known_of (interfaces_view self.now.interfaces) plain.default_imports) }
    {
        let mut known = Vec::new(alloc);
        for import in default_imports(alloc)? {
            self.push_known(alloc, import, &mut known)?;
        }
        Ok(known)
    }

    /// The imports that the module has without writing them, beside what their modules show.
    #[tactic(auto, unfolding(crate::specs::ModulePhasesView::around_view))]
    fn known_before(&self, alloc: Global) -> Result<Vec<GivenImport>, AllocError>
        ensures { IfOk result (λ v. map given_view v.items ≡ known_before (around_view self.now)) }
    {
        if self.is_core {
            given_imports(alloc)
        } else {
            self.known_defaults(alloc)
        }
    }

    /// The types that the module has without a text.
    #[tactic(auto, unfolding(crate::specs::ModulePhasesView::around_view))]
    fn given(&self, alloc: Global) -> Result<Vec<Arc<UnionDeclaration, Global>>, AllocError>
        ensures { IfOk result (λ v. unions_view v.items ≡ (around_view self.now).given) }
    {
        if self.is_core {
            given_types(alloc, &self.home)
        } else {
            Ok(Vec::new(alloc))
        }
    }

    /// Adds the import that is written, if it is known what its module shows.
    #[tactic(auto, unfolding(crate::specs::Parts::interfaces_view))]
    fn push_seen<'a>(
        &self,
        alloc: Global,
        tokens: &[Token<'_>],
        written: &'a tree::Import,
        seen: &mut Vec<Seen<'a>>,
    ) -> Result<(), AllocError>
        ensures known { OnOk result (map seen_known seen.new.items ≡ map seen_known seen.old.items
            ++ known_of (interfaces_view self.now.interfaces)
            (import_of (tree_view.import_view (tokens_view tokens.now) written.entry.now) ∷ [])) }
        ensures written { OnOk result (map (seen_written (tokens_view tokens.now)) seen.new.items
            ≡ map (seen_written (tokens_view tokens.now)) seen.old.items
            ++ written_of (interfaces_view self.now.interfaces)
            (tree_view.import_view (tokens_view tokens.now) written.entry.now ∷ [])) }
    {
        let read = Import::read(alloc, tokens, written)?;
        match self.interfaces.get(&read.home) {
            Some(offered) => {
                let shown = shown_by(alloc, &read.home, &offered.interface)?;
                put(
                    seen,
                    Seen {
                        written,
                        import: read,
                        shown,
                    },
                )
            }
            None => Ok(()),
        }
    }

    /// The imports that are written, beside what their modules show, as far as that is known.
    fn seen<'a>(
        &self,
        alloc: Global,
        tokens: &[Token<'_>],
        imports: &'a [tree::Import],
    ) -> Result<Vec<Seen<'a>>, AllocError>
        ensures { IfOk result (λ v. AreSeen (interfaces_view self.now.interfaces) (tokens_view tokens.now)
            (map (tree_view.import_view (tokens_view tokens.now)) imports.entry.now) v.items) }
    {
        let mut seen = Vec::with_capacity(alloc, imports.len())?;
        for written in imports {
            self.push_seen(alloc, tokens, written, &mut seen)?;
        }
        Ok(seen)
    }
}

/// Adds imports that are not written, beside what their modules show.
fn push_before<'a>(before: &'a [GivenImport], known: &mut Vec<Known<'a>>) -> Result<(), AllocError>
    ensures { OnOk result (map known_view known.new.items
        ≡ map known_view known.old.items ++ map given_view before.entry.now) }
{
    for given in before {
        put(
            known,
            Known {
                import: &given.import,
                shown: &given.shown,
            },
        )?;
    }
    Ok(())
}

/// Adds imports that are written, beside what their modules show.
fn push_read<'a>(seen: &'a [Seen<'a>], known: &mut Vec<Known<'a>>) -> Result<(), AllocError>
    ensures { OnOk result (map known_view known.new.items
        ≡ map known_view known.old.items ++ map seen_known seen.entry.now) }
{
    for one in seen {
        put(
            known,
            Known {
                import: &one.import,
                shown: &one.shown,
            },
        )?;
    }
    Ok(())
}

/// All imports, beside what their modules show.
fn all_known<'a>(
    alloc: Global,
    before: &'a [GivenImport],
    seen: &'a [Seen<'a>],
) -> Result<Vec<Known<'a>>, AllocError>
    ensures { IfOk result (λ v. map known_view v.items
        ≡ map given_view before.entry.now ++ map seen_known seen.entry.now) }
{
    let mut known = Vec::with_capacity(alloc, before.len())?;
    push_before(before, &mut known)?;
    push_read(seen, &mut known)?;
    Ok(known)
}

/// The imports that are written, as they are written, beside what their modules show.
fn all_written<'a>(alloc: Global, seen: &'a [Seen<'a>]) -> Result<Vec<Written<'a>>, AllocError>
    ensures { IfOk result (λ v. (tokens : List lexed.Token) → map (written_view tokens) v.items
        ≡ map (seen_written tokens) seen.entry.now) }
{
    let mut written = Vec::with_capacity(alloc, seen.len())?;
    for one in seen {
        put(
            &mut written,
            Written {
                import: one.written,
                shown: &one.shown,
            },
        )?;
    }
    Ok(written)
}

/// What the module `parsed` means in the setting.
fn resolved_in(
    alloc: Global,
    setting: &Setting<'_>,
    parsed: &Parsed<'_>,
) -> Result<Box<Resolved>, AllocError>
    requires { AreLiterals (tokens_view parsed.now.tokens.items) }
    ensures { IfOk result (λ r. IsResolved (setting_view (tokens_view parsed.now.tokens.items) setting.now)
        (parsed_view parsed.now) r.value) }
{
    boxed(
        alloc,
        resolve(alloc, &parsed.tokens, setting, &parsed.module),
    )
}

impl Imports {
    /// What the module `parsed` means, by its imports beside what their modules show.
    fn resolved_by(
        &self,
        alloc: Global,
        before: &[GivenImport],
        seen: &[Seen<'_>],
        parsed: &Parsed<'_>,
    ) -> Result<Box<Resolved>, AllocError>
        requires literals { AreLiterals (tokens_view parsed.now.tokens.items) }
        requires before { map given_view before.now ≡ known_before (around_view self.now) }
        requires seen { AreSeen (around_view self.now).interfaces (tokens_view parsed.now.tokens.items)
            (parsed_view parsed.now).head.imports seen.now }
        ensures { IfOk result (λ r. IsResolved (setting_of (around_view self.now) (parsed_view parsed.now))
            (parsed_view parsed.now) r.value) }
    {
        let given = self.given(alloc)?;
        let known = all_known(alloc, before, seen)?;
        let written = all_written(alloc, seen)?;
        let setting = Setting {
            home: &self.home,
            given: &given,
            imports: &known,
            written: &written,
        };
        resolved_in(alloc, &setting, parsed)
    }

    /// What the module `parsed` means, what it shows, and its faults.
    pub(crate) fn resolved(
        &self,
        alloc: Global,
        parsed: &Parsed<'_>,
    ) -> Result<Box<Resolved>, AllocError>
        requires { AreLiterals (tokens_view parsed.now.tokens.items) }
        ensures { IfOk result (λ r. IsResolved (setting_of (around_view self.now) (parsed_view parsed.now))
            (parsed_view parsed.now) r.value) }
    {
        let before = self.known_before(alloc)?;
        let seen = self.seen(alloc, &parsed.tokens, &parsed.module.head.imports)?;
        self.resolved_by(alloc, &before, &seen, parsed)
    }
}
