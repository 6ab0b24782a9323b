//! What is known of the definitions of a block while they are walked.

ghost use Rattle.std.specs.Prelude.{◌≡◌, ◌<◌, ◌^◌, ◌+◌, ◌++◌, ◌∷◌, [], None, List, length, map, filter_map, IfOk, OnOk};
ghost use Rattle.std.specs.List.{All};
ghost use Rattle.decl_groups.specs.Groups.{plain};
ghost use Rattle.elm_tree.specs.Tree as tree;
ghost use Rattle.elm_tree.specs.View.{definition_view};
ghost use Rattle.elm_tree.specs.Turns.{tokens_view};
ghost use Rattle.elm_canon.specs.Tree as canon;
ghost use Rattle.elm_canon.specs.View.{group_view};
ghost use Rattle.canon_env.specs.Naming as naming;
ghost use Rattle.canon_env.specs.Sites.{Site};
ghost use Rattle.canon_expr.specs.Logs.{Grows};
ghost use Rattle.canon_expr.specs.declared.log.Log as logs;
ghost use Rattle.canon_expr.specs.Binding.{bound_by_each, used_definition, defined_in};
ghost use Rattle.canon_expr.specs.Blocks.{groups_in, reaching_sites};
ghost use Rattle.canon_expr.specs.Kept.{Binds, made_view};

use crate::binders::Binders;
use crate::groups::groups_of;
use crate::items::put;
use crate::log::Log;
use crate::made::Made;
use crate::order::Order;
use crate::reaching::note_reaching;
use elm_canon::tree::{Annotation, Group};
use elm_lexer::token::Token;
use elm_tree::tree::Definition;
use std::alloc::{AllocError, Global};

/// The definitions of a block that were walked so far.
#[derive(Drop)]
pub(crate) struct Gathered {
    binders: Binders,
    /// For each the places of those that it uses.
    uses: Vec<Vec<u32>>,
    /// What each means.
    made: Vec<Made>,
    /// The annotation that stands before the next one.
    pub(crate) before: Option<Annotation>,
}

/// The definitions of a block at its end.
#[derive(Drop)]
struct Ended {
    uses: Vec<Vec<u32>>,
    made: Vec<Made>,
}

impl Gathered {
    /// None of these definitions yet.
    pub(crate) fn new(
        alloc: Global,
        tokens: &[Token<'_>],
        definitions: &[Definition],
    ) -> Result<Gathered, AllocError>
        ensures binds { IfOk result (λ g. Binds g.binders (bound_by_each
            (tree.definitions_of (map (definition_view (tokens_view tokens.now)) definitions.now)))) }
        ensures count { OnOk result (length definitions.now < 2 ^ 32) }
        ensures uses { IfOk result (λ g. g.uses.items ≡ []) }
        ensures made { IfOk result (λ g. g.made.items ≡ []) }
        ensures before { IfOk result (λ g. g.before ≡ None) }
    {
        Ok(Gathered {
            binders: Binders::of(alloc, tokens, definitions)?,
            uses: Vec::new(alloc),
            made: Vec::new(alloc),
            before: None,
        })
    }

    /// Adds what the next definition means. Its sites were noted in the log since it had `start` uses.
    pub(crate) fn add(
        &mut self,
        alloc: Global,
        log: &Log,
        start: usize,
        made: Made,
    ) -> Result<(), AllocError>
        ensures uses { OnOk result ((each : List (List tree.Word)) (w : naming.World) (old : logs.Log)
            (sites : List Site) → Binds self.old.binders each → length old.uses.items ≡ start → Grows w old log.now sites
            → plain self.new.uses.items ≡ plain self.old.uses.items ++ filter_map (used_definition w each) sites ∷ []) }
        ensures within { OnOk result ((each : List (List tree.Word)) → Binds self.old.binders each
            → All (λ row. All (λ j. j < length each) row.items) self.old.uses.items
            → All (λ row. All (λ j. j < length each) row.items) self.new.uses.items) }
        ensures count { OnOk result (length self.new.uses.items ≡ length self.old.uses.items + 1) }
        ensures made { OnOk result (self.new.made.items ≡ self.old.made.items ++ made ∷ []) }
        ensures binders { OnOk result (self.new.binders ≡ self.old.binders) }
        ensures before { OnOk result (self.new.before ≡ self.old.before) }
    {
        put(&mut self.made, made)?;
        let used = self.binders.used_since(alloc, log, start)?;
        put(&mut self.uses, used)?;
        Ok(())
    }

    /// No definition follows.
    fn end(self) -> Ended
        ensures uses { result.uses.items ≡ self.uses.items }
        ensures made { result.made.items ≡ self.made.items }
    {
        Ended {
            uses: self.uses,
            made: self.made,
        }
    }

    /// The groups of the definitions, which are all of those of the block. Those that reach themselves are noted.
    pub(crate) fn finish(
        self,
        alloc: Global,
        tokens: &[Token<'_>],
        log: &mut Log,
        definitions: &[Definition],
    ) -> Result<Vec<Group>, AllocError>
        requires count { length self.uses.items < 2 ^ 32 }
        requires places { All (λ row. All (λ j. j < length self.uses.items) row.items) self.uses.items }
        requires all { length self.uses.items ≡ length definitions.now }
        ensures groups { IfOk result (λ v. canon.groups_of (map group_view v.items)
            ≡ groups_in (plain self.uses.items) (map made_view self.made.items)) }
        ensures log { OnOk result ((w : naming.World) → Grows w log.old log.new (reaching_sites (plain self.uses.items)
            (defined_in (tree.definitions_of (map (definition_view (tokens_view tokens.now)) definitions.now))))) }
    {
        let Ended { uses, made } = self.end();
        let order = Order::of(alloc, &uses)?;
        note_reaching(alloc, tokens, log, &order, definitions)?;
        groups_of(alloc, &order, made)
    }
}
