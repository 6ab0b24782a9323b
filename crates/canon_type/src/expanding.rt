//! The aliases of a module, declared one after the other.

ghost use Rattle.std.specs.Prelude.{◌≡◌, ◌++◌, ◌∷◌, [], ◌<◌, ℕ, List, false, true, length, map, IfOk};
ghost use Rattle.std.specs.Prelude.{None, replicate, OnOk, ◌^◌};
ghost use Rattle.std.specs.List.{All, Contains};
ghost use Rattle.elm_lexer.specs.Tokens as lexed;
ghost use Rattle.elm_tree.specs.View.{type_view, declaration_view};
ghost use Rattle.elm_tree.specs.Turns.{tokens_view};
ghost use Rattle.elm_canon.specs.Names.{Name};
ghost use Rattle.elm_canon.specs.View.{annotation_view, alias_declaration_view};
ghost use Rattle.decl_groups.specs.Groups.{Uses, IsReady, Ascends, IsOrder};
ghost use Rattle.decl_groups.specs.InOrder.{uses_itself, is_recursive};
ghost use Rattle.decl_groups.specs.View.{members_of, marks_of, joined};
ghost use Rattle.canon_env.specs.Env.{Rows, IsEnvOf};
ghost use Rattle.canon_env.specs.Shown.{alias_meaning};
ghost use Rattle.canon_env.specs.Naming.{IsWorld};
ghost use Rattle.canon_env.specs.Expanding.{blank};
ghost use Rattle.canon_type.specs.Written.{alias_names, aliases_in, union_names_in};
ghost use Rattle.canon_type.specs.Recursion.{place_of_name};
ghost use Rattle.canon_type.specs.Kept.{Keeps, AreNames, alias_view, aliases_view};
ghost use Rattle.canon_type.specs.Types.{is_record, standing_for, body_of};
ghost use Rattle.canon_type.specs.CanonAliasesKept.{is_place, with_first, Setting, IsSetting, IsExpanding, uses_in, alias_at};
ghost use Rattle.canon_type.specs.CanonAliasesKept.{world_with, AreExpanded};

use crate::aliases::{WrittenAlias, aliases_of};
use crate::annotation::annotation;
use crate::constructors::names_of;
use crate::heights::check_heights;
use crate::outcomes::{let_go, when_done};
use crate::uses::{OwnNames, uses_of};
use canon_env::env::{World, no_name};
use canon_env::import::word_name;
use canon_env::shown::TypeMeaning;
use decl_groups::{Group, ordered_groups};
use elm_base::names::Name;
use elm_canon::tree::{AliasDeclaration, Annotation};
use elm_lexer::token::Token;
use elm_tree::tree::{Declaration, TypeTree};
use std::alloc::{AllocError, Global};
use std::sync::Arc;

/// The world of a module so far, and its aliases that are declared so far, by their places.
#[derive(Drop)]
pub struct Expansion {
    pub world: World,
    pub made: Vec<Option<Arc<AliasDeclaration, Global>>>,
}

/// Whether a closed record is written.
fn is_record(written: &TypeTree) -> bool
    ensures { (tokens : List lexed.Token) → result ≡ is_record (type_view tokens written.now) }
{
    match written {
        TypeTree::Variable(_) => false,
        TypeTree::Named(_, _) => false,
        TypeTree::Function(_) => false,
        TypeTree::Tuple(_) => false,
        TypeTree::Record(base, _) => match base {
            None => true,
            Some(_) => false,
        },
    }
}

/// An alias that stands for a type, which its uses share.
fn standing_for(
    alloc: Global,
    tokens: &[Token<'_>],
    alias: &WrittenAlias<'_>,
    body: Annotation,
) -> Result<AliasDeclaration, AllocError>
    ensures { IfOk result (λ d. alias_declaration_view d
        ≡ standing_for (alias_view (tokens_view tokens.now) alias.now) (annotation_view body)) }
{
    let shared = Arc::new(alloc, body)?;
    let name = word_name(alloc, tokens, alias.name)?;
    let parameters = names_of(alloc, tokens, alias.parameters)?;
    Ok(AliasDeclaration {
        name,
        parameters,
        body: Annotation::Shared(shared),
        is_maker: is_record(alias.body),
    })
}

/// Whether the alias at a place is the first of its name, which no union has.
fn is_first(names: &OwnNames, name: &Name, place: u32) -> bool
    ensures { (unions aliases : List Name) → Keeps names.now unions aliases
        → result ≡ is_place place (place_of_name unions aliases name.now) }
{
    match names.place_of_name(name) {
        Some(found) => found == place,
        None => false,
    }
}

/// Adds an alias to a world, if it is the first of its name.
fn enter(
    alloc: Global,
    world: &mut World,
    home: &Name,
    is_first: bool,
    name: Name,
    alias: &Arc<AliasDeclaration, Global>,
) -> Result<(), AllocError>
    ensures own { OnOk result ((rows : Rows) → IsEnvOf world.old.own rows → IsEnvOf world.new.own
        (with_first is_first rows home.now name (alias_meaning (alias_declaration_view alias.now.value)))) }
    ensures imported { OnOk result (world.new.imported ≡ world.old.imported) }
{
    if !is_first {
        return Ok(());
    }
    let meaning = TypeMeaning::Alias(Arc::try_clone(alias)?);
    world.own.add_type(alloc, home, name, meaning)
}

/// The type of what has no meaning.
fn blank(alloc: Global) -> Result<Annotation, AllocError>
    ensures { IfOk result (λ t. annotation_view t ≡ blank) }
{
    Ok(Annotation::Variable(no_name(alloc)?))
}

impl Expansion {
    /// Declares the alias at a place, which stands for the type `body`.
    fn add(
        &mut self,
        alloc: Global,
        tokens: &[Token<'_>],
        home: &Name,
        names: &OwnNames,
        place: u32,
        alias: &WrittenAlias<'_>,
        body: Annotation,
    ) -> Result<(), AllocError>
        requires { place < length self.old.made.items }
        ensures count { OnOk result (length self.new.made.items ≡ length self.old.made.items) }
        ensures expanding { OnOk result ((s : Setting) (placed : List ℕ) → IsSetting s → s.home ≡ home.now
            → Keeps names.now s.names (alias_names s.aliases)
            → (h : IsExpanding s self.old.world self.old.made.items placed)
            → alias_at s place ≡ alias_view (tokens_view tokens.now) alias.now
            → annotation_view body ≡ body_of (world_with s h.added) (uses_in s) place (alias_at s place).body
            → (Contains placed place → ⊥)
            → (uses_itself (uses_in s) place ≡ false → (j : ℕ) → Uses (uses_in s) place j → Contains placed j)
            → IsExpanding s self.new.world self.new.made.items (placed ++ place ∷ [])) }
    {
        let declared = standing_for(alloc, tokens, alias, body)?;
        let name = declared.name.clone()?;
        let first = is_first(names, &name, place);
        let shared = Arc::new(alloc, declared)?;
        enter(alloc, &mut self.world, home, first, name, &shared)?;
        self.made[place as usize] = Some(shared);
        Ok(())
    }

    /// Declares the alias at a place, which does not reach itself and whose uses are declared.
    fn expand(
        &mut self,
        alloc: Global,
        tokens: &[Token<'_>],
        home: &Name,
        names: &OwnNames,
        place: u32,
        alias: &WrittenAlias<'_>,
    ) -> Result<(), AllocError>
        requires { place < length self.old.made.items }
        ensures count { OnOk result (length self.new.made.items ≡ length self.old.made.items) }
        ensures expanding { OnOk result ((s : Setting) (placed : List ℕ) → IsSetting s → s.home ≡ home.now
            → Keeps names.now s.names (alias_names s.aliases)
            → IsExpanding s self.old.world self.old.made.items placed
            → alias_at s place ≡ alias_view (tokens_view tokens.now) alias.now
            → (Contains placed place → ⊥) → uses_itself (uses_in s) place ≡ false
            → ((j : ℕ) → Uses (uses_in s) place j → Contains placed j)
            → IsExpanding s self.new.world self.new.made.items (placed ++ place ∷ [])) }
    {
        let mut unused = Vec::new(alloc);
        let body = annotation(alloc, tokens, &self.world, alias.body, &mut unused)?;
        self.add(alloc, tokens, home, names, place, alias, body)
    }

    /// Declares the alias at a place, which reaches itself, so that it has no meaning.
    fn add_blank(
        &mut self,
        alloc: Global,
        tokens: &[Token<'_>],
        home: &Name,
        names: &OwnNames,
        place: u32,
        alias: &WrittenAlias<'_>,
    ) -> Result<(), AllocError>
        requires { place < length self.old.made.items }
        ensures count { OnOk result (length self.new.made.items ≡ length self.old.made.items) }
        ensures expanding { OnOk result ((s : Setting) (placed : List ℕ) → IsSetting s → s.home ≡ home.now
            → Keeps names.now s.names (alias_names s.aliases)
            → IsExpanding s self.old.world self.old.made.items placed
            → alias_at s place ≡ alias_view (tokens_view tokens.now) alias.now
            → (Contains placed place → ⊥) → uses_itself (uses_in s) place ≡ true
            → IsExpanding s self.new.world self.new.made.items (placed ++ place ∷ [])) }
    {
        let body = blank(alloc)?;
        self.add(alloc, tokens, home, names, place, alias, body)
    }

    /// Declares the aliases at places, which reach themselves.
    fn add_blanks(
        &mut self,
        alloc: Global,
        tokens: &[Token<'_>],
        home: &Name,
        names: &OwnNames,
        aliases: &[WrittenAlias<'_>],
        places: &[u32],
    ) -> Result<(), AllocError>
        requires count { length self.old.made.items ≡ length aliases.now }
        requires within { All (λ i. i < length aliases.now) places.now }
        ensures count { OnOk result (length self.new.made.items ≡ length aliases.now) }
        ensures expanding { OnOk result ((s : Setting) (placed : List ℕ) → IsSetting s → s.home ≡ home.now
            → Keeps names.now s.names (alias_names s.aliases)
            → s.aliases ≡ aliases_view (tokens_view tokens.now) aliases.now
            → IsExpanding s self.old.world self.old.made.items placed → Ascends places.now
            → ((i : ℕ) → Contains places.now i → Contains placed i → ⊥)
            → ((i : ℕ) → Contains places.now i → uses_itself (uses_in s) i ≡ true)
            → IsExpanding s self.new.world self.new.made.items (placed ++ places.now)) }
    {
        for place in places {
            self.add_blank(
                alloc,
                tokens,
                home,
                names,
                *place,
                &aliases[*place as usize],
            )?;
        }
        Ok(())
    }

    /// Declares the aliases of a group, after those that they use.
    fn add_group(
        &mut self,
        alloc: Global,
        tokens: &[Token<'_>],
        home: &Name,
        names: &OwnNames,
        aliases: &[WrittenAlias<'_>],
        group: &Group,
    ) -> Result<(), AllocError>
        requires count { length self.old.made.items ≡ length aliases.now }
        requires within { All (λ i. i < length aliases.now) group.now.members.items }
        ensures count { OnOk result (length self.new.made.items ≡ length aliases.now) }
        ensures expanding { OnOk result ((s : Setting) (placed : List ℕ) → IsSetting s → s.home ≡ home.now
            → Keeps names.now s.names (alias_names s.aliases)
            → s.aliases ≡ aliases_view (tokens_view tokens.now) aliases.now
            → IsExpanding s self.old.world self.old.made.items placed
            → IsReady (uses_in s) placed group.now.members.items
            → group.now.is_recursive ≡ is_recursive (uses_in s) group.now.members.items
            → IsExpanding s self.new.world self.new.made.items (placed ++ group.now.members.items)) }
    {
        if group.is_recursive {
            return self.add_blanks(alloc, tokens, home, names, aliases, &group.members);
        }
        match group.members.as_slice() {
            [only] => self.expand(alloc, tokens, home, names, *only, &aliases[*only as usize]),
            _ => Ok(()),
        }
    }

    /// Declares the aliases of groups, which stand in order of use.
    fn add_groups(
        &mut self,
        alloc: Global,
        tokens: &[Token<'_>],
        home: &Name,
        names: &OwnNames,
        aliases: &[WrittenAlias<'_>],
        groups: &[Group],
    ) -> Result<(), AllocError>
        requires count { length self.old.made.items ≡ length aliases.now }
        requires within { All (λ g. All (λ i. i < length aliases.now) g.members.items) groups.now }
        ensures { OnOk result ((s : Setting) → IsSetting s → s.home ≡ home.now
            → Keeps names.now s.names (alias_names s.aliases)
            → s.aliases ≡ aliases_view (tokens_view tokens.now) aliases.now
            → IsExpanding s self.old.world self.old.made.items []
            → IsOrder (uses_in s) [] (members_of groups.now)
            → marks_of groups.now ≡ map (is_recursive (uses_in s)) (members_of groups.now)
            → IsExpanding s self.new.world self.new.made.items (joined (members_of groups.now))) }
    {
        for group in groups {
            self.add_group(alloc, tokens, home, names, aliases, group)?;
        }
        Ok(())
    }
}

/// So many aliases, none of which is declared.
fn none_made(
    alloc: Global,
    count: usize,
) -> Result<Vec<Option<Arc<AliasDeclaration, Global>>>, AllocError>
    ensures { IfOk result (λ v. v.items ≡ replicate count None) }
{
    let mut made = Vec::with_capacity(alloc, count)?;
    for _ in 0..count {
        made.push(None)?;
    }
    Ok(made)
}

impl Expansion {
    /// Declares these aliases, each after those that it uses. `names` has them.
    fn add_named(
        &mut self,
        alloc: Global,
        tokens: &[Token<'_>],
        home: &Name,
        names: &OwnNames,
        aliases: &[WrittenAlias<'_>],
    ) -> Result<(), AllocError>
        requires count { length aliases.now < 2 ^ 32 }
        requires names { AreNames names.now (alias_names (aliases_view (tokens_view tokens.now) aliases.now)) }
        ensures { OnOk result ((s : Setting) → IsSetting s → s.home ≡ home.now
            → Keeps names.now s.names (alias_names s.aliases)
            → s.aliases ≡ aliases_view (tokens_view tokens.now) aliases.now
            → IsWorld self.old.world (world_with s []) → AreExpanded s self.new.world self.new.made.items) }
    {
        let uses = uses_of(alloc, tokens, names, aliases)?;
        let groups = ordered_groups(alloc, &uses)?;
        check_heights(alloc, &uses, &groups)?;
        let made = none_made(alloc, aliases.len())?;
        self.made = made;
        self.add_groups(alloc, tokens, home, names, aliases, &groups)?;
        Ok(())
    }

    /// Declares these aliases, which are all among the declarations.
    fn add_written(
        &mut self,
        alloc: Global,
        tokens: &[Token<'_>],
        home: &Name,
        declarations: &[Declaration],
        aliases: &[WrittenAlias<'_>],
    ) -> Result<(), AllocError>
        ensures { OnOk result ((s : Setting) → IsSetting s → s.home ≡ home.now
            → s.names ≡ union_names_in (map (declaration_view (tokens_view tokens.now)) declarations.now)
            → s.aliases ≡ aliases_view (tokens_view tokens.now) aliases.now
            → IsWorld self.old.world (world_with s []) → AreExpanded s self.new.world self.new.made.items) }
    {
        match OwnNames::of(alloc, tokens, declarations, aliases) {
            Ok(names) => {
                let done = self.add_named(alloc, tokens, home, &names, aliases);
                let_go(names);
                done
            }
            Err(e) => Err(e),
        }
    }

    /// Declares the aliases among declarations, each after those that it uses.
    fn add_all(
        &mut self,
        alloc: Global,
        tokens: &[Token<'_>],
        home: &Name,
        declarations: &[Declaration],
    ) -> Result<(), AllocError>
        ensures { OnOk result ((s : Setting) → IsSetting s → s.home ≡ home.now
            → s.names ≡ union_names_in (map (declaration_view (tokens_view tokens.now)) declarations.now)
            → s.aliases ≡ aliases_in (map (declaration_view (tokens_view tokens.now)) declarations.now)
            → IsWorld self.old.world (world_with s []) → AreExpanded s self.new.world self.new.made.items) }
    {
        match aliases_of(alloc, declarations) {
            Ok(aliases) => self.add_written(alloc, tokens, home, declarations, &aliases),
            Err(e) => Err(e),
        }
    }
}

/// The aliases among the declarations `declarations` of the module `home`, each expanded after those that it uses, and
/// the world in which they are declared. Before it, `world` has the unions and what is imported. The declarations are
/// of the text of the tokens `tokens`. The error means that memory ran out; so it does where there are 2 ^ 32 aliases
/// or more, or where more than 4,096 of them stand for each other in turn.
pub fn expanded_aliases(
    alloc: Global,
    tokens: &[Token<'_>],
    home: &Name,
    world: World,
    declarations: &[Declaration],
) -> Result<Expansion, AllocError>
    ensures { IfOk result (λ e. (s : Setting) → IsSetting s → s.home ≡ home.now
        → s.names ≡ union_names_in (map (declaration_view (tokens_view tokens.now)) declarations.now)
        → s.aliases ≡ aliases_in (map (declaration_view (tokens_view tokens.now)) declarations.now)
        → IsWorld world (world_with s []) → AreExpanded s e.world e.made.items) }
{
    let mut expansion = Expansion {
        world,
        made: Vec::new(alloc),
    };
    let done = expansion.add_all(alloc, tokens, home, declarations);
    when_done(done, expansion)
}
