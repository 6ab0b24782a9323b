//! Aliases that reach themselves.

ghost use Rattle.std.specs.Prelude.{◌≡◌, ◌<◌, ◌^◌, [], ◌∷◌, ◌++◌, ◌||◌, ◌==◌, ℕ, List, false, length, map, IfOk, OnOk};
ghost use Rattle.std.specs.List.{slice_index_or};
ghost use Rattle.decl_groups.specs.InOrder.{is_in};
ghost use Rattle.decl_groups.specs.View.{is_marked};
ghost use Rattle.elm_tree.specs.View.{word_view, declaration_view};
ghost use Rattle.elm_tree.specs.Turns.{tokens_view};
ghost use Rattle.elm_canon.specs.Names.{Name};
ghost use Rattle.canon_type.specs.Written.{alias_names, aliases_in, union_names_in};
ghost use Rattle.canon_type.specs.Recursion.{recursion_faults};
ghost use Rattle.canon_type.specs.Kept.{AreNames, Keeps, aliases_view, marked_faults, fault_if};

use crate::aliases::{WrittenAlias, aliases_of};
use crate::uses::{OwnNames, uses_of};
use canon_env::finding::{Finding, finding_at};
use decl_groups::{Group, ordered_groups};
use elm_base::fault::Code;
use elm_lexer::token::Token;
use elm_tree::tree::{Declaration, Word};
use std::alloc::{AllocError, Global};

/// Marks a place, if there is such a one.
fn mark_one(marks: &mut Vec<bool>, place: u32)
    ensures count { length marks.new.items ≡ length marks.old.items }
    ensures marks { (i : ℕ) → i < length marks.old.items → slice_index_or marks.new.items i false
        ≡ (slice_index_or marks.old.items i false || i == place) }
{
    if marks.len() <= place as usize {
        return;
    }
    marks[place as usize] = true;
}

/// Marks these places.
fn mark_all(marks: &mut Vec<bool>, places: &[u32])
    ensures count { length marks.new.items ≡ length marks.old.items }
    ensures marks { (i : ℕ) → i < length marks.old.items → slice_index_or marks.new.items i false
        ≡ (slice_index_or marks.old.items i false || is_in i places.now) }
{
    for place in places {
        mark_one(marks, *place);
    }
}

/// Marks the members of a group whose definitions use themselves.
fn mark_group(marks: &mut Vec<bool>, group: &Group)
    ensures count { length marks.new.items ≡ length marks.old.items }
    ensures marks { (i : ℕ) → i < length marks.old.items → slice_index_or marks.new.items i false
        ≡ (slice_index_or marks.old.items i false || is_marked (group.now ∷ []) i) }
{
    if !group.is_recursive {
        return;
    }
    mark_all(marks, &group.members);
}

/// Which of so many definitions stand in groups whose definitions use themselves.
fn marks_of(alloc: Global, count: usize, groups: &[Group]) -> Result<Vec<bool>, AllocError>
    ensures count { IfOk result (λ v. length v.items ≡ count) }
    ensures marks { IfOk result (λ v. (i : ℕ) → i < count
        → slice_index_or v.items i false ≡ is_marked groups.now i) }
{
    let mut marks = vec![in alloc; false; count]?;
    for group in groups {
        mark_group(&mut marks, group);
    }
    Ok(marks)
}

/// Adds a fault at the name of an alias, if it is marked.
fn push_if_marked(
    alloc: Global,
    tokens: &[Token<'_>],
    is_marked: bool,
    name: Word,
    findings: &mut Vec<Finding>,
) -> Result<(), AllocError>
    ensures { OnOk result (findings.new.items ≡ findings.old.items
        ++ fault_if is_marked (word_view (tokens_view tokens.now) name)) }
{
    if is_marked {
        findings.push(finding_at(alloc, tokens, Code::AliasRecursion, name)?)?;
        return Ok(());
    }
    Ok(())
}

/// Adds a fault at the name of each alias that is marked.
fn push_marked(
    alloc: Global,
    tokens: &[Token<'_>],
    aliases: &[WrittenAlias<'_>],
    marks: &[bool],
    findings: &mut Vec<Finding>,
) -> Result<(), AllocError>
    requires { length marks.now ≡ length aliases.now }
    ensures { OnOk result (findings.new.items ≡ findings.old.items
        ++ marked_faults marks.now (aliases_view (tokens_view tokens.now) aliases.now)) }
{
    for i in 0..aliases.len() {
        push_if_marked(alloc, tokens, marks[i], aliases[i].name, findings)?;
    }
    Ok(())
}

/// Adds a fault at the name of each of these aliases that reaches itself. `names` has them.
fn push_named(
    alloc: Global,
    tokens: &[Token<'_>],
    names: &OwnNames,
    aliases: &[WrittenAlias<'_>],
    findings: &mut Vec<Finding>,
) -> Result<(), AllocError>
    requires count { length aliases.now < 2 ^ 32 }
    requires names { AreNames names.now (alias_names (aliases_view (tokens_view tokens.now) aliases.now)) }
    ensures { OnOk result ((unions : List Name)
        → Keeps names.now unions (alias_names (aliases_view (tokens_view tokens.now) aliases.now))
        → findings.new.items ≡ findings.old.items
        ++ recursion_faults unions (aliases_view (tokens_view tokens.now) aliases.now)) }
{
    let uses = uses_of(alloc, tokens, names, aliases)?;
    let groups = ordered_groups(alloc, &uses)?;
    let marks = marks_of(alloc, aliases.len(), &groups)?;
    push_marked(alloc, tokens, aliases, &marks, findings)
}

/// Adds a fault at the name of each of these aliases that reaches itself. They are all among the declarations.
fn push_written(
    alloc: Global,
    tokens: &[Token<'_>],
    declarations: &[Declaration],
    aliases: &[WrittenAlias<'_>],
    findings: &mut Vec<Finding>,
) -> Result<(), AllocError>
    ensures { OnOk result (findings.new.items ≡ findings.old.items
        ++ recursion_faults (union_names_in (map (declaration_view (tokens_view tokens.now)) declarations.now))
        (aliases_view (tokens_view tokens.now) aliases.now)) }
{
    match OwnNames::of(alloc, tokens, declarations, aliases) {
        Ok(names) => push_named(alloc, tokens, &names, aliases, findings),
        Err(e) => Err(e),
    }
}

/// Adds a fault at the name of each alias among the declarations `declarations` that reaches itself through aliases,
/// in written order. They are of the text of the tokens `tokens`. The error means that memory ran out; so it does
/// where there are 2 ^ 32 aliases or more.
pub fn push_recursion_faults(
    alloc: Global,
    tokens: &[Token<'_>],
    declarations: &[Declaration],
    findings: &mut Vec<Finding>,
) -> Result<(), AllocError>
    ensures { OnOk result (findings.new.items ≡ findings.old.items
        ++ recursion_faults (union_names_in (map (declaration_view (tokens_view tokens.now)) declarations.now))
        (aliases_in (map (declaration_view (tokens_view tokens.now)) declarations.now))) }
{
    match aliases_of(alloc, declarations) {
        Ok(aliases) => push_written(alloc, tokens, declarations, &aliases, findings),
        Err(e) => Err(e),
    }
}
