//! The unions that a module declares.

ghost use Rattle.std.specs.Prelude.{◌≡◌, ◌++◌, List, map, option_map, flat_map, IfOk, OnOk};
ghost use Rattle.elm_lexer.specs.Tokens as lexed;
ghost use Rattle.elm_tree.specs.View.{declaration_view};
ghost use Rattle.elm_tree.specs.Turns.{tokens_view};
ghost use Rattle.elm_canon.specs.Unions.{Declared};
ghost use Rattle.elm_canon.specs.View.{union_declaration_view};
ghost use Rattle.canon_env.specs.Shown.{unions_view};
ghost use Rattle.canon_env.specs.Naming as naming;
ghost use Rattle.canon_env.specs.Naming.{IsWorld};
ghost use Rattle.canon_type.specs.Unions.{union_in, unions_in, union_of, bare_union, union_faults};
ghost use Rattle.canon_type.specs.CanonDeclaredKept.{union_view};

use crate::constructors::{alternatives_of, fields_of, names_of};
use canon_env::env::World;
use canon_env::finding::Finding;
use canon_env::import::word_name;
use elm_base::names::Name;
use elm_canon::tree::UnionDeclaration;
use elm_canon::unions::{Alternative, Union, UnionShape};
use elm_lexer::token::Token;
use elm_tree::tree::{Constructor, Declaration, Word};
use std::alloc::{AllocError, Global};
use std::sync::Arc;

/// A union as it is written.
#[derive(Clone, Copy)]
struct WrittenUnion<'a> {
    name: Word,
    parameters: &'a [Word],
    constructors: &'a [Constructor],
}

/// The union that a declaration is, if it is one.
fn union_in(declaration: &Declaration) -> Option<WrittenUnion<'_>>
    ensures { (tokens : List lexed.Token) → option_map (union_view tokens) result
        ≡ union_in (declaration_view tokens declaration.now) }
{
    match declaration {
        Declaration::Value(_) => None,
        Declaration::Port(_, _) => None,
        Declaration::Union(name, parameters, constructors) => Some(WrittenUnion {
            name: *name,
            parameters,
            constructors,
        }),
        Declaration::Alias(_, _, _) => None,
    }
}

/// The union of the module `home` that has this name and these constructors.
fn declared_union(
    alloc: Global,
    home: &Name,
    name: &Name,
    alternatives: Vec<Alternative>,
) -> Result<Union, AllocError>
    ensures { IfOk result (λ u. u ≡ Declared home.now name.now alternatives.items) }
{
    let home = home.clone()?;
    let name = name.clone()?;
    Union::new(alloc, UnionShape::Declared(home, name, alternatives))
}

/// What a written union of the module `home` is. The faults in the types of its fields are added to `findings`.
fn union_of(
    alloc: Global,
    tokens: &[Token<'_>],
    home: &Name,
    world: &World,
    written: &WrittenUnion<'_>,
    findings: &mut Vec<Finding>,
) -> Result<UnionDeclaration, AllocError>
    ensures union { IfOk result (λ u. (w : naming.World) → IsWorld world.now w → union_declaration_view u
        ≡ union_of home.now w (union_view (tokens_view tokens.now) written.now)) }
    ensures faults { OnOk result ((w : naming.World) → IsWorld world.now w → findings.new.items
        ≡ findings.old.items ++ union_faults w (union_view (tokens_view tokens.now) written.now)) }
{
    let name = word_name(alloc, tokens, written.name)?;
    let alternatives = alternatives_of(alloc, tokens, home, &name, written.constructors)?;
    let union = declared_union(alloc, home, &name, alternatives)?;
    let parameters = names_of(alloc, tokens, written.parameters)?;
    let fields = fields_of(alloc, tokens, world, written.constructors, findings)?;
    Ok(UnionDeclaration {
        name,
        union,
        parameters,
        fields,
    })
}

/// A written union of the module `home` without its constructors.
fn bare_union_of(
    alloc: Global,
    tokens: &[Token<'_>],
    home: &Name,
    written: &WrittenUnion<'_>,
) -> Result<UnionDeclaration, AllocError>
    ensures { IfOk result (λ u. union_declaration_view u
        ≡ bare_union home.now (union_view (tokens_view tokens.now) written.now)) }
{
    let name = word_name(alloc, tokens, written.name)?;
    let union = declared_union(alloc, home, &name, Vec::new(alloc))?;
    let parameters = names_of(alloc, tokens, written.parameters)?;
    Ok(UnionDeclaration {
        name,
        union,
        parameters,
        fields: Vec::new(alloc),
    })
}

/// The unions among the declarations `declarations` of the module `home`, in written order, without their constructors.
/// The declarations are of the text of the tokens `tokens`. The error means that memory ran out.
pub fn bare_unions(
    alloc: Global,
    tokens: &[Token<'_>],
    home: &Name,
    declarations: &[Declaration],
) -> Result<Vec<Arc<UnionDeclaration, Global>>, AllocError>
    ensures { IfOk result (λ v. unions_view v.items
        ≡ map (bare_union home.now) (unions_in (map (declaration_view (tokens_view tokens.now)) declarations.now))) }
{
    let mut unions = Vec::new(alloc);
    for declaration in declarations {
        match union_in(declaration) {
            Some(written) => {
                let union = bare_union_of(alloc, tokens, home, &written)?;
                unions.push(Arc::new(alloc, union)?)?;
            }
            None => {}
        }
    }
    Ok(unions)
}

/// The unions among the declarations `declarations` of the module `home`, in written order, where names mean what
/// `world` says. The declarations are of the text of the tokens `tokens`. The faults in the types of their fields are
/// added to `findings`, in the order of their sites. The error means that memory ran out; so it does where a union has
/// 2 ^ 32 constructors or more.
pub fn declared_unions(
    alloc: Global,
    tokens: &[Token<'_>],
    home: &Name,
    world: &World,
    declarations: &[Declaration],
    findings: &mut Vec<Finding>,
) -> Result<Vec<Arc<UnionDeclaration, Global>>, AllocError>
    ensures unions { IfOk result (λ v. (w : naming.World) → IsWorld world.now w → unions_view v.items
        ≡ map (union_of home.now w) (unions_in (map (declaration_view (tokens_view tokens.now)) declarations.now))) }
    ensures faults { OnOk result ((w : naming.World) → IsWorld world.now w → findings.new.items ≡ findings.old.items
        ++ flat_map (union_faults w) (unions_in (map (declaration_view (tokens_view tokens.now)) declarations.now))) }
{
    let mut unions = Vec::new(alloc);
    for declaration in declarations {
        match union_in(declaration) {
            Some(written) => {
                let union = union_of(alloc, tokens, home, world, &written, findings)?;
                unions.push(Arc::new(alloc, union)?)?;
            }
            None => {}
        }
    }
    Ok(unions)
}
