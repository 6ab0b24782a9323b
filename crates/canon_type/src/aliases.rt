//! The aliases of a module as they are written.

ghost use Rattle.std.specs.Prelude.{◌≡◌, List, map, option_map, IfOk};
ghost use Rattle.elm_lexer.specs.Tokens as lexed;
ghost use Rattle.elm_tree.specs.View.{declaration_view};
ghost use Rattle.canon_type.specs.Written.{alias_in, aliases_in};
ghost use Rattle.canon_type.specs.Kept.{alias_view, aliases_view};

use elm_tree::tree::{Declaration, TypeTree, Word};
use std::alloc::{AllocError, Global};

/// An alias as it is written.
#[derive(Clone, Copy)]
pub struct WrittenAlias<'a> {
    pub name: Word,
    pub parameters: &'a [Word],
    pub body: &'a TypeTree,
}

/// The alias that a declaration is, if it is one.
fn alias_of(declaration: &Declaration) -> Option<WrittenAlias<'_>>
    ensures { (tokens : List lexed.Token) → option_map (alias_view tokens) result
        ≡ alias_in (declaration_view tokens declaration.now) }
{
    match declaration {
        Declaration::Value(_) => None,
        Declaration::Port(_, _) => None,
        Declaration::Union(_, _, _) => None,
        Declaration::Alias(name, parameters, body) => Some(WrittenAlias {
            name: *name,
            parameters,
            body,
        }),
    }
}

/// The aliases among the declarations `declarations`, in written order. The error means that memory ran out.
pub fn aliases_of(
    alloc: Global,
    declarations: &[Declaration],
) -> Result<Vec<WrittenAlias<'_>>, AllocError>
    ensures { IfOk result (λ v. (tokens : List lexed.Token) → aliases_view tokens v.items
        ≡ aliases_in (map (declaration_view tokens) declarations.now)) }
{
    let mut aliases = Vec::new(alloc);
    for declaration in declarations {
        match alias_of(declaration) {
            Some(alias) => aliases.push(alias)?,
            None => {}
        }
    }
    Ok(aliases)
}
