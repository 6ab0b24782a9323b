//! Imports: of which module, with which qualifier, and what is exposed without one.

ghost use Rattle.std.specs.Prelude.{◌≡◌, ◌++◌, List, [], ◌∷◌, map, unwrap_or, IfOk, OnOk};
ghost use Rattle.elm_lexer.specs.Tokens as lexed;
ghost use Rattle.elm_tree.specs.View as tree;
ghost use Rattle.elm_tree.specs.Turns.{tokens_view};
ghost use Rattle.canon_env.specs.Imports as spec;

use elm_base::names::Name;
use elm_base::units;
use elm_lexer::token::{Kind, Token};
use elm_tree::tree;
use elm_tree::tree::Word;
use elm_tree::turns::text_at;
use std::alloc::{AllocError, Global};

/// What is exposed by name.
#[derive(Drop)]
pub enum Exposed {
    Value(Name),
    /// `T`
    Type(Name),
    /// `T(..)`
    OpenType(Name),
    /// `(+)`
    Operator(Name),
}

/// What is exposed.
#[derive(Drop)]
pub enum Exposing {
    Everything,
    These(Vec<Exposed>),
}

/// An import.
#[derive(Drop)]
pub struct Import {
    /// The module.
    pub home: Name,
    /// The qualifier: the module's alias, or its name if it has none.
    pub qualifier: Name,
    pub exposes: Exposing,
}

/// The name that the word `word` spells in the text of the tokens `tokens`. The error means that memory ran out.
#[tactic(auto, unfolding(crate::specs::Imports::name_of))]
pub fn word_name(alloc: Global, tokens: &[Token<'_>], word: Word) -> Result<Name, AllocError>
    ensures { IfOk result (λ name. name ≡ spec.name_of (tree.word_view (tokens_view tokens.now) word)) }
{
    let text = String::from_utf8_lossy(alloc, text_at(tokens, word))?;
    Name::of_text(alloc, text.as_str())
}

/// What one entry of a header or an import exposes.
pub(crate) fn exposed_name(
    alloc: Global,
    tokens: &[Token<'_>],
    entry: &tree::Exposed,
) -> Result<Exposed, AllocError>
    ensures { IfOk result (λ exposed. exposed
        ≡ spec.exposed_of (tree.exposed_view (tokens_view tokens.now) entry.now)) }
{
    let name = word_name(alloc, tokens, entry.name)?;
    match kind_at(tokens, entry.name) {
        Kind::UpperName => {
            if entry.is_open {
                Ok(Exposed::OpenType(name))
            } else {
                Ok(Exposed::Type(name))
            }
        }
        Kind::Operator => Ok(Exposed::Operator(name)),
        _ => Ok(Exposed::Value(name)),
    }
}

/// The kind of the token that a word is. Past the tokens stands an empty name.
fn kind_at(tokens: &[Token<'_>], word: Word) -> Kind
    ensures { result ≡ (tree.token_view (tokens_view tokens.now) word).kind }
{
    match tokens.get(word.index as usize) {
        Some(token) => token.kind,
        None => Kind::LowerName,
    }
}

/// What entries of a header or an import expose.
fn exposed_names(
    alloc: Global,
    tokens: &[Token<'_>],
    entries: &[tree::Exposed],
) -> Result<Vec<Exposed>, AllocError>
    ensures { IfOk result (λ v. v.items
        ≡ map spec.exposed_of (map (tree.exposed_view (tokens_view tokens.now)) entries.now)) }
{
    let mut names = Vec::new(alloc);
    for entry in entries {
        names.push(exposed_name(alloc, tokens, entry)?)?;
    }
    Ok(names)
}

/// What a header or an import of the text of the tokens `tokens` exposes that has `exposes` there. The error means that
/// memory ran out.
pub fn exposing_names(
    alloc: Global,
    tokens: &[Token<'_>],
    exposes: &tree::Exposing,
) -> Result<Exposing, AllocError>
    ensures { IfOk result (λ e. spec.exposing_view e
        ≡ spec.exposing_of (tree.exposing_view (tokens_view tokens.now) exposes.now)) }
{
    match exposes {
        tree::Exposing::Everything => Ok(Exposing::Everything),
        tree::Exposing::These(entries) => {
            Ok(Exposing::These(exposed_names(alloc, tokens, entries)?))
        }
    }
}

/// The word of the qualifier: that of the module's alias, or of its name if it has none.
fn qualifier_word(import: &tree::Import) -> Word
    ensures { (tokens : List lexed.Token) → tree.word_view tokens result
        ≡ unwrap_or (tree.import_view tokens import.now).alias (tree.import_view tokens import.now).name }
{
    match import.alias {
        Some(alias) => alias,
        None => import.name,
    }
}

impl Import {
    /// The import that is written as `import` in the text of the tokens `tokens`. The error means that memory ran out.
    pub fn read(
        alloc: Global,
        tokens: &[Token<'_>],
        import: &tree::Import,
    ) -> Result<Import, AllocError>
        ensures { IfOk result (λ i. spec.import_view i
            ≡ spec.import_of (tree.import_view (tokens_view tokens.now) import.now)) }
    {
        Ok(Import {
            home: word_name(alloc, tokens, import.name)?,
            qualifier: word_name(alloc, tokens, qualifier_word(import))?,
            exposes: exposing_names(alloc, tokens, &import.exposes)?,
        })
    }
}

/// An import of the module with the name `home`.
fn import_named(
    alloc: Global,
    home: &str,
    qualifier: &str,
    exposes: Exposing,
) -> Result<Import, AllocError>
    ensures { IfOk result (λ i. spec.import_view i
        ≡ spec.import_named home.now qualifier.now (spec.exposing_view exposes)) }
{
    Ok(Import {
        home: Name::of_text(alloc, home)?,
        qualifier: Name::of_text(alloc, qualifier)?,
        exposes,
    })
}

/// Exposes one thing.
fn only(alloc: Global, exposed: Exposed) -> Result<Exposing, AllocError>
    ensures { IfOk result (λ e. spec.exposing_view e ≡ spec.only exposed) }
{
    let mut exposes = Vec::new(alloc);
    exposes.push(exposed)?;
    Ok(Exposing::These(exposes))
}

/// Adds the import of the module with the name `home`.
fn push_named(
    alloc: Global,
    imports: &mut Vec<Import>,
    home: &str,
    qualifier: &str,
    exposes: Exposing,
) -> Result<(), AllocError>
    ensures { OnOk result (map spec.import_view imports.new.items ≡ map spec.import_view imports.old.items
        ++ spec.import_named home.now qualifier.now (spec.exposing_view exposes) ∷ []) }
{
    imports.push(import_named(alloc, home, qualifier, exposes)?)?;
    Ok(())
}

/// Adds an import of a module that exposes nothing.
fn push_qualified(alloc: Global, imports: &mut Vec<Import>, home: &str) -> Result<(), AllocError>
    ensures { OnOk result (map spec.import_view imports.new.items ≡ map spec.import_view imports.old.items
        ++ spec.qualified home.now ∷ []) }
{
    push_named(alloc, imports, home, home, Exposing::These(Vec::new(alloc)))
}

/// Adds an import of a module that exposes a type without constructors.
fn push_with_type(
    alloc: Global,
    imports: &mut Vec<Import>,
    home: &str,
    qualifier: &str,
    name: &str,
) -> Result<(), AllocError>
    ensures { OnOk result (map spec.import_view imports.new.items ≡ map spec.import_view imports.old.items
        ++ spec.with_type home.now qualifier.now name.now ∷ []) }
{
    let exposes = only(alloc, Exposed::Type(Name::of_text(alloc, name)?))?;
    push_named(alloc, imports, home, qualifier, exposes)
}

/// Adds an import of a module that exposes the type of its name with its constructors.
fn push_with_makers(alloc: Global, imports: &mut Vec<Import>, home: &str) -> Result<(), AllocError>
    ensures { OnOk result (map spec.import_view imports.new.items ≡ map spec.import_view imports.old.items
        ++ spec.with_makers home.now ∷ []) }
{
    let exposes = only(alloc, Exposed::OpenType(Name::of_text(alloc, home)?))?;
    push_named(alloc, imports, home, home, exposes)
}

/// Adds the default imports from that of `Char` on.
fn push_more_imports(alloc: Global, imports: &mut Vec<Import>) -> Result<(), AllocError>
    ensures { OnOk result (map spec.import_view imports.new.items ≡ map spec.import_view imports.old.items
        ++ spec.more_imports) }
{
    push_with_type(alloc, imports, "Char", "Char", "Char")?;
    push_qualified(alloc, imports, "Tuple")?;
    push_qualified(alloc, imports, "Debug")?;
    push_with_type(alloc, imports, "Platform", "Platform", "Program")?;
    push_with_type(alloc, imports, "Platform.Cmd", "Cmd", "Cmd")?;
    push_with_type(alloc, imports, "Platform.Sub", "Sub", "Sub")?;
    Ok(())
}

/// Adds the default imports.
fn push_default_imports(alloc: Global, imports: &mut Vec<Import>) -> Result<(), AllocError>
    ensures { OnOk result (map spec.import_view imports.new.items ≡ map spec.import_view imports.old.items
        ++ spec.default_imports) }
{
    push_named(alloc, imports, "Basics", "Basics", Exposing::Everything)?;
    push_with_type(alloc, imports, "List", "List", "List")?;
    push_with_makers(alloc, imports, "Maybe")?;
    push_with_makers(alloc, imports, "Result")?;
    push_with_type(alloc, imports, "String", "String", "String")?;
    push_more_imports(alloc, imports)?;
    Ok(())
}

/// The imports that each module has without writing them. The error means that memory ran out.
pub fn default_imports(alloc: Global) -> Result<Vec<Import>, AllocError>
    ensures { IfOk result (λ v. map spec.import_view v.items ≡ spec.default_imports) }
{
    let mut imports = Vec::new(alloc);
    push_default_imports(alloc, &mut imports)?;
    Ok(imports)
}
