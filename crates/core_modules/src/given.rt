//! The types that core modules have without a text, and where these are in scope.

ghost use Rattle.std.specs.Prelude.{◌≡◌, ◌∷◌, ◌++◌, [], codes, map, IfOk, IsOkAnd, OnOk};
ghost use Rattle.elm_canon.specs.Unions.{Declared};
ghost use Rattle.elm_canon.specs.View.{union_declaration_view};
ghost use Rattle.canon_env.specs.Shown.{unions_view};
ghost use Rattle.core_modules.specs.Given.{given_types, given_import, given_imports, given_view, opaque_type};
ghost use Rattle.core_modules.specs.Opaque.{opaque, import_with};

use crate::outcomes::{push_made, push_shared, when_done};
use canon_env::import::{Exposing, Import};
use canon_env::shown::Shown;
use elm_base::names::Name;
use elm_base::units::Units;
use elm_canon::tree::UnionDeclaration;
use elm_canon::unions::{Union, UnionShape};
use std::alloc::{AllocError, Global};
use std::sync::Arc;

/// `Basics`
const BASICS: [u16; 6] = [66, 97, 115, 105, 99, 115];

/// `Int`
const INT: [u16; 3] = [73, 110, 116];

/// `Char`
const CHAR: [u16; 4] = [67, 104, 97, 114];

/// `List`
const LIST: [u16; 4] = [76, 105, 115, 116];

/// `String`
const STRING: [u16; 6] = [83, 116, 114, 105, 110, 103];

/// `a`
const ELEMENT: [u16; 1] = [97];

/// The name of these units.
fn name_of(alloc: Global, units: &[u16]) -> Result<Name, AllocError>
    ensures { IfOk result (λ name. name ≡ units.now) }
{
    let mut copy = Vec::with_capacity(alloc, units.len())?;
    copy.extend_from_slice(units)?;
    Name::new(alloc, Units::from_vec(copy))
}

/// The union `name` of the module `home`, of whose constructors nothing is known.
fn opaque_union(alloc: Global, home: &Name, name: &Name) -> Result<Union, AllocError>
    ensures { IfOk result (λ u. u ≡ Declared home.now name.now []) }
{
    let shape = UnionShape::Declared(home.clone()?, name.clone()?, Vec::new(alloc));
    Union::new(alloc, shape)
}

/// The type `name`, of which nothing but its parameters is known.
fn opaque_type(alloc: Global, name: Name, union: Union, parameters: Vec<Name>) -> UnionDeclaration
    ensures { union_declaration_view result ≡ opaque name union parameters.items }
{
    UnionDeclaration {
        name,
        union,
        parameters,
        fields: Vec::new(alloc),
    }
}

/// Adds the type `name` of the module `home`, of which nothing but its parameters is known.
fn push_type(
    alloc: Global,
    home: &Name,
    name: &[u16],
    parameters: Vec<Name>,
    unions: &mut Vec<Arc<UnionDeclaration, Global>>,
) -> Result<(), AllocError>
    ensures { OnOk result (unions_view unions.new.items
        ≡ unions_view unions.old.items ++ opaque_type home.now name.now parameters.items ∷ []) }
{
    let name = name_of(alloc, name)?;
    let union = opaque_union(alloc, home, &name)?;
    push_shared(alloc, opaque_type(alloc, name, union, parameters), unions)
}

/// Adds the type `List a` of the module `home`.
fn push_list(
    alloc: Global,
    home: &Name,
    unions: &mut Vec<Arc<UnionDeclaration, Global>>,
) -> Result<(), AllocError>
    ensures { OnOk result (unions_view unions.new.items
        ≡ unions_view unions.old.items ++ opaque_type home.now (codes "List") (codes "a" ∷ []) ∷ []) }
{
    let mut parameters = Vec::new(alloc);
    parameters.push(name_of(alloc, &ELEMENT)?)?;
    push_type(alloc, home, &LIST, parameters, unions)
}

/// Adds the types that the module `home` has without a text.
fn push_types(
    alloc: Global,
    home: &Name,
    unions: &mut Vec<Arc<UnionDeclaration, Global>>,
) -> Result<(), AllocError>
    ensures { OnOk result (unions_view unions.new.items ≡ unions_view unions.old.items ++ given_types home.now) }
{
    if home.as_slice() == BASICS.as_slice() {
        push_type(alloc, home, &INT, Vec::new(alloc), unions)
    } else if home.as_slice() == CHAR.as_slice() {
        push_type(alloc, home, &CHAR, Vec::new(alloc), unions)
    } else if home.as_slice() == LIST.as_slice() {
        push_list(alloc, home, unions)
    } else if home.as_slice() == STRING.as_slice() {
        push_type(alloc, home, &STRING, Vec::new(alloc), unions)
    } else {
        Ok(())
    }
}

/// The types that the module `home` has without a text: `Int` of `Basics`, `Char` of `Char`, `List a` of `List` and
/// `String` of `String`. The error means that memory ran out.
pub fn given_types(
    alloc: Global,
    home: &Name,
) -> Result<Vec<Arc<UnionDeclaration, Global>>, AllocError>
    ensures { IfOk result (λ v. unions_view v.items ≡ given_types home.now) }
{
    let mut unions = Vec::new(alloc);
    let done = push_types(alloc, home, &mut unions);
    when_done(done, unions)
}

/// An import that each core module has without writing it, and what it shows.
#[derive(Drop)]
pub struct GivenImport {
    pub import: Import,
    pub shown: Shown,
}

/// The import of all that the module `home` has without a text, if its types are made.
fn import_of(
    alloc: Global,
    home: Name,
    qualifier: Name,
    unions: Result<Vec<Arc<UnionDeclaration, Global>>, AllocError>,
) -> Result<GivenImport, AllocError>
    ensures { IfOk result (λ i. IsOkAnd unions (λ us. given_view i
        ≡ import_with home qualifier (unions_view us.items))) }
{
    match unions {
        Ok(unions) => Ok(GivenImport {
            import: Import {
                home,
                qualifier,
                exposes: Exposing::Everything,
            },
            shown: Shown {
                values: Vec::new(alloc),
                unions,
                aliases: Vec::new(alloc),
            },
        }),
        Err(e) => Err(e),
    }
}

/// Adds the import of all that the module `home` has without a text.
fn push_import(
    alloc: Global,
    home: &[u16],
    imports: &mut Vec<GivenImport>,
) -> Result<(), AllocError>
    ensures { OnOk result (map given_view imports.new.items
        ≡ map given_view imports.old.items ++ given_import home.now ∷ []) }
{
    let home = name_of(alloc, home)?;
    let qualifier = home.clone()?;
    let unions = given_types(alloc, &home);
    push_made(imports, import_of(alloc, home, qualifier, unions))
}

/// Adds the imports that each core module has without writing them.
fn push_imports(alloc: Global, imports: &mut Vec<GivenImport>) -> Result<(), AllocError>
    ensures { OnOk result (map given_view imports.new.items ≡ map given_view imports.old.items ++ given_imports) }
{
    push_import(alloc, &BASICS, imports)?;
    push_import(alloc, &CHAR, imports)?;
    push_import(alloc, &LIST, imports)?;
    push_import(alloc, &STRING, imports)?;
    Ok(())
}

/// The imports that each core module has without writing them: of the types without a text. The error means that memory
/// ran out.
pub fn given_imports(alloc: Global) -> Result<Vec<GivenImport>, AllocError>
    ensures { IfOk result (λ v. map given_view v.items ≡ given_imports) }
{
    let mut imports = Vec::new(alloc);
    let done = push_imports(alloc, &mut imports);
    when_done(done, imports)
}
