//! The types of constructors.

ghost use Rattle.std.specs.Prelude.{◌≡◌, ◌++◌, ◌∷◌, [], codes, map, slice_get, IfOk, OnOk, IfSome, IfNone};
ghost use Rattle.elm_canon.specs.Tree.{field_types_of, RecordType, Variable};
ghost use Rattle.elm_type.specs.Types.{Name as PlainName};
ghost use Rattle.elm_canon.specs.Unions.{alternatives, tuple_alternative};
ghost use Rattle.elm_canon.specs.View.{annotation_view, field_type_view, types_view};
ghost use Rattle.elm_canon.specs.View.{union_declaration_view, alias_declaration_view};
ghost use Rattle.type_items.specs.Modules.{alias_makers, function_to, record_maker, union_makers, union_type};
ghost use Rattle.infer.specs.Known.{as_scheme, maker_at};
ghost use Rattle.infer.specs.Named.{named_views};

use crate::named::{Named, push_annotated};
use canon_type::copying::copy;
use elm_base::names::Name;
use elm_base::units::Units;
use elm_canon::tree::{AliasDeclaration, Annotation, FieldType, Fields, UnionDeclaration};
use elm_canon::unions::{Alternative, Union, UnionShape};
use std::alloc::{AllocError, Global};

/// `()`
const UNIT: [u16; 2] = [40, 41];

/// `,`
const TUPLE: [u16; 1] = [44];

/// `[]`
const NIL: [u16; 2] = [91, 93];

/// `::`
const CONS: [u16; 2] = [58, 58];

/// The name of these units.
fn name_of(alloc: Global, units: &[u16]) -> Result<Name, AllocError>
    ensures { IfOk result (λ name. name ≡ units.now) }
{
    let mut copy = Vec::with_capacity(alloc, units.len())?;
    copy.extend_from_slice(units)?;
    Name::new(alloc, Units::from_vec(copy))
}

/// One name.
fn one_name(alloc: Global, name: Name) -> Result<Vec<Name>, AllocError>
    ensures { IfOk result (λ names. names.items ≡ name ∷ []) }
{
    let mut names = Vec::new(alloc);
    names.push(name)?;
    Ok(names)
}

/// The name of the constructor of tuples of so many parts.
fn tuple_name(alloc: Global, count: usize) -> Result<Name, AllocError>
    ensures { IfOk result (λ name. name ≡ (tuple_alternative count).name) }
{
    if count == 0 {
        return name_of(alloc, UNIT.as_slice());
    }
    name_of(alloc, TUPLE.as_slice())
}

/// The names of the constructors of lists.
fn list_names(alloc: Global) -> Result<Vec<Name>, AllocError>
    ensures { IfOk result (λ names. names.items ≡ codes "[]" ∷ codes "::" ∷ []) }
{
    let nil = name_of(alloc, NIL.as_slice())?;
    let cons = name_of(alloc, CONS.as_slice())?;
    let mut names = Vec::new(alloc);
    names.push(nil)?;
    names.push(cons)?;
    Ok(names)
}

/// The names of constructors.
fn names_of(alloc: Global, makers: &[Alternative]) -> Result<Vec<Name>, AllocError>
    ensures { IfOk result (λ names. names.items ≡ map (λ c. c.name) makers.now) }
{
    let mut names = Vec::new(alloc);
    for maker in makers {
        names.push(maker.name.clone()?)?;
    }
    Ok(names)
}

/// The names of the constructors of a union, in declared order.
fn maker_names(alloc: Global, union: &Union) -> Result<Vec<Name>, AllocError>
    ensures { IfOk result (λ names. names.items ≡ map (λ c. c.name) (alternatives union.now)) }
{
    match union.shape() {
        UnionShape::Tuple(count) => {
            let name = tuple_name(alloc, *count)?;
            one_name(alloc, name)
        }
        UnionShape::List => list_names(alloc),
        UnionShape::Declared(_, _, makers) => names_of(alloc, makers),
    }
}

/// The types once more.
fn copies(alloc: Global, types: &[Annotation]) -> Result<Vec<Annotation>, AllocError>
    ensures { IfOk result (λ v. map annotation_view v.items ≡ map annotation_view types.now) }
{
    let mut copies = Vec::new(alloc);
    for each in types {
        copies.push(copy(alloc, each)?)?;
    }
    Ok(copies)
}

/// The types of fields once more.
fn field_copies(alloc: Global, fields: &[FieldType]) -> Result<Vec<Annotation>, AllocError>
    ensures { IfOk result (λ v. map annotation_view v.items ≡ map (λ f. f.1) (map field_type_view fields.now)) }
{
    let mut copies = Vec::new(alloc);
    for field in fields {
        copies.push(copy(alloc, &field.field_type)?)?;
    }
    Ok(copies)
}

/// The type of a function of parameters of these types and of what it makes.
fn maker_type(parameters: Vec<Annotation>, made: Annotation) -> Result<Annotation, AllocError>
    ensures { IfOk result (λ t. annotation_view t
        ≡ function_to (types_view parameters.items) (annotation_view made)) }
{
    let mut types = parameters;
    types.push(made)?;
    Ok(Annotation::Function(types))
}

/// Variables of these names.
fn variables(alloc: Global, names: &[Name]) -> Result<Vec<Annotation>, AllocError>
    ensures { IfOk result (λ v. map annotation_view v.items ≡ map (λ a. Variable a) names.now) }
{
    let mut variables = Vec::new(alloc);
    for name in names {
        variables.push(Annotation::Variable(name.clone()?))?;
    }
    Ok(variables)
}

/// The type that a union makes, with its parameters as variables.
fn made_type(alloc: Global, home: &Name, union: &UnionDeclaration) -> Result<Annotation, AllocError>
    ensures { IfOk result (λ t. annotation_view t ≡ union_type home.now (union_declaration_view union.now)) }
{
    let variables = variables(alloc, &union.parameters)?;
    let home = home.clone()?;
    let name = union.name.clone()?;
    Ok(Annotation::Named(home, name, variables))
}

/// Adds a constructor of a union with its type.
fn push_maker(
    alloc: Global,
    home: &Name,
    union: &UnionDeclaration,
    name: &Name,
    fields: &Fields,
    found: &mut Vec<Named>,
) -> Result<(), AllocError>
    ensures { OnOk result (named_views found.new.items ≡ named_views found.old.items
        ++ as_scheme (
          name.now,
          function_to (types_view fields.now.types.items)
              (union_type home.now (union_declaration_view union.now)),
        ) ∷ []) }
{
    let parameters = copies(alloc, &fields.types)?;
    let made = made_type(alloc, home, union)?;
    let written = maker_type(parameters, made)?;
    push_annotated(alloc, name, &written, found)
}

/// Adds the constructor of this number of a union with its type, if the union has so many.
fn push_at(
    alloc: Global,
    home: &Name,
    union: &UnionDeclaration,
    name: &Name,
    number: usize,
    found: &mut Vec<Named>,
) -> Result<(), AllocError>
    ensures { OnOk result (named_views found.new.items ≡ named_views found.old.items
        ++ map as_scheme (maker_at (union_type home.now (union_declaration_view union.now)) name.now
        (slice_get (union_declaration_view union.now).fields number))) }
{
    match union.fields.get(number) {
        Some(fields) => push_maker(alloc, home, union, name, fields, found),
        None => Ok(()),
    }
}

/// Adds the constructors of a union of the module `home` with their types.
pub(crate) fn push_union(
    alloc: Global,
    home: &Name,
    union: &UnionDeclaration,
    found: &mut Vec<Named>,
) -> Result<(), AllocError>
    ensures { OnOk result (named_views found.new.items ≡ named_views found.old.items
        ++ map as_scheme (union_makers home.now (union_declaration_view union.now))) }
{
    let names = maker_names(alloc, &union.union)?;
    for number in 0..names.len() {
        push_at(alloc, home, union, &names[number], number, found)?;
    }
    Ok(())
}

/// The fields of a type that is a closed record. None: it is not.
fn record_fields(t: &Annotation) -> Option<&[FieldType]>
    ensures found { IfSome result (λ fields. annotation_view t.now
        ≡ RecordType (field_types_of (map field_type_view fields.now))) }
    ensures none { IfNone result ((x : PlainName) → record_maker x (annotation_view t.now) ≡ []) }
{
    match t {
        Annotation::Variable(_) => None,
        Annotation::Named(_, _, _) => None,
        Annotation::Function(types) => match types.as_slice() {
            [] => None,
            [only] => record_fields(only),
            [_, _, ..] => None,
        },
        Annotation::Tuple(_) => None,
        Annotation::Record(base, fields) => match base {
            None => Some(fields.as_slice()),
            Some(_) => None,
        },
        Annotation::Shared(shared) => record_fields(shared),
    }
}

/// Adds the constructor of records of an alias with its type. There is none if the type is no closed record.
fn push_record(
    alloc: Global,
    name: &Name,
    body: &Annotation,
    found: &mut Vec<Named>,
) -> Result<(), AllocError>
    ensures { OnOk result (named_views found.new.items ≡ named_views found.old.items
        ++ map as_scheme (record_maker name.now (annotation_view body.now))) }
{
    match record_fields(body) {
        Some(fields) => {
            let parameters = field_copies(alloc, fields)?;
            let made = copy(alloc, body)?;
            let written = maker_type(parameters, made)?;
            push_annotated(alloc, name, &written, found)
        }
        None => Ok(()),
    }
}

/// Adds the constructor of an alias with its type, if it has one.
pub(crate) fn push_alias(
    alloc: Global,
    alias: &AliasDeclaration,
    found: &mut Vec<Named>,
) -> Result<(), AllocError>
    ensures { OnOk result (named_views found.new.items ≡ named_views found.old.items
        ++ map as_scheme (alias_makers (alias_declaration_view alias.now))) }
{
    if alias.is_maker {
        push_record(alloc, &alias.name, &alias.body, found)
    } else {
        Ok(())
    }
}
