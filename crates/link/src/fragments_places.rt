//! Where ports and values are declared.

ghost use Rattle.std.specs.Prelude.{◌≡◌, ◌∷◌, [], List, map, flat_map, IfOk};
ghost use Rattle.elm_canon.specs.Tree.{functions_of, PortDeclaration as PlainPort};
ghost use Rattle.elm_canon.specs.View.{declaration_view, function_view, group_view, port_declaration_view};
ghost use Rattle.link.specs.Made as spec;
ghost use Rattle.link.specs.Made.{place_in, placed_values, group_values, titled};
ghost use Rattle.link.specs.Found.{IsPlaces};

use elm_base::names::Name;
use elm_base::position::Pos;
use elm_canon::reference::{Ref, same_ref};
use elm_canon::tree::{Declaration, Function, Group, Known, PortDeclaration, Title};
use indexmap::IndexMap;
use std::alloc::{AllocError, Global};

/// Where ports are declared, by their names.
#[derive(Drop)]
pub(crate) struct Places {
    by_name: IndexMap<Name, Pos>,
}

/// The start of a text.
pub(crate) const START: Pos = Pos { row: 1, column: 1 };

impl Places {
    /// The places of the ports `ports`. Of several of one name the first one counts.
    pub(crate) fn of(alloc: Global, ports: &[PortDeclaration]) -> Result<Places, AllocError>
        ensures { IfOk result (λ p. IsPlaces p (map port_declaration_view ports.now)) }
    {
        let mut by_name = IndexMap::new(alloc);
        for k in (0..ports.len()).rev() {
            let port = &ports[k];
            by_name.insert(port.name.clone()?, port.place)?;
        }
        Ok(Places { by_name })
    }

    /// Where the port `name` is declared.
    pub(crate) fn find(&self, name: &Name) -> Pos
        ensures { (ports : List PlainPort) → IsPlaces self.now ports → result ≡ spec.port_place ports name.now }
    {
        match self.by_name.get(name) {
            Some(place) => *place,
            None => START,
        }
    }
}

/// Where one of the functions has that name.
fn place_in_functions(functions: &[Function], name: &Ref) -> Option<Pos>
    ensures { result ≡ place_in name.now (titled (functions_of (map function_view functions.now))) }
{
    for function in functions {
        if same_ref(&function.title.name, name) {
            return Some(function.title.place);
        }
    }
    None
}

/// The same of all functions of a group.
fn place_in_all(functions: &Vec<Function>, name: &Ref) -> Option<Pos>
    ensures { result ≡ place_in name.now (titled (functions_of (map function_view functions.now.items))) }
{
    place_in_functions(functions, name)
}

/// Where a title stands, if it is that of the value `name`.
fn place_in_title(title: &Title, name: &Ref) -> Option<Pos>
    ensures { result ≡ place_in name.now ((title.now.name, title.now.place) ∷ []) }
{
    if same_ref(&title.name, name) {
        Some(title.place)
    } else {
        None
    }
}

/// Where a group defines the value `name`, if it does.
fn place_in_group(group: &Group, name: &Ref) -> Option<Pos>
    ensures { result ≡ place_in name.now (group_values (group_view group.now)) }
{
    match group {
        Group::Together(functions) => place_in_all(functions, name),
        Group::Constant(title, _) => place_in_title(title, name),
        Group::Destructure(_, _) => None,
    }
}

/// Where the port `port` is declared, which is the value `given`, if that is the value `name`.
fn place_in_port(places: &Places, given: &Ref, port: &Name, name: &Ref) -> Option<Pos>
    ensures { (ports : List PlainPort) → IsPlaces places.now ports
        → result ≡ place_in name.now ((given.now, spec.port_place ports port.now) ∷ []) }
{
    if same_ref(given, name) {
        Some(places.find(port))
    } else {
        None
    }
}

/// Where a declaration declares the value `name`, if it does.
fn place_in_declaration(places: &Places, declaration: &Declaration, name: &Ref) -> Option<Pos>
    ensures { (ports : List PlainPort) → IsPlaces places.now ports
        → result ≡ place_in name.now (placed_values ports (declaration_view declaration.now)) }
{
    match declaration {
        Declaration::Given(given, Known::OutPort(port, _) | Known::InPort(port, _)) => {
            place_in_port(places, given, port, name)
        }
        Declaration::Given(_, Known::Maker(_) | Known::RecordMaker(_)) => None,
        Declaration::Define(group) => place_in_group(group, name),
    }
}

/// Where one of the declarations declares the value `name`.
pub(crate) fn place_of(places: &Places, declarations: &[Declaration], name: &Ref) -> Option<Pos>
    ensures { (ports : List PlainPort) → IsPlaces places.now ports
        → result ≡ place_in name.now (flat_map (placed_values ports) (map declaration_view declarations.now)) }
{
    for declaration in declarations {
        if let Some(place) = place_in_declaration(places, declaration, name) {
            return Some(place);
        }
    }
    None
}
