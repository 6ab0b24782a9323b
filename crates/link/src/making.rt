//! The fragment of a module.

ghost use Rattle.std.specs.Prelude.{◌≡◌, ◌++◌, Some, List, flat_map, map, option_map, unwrap_or, IfOk, OnOk};
ghost use Rattle.elm_canon.specs.Tree.{PortDeclaration as PlainPort};
ghost use Rattle.elm_canon.specs.View.{declaration_view, module_view, payload_view, port_declaration_view};
ghost use Rattle.elm_type.specs.View.{scheme_view};
ghost use Rattle.js_emit.specs.Codecs.{decoder, flags_decoder};
ghost use Rattle.js_emit.specs.Flags.{flags_view};
ghost use Rattle.js_tree.specs.Text.{js_text};
ghost use Rattle.emit_program.specs.Programs.{core_view};
ghost use Rattle.port_payload.specs.Entry.{entry_view, entry_type as plain_entry};
ghost use Rattle.link.specs.Made as spec;
ghost use Rattle.link.specs.Made.{main_name, fragment_of, place_in, placed_values, start};
ghost use Rattle.link.specs.Named.{named_port};
ghost use Rattle.link.specs.Found.{IsPlaces};
ghost use Rattle.link.specs.Fragments.{IsProgram};
ghost use Rattle.link.specs.FragmentsView.{fragment_view, piece_view, port_view, says_view, main_view};

use crate::fragment::{Fragment, Main, Piece, Port, Says};
use crate::fragments_places::{Places, START, place_of};
use crate::names::{declared_names, push_name, used_names};
use elm_base::names::Name;
use elm_base::position::Pos;
use elm_base::units::Units;
use elm_canon::reference::Ref;
use elm_canon::tree::{Declaration, Known, Module, Payload};
use elm_type::scheme::Scheme;
use emit_program::declarations::CoreName;
use emit_program::lines::{core_name_text, declaration_text, decoder_text, flags_text};
use port_payload::entry::{EntryType, entry_type};
use std::alloc::{AllocError, Global};

/// `main`
const MAIN: [u16; 4] = [109, 97, 105, 110];

/// The name `main` of the module `home`.
fn main_name(alloc: Global, home: &Name) -> Result<Ref, AllocError>
    ensures { IfOk result (λ r. r ≡ main_name home.now) }
{
    let mut units = Vec::with_capacity(alloc, MAIN.len())?;
    units.extend_from_slice(&MAIN)?;
    let name = Name::new(alloc, Units::from_vec(units))?;
    Ok(Ref::Top(home.clone()?, name))
}

/// The port of that name at that place.
fn port_named(name: &Name, place: Pos, text: Option<Vec<u8>>) -> Result<Option<Port>, AllocError>
    ensures { IfOk result (λ p. option_map port_view p
        ≡ Some (named_port name.now place (option_map (λ t. t.items) text))) }
{
    match name.clone() {
        Ok(name) => Ok(Some(Port {
            name,
            place,
            decoder: text,
        })),
        Err(e) => Err(e),
    }
}

/// The incoming port of that name at that place, through which `payload` comes in.
fn in_port(
    alloc: Global,
    name: &Name,
    place: Pos,
    payload: &Payload,
) -> Result<Option<Port>, AllocError>
    ensures { IfOk result (λ p. option_map port_view p
        ≡ Some (named_port name.now place (Some (js_text (decoder (payload_view payload.now)))))) }
{
    let text = decoder_text(alloc, payload)?;
    port_named(name, place, Some(text))
}

/// The port that a declaration is.
fn port_of(
    alloc: Global,
    places: &Places,
    declaration: &Declaration,
) -> Result<Option<Port>, AllocError>
    ensures { IfOk result (λ p. (ports : List PlainPort) → IsPlaces places.now ports
        → option_map port_view p ≡ spec.port_of ports (declaration_view declaration.now)) }
{
    match declaration {
        Declaration::Given(_, Known::OutPort(name, _)) => port_named(name, places.find(name), None),
        Declaration::Given(_, Known::InPort(name, payload)) => {
            in_port(alloc, name, places.find(name), payload)
        }
        Declaration::Given(_, Known::Maker(_) | Known::RecordMaker(_)) => Ok(None),
        Declaration::Define(_) => Ok(None),
    }
}

/// The piece that a declaration is.
fn declared_piece(
    alloc: Global,
    places: &Places,
    declaration: &Declaration,
) -> Result<Piece, AllocError>
    ensures { IfOk result (λ p. (ports : List PlainPort) → IsPlaces places.now ports
        → piece_view p ≡ spec.declared_piece ports (declaration_view declaration.now)) }
{
    Ok(Piece {
        is_core: false,
        names: declared_names(alloc, declaration)?,
        lines: declaration_text(alloc, declaration)?,
        uses: used_names(alloc, declaration)?,
        port: port_of(alloc, places, declaration)?,
    })
}

/// The piece that a name of the core is.
fn core_piece(alloc: Global, core_name: &CoreName) -> Result<Piece, AllocError>
    ensures { IfOk result (λ p. piece_view p ≡ spec.core_piece (core_view core_name.now)) }
{
    let mut names = Vec::new(alloc);
    push_name(&core_name.name, &mut names)?;
    Ok(Piece {
        is_core: true,
        names,
        lines: core_name_text(alloc, core_name)?,
        uses: Vec::new(alloc),
        port: None,
    })
}

/// Adds the pieces that the names of the core are.
fn push_core_pieces(
    alloc: Global,
    core_names: &[CoreName],
    pieces: &mut Vec<Piece>,
) -> Result<(), AllocError>
    ensures { OnOk result (map piece_view pieces.new.items
        ≡ map piece_view pieces.old.items ++ map spec.core_piece (map core_view core_names.now)) }
{
    for core_name in core_names {
        pieces.push(core_piece(alloc, core_name)?)?;
    }
    Ok(())
}

/// Adds the pieces that declarations are.
fn push_pieces(
    alloc: Global,
    places: &Places,
    declarations: &[Declaration],
    pieces: &mut Vec<Piece>,
) -> Result<(), AllocError>
    ensures { OnOk result ((ports : List PlainPort) → IsPlaces places.now ports → map piece_view pieces.new.items
        ≡ map piece_view pieces.old.items ++ map (spec.declared_piece ports) (map declaration_view declarations.now)) }
{
    for declaration in declarations {
        pieces.push(declared_piece(alloc, places, declaration)?)?;
    }
    Ok(())
}

/// Adds the pieces that the declarations of a module are.
fn push_declared(
    alloc: Global,
    places: &Places,
    module: &Module,
    pieces: &mut Vec<Piece>,
) -> Result<(), AllocError>
    ensures { OnOk result ((ports : List PlainPort) → IsPlaces places.now ports → map piece_view pieces.new.items
        ≡ map piece_view pieces.old.items ++ map (spec.declared_piece ports) (module_view module.now).declarations) }
{
    push_pieces(alloc, places, &module.declarations, pieces)
}

/// What the type of a program says whose flags are these, with their decoder as text.
fn told_program(alloc: Global, flags: Option<&Payload>) -> Result<Says, AllocError>
    ensures { IfOk result (λ s. says_view s
        ≡ IsProgram (js_text (flags_decoder (flags_view (option_map (λ t. t.now) flags.entry))))) }
{
    match flags_text(alloc, flags) {
        Ok(text) => Ok(Says::Program(text)),
        Err(e) => Err(e),
    }
}

/// The same of flags that are let go.
fn program(alloc: Global, flags: Option<Payload>) -> Result<Says, AllocError>
    ensures { IfOk result (λ s. says_view s ≡ IsProgram (js_text (flags_decoder (flags_view flags)))) }
{
    told_program(alloc, flags.as_ref())
}

/// What the type of a `main` says, with the decoder of its flags as text.
fn says(alloc: Global, entry: EntryType) -> Result<Says, AllocError>
    ensures { IfOk result (λ s. says_view s ≡ spec.says (entry_view entry)) }
{
    match entry {
        EntryType::Program(flags) => program(alloc, flags),
        EntryType::BadFlags(text) => Ok(Says::BadFlags(text)),
        EntryType::NoProgram(text) => Ok(Says::NoProgram(text)),
    }
}

/// What the type `scheme` of a `main` says.
fn says_of(alloc: Global, scheme: &Scheme) -> Result<Says, AllocError>
    ensures { IfOk result (λ s. says_view s ≡ spec.says (plain_entry (scheme_view scheme.now))) }
{
    match entry_type(alloc, scheme) {
        Ok(entry) => says(alloc, entry),
        Err(e) => Err(e),
    }
}

/// Where a module declares the value `name`.
fn place_among(places: &Places, module: &Module, name: &Ref) -> Pos
    ensures { IsPlaces places.now (module_view module.now).ports
        → result ≡ unwrap_or (place_in name.now (flat_map (placed_values (module_view module.now).ports)
        (module_view module.now).declarations)) start }
{
    place_of(places, &module.declarations, name).unwrap_or(START)
}

/// The `main` of a module, of the type `scheme`.
fn main_of(
    alloc: Global,
    places: &Places,
    module: &Module,
    scheme: &Scheme,
) -> Result<Main, AllocError>
    requires { IsPlaces places.now (map port_declaration_view module.now.ports.items) }
    ensures { IfOk result (λ m. Some (main_view m)
        ≡ spec.main_of (module_view module.now) (Some (scheme_view scheme.now))) }
{
    let name = main_name(alloc, &module.name)?;
    let place = place_among(places, module, &name);
    let says = says_of(alloc, scheme)?;
    Ok(Main { place, says })
}

/// The `main` of a module, if it has one, by its type.
fn main_if(
    alloc: Global,
    places: &Places,
    module: &Module,
    scheme: Option<&Scheme>,
) -> Result<Option<Main>, AllocError>
    requires { IsPlaces places.now (map port_declaration_view module.now.ports.items) }
    ensures { IfOk result (λ m. option_map main_view m ≡ spec.main_of (module_view module.now)
        (option_map (λ s. scheme_view s.now) scheme.entry)) }
{
    match scheme {
        Some(scheme) => {
            let main = main_of(alloc, places, module, scheme)?;
            Ok(Some(main))
        }
        None => Ok(None),
    }
}

/// The fragment of a module. `core_names` are the names of the core that the module has and that stand for functions of
/// the fixed text; they are not among the declarations of `module`. `main` is the type of its value `main`, if it has
/// one. The error means that memory ran out.
pub fn fragment(
    alloc: Global,
    core_names: &[CoreName],
    module: &Module,
    main: Option<&Scheme>,
) -> Result<Fragment, AllocError>
    ensures { IfOk result (λ f. fragment_view f ≡ fragment_of (map core_view core_names.now) (module_view module.now)
        (option_map (λ s. scheme_view s.now) main.entry)) }
{
    let places = Places::of(alloc, &module.ports)?;
    let mut pieces = Vec::with_capacity(alloc, module.declarations.len())?;
    push_core_pieces(alloc, core_names, &mut pieces)?;
    push_declared(alloc, &places, module, &mut pieces)?;
    let main = main_if(alloc, &places, module, main)?;
    Ok(Fragment { pieces, main })
}
