//! The faults of a link.

ghost use Rattle.std.specs.Prelude.{◌≡◌, ◌++◌, ◌∷◌, [], List, map, option_map, string_bytes, IfOk, OnOk};
ghost use Rattle.elm_base.specs.declared.fault.Code.TheVariants.{PortClash};
ghost use Rattle.elm_canon.specs.Names.{Name as PlainName};
ghost use Rattle.elm_type.specs.Text.{utf8};
ghost use Rattle.link.specs.FragmentsView.{main_view};
ghost use Rattle.link.specs.Kept.{IsHomes};
ghost use Rattle.link.specs.Link as spec;
ghost use Rattle.link.specs.Link.{fault_at, main_faults, clash_at, with_port, clashes, link_faults, is_other};
ghost use Rattle.link.specs.Link.{first_home};
ghost use Rattle.link.specs.View.{part_view, placed_view};

use crate::fragment::{Main, Port, Says};
use crate::part::Part;
use crate::pieces::Placed;
use elm_base::fault::{Code, Fault};
use elm_base::names::Name;
use elm_base::position::{Pos, Region};
use elm_base::text::Text;
use indexmap::IndexMap;
use std::alloc::{AllocError, Global};

/// A fault at a place of the file of the path `path`.
fn fault_at(
    alloc: Global,
    code: Code,
    path: &String,
    place: Pos,
    detail: &[u8],
) -> Result<Fault, AllocError>
    ensures { IfOk result (λ f. f ≡ fault_at code (string_bytes path.now) place detail.now) }
{
    Ok(Fault {
        code,
        path: Text::copy(alloc, path.as_bytes())?,
        region: Region {
            start: place,
            end: place,
        },
        detail: Text::copy(alloc, detail)?,
    })
}

/// Adds a fault at a place of the file of the path `path`.
fn push_fault(
    alloc: Global,
    code: Code,
    path: &String,
    place: Pos,
    detail: &[u8],
    faults: &mut Vec<Fault>,
) -> Result<(), AllocError>
    ensures { OnOk result (faults.new.items
        ≡ faults.old.items ++ spec.fault_at code (string_bytes path.now) place detail.now ∷ []) }
{
    let fault = fault_at(alloc, code, path, place, detail)?;
    faults.push(fault)?;
    Ok(())
}

/// Adds the fault of the type of a `main`, if it has one.
fn push_type_fault(
    alloc: Global,
    path: &String,
    main: &Main,
    faults: &mut Vec<Fault>,
) -> Result<(), AllocError>
    ensures { OnOk result (faults.new.items
        ≡ faults.old.items ++ spec.says_faults (string_bytes path.now) main.now.place (main_view main.now).says) }
{
    match &main.says {
        Says::Program(_) => Ok(()),
        Says::BadFlags(text) => push_fault(alloc, Code::MainFlags, path, main.place, text, faults),
        Says::NoProgram(text) => push_fault(alloc, Code::MainType, path, main.place, text, faults),
    }
}

/// Adds the fault of the `main` of the entry, if it has one.
fn push_main_fault(
    alloc: Global,
    path: &String,
    main: &Option<Main>,
    faults: &mut Vec<Fault>,
) -> Result<(), AllocError>
    ensures { OnOk result (faults.new.items
        ≡ faults.old.items ++ main_faults (string_bytes path.now) (option_map main_view main.now)) }
{
    match main {
        Some(main) => push_type_fault(alloc, path, main, faults),
        None => {
            let start = Pos { row: 1, column: 1 };
            push_fault(alloc, Code::MainType, path, start, b"missing", faults)
        }
    }
}

/// The module of the first port of each name.
#[derive(Drop)]
pub(crate) struct Homes {
    by_port: IndexMap<Name, Name>,
}

impl Homes {
    /// Whether another module than `home` has a port `name`; otherwise `home` has it from now on.
    fn is_taken(&mut self, home: &Name, name: &Name) -> Result<bool, AllocError>
        ensures taken { IfOk result (λ taken. (before : List (PlainName × PlainName)) → IsHomes self.old before
            → taken ≡ is_other home.now (first_home before name.now)) }
        ensures homes { OnOk result ((before : List (PlainName × PlainName)) → IsHomes self.old before
            → IsHomes self.new (before ++ (home.now, name.now) ∷ [])) }
    {
        match self.by_port.get(name) {
            Some(other) => Ok(other != home),
            None => {
                self.by_port.insert(name.clone()?, home.clone()?)?;
                Ok(false)
            }
        }
    }
}

/// The text of a name, in UTF-8.
fn name_text(alloc: Global, name: &Name) -> Result<Vec<u8>, AllocError>
    ensures { IfOk result (λ text. text.items ≡ utf8 name.now) }
{
    let text = String::from_utf16_lossy(alloc, name.as_slice())?;
    Ok(text.into_bytes())
}

/// Adds the fault of a port of a file of the path `path`, whose name another module has before it.
fn push_port_fault(
    alloc: Global,
    path: &String,
    port: &Port,
    faults: &mut Vec<Fault>,
) -> Result<(), AllocError>
    ensures { OnOk result (faults.new.items ≡ faults.old.items
        ++ spec.fault_at PortClash (string_bytes path.now) port.now.place (utf8 port.now.name) ∷ []) }
{
    let detail = name_text(alloc, &port.name)?;
    push_fault(alloc, Code::PortClash, path, port.place, &detail, faults)
}

/// Adds the fault of a port whose name another module has before it.
fn push_clash(
    alloc: Global,
    homes: &mut Homes,
    placed: &Placed<'_>,
    faults: &mut Vec<Fault>,
) -> Result<(), AllocError>
    ensures fault { OnOk result ((before : List (PlainName × PlainName)) → IsHomes homes.old before
        → faults.new.items ≡ faults.old.items
        ++ clash_at before (placed_view placed.now) (placed_view placed.now).piece.port) }
    ensures homes { OnOk result ((before : List (PlainName × PlainName)) → IsHomes homes.old before
        → IsHomes homes.new (with_port before (placed_view placed.now).name (placed_view placed.now).piece.port)) }
{
    let piece = placed.piece;
    match &piece.port {
        Some(port) => {
            if homes.is_taken(placed.name, &port.name)? {
                push_port_fault(alloc, placed.path, port, faults)?;
            }
            Ok(())
        }
        None => Ok(()),
    }
}

/// Adds the faults of ports whose names other modules have before them.
fn push_clashes(
    alloc: Global,
    pieces: &[Placed<'_>],
    faults: &mut Vec<Fault>,
) -> Result<(), AllocError>
    ensures { OnOk result (faults.new.items ≡ faults.old.items ++ clashes [] (map placed_view pieces.now)) }
{
    let mut homes = Homes {
        by_port: IndexMap::new(alloc),
    };
    for placed in pieces {
        push_clash(alloc, &mut homes, placed, faults)?;
    }
    Ok(())
}

/// The faults of a link: that of the `main` of the entry, and then those of ports of the pieces that it reaches.
pub(crate) fn faults_of(
    alloc: Global,
    entry: &Part<'_>,
    pieces: &[Placed<'_>],
) -> Result<Vec<Fault>, AllocError>
    ensures { IfOk result (λ v. v.items ≡ link_faults (part_view entry.now) (map placed_view pieces.now)) }
{
    let mut faults = Vec::new(alloc);
    push_main_fault(alloc, &entry.path, &entry.fragment.main, &mut faults)?;
    push_clashes(alloc, pieces, &mut faults)?;
    Ok(faults)
}
