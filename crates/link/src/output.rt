//! What is written for the pieces that `main` reaches.

ghost use Rattle.std.specs.Prelude.{◌≡◌, ◌<◌, ◌++◌, ◌∷◌, if◌then◌else◌, [], length, map, option_map, IfOk};
ghost use Rattle.std.specs.Prelude.{OnOk};
ghost use Rattle.elm_canon.specs.declared.reference.Ref.TheVariants as ref;
ghost use Rattle.elm_meaning.specs.Run.{Program};
ghost use Rattle.js_tree.specs.Text.{JsText};
ghost use Rattle.js_emit.specs.Program.{Emit};
ghost use Rattle.emit_program.specs.Texts.{in_view};
ghost use Rattle.link.specs.FragmentsView.{port_view};
ghost use Rattle.link.specs.Link.{core_lines, other_lines, in_of, out_of, ins_of, outs_of, output_of};
ghost use Rattle.link.specs.Programs.{Tells};
ghost use Rattle.link.specs.View.{kept_piece};

use crate::fragment::{Piece, Port};
use crate::pieces::Placed;
use crate::reaching::main_text;
use elm_base::names::Name;
use elm_canon::reference::Ref;
use emit_program::emit_text_ports::InPort;
use emit_program::main_line::main_line;
use emit_program::output::join;
use std::alloc::{AllocError, Global};

/// Adds the lines of a piece, if they are wanted.
fn push_line<'a>(
    piece: &'a Piece,
    is_wanted: bool,
    lines: &mut Vec<&'a [u8]>,
) -> Result<(), AllocError>
    ensures { OnOk result (map (λ line. line.now) lines.new.items
        ≡ map (λ line. line.now) lines.old.items ++ (if is_wanted then piece.now.lines.items ∷ [] else [])) }
{
    if is_wanted {
        lines.push(&piece.lines)?;
    }
    Ok(())
}

/// Adds the lines of the names of the core.
fn push_core_lines<'a>(pieces: &[Placed<'a>], lines: &mut Vec<&'a [u8]>) -> Result<(), AllocError>
    ensures { OnOk result (map (λ line. line.now) lines.new.items
        ≡ map (λ line. line.now) lines.old.items ++ core_lines (map kept_piece pieces.now)) }
{
    for placed in pieces {
        let piece = placed.piece;
        push_line(piece, piece.is_core, lines)?;
    }
    Ok(())
}

/// Adds the lines of the other declarations.
fn push_other_lines<'a>(pieces: &[Placed<'a>], lines: &mut Vec<&'a [u8]>) -> Result<(), AllocError>
    ensures { OnOk result (map (λ line. line.now) lines.new.items
        ≡ map (λ line. line.now) lines.old.items ++ other_lines (map kept_piece pieces.now)) }
{
    for placed in pieces {
        let piece = placed.piece;
        push_line(piece, !piece.is_core, lines)?;
    }
    Ok(())
}

/// The same bytes once more.
fn copy_bytes(alloc: Global, bytes: &[u8]) -> Result<Vec<u8>, AllocError>
    ensures { IfOk result (λ v. v.items ≡ bytes.now) }
{
    Vec::from_slice(alloc, bytes)
}

/// Adds a port to the incoming or to the outgoing ones.
fn push_port(
    alloc: Global,
    port: &Option<Port>,
    ins: &mut Vec<InPort>,
    outs: &mut Vec<Name>,
) -> Result<(), AllocError>
    ensures ins { OnOk result (map in_view ins.new.items
        ≡ map in_view ins.old.items ++ in_of (option_map port_view port.now)) }
    ensures outs { OnOk result (outs.new.items ≡ outs.old.items ++ out_of (option_map port_view port.now)) }
{
    match port {
        None => Ok(()),
        Some(port) => match &port.decoder {
            Some(decoder) => {
                let decoder = copy_bytes(alloc, decoder)?;
                let name = port.name.clone()?;
                ins.push(InPort { name, decoder })?;
                Ok(())
            }
            None => {
                outs.push(port.name.clone()?)?;
                Ok(())
            }
        },
    }
}

/// Adds the ports of pieces.
fn push_ports(
    alloc: Global,
    pieces: &[Placed<'_>],
    ins: &mut Vec<InPort>,
    outs: &mut Vec<Name>,
) -> Result<(), AllocError>
    ensures ins { OnOk result (map in_view ins.new.items
        ≡ map in_view ins.old.items ++ ins_of (map kept_piece pieces.now)) }
    ensures outs { OnOk result (outs.new.items ≡ outs.old.items ++ outs_of (map kept_piece pieces.now)) }
{
    for placed in pieces {
        let piece = placed.piece;
        push_port(alloc, &piece.port, ins, outs)?;
    }
    Ok(())
}

/// The output of the pieces that the `main` of the module `home` reaches, with the text `flags` of the decoder of its
/// flags.
pub(crate) fn written(
    alloc: Global,
    home: &Name,
    flags: &[u8],
    pieces: &[Placed<'_>],
) -> Result<Vec<u8>, AllocError>
    ensures text { IfOk result (λ bytes. (p : Program)
        → Tells (output_of home.now flags.now (map kept_piece pieces.now)) p → JsText (Emit p) bytes.items) }
    ensures small { IfOk result (λ bytes. length bytes.items < 4294967296) }
{
    let mut lines = Vec::with_capacity(alloc, pieces.len())?;
    push_core_lines(pieces, &mut lines)?;
    push_other_lines(pieces, &mut lines)?;
    let mut ins = Vec::new(alloc);
    let mut outs = Vec::new(alloc);
    push_ports(alloc, pieces, &mut ins, &mut outs)?;
    let main = Ref::Top(home.clone()?, main_text(alloc)?);
    let last = main_line(alloc, &main, flags, ins, outs)?;
    join(alloc, &lines, &last)
}
