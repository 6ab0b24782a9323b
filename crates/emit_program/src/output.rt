//! All parts of an output, joined.

ghost use Rattle.std.specs.Prelude.{◌≡◌, ◌<◌, ◌++◌, map, length, IfOk};
ghost use Rattle.elm_meaning.specs.Run.{Program};
ghost use Rattle.js_tree.specs.Text.{JsText, main_text};
ghost use Rattle.js_tree.specs.declared.runtime.TheConstants.{HEAD, TAIL};
ghost use Rattle.js_emit.specs.Program.{Emit};
ghost use Rattle.emit_program.specs.Texts.{joined, program_texts};

use js_tree::runtime::{HEAD, TAIL};
use std::alloc::{AllocError, Global};

/// The most bytes of an output.
const MOST: usize = 4294967295;

/// The output of the texts `lines` of the names of the core and of the declarations that `main` reaches, in order, and
/// of the line of `_main`. The error means that memory ran out, or that the output would have 4,294,967,296 bytes or
/// more.
pub fn join(alloc: Global, lines: &[&[u8]], main: &[u8]) -> Result<Vec<u8>, AllocError>
    ensures bytes { IfOk result (λ bytes. bytes.items
        ≡ HEAD.now ++ joined (map (λ line. line.now) lines.now) ++ main.now ++ TAIL.now) }
    ensures text { IfOk result (λ bytes. (p : Program) → map (λ line. line.now) lines.now ≡ program_texts p
        → main.now ≡ main_text (Emit p) → JsText (Emit p) bytes.items) }
    ensures small { IfOk result (λ bytes. length bytes.items < 4294967296) }
{
    let mut text = Vec::with_capacity(alloc, room(lines, main))?;
    text.extend_from_slice(HEAD)?;
    for line in lines {
        text.extend_from_slice(line)?;
    }
    text.extend_from_slice(main)?;
    text.extend_from_slice(TAIL)?;
    if text.len() > MOST {
        return Err(AllocError);
    }
    Ok(text)
}

/// The length of an output, by which its room is taken at once.
fn room(lines: &[&[u8]], main: &[u8]) -> usize {
    let mut length = HEAD
        .len()
        .saturating_add(TAIL.len())
        .saturating_add(main.len());
    for line in lines {
        length = length.saturating_add(line.len());
    }
    length
}
