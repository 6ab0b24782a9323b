//! The texts of declarations, which are printed once and kept.

ghost use Rattle.std.specs.Prelude.{◌≡◌, option_map, IfOk};
ghost use Rattle.elm_canon.specs.View.{declaration_view, payload_view};
ghost use Rattle.js_tree.specs.Text.{js_text};
ghost use Rattle.js_emit.specs.Codecs.{decoder, flags_decoder};
ghost use Rattle.js_emit.specs.Flags.{flags_view};
ghost use Rattle.emit_program.specs.Programs.{core_view};
ghost use Rattle.emit_program.specs.Texts.{declared_text, core_text};

use crate::declarations::{CoreName, push_core_name, push_declaration};
use elm_canon::tree::{Declaration, Payload};
use js_emit::codecs::{push_decoder, push_flags_decoder};
use js_printer::print;
use js_tree::tree::Node;
use js_tree::trees::Trees;
use std::alloc::{AllocError, Global};

/// The lines of a declaration. The error means that memory ran out.
pub fn declaration_text(alloc: Global, declaration: &Declaration) -> Result<Vec<u8>, AllocError>
    ensures { IfOk result (λ text. text.items ≡ declared_text (declaration_view declaration.now)) }
{
    let mut trees = Trees::new(alloc);
    trees.push(Node::NoLine)?;
    push_declaration(alloc, &mut trees, declaration)?;
    print(alloc, &trees)
}

/// The line of a name of the core. The error means that memory ran out.
pub fn core_name_text(alloc: Global, core_name: &CoreName) -> Result<Vec<u8>, AllocError>
    ensures { IfOk result (λ text. text.items ≡ core_text (core_view core_name.now)) }
{
    let mut trees = Trees::new(alloc);
    trees.push(Node::NoLine)?;
    push_core_name(alloc, &mut trees, core_name)?;
    print(alloc, &trees)
}

/// The decoder of what crosses a port. The error means that memory ran out.
pub fn decoder_text(alloc: Global, payload: &Payload) -> Result<Vec<u8>, AllocError>
    ensures { IfOk result (λ text. text.items ≡ js_text (decoder (payload_view payload.now))) }
{
    let mut trees = Trees::new(alloc);
    push_decoder(alloc, &mut trees, payload)?;
    print(alloc, &trees)
}

/// The decoder of the flags, by their type. There is none where the flags are of type `()`. The error means that memory
/// ran out.
pub fn flags_text(alloc: Global, flags: Option<&Payload>) -> Result<Vec<u8>, AllocError>
    ensures { IfOk result (λ text. text.items
        ≡ js_text (flags_decoder (flags_view (option_map (λ t. t.now) flags.entry)))) }
{
    let mut trees = Trees::new(alloc);
    push_flags_decoder(alloc, &mut trees, flags)?;
    print(alloc, &trees)
}
