//! The line of `_main`.

ghost use Rattle.std.specs.Prelude.{◌≡◌, ◌++◌, map, IfOk, OnOk};
ghost use Rattle.elm_meaning.specs.Run.{Program};
ghost use Rattle.js_tree.specs.Tree.{JVar};
ghost use Rattle.js_tree.specs.Text.{js_text, main_text, text_text};
ghost use Rattle.js_emit.specs.Names.{js_name};
ghost use Rattle.js_emit.specs.Program.{Emit, module_of};
ghost use Rattle.emit_program.specs.Texts.{in_view, IsMainOf};

use crate::emit_text_ports::{InPort, write_ins, write_outs};
use elm_base::names::Name;
use elm_base::quoted::write_text;
use elm_canon::reference::Ref;
use js_emit::push::push_name;
use js_printer::print;
use js_tree::trees::Trees;
use std::alloc::{AllocError, Global};

/// The line of `_main` of a program: of its `main`, the text of the decoder of its flags, and its incoming and outgoing
/// ports in turn. The error means that memory ran out.
pub fn main_line(
    alloc: Global,
    main: &Ref,
    flags: &[u8],
    ins: Vec<InPort>,
    outs: Vec<Name>,
) -> Result<Vec<u8>, AllocError>
    ensures { IfOk result (λ text. (p : Program)
        → IsMainOf p main.now flags.now (map in_view ins.items) outs.items → text.items ≡ main_text (Emit p)) }
{
    let mut text = Vec::new(alloc);
    text.extend_from_slice(br##"const _main={"name":"##)?;
    write_module(&mut text, main)?;
    text.extend_from_slice(br##","program":"##)?;
    write_use(alloc, &mut text, main)?;
    text.extend_from_slice(br##","flags":"##)?;
    text.extend_from_slice(flags)?;
    text.extend_from_slice(br##","ins":{"##)?;
    write_ins(&mut text, ins)?;
    text.extend_from_slice(br##"},"outs":{"##)?;
    write_outs(&mut text, outs)?;
    text.extend_from_slice(b"}};\n")?;
    Ok(text)
}

/// Adds the name of the module of a name, as a text. A local name has none.
fn write_module(text: &mut Vec<u8>, name: &Ref) -> Result<(), AllocError>
    ensures { OnOk result (text.new.items ≡ text.old.items ++ text_text (module_of name.now)) }
{
    match name {
        Ref::Top(module, _) => write_text(text, module.as_slice()),
        Ref::Local(_) => write_text(text, &[]),
    }
}

/// Adds the use of a name.
fn write_use(alloc: Global, text: &mut Vec<u8>, name: &Ref) -> Result<(), AllocError>
    ensures { OnOk result (text.new.items ≡ text.old.items ++ js_text (JVar (js_name name.now))) }
{
    let mut trees = Trees::new(alloc);
    push_name(alloc, &mut trees, name)?;
    let bytes = print(alloc, &trees)?;
    text.extend_from_slice(&bytes)
}
