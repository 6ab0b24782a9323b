//! Faults, names and texts.

use crate::print::{add_text, show, show_text};
use elm_base::fault::{Code, Fault, fault_line};
use elm_base::name::{ModName, Name, QName};
use elm_base::path::{is_name_char, name_of_path};
use elm_base::position::{Pos, Region};
use elm_base::reserved::is_reserved;
use elm_base::text::Text;
use elm_base::units::Units;
use std::alloc::{AllocError, Global};

/// Kinds of faults in their order.
const CODES: [Code; 8] = [
    Code::NotUtf8,
    Code::FileTooLarge,
    Code::NameMismatch,
    Code::PartialParameter,
    Code::FileMissing,
    Code::BadScript,
    Code::ProjectMissing,
    Code::BadOutput,
];

/// Paths, the first four of them of modules.
const PATHS: [&str; 16] = [
    "Main.elm",
    "A/B.elm",
    "Aé.elm",
    "Platform/Cmd_2.elm",
    "a.elm",
    "A/.elm",
    "A//B.elm",
    "/A.elm",
    "A/b.elm",
    "Été.elm",
    "A.elm/",
    ".elm",
    "",
    "A",
    "A.B.elm",
    "A-B.elm",
];

/// The reserved words, and five other words.
const WORDS: [&str; 19] = [
    "if", "then", "else", "case", "of", "let", "in", "type", "module", "where", "import",
    "exposing", "as", "port", "porty", "If", "", "por", "alias",
];

/// Adds all rows of this module.
pub fn rows(alloc: Global, out: &mut String) -> Result<(), AllocError> {
    faults(alloc, out)?;
    codes(out)?;
    places(out)?;
    for path in PATHS {
        add_name(alloc, path, out)?;
    }
    for c in ['é', '_', '.', '×'] {
        show(out, "goes on in a name", &is_name_char(c))?;
    }
    for word in WORDS {
        show(out, word, &is_reserved(word))?;
    }
    texts(alloc, out)
}

/// Adds the lines of three faults.
fn faults(alloc: Global, out: &mut String) -> Result<(), AllocError> {
    let place = Pos { row: 3, column: 17 };
    add_fault(alloc, Code::Syntax, "src/Main.elm", place, "", out)?;
    add_fault(
        alloc,
        Code::ImportNotFound,
        "src/A/B.elm",
        place,
        "C.D",
        out,
    )?;
    let start = Pos { row: 1, column: 1 };
    add_fault(alloc, Code::GivenFileTooLarge, "x.js", start, "", out)
}

/// Adds the line of a fault.
fn add_fault(
    alloc: Global,
    code: Code,
    path: &str,
    start: Pos,
    detail: &str,
    out: &mut String,
) -> Result<(), AllocError> {
    let fault = Fault {
        code,
        path: Text::copy(alloc, path.as_bytes())?,
        region: Region { start, end: start },
        detail: Text::copy(alloc, detail.as_bytes())?,
    };
    add_text(out, &fault_line(alloc, &fault)?)
}

/// Adds whether each kind of fault is less than the next one, and its code less than the next code.
fn codes(out: &mut String) -> Result<(), AllocError> {
    for i in 1..8 {
        show(out, "kinds", &(CODES[i - 1] < CODES[i]))?;
        show(out, "codes", &(CODES[i - 1].code() < CODES[i].code()))?;
    }
    Ok(())
}

/// Adds how places are ordered.
fn places(out: &mut String) -> Result<(), AllocError> {
    let last_of_row = Pos { row: 1, column: 9 };
    let first = Pos { row: 2, column: 1 };
    let second = Pos { row: 2, column: 2 };
    show(out, "rows", &(last_of_row < first))?;
    show(out, "columns", &(first < second))
}

/// Adds the name of the module at a path, if it is one.
fn add_name(alloc: Global, path: &str, out: &mut String) -> Result<(), AllocError> {
    match name_of_path(alloc, path)? {
        Some(name) => show_text(out, path, name.as_bytes()),
        None => show_text(out, path, b"none"),
    }
}

/// Adds how texts, names and units are kept.
fn texts(alloc: Global, out: &mut String) -> Result<(), AllocError> {
    let word = Text::copy(alloc, b"map".as_slice())?;
    let longer = Text::from_vec(vec![in alloc; b'm', b'a', b'p', b'2']?);
    show(out, "empty", &(Text::empty(alloc) < word))?;
    show(out, "longer", &(word < longer))?;
    show(out, "same text", &(word == word.clone()?))?;
    names(alloc, word, &longer, out)?;
    let units = Units::from_vec(vec![in alloc; 0xd83d, 0x61]?);
    show(out, "units", &units.as_slice().len())?;
    show(out, "same units", &(units == units.clone()?))
}

/// Adds how a name with a module is kept.
fn names(alloc: Global, word: Text, longer: &Text, out: &mut String) -> Result<(), AllocError> {
    let module = ModName::from_text(Text::copy(alloc, b"List".as_slice())?);
    let name = QName {
        module,
        name: Name::from_text(word),
    };
    show(out, "same name", &(name == name.clone()?))?;
    show(out, "longer name", &(name.name.as_text() < longer))?;
    show_text(out, "module", name.module.as_text().as_bytes())?;
    show_text(out, "name", name.name.as_bytes())
}
