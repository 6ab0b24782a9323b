//! Fragments. `specs/View.antt` says what each is as plain data.

use elm_base::names::Name;
use elm_base::position::Pos;

/// A port.
#[derive(Drop)]
pub struct Port {
    pub name: Name,
    /// Where it is declared.
    pub place: Pos,
    /// The text of the decoder of what comes in. An outgoing port has none.
    pub decoder: Option<Vec<u8>>,
}

/// What is declared together: a constructor, a port, a name of the core, or definitions that use each other.
#[derive(Drop)]
pub struct Piece {
    /// Whether it is a name of the core that stands for a function of the fixed text.
    pub is_core: bool,
    /// The names that it declares, each by its module and its name there.
    pub names: Vec<(Name, Name)>,
    /// Its lines in the output.
    pub lines: Vec<u8>,
    /// The names of modules that it uses, each once.
    pub uses: Vec<(Name, Name)>,
    /// The port that it is, if it is one.
    pub port: Option<Port>,
}

/// What the type of a `main` says.
#[derive(Drop)]
pub enum Says {
    /// It is a program, whose flags have a decoder of this text.
    Program(Vec<u8>),
    /// It is a program, and its flags are of a type that may not cross, with this text in UTF-8.
    BadFlags(Vec<u8>),
    /// It is not a program, and has this text in UTF-8.
    NoProgram(Vec<u8>),
}

/// The `main` of a module.
#[derive(Drop)]
pub struct Main {
    /// Where it is defined.
    pub place: Pos,
    pub says: Says,
}

/// What a link needs to know of a module.
#[derive(Drop)]
pub struct Fragment {
    /// Its declarations in order.
    pub pieces: Vec<Piece>,
    /// Its `main`, if it has one.
    pub main: Option<Main>,
}
