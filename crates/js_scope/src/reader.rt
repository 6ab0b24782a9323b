//! A text, read byte by byte.

ghost use Rattle.std.specs.Prelude.{◌≡◌, List, [], ◌∷◌, ◌++◌, OnOk, IfOk, codes, if◌then◌else◌, ◌==◌, true, false, not};
ghost use Rattle.std.specs.Prelude.{pos, nat_lt, ◌||◌, ◌*◌, ◌+◌, ◌-◌, ◌^◌, ◌<◌};
ghost use Rattle.js_scope.specs.View.{block_of, front_of, after_in, naming_frame, naming_node, naming_of, object_of};
ghost use Rattle.js_scope.specs.View.{outs_in, parameter_of, place_of, program_at, state_of, text_of, trees_in};
ghost use Rattle.js_tree.specs.declared.runtime.TheConstants.{TAIL};
ghost use Rattle.js_scope.specs.declared.mode.After.TheVariants.{Finished};
ghost use Rattle.js_scope.specs.NameView.{begun_of, found_of};
ghost use Rattle.js_tree.specs.Automaton.{is_live};
ghost use Rattle.js_scope.specs.Words.{begun_word, found_word, word_view};
ghost use Rattle.js_scope.specs.Empty.{is_finished, is_no_item, is_no_member};
ghost use Rattle.js_tree.specs.NameReader.{begin_name, greatest, is_digit};
ghost use Rattle.wire_value.specs.Exact as exact;
ghost use Rattle.js_tree.specs.Postorder.{apply, below, block, expression, items, lines, members, members_then};
ghost use Rattle.js_tree.specs.Postorder.{name_view, operator_view, helper_view, statements, top, Tree};
ghost use Rattle.js_tree.specs.Tree.{JBlock, JVar, NoField};
ghost use Rattle.js_tree.specs.Automaton as machine;

use crate::frames::{Frame, Frames};
use crate::mode::{After, Mode, Naming, Object, Text};
use crate::name::{NameReader, digit_more, is_digit, is_hex_digit, is_run};
use crate::word::{Word, begins_keyword, begins_word, find_word, is};
use elm_base::units::Units;
use js_tree::runtime::{HEAD, TAIL};
use js_tree::tree::{Helper, Name, Node, Operator};
use js_tree::trees::Trees;
use std::alloc::{AllocError, Global};
use std::mem;

/// What has been read.
#[derive(Drop)]
pub struct Reader {
    alloc: Global,
    mode: Mode,
    trees: Trees,
    frames: Frames,
    name: NameReader,
    /// The text that is read.
    units: Vec<u16>,
    /// The word that is read.
    word: Vec<u8>,
    /// The name of the entry's module.
    entry: Units,
    /// The outgoing ports, and the last one, which is not among them yet.
    outs: Vec<Units>,
    out: Units,
}

impl Reader {
    /// Nothing read.
    pub fn new(alloc: Global) -> Result<Reader, AllocError>
        ensures { IfOk result (λ reader. state_of reader ≡ machine.start) }
    {
        let mut trees = Trees::new(alloc);
        trees.push(Node::NoLine)?;
        Ok(Reader {
            alloc,
            mode: Mode::Known(HEAD, After::Line),
            trees,
            frames: Frames::new(alloc),
            name: NameReader::new(alloc),
            units: Vec::new(alloc),
            word: Vec::new(alloc),
            entry: Units::from_vec(Vec::new(alloc)),
            outs: Vec::new(alloc),
            out: Units::from_vec(Vec::new(alloc)),
        })
    }

    /// The last expression ends at `byte`: neither a call nor a property follows.
    fn close(&mut self, byte: u8) -> Result<(), AllocError>
        ensures { OnOk result (state_of self.new ≡ machine.close
            (place_of self.old.frames self.old.entry (below (trees_in self.old)))
            (expression (top (trees_in self.old))) byte) }
    {
        let Some(frame) = self.frames.pop() else {
            return self.close_main(byte);
        };
        self.close_frame(frame, byte)
    }

    /// The last expression ends at `byte` in this frame, which is none of the others any more.
    fn close_frame(&mut self, frame: Frame, byte: u8) -> Result<(), AllocError>
        ensures { OnOk result (state_of self.new ≡ machine.close
            (place_of (frame ∷ self.old.frames) self.old.entry (below (trees_in self.old)))
            (expression (top (trees_in self.old))) byte) }
    {
        match frame {
            Frame::Argument => self.close_argument(byte),
            Frame::First => self.operator(byte),
            Frame::Right(operator) => self.close_right(byte, operator),
            Frame::Then => self.colon(byte),
            Frame::Else => self.close_else(byte),
            Frame::Field(name) => self.close_field(byte, name),
            Frame::List => self.close_item(byte),
            Frame::Given(helper) => self.close_given(byte, helper),
            Frame::Const(name) => self.close_statement(byte, Naming::Const, name),
            Frame::Let(name) => self.close_statement(byte, Naming::Let, name),
            Frame::Assign(name) => self.close_statement(byte, Naming::Assign, name),
            Frame::Return => self.close_return(byte),
            Frame::Test => self.close_test(byte),
            Frame::Line(name) => self.close_line(byte, name),
            Frame::Flags => self.close_flags(byte),
            Frame::Port(name) => self.close_port(byte, name),
            Frame::Body(_name) => self.close_main(byte),
            Frame::Called | Frame::ThenBlock | Frame::ElseBlock | Frame::Loop => {
                self.close_main(byte)
            }
        }
    }

    /// After the first expression in a bracket.
    fn operator(&mut self, byte: u8) -> Result<(), AllocError>
        ensures { OnOk result (state_of self.new ≡ machine.close
            (machine.FirstIn (place_of self.old.frames self.old.entry (below (trees_in self.old))))
            (expression (top (trees_in self.old))) byte) }
    {
        match byte {
            b'+' => self.right(Operator::Plus),
            b'-' => self.right(Operator::Minus),
            b'*' => self.right(Operator::Times),
            b'=' => {
                self.mode = Mode::Equals;
                Ok(())
            }
            b'&' => self.second(Operator::And, b"&"),
            b'|' => self.second(Operator::Or, b"|"),
            b'?' => {
                self.frames.push(Frame::Then)?;
                self.mode = Mode::Want;
                Ok(())
            }
            _ => {
                self.mode = Mode::Dead;
                Ok(())
            }
        }
    }

    /// After an operator of one character.
    fn right(&mut self, operator: Operator) -> Result<(), AllocError>
        ensures { OnOk result (state_of self.new ≡ machine.Want
            (machine.RightOf (operator_view operator) (expression (top (trees_in self.old)))
            (place_of self.old.frames self.old.entry (below (trees_in self.old))))) }
    {
        self.frames.push(Frame::Right(operator))?;
        self.mode = Mode::Want;
        Ok(())
    }

    /// After the first character of an operator that goes on so.
    fn second(&mut self, operator: Operator, rest: &'static [u8]) -> Result<(), AllocError>
        ensures { OnOk result (state_of self.new ≡ machine.Known rest.now
            (machine.Want (machine.RightOf (operator_view operator) (expression (top (trees_in self.old)))
            (place_of self.old.frames self.old.entry (below (trees_in self.old)))))) }
    {
        self.frames.push(Frame::Right(operator))?;
        self.mode = Mode::Known(rest, After::Want);
        Ok(())
    }

    /// After the expression after a question mark.
    fn colon(&mut self, byte: u8) -> Result<(), AllocError>
        ensures { OnOk result (state_of self.new ≡ machine.close
            (machine.ThenOf (expression (top (below (trees_in self.old))))
            (place_of self.old.frames self.old.entry (below (below (trees_in self.old)))))
            (expression (top (trees_in self.old))) byte) }
    {
        if byte == b':' {
            self.frames.push(Frame::Else)?;
            self.mode = Mode::Want;
        } else {
            self.mode = Mode::Dead;
        }
        Ok(())
    }

    /// After the value of a field of that name.
    fn close_field(&mut self, byte: u8, name: Units) -> Result<(), AllocError>
        ensures { OnOk result (state_of self.new ≡ machine.close
            (machine.FieldIn (members (top (below (trees_in self.old)))) name
            (place_of self.old.frames self.old.entry (below (below (trees_in self.old)))))
            (expression (top (trees_in self.old))) byte) }
    {
        match byte {
            b',' => {
                self.trees.push(Node::Field(name))?;
                self.mode = Mode::Field(Object::Value);
            }
            b'}' => {
                self.trees.push(Node::Field(name))?;
                self.trees.push(Node::Object)?;
                self.mode = Mode::Have;
            }
            _ => self.mode = Mode::Dead,
        }
        Ok(())
    }

    /// After an item of a list.
    fn close_item(&mut self, byte: u8) -> Result<(), AllocError>
        ensures { OnOk result (state_of self.new ≡ machine.close
            (machine.ListIn (items (top (below (trees_in self.old))))
            (place_of self.old.frames self.old.entry (below (below (trees_in self.old)))))
            (expression (top (trees_in self.old))) byte) }
    {
        match byte {
            b',' => {
                self.trees.push(Node::Item)?;
                self.frames.push(Frame::List)?;
                self.mode = Mode::Want;
            }
            b']' => {
                self.trees.push(Node::Item)?;
                self.trees.push(Node::List)?;
                self.mode = Mode::Known(b")", After::Have);
            }
            _ => self.mode = Mode::Dead,
        }
        Ok(())
    }

    /// After an argument of a function of the fixed text.
    fn close_given(&mut self, byte: u8, helper: Helper) -> Result<(), AllocError>
        ensures { OnOk result (state_of self.new ≡ machine.close
            (machine.GivenTo (helper_view helper) (items (top (below (trees_in self.old))))
            (place_of self.old.frames self.old.entry (below (below (trees_in self.old)))))
            (expression (top (trees_in self.old))) byte) }
    {
        match byte {
            b',' => {
                self.trees.push(Node::Item)?;
                self.frames.push(Frame::Given(helper))?;
                self.mode = Mode::Want;
            }
            b')' => {
                self.trees.push(Node::Item)?;
                self.trees.push(Node::Helper(helper))?;
                self.mode = Mode::Have;
            }
            _ => self.mode = Mode::Dead,
        }
        Ok(())
    }

    /// After the expression of a statement that others follow, which declares or assigns that name.
    fn close_statement(&mut self, byte: u8, naming: Naming, name: Name) -> Result<(), AllocError>
        ensures { OnOk result (state_of self.new
            ≡ (if byte == 59 then machine.WantStatement
            (statements (top (apply (naming_node naming name) (trees_in self.old))))
            (block_of self.old.frames self.old.entry
            (below (apply (naming_node naming name) (trees_in self.old)))) else machine.Dead)) }
    {
        if byte != b';' {
            self.mode = Mode::Dead;
            return Ok(());
        }
        let node = match naming {
            Naming::Let => Node::Let(name),
            Naming::Assign => Node::Assign(name),
            Naming::Variable | Naming::Const | Naming::Line => Node::Const(name),
        };
        self.trees.push(node)?;
        self.mode = Mode::Statement;
        Ok(())
    }

    /// After the expression of a `return`.
    fn close_return(&mut self, byte: u8) -> Result<(), AllocError>
        ensures { OnOk result (state_of self.new ≡ machine.close
            (machine.ReturnIn (statements (top (below (trees_in self.old))))
            (block_of self.old.frames self.old.entry (below (below (trees_in self.old)))))
            (expression (top (trees_in self.old))) byte) }
    {
        if byte == b';' {
            self.trees.push(Node::Return)?;
            self.mode = Mode::Ended;
        } else {
            self.mode = Mode::Dead;
        }
        Ok(())
    }

    /// After the test of an `if`.
    fn close_test(&mut self, byte: u8) -> Result<(), AllocError>
        ensures { OnOk result (state_of self.new ≡ machine.close
            (machine.TestIn (statements (top (below (trees_in self.old))))
            (block_of self.old.frames self.old.entry (below (below (trees_in self.old)))))
            (expression (top (trees_in self.old))) byte) }
    {
        if byte == b')' {
            self.frames.push(Frame::ThenBlock)?;
            self.trees.push(Node::NoStatement)?;
            self.mode = Mode::Known(b"{", After::Statement);
        } else {
            self.mode = Mode::Dead;
        }
        Ok(())
    }

    /// After the expression of a line that declares that name.
    fn close_line(&mut self, byte: u8, name: Name) -> Result<(), AllocError>
        ensures { OnOk result (state_of self.new ≡ machine.close
            (machine.LineIn (lines (top (below (trees_in self.old)))) (name_view name))
            (expression (top (trees_in self.old))) byte) }
    {
        if byte == b';' {
            self.trees.push(Node::Line(name))?;
            self.mode = Mode::Known(b"\n", After::Line);
        } else {
            self.mode = Mode::Dead;
        }
        Ok(())
    }

    /// After the program of `_main`.
    fn close_main(&mut self, byte: u8) -> Result<(), AllocError>
        ensures { OnOk result (state_of self.new ≡ machine.close
            (machine.MainIn (lines (top (below (trees_in self.old)))) self.old.entry)
            (expression (top (trees_in self.old))) byte) }
    {
        if byte == b',' {
            self.frames.push(Frame::Flags)?;
            self.mode = Mode::Known(b"\"flags\":", After::Want);
        } else {
            self.mode = Mode::Dead;
        }
        Ok(())
    }

    /// After the decoder of the flags.
    fn close_flags(&mut self, byte: u8) -> Result<(), AllocError>
        ensures { OnOk result (state_of self.new ≡ machine.close
            (machine.FlagsIn (lines (top (below (below (trees_in self.old))))) self.old.entry
            (expression (top (below (trees_in self.old))))) (expression (top (trees_in self.old))) byte) }
    {
        if byte == b',' {
            self.trees.push(Node::NoField)?;
            self.mode = Mode::Known(b"\"ins\":{", After::Field(Object::Ports));
        } else {
            self.mode = Mode::Dead;
        }
        Ok(())
    }

    /// After the decoder of the incoming port of that name.
    fn close_port(&mut self, byte: u8, name: Units) -> Result<(), AllocError>
        ensures { OnOk result (state_of self.new ≡ machine.close
            (machine.PortIn (front_of self.old.entry (below (below (trees_in self.old))))
            (members (top (below (trees_in self.old)))) name) (expression (top (trees_in self.old))) byte) }
    {
        match byte {
            b',' => {
                self.trees.push(Node::Field(name))?;
                self.mode = Mode::Field(Object::Ports);
            }
            b'}' => {
                self.trees.push(Node::Field(name))?;
                self.begin_outs();
            }
            _ => self.mode = Mode::Dead,
        }
        Ok(())
    }

    /// After the incoming ports.
    fn begin_outs(&mut self)
        ensures { state_of self.new ≡ machine.Known (codes ",\"outs\":{")
            (machine.WantOut (front_of self.old.entry (below (trees_in self.old)))
            (members_then (members (top (trees_in self.old))) NoField) []) }
    {
        self.outs.clear();
        self.mode = Mode::Known(b",\"outs\":{", After::Out);
    }

    /// After the argument of a call.
    fn close_argument(&mut self, byte: u8) -> Result<(), AllocError>
        ensures { OnOk result (state_of self.new
            ≡ machine.close (machine.ArgumentOf (expression (top (below (trees_in self.old))))
            (place_of self.old.frames self.old.entry (below (below (trees_in self.old)))))
            (expression (top (trees_in self.old))) byte) }
    {
        if byte == b')' {
            return self.have_tree(Node::Call);
        }
        self.mode = Mode::Dead;
        Ok(())
    }

    /// After the right one of an operator.
    fn close_right(&mut self, byte: u8, operator: Operator) -> Result<(), AllocError>
        ensures { OnOk result (state_of self.new
            ≡ machine.close (machine.RightOf (operator_view operator) (expression (top (below (trees_in self.old))))
            (place_of self.old.frames self.old.entry (below (below (trees_in self.old)))))
            (expression (top (trees_in self.old))) byte) }
    {
        if byte == b')' {
            return self.have_tree(Node::Binary(operator));
        }
        self.mode = Mode::Dead;
        Ok(())
    }

    /// After the expression after a colon.
    fn close_else(&mut self, byte: u8) -> Result<(), AllocError>
        ensures { OnOk result (state_of self.new
            ≡ machine.close (machine.ElseOf (expression (top (below (below (trees_in self.old)))))
            (expression (top (below (trees_in self.old))))
            (place_of self.old.frames self.old.entry (below (below (below (trees_in self.old))))))
            (expression (top (trees_in self.old))) byte) }
    {
        if byte == b')' {
            return self.have_tree(Node::Conditional);
        }
        self.mode = Mode::Dead;
        Ok(())
    }

    /// After an expression, of which this is the last node.
    fn have_tree(&mut self, node: Node) -> Result<(), AllocError>
        ensures { OnOk result (state_of self.new
            ≡ machine.Have (expression (top (apply node (trees_in self.old))))
            (place_of self.old.frames self.old.entry (below (apply node (trees_in self.old))))) }
    {
        self.trees.push(node)?;
        self.mode = Mode::Have;
        Ok(())
    }

    /// After an expression.
    fn have(&mut self, byte: u8) -> Result<(), AllocError>
        ensures { OnOk result (state_of self.new ≡ machine.have (expression (top (trees_in self.old)))
            (place_of self.old.frames self.old.entry (below (trees_in self.old))) byte) }
    {
        match byte {
            b'(' => {
                self.frames.push(Frame::Argument)?;
                self.mode = Mode::Want;
                Ok(())
            }
            b'[' => {
                self.mode = Mode::Known(b"\"", After::Text(Text::Property));
                Ok(())
            }
            _ => self.close(byte),
        }
    }

    /// Before an expression.
    fn want(&mut self, byte: u8) -> Result<(), AllocError>
        ensures { OnOk result (state_of self.new ≡ machine.want
            (place_of self.old.frames self.old.entry (trees_in self.old)) byte) }
    {
        match byte {
            b'$' | b'A'..=b'Z' => self.begin_name(byte, Naming::Variable),
            b'0'..=b'9' => {
                self.mode = Mode::Int(u64::from(byte - b'0'));
                Ok(())
            }
            b'"' => {
                self.begin_text(Text::Literal);
                Ok(())
            }
            b'(' => {
                self.frames.push(Frame::First)?;
                self.mode = Mode::Want;
                Ok(())
            }
            b'{' => {
                self.trees.push(Node::NoField)?;
                self.mode = Mode::Field(Object::Value);
                Ok(())
            }
            b'_' | b't' | b'f' => {
                self.word.clear();
                self.in_word(byte)
            }
            _ => self.no_expression(byte),
        }
    }

    /// Begins a text.
    fn begin_text(&mut self, text: Text)
        ensures { state_of self.new ≡ machine.InText [] (text_of text self.old.frames self.old.entry
            (trees_in self.old) (outs_in self.old)) }
    {
        self.units.clear();
        self.mode = Mode::Text(text);
    }

    /// Begins a name at its first byte.
    fn begin_name(&mut self, byte: u8, naming: Naming) -> Result<(), AllocError>
        ensures { OnOk result (state_of self.new ≡ machine.name_at (begin_name byte)
            (naming_of naming self.old.frames self.old.entry (trees_in self.old))) }
    {
        self.name.begin(byte)?;
        self.in_name(naming);
        Ok(())
    }

    /// In a name, if what has been read of it begins one.
    fn in_name(&mut self, naming: Naming)
        ensures { state_of self.new ≡ machine.name_at (begun_of self.old.name)
            (naming_of naming self.old.frames self.old.entry (trees_in self.old)) }
    {
        self.mode = if self.name.is_begun() {
            Mode::Name(naming)
        } else {
            Mode::Dead
        };
    }

    /// At what may stand in place of an expression.
    fn no_expression(&mut self, byte: u8) -> Result<(), AllocError>
        ensures { OnOk result (state_of self.new ≡ machine.no_expression
            (place_of self.old.frames self.old.entry (trees_in self.old)) byte) }
    {
        let Some(frame) = self.frames.pop() else {
            self.mode = Mode::Dead;
            return Ok(());
        };
        match frame {
            Frame::List => self.no_item(byte),
            Frame::Given(helper) => self.no_argument(byte, helper),
            Frame::First => self.no_first(byte),
            _ => {
                self.mode = Mode::Dead;
                Ok(())
            }
        }
    }

    /// At the end of a list that may be empty.
    fn no_item(&mut self, byte: u8) -> Result<(), AllocError>
        ensures { OnOk result (state_of self.new ≡ machine.no_expression
            (machine.ListIn (items (top (trees_in self.old)))
            (place_of self.old.frames self.old.entry (below (trees_in self.old)))) byte) }
    {
        if byte == b']' && self.has_no_item() {
            self.trees.push(Node::List)?;
            self.mode = Mode::Known(b")", After::Have);
        } else {
            self.mode = Mode::Dead;
        }
        Ok(())
    }

    /// At the end of arguments of which there may be none.
    fn no_argument(&mut self, byte: u8, helper: Helper) -> Result<(), AllocError>
        ensures { OnOk result (state_of self.new ≡ machine.no_expression
            (machine.GivenTo (helper_view helper) (items (top (trees_in self.old)))
            (place_of self.old.frames self.old.entry (below (trees_in self.old)))) byte) }
    {
        if byte == b')' && self.has_no_item() {
            self.trees.push(Node::Helper(helper))?;
            self.mode = Mode::Have;
        } else {
            self.mode = Mode::Dead;
        }
        Ok(())
    }

    /// The last tree is no item.
    fn has_no_item(&self) -> bool
        ensures { result ≡ is_no_item (items (top (trees_in self.now))) }
    {
        !matches!(self.trees.node(self.trees.len()), Some(Node::Item))
    }

    /// The last tree is no field.
    fn has_no_field(&self) -> bool
        ensures { result ≡ is_no_member (members (top (trees_in self.now))) }
    {
        !matches!(self.trees.node(self.trees.len()), Some(Node::Field(_)))
    }

    /// After a bracket, at what is no expression.
    fn no_first(&mut self, byte: u8) -> Result<(), AllocError>
        ensures { OnOk result (state_of self.new ≡ machine.no_expression
            (machine.FirstIn (place_of self.old.frames self.old.entry (trees_in self.old))) byte) }
    {
        match byte {
            b'-' => self.mode = Mode::Minus,
            b')' => return self.no_parameter(),
            _ => self.mode = Mode::Dead,
        }
        Ok(())
    }

    /// After `(()`.
    fn no_parameter(&mut self) -> Result<(), AllocError>
        ensures { OnOk result (state_of self.new ≡ machine.no_parameter
            (place_of self.old.frames self.old.entry (trees_in self.old)) 41) }
    {
        let Some(frame) = self.frames.pop() else {
            self.mode = Mode::Dead;
            return Ok(());
        };
        match frame {
            Frame::First => {
                self.frames.push(Frame::Called)?;
                self.trees.push(Node::NoStatement)?;
                self.mode = Mode::Known(b"=>{", After::Statement);
            }
            _ => self.mode = Mode::Dead,
        }
        Ok(())
    }

    /// At one byte more of a word that an expression begins with.
    fn in_word(&mut self, byte: u8) -> Result<(), AllocError>
        ensures { OnOk result (state_of self.new ≡ machine.in_word (self.old.word.items ++ byte ∷ [])
            (place_of self.old.frames self.old.entry (trees_in self.old))) }
    {
        self.word.push(byte)?;
        let found = find_word(&self.word);
        self.at_word(found)
    }

    /// After a word, if one has been found.
    fn at_word(&mut self, found: Option<Word>) -> Result<(), AllocError>
        ensures { OnOk result (state_of self.new ≡ found_word found
            (begun_word self.old.word.items (place_of self.old.frames self.old.entry (trees_in self.old)))
            (λ w. machine.after_word w (place_of self.old.frames self.old.entry (trees_in self.old)))) }
    {
        let Some(word) = found else {
            self.mode = if begins_word(&self.word) {
                Mode::Word
            } else {
                Mode::Dead
            };
            return Ok(());
        };
        self.after_word(word)
    }

    /// After a word that an expression begins with.
    fn after_word(&mut self, word: Word) -> Result<(), AllocError>
        ensures { OnOk result (state_of self.new ≡ machine.after_word (word_view word)
            (place_of self.old.frames self.old.entry (trees_in self.old))) }
    {
        match word {
            Word::True => {
                self.trees.push(Node::Bool(true))?;
                self.mode = Mode::Have;
            }
            Word::False => {
                self.trees.push(Node::Bool(false))?;
                self.mode = Mode::Have;
            }
            Word::List => {
                self.trees.push(Node::NoItem)?;
                self.frames.push(Frame::List)?;
                self.mode = Mode::Want;
            }
            Word::Helper(helper) => {
                self.trees.push(Node::NoItem)?;
                self.frames.push(Frame::Given(helper))?;
                self.mode = Mode::Want;
            }
        }
        Ok(())
    }

    /// At one byte more of a word that a statement begins with.
    fn in_keyword(&mut self, byte: u8) -> Result<(), AllocError>
        ensures { OnOk result (state_of self.new ≡ machine.in_keyword (self.old.word.items ++ byte ∷ [])
            (statements (top (trees_in self.old))) (block_of self.old.frames self.old.entry
            (below (trees_in self.old)))) }
    {
        self.word.push(byte)?;
        self.at_keyword()
    }

    /// After a word that a statement begins with, if one has been found.
    fn at_keyword(&mut self) -> Result<(), AllocError>
        ensures { OnOk result (state_of self.new ≡ machine.in_keyword self.old.word.items
            (statements (top (trees_in self.old))) (block_of self.old.frames self.old.entry
            (below (trees_in self.old)))) }
    {
        if is(&self.word, b"const ") {
            self.mode = Mode::WantName(Naming::Const);
        } else if is(&self.word, b"let ") {
            self.mode = Mode::WantName(Naming::Let);
        } else if is(&self.word, b"return ") {
            self.frames.push(Frame::Return)?;
            self.mode = Mode::Want;
        } else if is(&self.word, b"if(") {
            self.frames.push(Frame::Test)?;
            self.mode = Mode::Want;
        } else if is(&self.word, b"while(true){") {
            self.frames.push(Frame::Loop)?;
            self.trees.push(Node::NoStatement)?;
            self.mode = Mode::Statement;
        } else if is(&self.word, b"continue;") {
            self.trees.push(Node::Continue)?;
            self.mode = Mode::Ended;
        } else if begins_keyword(&self.word) {
            self.mode = Mode::Keyword;
        } else {
            self.mode = Mode::Dead;
        }
        Ok(())
    }

    /// At one byte more of a name, or after it.
    fn name(&mut self, byte: u8, naming: Naming) -> Result<(), AllocError>
        ensures { OnOk result (state_of self.new ≡ machine.in_name (begun_of self.old.name)
            (naming_of naming self.old.frames self.old.entry (trees_in self.old)) byte) }
    {
        if is_run(byte) {
            self.name.step(byte)?;
            self.in_name(naming);
            return Ok(());
        }
        let name = self.name.name()?;
        self.end_name(name, byte, naming)
    }

    /// After what may be a name.
    fn end_name(&mut self, name: Option<Name>, byte: u8, naming: Naming) -> Result<(), AllocError>
        ensures { OnOk result (state_of self.new ≡ machine.end_name (found_of name)
            (naming_of naming self.old.frames self.old.entry (trees_in self.old)) byte) }
    {
        match name {
            Some(name) => self.after_name(name, byte, naming),
            None => {
                self.mode = Mode::Dead;
                Ok(())
            }
        }
    }

    /// After a name.
    fn after_name(&mut self, name: Name, byte: u8, naming: Naming) -> Result<(), AllocError>
        ensures { OnOk result (state_of self.new ≡ machine.after_name (name_view name)
            (naming_of naming self.old.frames self.old.entry (trees_in self.old)) byte) }
    {
        match naming {
            Naming::Variable => self.after_variable(name, byte),
            Naming::Const => self.named(name, byte, Naming::Const),
            Naming::Let => self.named(name, byte, Naming::Let),
            Naming::Assign => self.named(name, byte, Naming::Assign),
            Naming::Line => self.named(name, byte, Naming::Line),
        }
    }

    /// After the name of a declaration or an assignment.
    fn named(&mut self, name: Name, byte: u8, naming: Naming) -> Result<(), AllocError>
        ensures { OnOk result (state_of self.new
            ≡ (if byte == 61 then machine.Want
            (place_of (naming_frame naming name ∷ self.old.frames) self.old.entry (trees_in self.old))
            else machine.Dead)) }
    {
        if byte != b'=' {
            self.mode = Mode::Dead;
            return Ok(());
        }
        let frame = match naming {
            Naming::Const => Frame::Const(name),
            Naming::Let => Frame::Let(name),
            Naming::Assign => Frame::Assign(name),
            Naming::Variable | Naming::Line => Frame::Line(name),
        };
        self.frames.push(frame)?;
        self.mode = Mode::Want;
        Ok(())
    }

    /// After a name that is an expression.
    fn after_variable(&mut self, name: Name, byte: u8) -> Result<(), AllocError>
        ensures { OnOk result (state_of self.new ≡ machine.have (JVar (name_view name))
            (place_of self.old.frames self.old.entry (trees_in self.old)) byte) }
    {
        self.trees.push(Node::Var(name))?;
        self.have(byte)
    }

    /// At one digit more of a number, or after it.
    fn int(&mut self, number: u64, byte: u8) -> Result<(), AllocError>
        ensures { OnOk result (state_of self.new ≡ machine.in_int number
            (place_of self.old.frames self.old.entry (trees_in self.old)) byte) }
    {
        if is_digit(byte) {
            if number == 0 {
                self.mode = Mode::Dead;
                return Ok(());
            }
            let more = digit_after(number, byte)?;
            self.mode = if is_exact(more) {
                Mode::Int(more)
            } else {
                Mode::Dead
            };
            return Ok(());
        }
        self.trees.push(Node::Int(signed(number)?))?;
        self.have(byte)
    }

    /// At the first digit of a negative number.
    fn minus(&mut self, byte: u8) -> Result<(), AllocError>
        ensures { OnOk result (state_of self.new ≡ machine.step
            (machine.Minus_seen (place_of self.old.frames self.old.entry (trees_in self.old))) byte) }
    {
        if is_digit(byte) {
            self.negative_at(u64::from(byte - b'0'));
        } else {
            self.mode = Mode::Dead;
        }
        Ok(())
    }

    /// In a negative number, if it is one.
    fn negative_at(&mut self, number: u64)
        ensures { state_of self.new ≡ machine.negative_at number
            (place_of self.old.frames self.old.entry (trees_in self.old)) }
    {
        self.mode = if number > 0 && is_exact(number) {
            Mode::Negative(number)
        } else {
            Mode::Dead
        };
    }

    /// At one digit more of a negative number, or after it.
    fn negative(&mut self, number: u64, byte: u8) -> Result<(), AllocError>
        ensures { OnOk result (state_of self.new ≡ machine.in_negative number
            (place_of self.old.frames self.old.entry (trees_in self.old)) byte) }
    {
        if is_digit(byte) {
            let more = digit_after(number, byte)?;
            self.negative_at(more);
            return Ok(());
        }
        if byte == b')' {
            let value = signed(number)?;
            self.trees.push(Node::Int(-value))?;
            self.mode = Mode::Have;
        } else {
            self.mode = Mode::Dead;
        }
        Ok(())
    }

    /// In a text.
    fn text(&mut self, byte: u8, text: Text) -> Result<(), AllocError>
        ensures { OnOk result (state_of self.new ≡ machine.in_text self.old.units.items
            (text_of text self.old.frames self.old.entry (trees_in self.old) (outs_in self.old)) byte) }
    {
        match byte {
            b'"' => self.after_text(text),
            b'\\' => {
                self.mode = Mode::Escape(text);
                Ok(())
            }
            b' '..=b'~' => self.unit(u16::from(byte), text),
            _ => {
                self.mode = Mode::Dead;
                Ok(())
            }
        }
    }

    /// One unit more of a text.
    fn unit(&mut self, unit: u16, text: Text) -> Result<(), AllocError>
        ensures { OnOk result (state_of self.new ≡ machine.InText (self.old.units.items ++ unit ∷ [])
            (text_of text self.old.frames self.old.entry (trees_in self.old) (outs_in self.old))) }
    {
        self.units.push(unit)?;
        self.mode = Mode::Text(text);
        Ok(())
    }

    /// After a `\` in a text.
    fn escape(&mut self, byte: u8, text: Text) -> Result<(), AllocError>
        ensures { OnOk result (state_of self.new ≡ machine.in_escape self.old.units.items
            (text_of text self.old.frames self.old.entry (trees_in self.old) (outs_in self.old)) byte) }
    {
        match byte {
            b'"' | b'\\' => self.unit(u16::from(byte), text),
            b'u' => {
                self.mode = Mode::Digits(3, 0, text);
                Ok(())
            }
            _ => {
                self.mode = Mode::Dead;
                Ok(())
            }
        }
    }

    /// In the digits of base 16 of a unit.
    fn digits(&mut self, left: u8, value: u16, byte: u8, text: Text) -> Result<(), AllocError>
        ensures { OnOk result (state_of self.new ≡ machine.step
            (machine.InDigits self.old.units.items left value
            (text_of text self.old.frames self.old.entry (trees_in self.old) (outs_in self.old))) byte) }
    {
        if !is_hex_digit(byte) {
            self.mode = Mode::Dead;
            return Ok(());
        }
        let more = digit_more(value, byte)?;
        if left > 0 {
            self.mode = if can_stand(left, more) {
                Mode::Digits(left - 1, more, text)
            } else {
                Mode::Dead
            };
            return Ok(());
        }
        if !(32..=126).contains(&more) {
            return self.unit(more, text);
        }
        self.mode = Mode::Dead;
        Ok(())
    }

    /// After the closing quote of a text.
    fn after_text(&mut self, text: Text) -> Result<(), AllocError>
        ensures { OnOk result (state_of self.new ≡ machine.after_text self.old.units.items
            (text_of text self.old.frames self.old.entry (trees_in self.old) (outs_in self.old))) }
    {
        let units = Units::from_vec(Vec::from_slice(self.alloc, &self.units)?);
        match text {
            Text::Literal => {
                self.trees.push(Node::Text(units))?;
                self.mode = Mode::Have;
            }
            Text::Key(Object::Value) => {
                self.frames.push(Frame::Field(units))?;
                self.mode = Mode::Known(b":", After::Want);
            }
            Text::Key(Object::Ports) => {
                self.frames.push(Frame::Port(units))?;
                self.mode = Mode::Known(b":", After::Want);
            }
            Text::Property => {
                self.trees.push(Node::Property(units))?;
                self.mode = Mode::Known(b"]", After::Have);
            }
            Text::Module => {
                self.entry = units;
                self.frames = Frames::new(self.alloc);
                self.mode = Mode::Known(b",\"program\":", After::Want);
            }
            Text::Out => {
                self.out = units;
                self.mode = Mode::Known(b":0", After::OutDone);
            }
        }
        Ok(())
    }

    /// Before a field.
    fn field(&mut self, byte: u8, object: Object) -> Result<(), AllocError>
        ensures { OnOk result (state_of self.new ≡ machine.want_field (members (top (trees_in self.old)))
            (object_of object self.old.frames self.old.entry (below (trees_in self.old))) byte) }
    {
        match byte {
            b'"' => {
                self.begin_text(Text::Key(object));
                Ok(())
            }
            b'}' => self.no_field(object),
            _ => {
                self.mode = Mode::Dead;
                Ok(())
            }
        }
    }

    /// Where an object ends before a field.
    fn no_field(&mut self, object: Object) -> Result<(), AllocError>
        ensures { OnOk result (state_of self.new ≡ machine.close_fields (members (top (trees_in self.old)))
            (object_of object self.old.frames self.old.entry (below (trees_in self.old)))) }
    {
        if !self.has_no_field() {
            self.mode = Mode::Dead;
            return Ok(());
        }
        match object {
            Object::Value => {
                self.trees.push(Node::Object)?;
                self.mode = Mode::Have;
            }
            Object::Ports => self.begin_outs(),
        }
        Ok(())
    }

    /// Before a statement.
    fn statement(&mut self, byte: u8) -> Result<(), AllocError>
        ensures { OnOk result (state_of self.new ≡ machine.want_statement (statements (top (trees_in self.old)))
            (block_of self.old.frames self.old.entry (below (trees_in self.old))) byte) }
    {
        match byte {
            b'$' | b'A'..=b'Z' => self.begin_name(byte, Naming::Assign),
            _ => {
                self.word.clear();
                self.in_keyword(byte)
            }
        }
    }

    /// After the last statement of a block.
    fn ended(&mut self, byte: u8) -> Result<(), AllocError>
        ensures { OnOk result (state_of self.new ≡ machine.step
            (machine.Ended (statements (top (below (trees_in self.old)))) (block (top (trees_in self.old)))
            (block_of self.old.frames self.old.entry (below (below (trees_in self.old))))) byte) }
    {
        if byte == b'}' {
            self.trees.push(Node::Ended)?;
            return self.close_block();
        }
        self.mode = Mode::Dead;
        Ok(())
    }

    /// After a block.
    fn close_block(&mut self) -> Result<(), AllocError>
        ensures { OnOk result (state_of self.new ≡ machine.close_block (block (top (trees_in self.old)))
            (block_of self.old.frames self.old.entry (below (trees_in self.old)))) }
    {
        let Some(frame) = self.frames.pop() else {
            return self.called();
        };
        self.close_block_in(frame)
    }

    /// After a block in this frame, which is none of the others any more.
    fn close_block_in(&mut self, frame: Frame) -> Result<(), AllocError>
        ensures { OnOk result (state_of self.new
            ≡ machine.close_block (block (top (trees_in self.old)))
            (block_of (frame ∷ self.old.frames) self.old.entry (below (trees_in self.old)))) }
    {
        match frame {
            Frame::Body(name) => self.close_body(name),
            Frame::ThenBlock => self.close_then(),
            Frame::ElseBlock => self.close_branches(Node::If),
            Frame::Loop => self.close_branches(Node::While),
            _ => self.called(),
        }
    }

    /// After the block of a function of this parameter.
    fn close_body(&mut self, name: Name) -> Result<(), AllocError>
        ensures { OnOk result (state_of self.new
            ≡ machine.close_block (block (top (trees_in self.old)))
            (machine.BodyOf (name_view name)
            (place_of self.old.frames self.old.entry (below (trees_in self.old))))) }
    {
        self.trees.push(Node::Arrow(name))?;
        self.mode = Mode::Known(b")", After::Have);
        Ok(())
    }

    /// After the first block of an `if`.
    fn close_then(&mut self) -> Result<(), AllocError>
        ensures { OnOk result (state_of self.new
            ≡ machine.close_block (block (top (trees_in self.old)))
            (block_of (Frame.ThenBlock ∷ self.old.frames) self.old.entry (below (trees_in self.old)))) }
    {
        self.frames.push(Frame::ElseBlock)?;
        self.trees.push(Node::NoStatement)?;
        self.mode = Mode::Known(b"else{", After::Statement);
        Ok(())
    }

    /// After the last block of a statement that ends with one.
    fn close_branches(&mut self, node: Node) -> Result<(), AllocError>
        ensures { OnOk result (state_of self.new
            ≡ machine.Ended (statements (top (below (apply node (trees_in self.old)))))
            (block (top (apply node (trees_in self.old))))
            (block_of self.old.frames self.old.entry (below (below (apply node (trees_in self.old)))))) }
    {
        self.trees.push(node)?;
        self.mode = Mode::Ended;
        Ok(())
    }

    /// After the block of a function that is called at once.
    fn called(&mut self) -> Result<(), AllocError>
        ensures { OnOk result (state_of self.new ≡ machine.Known (codes ")()")
            (machine.Have (JBlock (block (top (trees_in self.old))))
            (place_of self.old.frames self.old.entry (below (trees_in self.old))))) }
    {
        self.trees.push(Node::Block)?;
        self.mode = Mode::Known(b")()", After::Have);
        Ok(())
    }

    /// After an `=` after the first expression in a bracket.
    fn equals(&mut self, byte: u8) -> Result<(), AllocError>
        ensures { OnOk result (state_of self.new ≡ machine.equals (expression (top (trees_in self.old)))
            (place_of self.old.frames self.old.entry (below (trees_in self.old))) byte) }
    {
        match byte {
            b'=' => self.second(Operator::StrictEquals, b"="),
            b'>' => self.parameter(),
            _ => {
                self.mode = Mode::Dead;
                Ok(())
            }
        }
    }

    /// After `=>`.
    fn parameter(&mut self) -> Result<(), AllocError>
        ensures { OnOk result (state_of self.new ≡ machine.equals (expression (top (trees_in self.old)))
            (place_of self.old.frames self.old.entry (below (trees_in self.old))) 62) }
    {
        let Some(node) = self.trees.pop() else {
            self.mode = Mode::Dead;
            return Ok(());
        };
        let Some(name) = variable(node) else {
            self.mode = Mode::Dead;
            return Ok(());
        };
        self.frames.push(Frame::Body(name))?;
        self.trees.push(Node::NoStatement)?;
        self.mode = Mode::Known(b"{", After::Statement);
        Ok(())
    }

    /// Before a line.
    fn line(&mut self, byte: u8)
        ensures { state_of self.new ≡ machine.step (machine.WantLine (lines (top (trees_in self.old)))) byte }
    {
        self.mode = if byte == b'c' {
            Mode::Known(b"onst ", After::LineName)
        } else {
            Mode::Dead
        };
    }

    /// Before the name of a line.
    fn line_name(&mut self, byte: u8) -> Result<(), AllocError>
        ensures { OnOk result (state_of self.new ≡ machine.want_line_name (lines (top (trees_in self.old))) byte) }
    {
        if byte == b'_' {
            self.mode = Mode::Known(b"main={\"name\":\"", After::Text(Text::Module));
            return Ok(());
        }
        self.begin_name(byte, Naming::Line)
    }

    /// Before an outgoing port.
    fn out(&mut self, byte: u8) -> Result<(), AllocError>
        ensures { OnOk result (state_of self.new ≡ machine.want_out
            (front_of self.old.entry (below (trees_in self.old)))
            (members_then (members (top (trees_in self.old))) NoField) (outs_in self.old) byte) }
    {
        match byte {
            b'"' => {
                self.begin_text(Text::Out);
                Ok(())
            }
            b'}' if self.outs.is_empty() => self.end_outs(),
            _ => {
                self.mode = Mode::Dead;
                Ok(())
            }
        }
    }

    /// After an outgoing port.
    #[tactic(auto, using(crate::proofs::Outs::outs_whole))]
    fn out_done(&mut self, byte: u8) -> Result<(), AllocError>
        ensures { OnOk result (state_of self.new ≡ machine.have_out
            (front_of self.old.entry (below (trees_in self.old)))
            (members_then (members (top (trees_in self.old))) NoField) self.old.out (outs_in self.old) byte) }
    {
        if byte != b',' && byte != b'}' {
            self.mode = Mode::Dead;
            return Ok(());
        }
        let out = mem::replace(&mut self.out, Units::from_vec(Vec::new(self.alloc)));
        self.outs.push(out)?;
        if byte == b',' {
            self.mode = Mode::Out;
            return Ok(());
        }
        self.end_outs()
    }

    /// After the outgoing ports.
    fn end_outs(&mut self) -> Result<(), AllocError>
        ensures { OnOk result (state_of self.new ≡ machine.end_outs
            (front_of self.old.entry (below (trees_in self.old)))
            (members_then (members (top (trees_in self.old))) NoField) self.old.outs.items) }
    {
        let name = mem::replace(&mut self.entry, Units::from_vec(Vec::new(self.alloc)));
        let outs = mem::replace(&mut self.outs, Vec::new(self.alloc));
        self.trees.push(Node::Program { name, outs })?;
        self.mode = Mode::Closing(b"};\n");
        Ok(())
    }

    /// At bytes that are known.
    fn known(&mut self, bytes: &'static [u8], after: After, byte: u8)
        ensures { state_of self.new ≡ machine.step (machine.Known bytes.now (after_in after self.old)) byte }
    {
        let Some((first, rest)) = bytes.split_first() else {
            self.mode = Mode::Dead;
            return;
        };
        if *first != byte {
            self.mode = Mode::Dead;
            return;
        }
        if rest.is_empty() {
            self.go_on(after);
        } else {
            self.mode = Mode::Known(rest, after);
        }
    }

    /// After bytes that are known.
    fn go_on(&mut self, after: After)
        ensures { state_of self.new ≡ after_in after self.old }
    {
        match after {
            After::Want => self.mode = Mode::Want,
            After::Have => self.mode = Mode::Have,
            After::Text(text) => self.begin_text(text),
            After::Field(object) => self.mode = Mode::Field(object),
            After::Statement => self.mode = Mode::Statement,
            After::Line => self.mode = Mode::Line,
            After::LineName => self.mode = Mode::LineName,
            After::Out => self.mode = Mode::Out,
            After::OutDone => self.mode = Mode::OutDone,
            After::Finished => self.mode = Mode::Finished,
        }
    }

    /// At the bytes before the fixed end.
    #[tactic(auto, using(crate::proofs::Closing::closing_step))]
    fn closing(&mut self, bytes: &'static [u8], byte: u8)
        ensures { state_of self.new ≡ machine.step (machine.Known (bytes.now ++ TAIL.now)
            (after_in Finished self.old)) byte }
    {
        let Some((first, rest)) = bytes.split_first() else {
            self.known(TAIL, After::Finished, byte);
            return;
        };
        if *first != byte {
            self.mode = Mode::Dead;
            return;
        }
        self.mode = Mode::Closing(rest);
    }

    /// Whether no text begins with what has been read.
    pub fn is_dead(&self) -> bool
        ensures { result ≡ not (is_live (state_of self.now)) }
    {
        matches!(self.mode, Mode::Dead)
    }

    /// Whether a whole text has been read.
    pub fn is_finished(&self) -> bool
        ensures yes { result ≡ true → state_of self.now ≡ machine.Finished (program_at (top (trees_in self.now))) }
        ensures no { result ≡ false → is_finished (state_of self.now) ≡ false }
    {
        matches!(self.mode, Mode::Finished)
    }

    /// The trees that have been read.
    pub fn into_trees(self) -> Trees
        ensures { result ≡ self.trees }
    {
        self.trees
    }

    /// Goes on by one byte.
    pub fn step(&mut self, byte: u8) -> Result<(), AllocError>
        ensures { OnOk result (state_of self.new ≡ machine.step (state_of self.old) byte) }
    {
        match self.mode {
            Mode::Want => self.want(byte),
            Mode::Have => self.have(byte),
            Mode::Name(naming) => self.name(byte, naming),
            Mode::Int(number) => self.int(number, byte),
            Mode::Minus => self.minus(byte),
            Mode::Negative(number) => self.negative(number, byte),
            Mode::Text(text) => self.text(byte, text),
            Mode::Escape(text) => self.escape(byte, text),
            Mode::Digits(left, value, text) => self.digits(left, value, byte, text),
            Mode::Word => self.in_word(byte),
            Mode::WantName(naming) => self.begin_name(byte, naming),
            Mode::Field(object) => self.field(byte, object),
            Mode::Statement => self.statement(byte),
            Mode::Keyword => self.in_keyword(byte),
            Mode::Ended => self.ended(byte),
            Mode::Equals => self.equals(byte),
            Mode::Line => {
                self.line(byte);
                Ok(())
            }
            Mode::LineName => self.line_name(byte),
            Mode::Out => self.out(byte),
            Mode::OutDone => self.out_done(byte),
            Mode::Known(bytes, after) => {
                self.known(bytes, after, byte);
                Ok(())
            }
            Mode::Closing(bytes) => {
                self.closing(bytes, byte);
                Ok(())
            }
            Mode::Finished | Mode::Dead => {
                self.mode = Mode::Dead;
                Ok(())
            }
        }
    }
}

/// The number that decimal digits are with one more.
fn digit_after(number: u64, byte: u8) -> Result<u64, AllocError>
    requires { is_digit byte ≡ true }
    ensures { IfOk result (λ more. more ≡ number * 10 + (byte - 48)) }
{
    let tens = number.checked_mul(10).ok_or(AllocError)?;
    tens.checked_add(u64::from(byte - b'0')).ok_or(AllocError)
}

/// The number as a signed one.
fn signed(number: u64) -> Result<i64, AllocError>
    ensures { IfOk result (λ value. value ≡ pos number) }
{
    i64::try_from(number).map_err(|_| AllocError)
}

/// Whether an integer is exact.
fn is_exact(number: u64) -> bool
    ensures plus { result ≡ exact.is_exact (pos number) }
    ensures minus { result ≡ exact.is_exact (machine.minus number) }
{
    number <= 9_007_199_254_740_991
}

/// The name that a node is, if it is one.
fn variable(node: Node) -> Option<Name>
    ensures { (ts : List Tree) (k : machine.Place) → machine.equals (expression (top (apply node ts))) k 62
        ≡ parameter_of result k }
{
    match node {
        Node::Var(name) => Some(name),
        _ => None,
    }
}

/// Whether a unit that does not stand for itself can begin with the digits of base 16 `value`, of which so many more
/// are to come.
fn can_stand(left: u8, value: u16) -> bool
    requires { 0 < left }
    ensures { result ≡ (nat_lt (value * 16 ^ left) 32 || nat_lt 126 (greatest left value)) }
{
    if left > 1 {
        return true;
    }
    value < 2 || value > 6
}
