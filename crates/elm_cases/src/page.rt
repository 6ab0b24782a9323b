//! The text of a tree as it grows.

use elm_lexer::{Kind, Token};
use elm_tree::tree::Word;
use elm_tree::turns::text_at;
use std::alloc::{AllocError, Global};
use std::marker::Model;

/// The text of a tree up to some place in it.
#[derive(Drop)]
pub struct Page<'t, 'a> {
    tokens: &'t [Token<'a>],
    text: Vec<u8>,
    /// How many blocks are open: what stands in them begins after so many spaces.
    depth: usize,
}

impl<'t, 'a> Model for Page<'t, 'a> {
    ghost use Rattle.std.specs.Prelude.{ℕ, List};

    ghost Value = { List ℕ };

    ghost view = { λ p. p.text.items };
}

impl<'t, 'a> Page<'t, 'a> {
    /// An empty page for the tree of these tokens.
    pub fn new(alloc: Global, tokens: &'t [Token<'a>]) -> Self {
        Page {
            tokens,
            text: Vec::new(alloc),
            depth: 0,
        }
    }

    /// The text of the page.
    pub fn into_text(self) -> Vec<u8> {
        self.text
    }

    /// Writes a text as it is.
    pub fn put(&mut self, text: &str) -> Result<(), AllocError> {
        self.text.extend_from_slice(text.as_bytes())
    }

    /// Begins a line of the innermost block.
    pub fn line(&mut self) -> Result<(), AllocError> {
        self.put("\n")?;
        for _ in 0..self.depth {
            self.put(" ")?;
        }
        Ok(())
    }

    /// Opens a block.
    pub fn open(&mut self) {
        self.depth = self.depth.saturating_add(1);
    }

    /// Closes the innermost block.
    pub fn close(&mut self) {
        self.depth = self.depth.saturating_sub(1);
    }

    /// Writes a word. After a text of several lines goes a new line, inside of the innermost block.
    pub fn word(&mut self, word: Word) -> Result<(), AllocError> {
        let text = text_at(self.tokens, word);
        self.text.extend_from_slice(text)?;
        if text.contains(&b'\n') {
            self.line()?;
            self.put(" ")?;
        }
        Ok(())
    }

    /// Writes a word of an expression, an operator in parentheses.
    pub fn operand(&mut self, word: Word) -> Result<(), AllocError> {
        if self.is_operator(word) {
            self.put("(")?;
            self.word(word)?;
            self.put(")")
        } else {
            self.word(word)
        }
    }

    /// Writes words with a space before each.
    pub fn words(&mut self, words: &[Word]) -> Result<(), AllocError> {
        for word in words {
            self.put(" ")?;
            self.word(*word)?;
        }
        Ok(())
    }

    /// Writes words with commas between them.
    fn listed(&mut self, words: &[Word]) -> Result<(), AllocError> {
        for (place, word) in words.iter().enumerate() {
            self.between(place, ", ")?;
            self.word(*word)?;
        }
        Ok(())
    }

    /// Writes a text before all but the first of some things.
    pub fn between(&mut self, place: usize, text: &str) -> Result<(), AllocError> {
        if place == 0 { Ok(()) } else { self.put(text) }
    }

    /// Writes words one after another.
    pub fn joined(&mut self, words: &[Word]) -> Result<(), AllocError> {
        for word in words {
            self.word(*word)?;
        }
        Ok(())
    }

    /// Writes words with commas between them, in braces.
    pub fn braced(&mut self, words: &[Word]) -> Result<(), AllocError> {
        self.put("{ ")?;
        self.listed(words)?;
        self.put(" }")
    }

    /// Writes two words.
    pub fn both(&mut self, first: Word, second: Word) -> Result<(), AllocError> {
        self.word(first)?;
        self.word(second)
    }

    /// Writes the base of a record and a text after it, if it has one.
    pub fn base(&mut self, base: Option<Word>, text: &str) -> Result<(), AllocError> {
        match base {
            Some(base) => {
                self.word(base)?;
                self.put(text)
            }
            None => Ok(()),
        }
    }

    /// Opens a bracket, unless what follows stands bare.
    pub fn open_bracket(&mut self, bare: bool) -> Result<(), AllocError> {
        if bare { Ok(()) } else { self.put("(") }
    }

    /// Closes a bracket, unless what it is about stands bare.
    pub fn close_bracket(&mut self, bare: bool) -> Result<(), AllocError> {
        if bare { Ok(()) } else { self.put(")") }
    }

    /// Whether a word is an operator.
    fn is_operator(&self, word: Word) -> bool {
        self.is(word, Kind::Operator)
    }

    /// Whether a word is the name of a value.
    pub fn is_name(&self, word: Word) -> bool {
        self.is(word, Kind::LowerName) || self.is(word, Kind::QualifiedLower)
    }

    fn is(&self, word: Word, kind: Kind) -> bool {
        match self.tokens.get(word.index as usize) {
            Some(token) => token.kind == kind,
            None => false,
        }
    }
}
