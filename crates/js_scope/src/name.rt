//! A name, read byte by byte.

ghost use Rattle.std.specs.Prelude.{◌≡◌, ◌≤◌, ◌<◌, ◌+◌, ◌*◌, ◌-◌, ◌^◌, ◌++◌, [], ◌∷◌, OnOk, IfOk, true, nat_le};
ghost use Rattle.js_scope.specs.NameView.{begun_at, begun_of, found_of};
ghost use Rattle.js_scope.specs.declared.name.Phase.TheVariants.{Word, Dollar, Digits};
ghost use Rattle.js_tree.specs.Subset as subset;
ghost use Rattle.js_tree.specs.Text as spelled;
ghost use Rattle.js_tree.specs.NameReader as reading;

use elm_base::units::Units;
use js_tree::tree::Name;
use std::alloc::{AllocError, Global};

/// How far a name has been read.
#[derive(Clone, Copy)]
pub enum Phase {
    /// `$`
    OneDollar,
    /// `$$`
    TwoDollars,
    /// `$$` and a number.
    Numbered(u64),
    /// A word.
    Word,
    /// A word and `$`.
    Dollar,
    /// A word, `$$` and digits of base 16: how many are to come after the next, and the number that they are.
    Digits(u8, u16),
    /// Something that begins no name.
    NoName,
}

/// What has been read of a name.
#[derive(Drop)]
pub struct NameReader {
    alloc: Global,
    phase: Phase,
    /// The word is one of a local name.
    is_local: bool,
    /// The words before, with points between them.
    owner: Vec<u16>,
    /// The word so far.
    word: Vec<u16>,
}

fn is_upper(byte: u8) -> bool
    ensures { result ≡ subset.is_upper byte }
{
    byte.is_ascii_uppercase()
}

fn is_letter(byte: u8) -> bool
    ensures { result ≡ subset.is_letter byte }
{
    byte.is_ascii_alphabetic()
}

/// A decimal digit.
pub fn is_digit(byte: u8) -> bool
    ensures { result ≡ reading.is_digit byte }
{
    byte.is_ascii_digit()
}

/// A letter, a digit or `_`.
fn is_word_char(byte: u8) -> bool
    ensures { result ≡ spelled.is_word_char byte }
{
    byte.is_ascii_alphanumeric() || byte == b'_'
}

/// What goes on with a name or a number.
pub fn is_run(byte: u8) -> bool
    ensures { result ≡ reading.is_run byte }
{
    is_word_char(byte) || byte == b'$'
}

/// A digit of base 16, in upper case.
pub fn is_hex_digit(byte: u8) -> bool
    ensures { result ≡ reading.is_hex_digit byte }
{
    byte.is_ascii_digit() || matches!(byte, b'A'..=b'F')
}

/// What a digit of base 16 stands for.
pub fn hex_value(byte: u8) -> u16
    requires { reading.is_hex_digit byte ≡ true }
    ensures { result ≡ reading.hex_value byte }
{
    if byte < 58 {
        u16::from(byte - 48)
    } else {
        u16::from(byte - 55)
    }
}

/// The word is one of a module.
fn begins_upper(word: &[u16]) -> bool
    ensures { result ≡ reading.begins_upper word.now }
{
    match word.first() {
        Some(unit) => matches!(*unit, 0x41..=0x5A),
        None => false,
    }
}

impl NameReader {
    /// Nothing of a name.
    pub fn new(alloc: Global) -> NameReader
        ensures { begun_of result ≡ reading.NoName }
    {
        NameReader {
            alloc,
            phase: Phase::NoName,
            is_local: true,
            owner: Vec::new(alloc),
            word: Vec::new(alloc),
        }
    }

    /// Whether what has been read begins a name.
    pub fn is_begun(&self) -> bool
        ensures { result ≡ reading.is_begun (begun_of self.now) }
    {
        !matches!(self.phase, Phase::NoName)
    }

    /// Begins a name at its first byte.
    pub fn begin(&mut self, byte: u8) -> Result<(), AllocError>
        ensures { OnOk result (begun_of self.new ≡ reading.begin_name byte) }
    {
        self.owner.clear();
        self.word.clear();
        if byte == b'$' {
            self.phase = Phase::OneDollar;
        } else if is_upper(byte) {
            self.is_local = false;
            self.word.push(u16::from(byte))?;
            self.phase = Phase::Word;
        } else {
            self.phase = Phase::NoName;
        }
        Ok(())
    }

    /// Goes on by one byte.
    pub fn step(&mut self, byte: u8) -> Result<(), AllocError>
        ensures { OnOk result (begun_of self.new ≡ reading.name_step (begun_of self.old) byte) }
    {
        match self.phase {
            Phase::OneDollar => self.after_dollar(byte),
            Phase::TwoDollars => {
                self.phase = first_number(byte);
                Ok(())
            }
            Phase::Numbered(number) => {
                self.phase = next_number(number, byte);
                Ok(())
            }
            Phase::Word => self.in_word(byte),
            Phase::Dollar => self.after_word(byte),
            Phase::Digits(left, value) => self.in_digits(left, value, byte),
            Phase::NoName => Ok(()),
        }
    }

    fn after_dollar(&mut self, byte: u8) -> Result<(), AllocError>
        ensures { OnOk result (begun_of self.new ≡ reading.name_step reading.OneDollar byte) }
    {
        if byte == b'$' {
            self.phase = Phase::TwoDollars;
        } else if is_letter(byte) {
            self.is_local = true;
            self.word.clear();
            self.word.push(u16::from(byte))?;
            self.phase = Phase::Word;
        } else {
            self.phase = Phase::NoName;
        }
        Ok(())
    }

    fn in_word(&mut self, byte: u8) -> Result<(), AllocError>
        ensures { OnOk result (begun_of self.new ≡ reading.name_step
            (begun_at Word self.old.is_local self.old.owner.items self.old.word.items) byte) }
    {
        if byte == b'$' {
            self.phase = Phase::Dollar;
        } else if is_word_char(byte) {
            self.word.push(u16::from(byte))?;
            self.phase = Phase::Word;
        } else {
            self.phase = Phase::NoName;
        }
        Ok(())
    }

    fn after_word(&mut self, byte: u8) -> Result<(), AllocError>
        ensures { OnOk result (begun_of self.new ≡ reading.name_step
            (begun_at Dollar self.old.is_local self.old.owner.items self.old.word.items) byte) }
    {
        if byte == b'$' {
            self.phase = Phase::Digits(3, 0);
        } else if !self.is_local && begins_upper(&self.word) && is_letter(byte) {
            if !self.owner.is_empty() {
                self.owner.push(0x2E)?;
            }
            self.owner.extend_from_slice(&self.word)?;
            self.word.clear();
            self.word.push(u16::from(byte))?;
            self.phase = Phase::Word;
        } else {
            self.phase = Phase::NoName;
        }
        Ok(())
    }

    fn in_digits(&mut self, left: u8, value: u16, byte: u8) -> Result<(), AllocError>
        ensures { OnOk result (begun_of self.new ≡ reading.name_step
            (begun_at (Digits left value) self.old.is_local self.old.owner.items self.old.word.items) byte) }
    {
        if !is_hex_digit(byte) {
            self.phase = Phase::NoName;
            return Ok(());
        }
        let more = digit_more(value, byte)?;
        if left > 0 && can_pass(left, more) {
            self.phase = Phase::Digits(left - 1, more);
        } else if left == 0 && more >= 128 {
            self.word.push(more)?;
            self.phase = Phase::Word;
        } else {
            self.phase = Phase::NoName;
        }
        Ok(())
    }

    /// The name that has been read, if it is one.
    pub fn name(&self) -> Result<Option<Name>, AllocError>
        ensures { IfOk result (λ name. found_of name ≡ reading.name_of (begun_of self.now)) }
    {
        match self.phase {
            Phase::Numbered(number) => Ok(Some(Name::Made(number))),
            Phase::Word => self.word_name(),
            _ => Ok(None),
        }
    }

    fn word_name(&self) -> Result<Option<Name>, AllocError>
        ensures { IfOk result (λ name. found_of name ≡ reading.name_of
            (begun_at Word self.now.is_local self.now.owner.items self.now.word.items)) }
    {
        if self.is_local {
            return Ok(Some(Name::Local(self.copy(&self.word)?)));
        }
        if self.owner.is_empty() {
            return Ok(None);
        }
        Ok(Some(Name::Top {
            module: self.copy(&self.owner)?,
            name: self.copy(&self.word)?,
        }))
    }

    fn copy(&self, units: &[u16]) -> Result<Units, AllocError>
        ensures { IfOk result (λ copy. copy ≡ units.now) }
    {
        Ok(Units::from_vec(Vec::from_slice(self.alloc, units)?))
    }
}

/// The number that digits of base 16 are with one more. It is below 2^16 where they are four.
pub fn digit_more(value: u16, byte: u8) -> Result<u16, AllocError>
    requires { reading.is_hex_digit byte ≡ true }
    ensures { IfOk result (λ more. more ≡ value * 16 + reading.hex_value byte) }
{
    let tens = value.checked_mul(16).ok_or(AllocError)?;
    tens.checked_add(hex_value(byte)).ok_or(AllocError)
}

/// Whether a unit past the characters of a word can begin with the digits `value`, of which so many more are to come.
fn can_pass(left: u8, value: u16) -> bool
    requires { 0 < left }
    ensures { result ≡ nat_le 128 (reading.greatest left value) }
{
    left > 1 || value >= 8
}

/// The number of a made name, at its first digit.
fn first_number(byte: u8) -> Phase
    ensures { begun_at result true [] [] ≡ reading.name_step reading.TwoDollars byte }
{
    if is_digit(byte) {
        Phase::Numbered(u64::from(byte - 48))
    } else {
        Phase::NoName
    }
}

/// The number of a made name, at one digit more.
fn next_number(number: u64, byte: u8) -> Phase
    ensures { begun_at result true [] [] ≡ reading.name_step (reading.Numbered number) byte }
{
    if number == 0 || !is_digit(byte) {
        return Phase::NoName;
    }
    match number.checked_mul(10) {
        Some(tens) => match tens.checked_add(u64::from(byte - 48)) {
            Some(more) => Phase::Numbered(more),
            None => Phase::NoName,
        },
        None => Phase::NoName,
    }
}
