//! The first layer: a text's bytes, read front to back.
ghost use Rattle.std.specs.Prelude.{◌≡◌, ℕ, ◌+◌, ◌^◌, ◌<◌, ◌≤◌, ◌∷◌, length, IfOk, MatchBool, MatchOption, MatchResult, ◌==◌};
ghost use Rattle.script.specs.declared.fault.ByteFault.TheVariants.{Names, Form};
ghost use Rattle.script.specs.Bytes.{got, bad, magnitude_at, number_at, kind_at, byte_at, bytes_at, column_at, row_at, names, NoDigit, Tells};

use crate::fault::ByteFault;
use std::error::Error;
use std::fmt;

/// The letter of a statement.
#[derive(Clone, Copy, Debug, PartialEq, Eq)]
pub enum Letter {
    N,
    T,
    C,
    A,
    D,
    L,
    I,
    M,
    G,
    O,
    R,
}

/// A row's kind, which its letter tells: a field, the head of a method, or a statement.
#[derive(Clone, Copy, Debug, PartialEq, Eq)]
pub enum Kind {
    Field,
    Parameters,
    Statement(Letter),
}

/// A byte that is no letter of a row.
#[derive(Clone, Copy, Debug, PartialEq, Eq)]
pub struct UnknownLetter(pub u8);

impl TryFrom<u8> for Kind {
    type Error = UnknownLetter;

    ghost try_from_gives = { Tells };

    fn try_from(letter: u8) -> Result<Kind, UnknownLetter> {
        match letter {
            b'F' => Ok(Kind::Field),
            b'P' => Ok(Kind::Parameters),
            b'N' => Ok(Kind::Statement(Letter::N)),
            b'T' => Ok(Kind::Statement(Letter::T)),
            b'C' => Ok(Kind::Statement(Letter::C)),
            b'A' => Ok(Kind::Statement(Letter::A)),
            b'D' => Ok(Kind::Statement(Letter::D)),
            b'L' => Ok(Kind::Statement(Letter::L)),
            b'I' => Ok(Kind::Statement(Letter::I)),
            b'M' => Ok(Kind::Statement(Letter::M)),
            b'G' => Ok(Kind::Statement(Letter::G)),
            b'O' => Ok(Kind::Statement(Letter::O)),
            b'R' => Ok(Kind::Statement(Letter::R)),
            _ => Err(UnknownLetter(letter)),
        }
    }
}

impl fmt::Display for UnknownLetter {
    fn fmt<W: fmt::Write>(&self, f: &mut fmt::Formatter<W>) -> fmt::Result {
        write!(f, "no row has the letter {}", self.0)
    }
}

impl Error for UnknownLetter {}

/// A row's columns as they stand.
#[derive(Clone, Copy, Debug, PartialEq, Eq)]
pub struct Row {
    pub class: i32,
    pub method: i32,
    pub kind: Kind,
    pub to: i32,
    pub a: i32,
    pub b: i32,
    pub c: i32,
    pub d: i32,
    pub e: i32,
    pub f: i32,
}

/// The bytes of a text that are left to read, and the line that they begin on.
///
/// It keeps as a fact that the lines can be counted to the end, even where every byte that is left ends one.
/// What a method leaves is a tail of what was left before the call, on an error too.
#[derive(Drop)]
pub struct Reader<'a> {
    rest: &'a [u8],
    line: usize,
    ghost countable: { line + length rest.now < 2 ^ 64 },
}

impl<'a> Reader<'a> {
    ghost use Rattle.script.specs.Readers.{left};

    /// A reader at the start of a text.
    pub fn new(text: &'a [u8]) -> Reader<'a>
        ensures left { left result ≡ text.now }
        ensures line { result.line ≡ 1 }
    {
        Reader {
            rest: text,
            line: 1,
        }
    }
}

impl Reader<'_> {
    ghost use Rattle.script.specs.Readers.{left, Reads, Kept, Ended};

    /// The line that is read next, from 1.
    pub(crate) fn line(&self) -> usize
        ensures { result ≡ self.now.line }
    {
        self.line
    }

    /// Whether no byte is left.
    pub fn is_at_end(&self) -> bool
        ensures { result ≡ (length (left self.now) == 0) }
    {
        self.rest.is_empty()
    }

    /// The fault of a line that has not the form of a row.
    fn misformed(&self) -> ByteFault
        ensures { result ≡ Form self.now.line }
    {
        ByteFault::Form { line: self.line }
    }

    /// The value of the next byte if that is a digit, which is then passed.
    #[tactic(auto, using(crate::proofs::Fronts::tail_same, crate::proofs::Fronts::tail_next))]
    fn digit(&mut self) -> Option<u32>
        ensures reads { MatchOption result ((left self.new ≡ left self.old) × NoDigit (left self.old)) (λ d. (d < 10) × (left self.old ≡ (48 + d) ∷ left self.new)) }
        ensures kept { Kept self.old self.new }
    {
        let (b @ b'0'..=b'9', rest) = self.rest.split_first()? else {
            return None;
        };
        self.rest = rest;
        Some(u32::from(b - b'0'))
    }

    /// The digits from here, as a number of at most `most`.
    #[tactic(auto, using(crate::proofs::Fronts::tail_more))]
    fn magnitude(&mut self, most: u32) -> Result<u32, ByteFault>
        requires { most ≤ 2 ^ 31 }
        ensures bound { IfOk result (λ n. n ≤ most) }
        ensures reads { Reads result (magnitude_at most (left self.old)) self.old self.new }
        ensures kept { Kept self.old self.new }
    {
        let mut n = self.digit().ok_or(self.misformed())?;
        // Digit by digit: each moves the reader, and may end the number by an error.
        while let Some(d) = self.digit() {
            // A zero before other digits, or too large.
            if n == 0 || n > most / 10 {
                return Err(self.misformed());
            }
            n = n * 10 + d;
        }
        if n > most {
            return Err(self.misformed());
        }
        Ok(n)
    }

    /// A signed number of 32 bits, with no needless sign or zero.
    #[tactic(auto, using(crate::proofs::Fronts::tail_more))]
    pub fn number(&mut self) -> Result<i32, ByteFault>
        ensures reads { Reads result (number_at (left self.old)) self.old self.new }
        ensures kept { Kept self.old self.new }
    {
        if self.spells(b"-") {
            let n = self.magnitude(0x8000_0000)?;
            if n == 0 {
                return Err(self.misformed());
            }
            // A cast, here and below: `try_from` would be longer by an error that cannot come.
            return Ok((-i64::from(n)) as i32);
        }
        let n = self.magnitude(0x7fff_ffff)?;
        Ok(n as i32)
    }

    /// A row's kind, by its letter.
    #[tactic(auto, using(crate::proofs::Fronts::tail_same, crate::proofs::Fronts::tail_next))]
    fn kind(&mut self) -> Result<Kind, ByteFault>
        ensures reads { Reads result (kind_at (left self.old)) self.old self.new }
        ensures kept { Kept self.old self.new }
    {
        let misformed = self.misformed();
        let (letter, rest) = self.rest.split_first().ok_or(misformed)?;
        let kind = Kind::try_from(*letter).map_err(|_| misformed)?;
        self.rest = rest;
        Ok(kind)
    }

    /// The byte `b`.
    fn byte(&mut self, b: u8) -> Result<(), ByteFault>
        ensures reads { Reads result (byte_at b (left self.old)) self.old self.new }
        ensures kept { Kept self.old self.new }
    {
        if !self.spells(&[b]) {
            return Err(self.misformed());
        }
        Ok(())
    }

    /// One space.
    pub fn space(&mut self) -> Result<(), ByteFault>
        ensures reads { Reads result (byte_at 32 (left self.old)) self.old self.new }
        ensures kept { Kept self.old self.new }
    {
        self.byte(b' ')
    }

    /// One space and a number.
    #[tactic(auto, using(crate::proofs::Fronts::tail_more))]
    pub fn column(&mut self) -> Result<i32, ByteFault>
        ensures reads { Reads result (column_at (left self.old)) self.old self.new }
        ensures kept { Kept self.old self.new }
    {
        self.space()?;
        self.number()
    }

    /// Goes past `letters` if they are what stands next, and else stays.
    #[tactic(auto, using(crate::proofs::Fronts::tail_same, crate::proofs::Fronts::tail_drop))]
    pub fn spells(&mut self, letters: &[u8]) -> bool
        ensures reads { MatchBool result (bytes_at letters.now (left self.old) ≡ got tt (left self.new)) ((bytes_at letters.now (left self.old) ≡ bad) × (left self.new ≡ left self.old)) }
        ensures kept { Kept self.old self.new }
    {
        let Some(rest) = self.rest.strip_prefix(letters) else {
            return false;
        };
        self.rest = rest;
        true
    }

    /// The end of a line.
    fn line_feed(&mut self) -> Result<(), ByteFault>
        ensures reads { Reads result (byte_at 10 (left self.old)) self.old self.new }
        ensures ended { Ended result self.old self.new }
    {
        self.byte(b'\n')?;
        self.line += 1;
        Ok(())
    }

    /// The first line, which names the columns.
    pub(crate) fn names_line(&mut self) -> Result<(), ByteFault>
        ensures reads { MatchResult result (λ _. bytes_at names (left self.old) ≡ got tt (left self.new)) (λ e. (bytes_at names (left self.old) ≡ bad) × (e ≡ Names self.old.line)) }
        ensures ended { Ended result self.old self.new }
    {
        if !self.spells(b"class method op to a b c d e f\n") {
            return Err(ByteFault::Names { line: self.line });
        }
        self.line += 1;
        Ok(())
    }

    /// The ten columns of a row and the end of its line.
    #[tactic(auto, using(crate::proofs::Fronts::tail_more))]
    pub(crate) fn row(&mut self) -> Result<Row, ByteFault>
        ensures reads { Reads result (row_at (left self.old)) self.old self.new }
        ensures ended { Ended result self.old self.new }
    {
        let class = self.number()?;
        let method = self.column()?;
        self.space()?;
        let kind = self.kind()?;
        let to = self.column()?;
        let a = self.column()?;
        let b = self.column()?;
        let c = self.column()?;
        let d = self.column()?;
        let e = self.column()?;
        let f = self.column()?;
        self.line_feed()?;
        Ok(Row {
            class,
            method,
            kind,
            to,
            a,
            b,
            c,
            d,
            e,
            f,
        })
    }
}
