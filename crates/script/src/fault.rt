//! Why a text does not load: three layers of faults, each with its line, and want of memory.
ghost use Rattle.std.specs.Prelude.{◌≡◌};
ghost use Rattle.script.specs.declared.fault.RowFault.TheVariants.{Bytes};
ghost use Rattle.script.specs.declared.fault.BodyFault.TheVariants.{Rows};
ghost use Rattle.script.specs.declared.fault.LoadError.TheVariants.{Fault, Memory};
ghost use Rattle.script.specs.Faults.{line_of, cause_of, layer_of};

use std::alloc::AllocFailed;
use std::error::Error;
use std::fmt;

/// A fault of a line's bytes.
#[derive(Clone, Copy, Debug, PartialEq, Eq)]
pub enum ByteFault {
    /// The first line is not the names line.
    Names { line: usize },
    /// A row is not nine numbers and a letter with single spaces between them and a line feed after them.
    Form { line: usize },
}

/// A fault of a row: of its bytes, or of its numbers.
#[derive(Clone, Copy, Debug, PartialEq, Eq)]
pub enum RowFault {
    Bytes(ByteFault),
    /// The row does not follow the row before it, or goes beyond a limit.
    Sequence { line: usize },
    /// A column is out of its range.
    Range { line: usize },
}

/// A fault of a text: of one of its rows, or of a method's body, told at the line of its P row.
#[derive(Clone, Copy, Debug, PartialEq, Eq)]
pub enum BodyFault {
    Rows(RowFault),
    /// The branches or the R of a body are not as they should be, or the body is empty.
    Body { line: usize },
}

/// Why there is no program: the text's first fault, or want of memory.
#[derive(Clone, Copy, Debug, PartialEq, Eq)]
pub enum LoadError {
    Fault(BodyFault),
    Memory,
}

impl fmt::Display for ByteFault {
    fn fmt<W: fmt::Write>(&self, f: &mut fmt::Formatter<W>) -> fmt::Result {
        f.write_str(match self {
            ByteFault::Names { .. } => "the first line is not the names line",
            ByteFault::Form { .. } =>
                "the line is no row: its form, its letter or the spelling of a number",
        })
    }
}

impl fmt::Display for RowFault {
    fn fmt<W: fmt::Write>(&self, f: &mut fmt::Formatter<W>) -> fmt::Result {
        match self {
            RowFault::Bytes(fault) => write!(f, "{fault}"),
            RowFault::Sequence { .. } => f.write_str(
                "the row does not follow the row before it, or goes beyond a limit",
            ),
            RowFault::Range { .. } => f.write_str(
                "a column is out of its range (variables: 0 to 7 locals, 8 to 15 the fields that the class declares)",
            ),
        }
    }
}

impl fmt::Display for BodyFault {
    fn fmt<W: fmt::Write>(&self, f: &mut fmt::Formatter<W>) -> fmt::Result {
        match self {
            BodyFault::Rows(fault) => write!(f, "{fault}"),
            BodyFault::Body { .. } => f.write_str(
                "the statements of the method that begins here are no body",
            ),
        }
    }
}

impl fmt::Display for LoadError {
    fn fmt<W: fmt::Write>(&self, f: &mut fmt::Formatter<W>) -> fmt::Result {
        match self {
            LoadError::Fault(fault) => write!(f, "line {}: {fault}", fault.line()),
            LoadError::Memory => f.write_str("there is not enough memory to load the text"),
        }
    }
}

impl Error for ByteFault {}

impl Error for RowFault {}

impl Error for BodyFault {}

impl Error for LoadError {}

impl From<ByteFault> for RowFault {
    ghost from_gives = { λ e r. r ≡ Bytes e };

    fn from(e: ByteFault) -> RowFault {
        RowFault::Bytes(e)
    }
}

impl From<RowFault> for BodyFault {
    ghost from_gives = { λ e r. r ≡ Rows e };

    fn from(e: RowFault) -> BodyFault {
        BodyFault::Rows(e)
    }
}

impl From<RowFault> for LoadError {
    ghost from_gives = { λ e r. r ≡ Fault (Rows e) };

    fn from(e: RowFault) -> LoadError {
        LoadError::Fault(BodyFault::from(e))
    }
}

impl From<BodyFault> for LoadError {
    ghost from_gives = { λ e r. r ≡ Fault e };

    fn from(e: BodyFault) -> LoadError {
        LoadError::Fault(e)
    }
}

impl<T: Drop> From<AllocFailed<T>> for LoadError {
    ghost from_gives = { λ _ r. r ≡ Memory };

    fn from(_e: AllocFailed<T>) -> LoadError {
        LoadError::Memory
    }
}

impl BodyFault {
    /// The line of the text that is blamed, from 1.
    pub fn line(&self) -> usize
        ensures { result ≡ line_of self.now }
    {
        match self {
            BodyFault::Rows(
                RowFault::Bytes(ByteFault::Names { line } | ByteFault::Form { line })
                | RowFault::Sequence { line }
                | RowFault::Range { line },
            )
            | BodyFault::Body { line } => *line,
        }
    }

    /// The fault's cause: 1 names line, 2 a row's form or letter, 3 out of sequence or beyond a limit, 4 a column's range, 5 a body.
    // By a match, as the layer: variants that carry their line have no numbers of their own.
    pub fn cause(&self) -> u8
        ensures { result ≡ cause_of self.now }
    {
        match self {
            BodyFault::Rows(RowFault::Bytes(ByteFault::Names { .. })) => 1,
            BodyFault::Rows(RowFault::Bytes(ByteFault::Form { .. })) => 2,
            BodyFault::Rows(RowFault::Sequence { .. }) => 3,
            BodyFault::Rows(RowFault::Range { .. }) => 4,
            BodyFault::Body { .. } => 5,
        }
    }

    /// The layer that found it: 1 bytes, 2 rows, 3 bodies.
    pub fn layer(&self) -> u8
        ensures { result ≡ layer_of self.now }
    {
        match self {
            BodyFault::Rows(RowFault::Bytes(_)) => 1,
            BodyFault::Rows(RowFault::Sequence { .. } | RowFault::Range { .. }) => 2,
            BodyFault::Body { .. } => 3,
        }
    }
}
