//! The rows that are put out: what comes back for a call, as data and as text.
ghost use Rattle.std.specs.Prelude.{◌≡◌, Some, decimal};
ghost use Rattle.console.specs.Outputs.{kind_number, row_of, plain, single, named, value_row, note_row, columns_text, told};

use rules::calls::Answer;
use rules::tables::Note;
use rules::values::{Name, Value};
use std::fmt;

/// What kind of thing a row carries, by the number that is put out for it.
#[derive(Clone, Copy)]
pub enum Kind {
    /// Nothing.
    Nothing = 0,
    /// A number.
    Number = 1,
    /// An object's name.
    Object = 2,
    /// A future's name.
    Future = 3,
    /// A mark.
    Mark = 4,
    /// A note.
    Note = 5,
}

impl Kind {
    /// The number of the kind.
    fn number(self) -> u8
        ensures { result ≡ kind_number self }
    {
        self as u8
    }
}

/// The data of what a row carries, with zeros after them.
#[derive(Clone, Copy, Default)]
pub struct Columns {
    pub p: i32,
    pub q: i32,
    pub s: i32,
    pub t: i32,
    pub u: i32,
}

/// What a call returned, and what came with it.
#[derive(Clone, Copy)]
pub struct OutputRow {
    pub returned: u8,
    pub kind: Kind,
    pub columns: Columns,
}

impl OutputRow {
    /// A returned number, and nothing with it.
    fn bare(returned: u8) -> OutputRow
        ensures { result ≡ plain returned }
    {
        OutputRow {
            returned,
            kind: Kind::Nothing,
            columns: Columns::default(),
        }
    }

    /// A granted call that carries one number.
    fn single(kind: Kind, n: i32) -> OutputRow
        ensures { result ≡ single 0 kind n }
    {
        OutputRow {
            returned: 0,
            kind,
            columns: Columns {
                p: n,
                ..Columns::default()
            },
        }
    }

    /// A granted call that carries the name of an object or of a future.
    fn named(kind: Kind, name: Name) -> OutputRow
        ensures { result ≡ named 0 kind name }
    {
        OutputRow {
            returned: 0,
            kind,
            columns: Columns {
                p: i32::from(name.home),
                q: i32::from(name.number),
                ..Columns::default()
            },
        }
    }

    /// The row of what cannot be read: a call row, or, as row 0, an input that is too long.
    pub fn unreadable() -> OutputRow
        ensures { result ≡ plain 9 }
    {
        OutputRow::bare(9)
    }
}

/// A granted call that carries a value.
impl From<Value> for OutputRow {
    ghost from_gives = { λ value row. row ≡ value_row 0 value };

    fn from(value: Value) -> OutputRow {
        match value {
            Value::Number(n) => OutputRow::single(Kind::Number, n),
            Value::ObjectName(name) => OutputRow::named(Kind::Object, name),
            Value::FutureName(name) => OutputRow::named(Kind::Future, name),
            Value::Marked(mark) => OutputRow::single(Kind::Mark, i32::from(mark.number())),
        }
    }
}

/// A granted call that carries a note.
impl From<Note> for OutputRow {
    ghost from_gives = { λ note row. row ≡ note_row 0 note };

    fn from(note: Note) -> OutputRow {
        OutputRow {
            returned: 0,
            kind: Kind::Note,
            columns: Columns {
                p: i32::from(note.cause.number()),
                q: i32::from(note.layer.number()),
                s: i32::from(note.class),
                t: i32::from(note.method),
                u: i32::from(note.statement),
            },
        }
    }
}

/// The row of an answer: its number, and what comes with it.
impl From<Answer> for OutputRow {
    ghost from_gives = { λ answer row. row ≡ row_of answer };

    fn from(answer: Answer) -> OutputRow {
        match answer {
            Answer::Refused(_) | Answer::Ended | Answer::Held => OutputRow::bare(answer.number()),
            Answer::Made(name) => OutputRow::named(Kind::Object, name),
            Answer::Posted(name) => OutputRow::named(Kind::Future, name),
            Answer::Collected(x) => OutputRow::from(x.value),
            Answer::Noted(note) => OutputRow::from(note),
        }
    }
}

/// The number of the kind.
impl fmt::Display for Kind {
    ghost output = { λ x. Some (decimal (kind_number x)) };

    fn fmt<W: fmt::Write>(&self, f: &mut fmt::Formatter<W>) -> fmt::Result {
        write!(f, "{}", self.number())
    }
}

/// The data, with single spaces between them.
impl fmt::Display for Columns {
    ghost output = { λ x. Some (columns_text x) };

    fn fmt<W: fmt::Write>(&self, f: &mut fmt::Formatter<W>) -> fmt::Result {
        let Columns { p, q, s, t, u } = self;
        write!(f, "{p} {q} {s} {t} {u}")
    }
}

/// The row without its call: what was returned, the kind and the data, with single spaces between them.
impl fmt::Display for OutputRow {
    ghost output = { λ x. Some (told x) };

    fn fmt<W: fmt::Write>(&self, f: &mut fmt::Formatter<W>) -> fmt::Result {
        write!(f, "{} {} {}", self.returned, self.kind, self.columns)
    }
}
