//! Values, and the labels that they bear.
ghost use Rattle.std.specs.Prelude.{◌≡◌};
ghost use Rattle.rules.specs.Values.{mark_number};

use order::Level;

/// What stands in place of a value that a statement or a post could not give.
#[derive(Clone, Copy, Debug, PartialEq, Eq)]
pub enum Mark {
    /// 1: the value's label does not flow to where it was to go.
    Withheld = 1,
    /// 2: the wrapper did not admit the call, or no such object may be made.
    Refused = 2,
    /// 3: a table had no space left.
    NoSpace = 3,
    /// 4: the future is open still, and the turn may not wait for it.
    NotYet = 4,
    /// 5: the statement takes another kind of value.
    WrongKind = 5,
}

impl Mark {
    /// The number of the mark, 1 to 5.
    pub fn number(self) -> u8
        ensures { result ≡ mark_number self }
    {
        self as u8
    }
}

/// The name of an object or of a future: the level whose table it stands in, and its number there, from 0.
#[derive(Clone, Copy, Debug, PartialEq, Eq)]
pub struct Name {
    pub home: Level,
    pub number: u8,
}

/// What a variable, a future or an argument holds.
#[derive(Clone, Copy, Debug, PartialEq, Eq)]
pub enum Value {
    Number(i32),
    ObjectName(Name),
    FutureName(Name),
    Marked(Mark),
}

/// A value with its label: the level of all that it was made from.
#[derive(Clone, Copy, Debug, PartialEq, Eq)]
pub struct Labelled {
    pub value: Value,
    pub label: Level,
}
