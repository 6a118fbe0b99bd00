//! What a script says: classes with fields and methods, and a method's statements.
use order::Level;

/// What a statement reads or assigns: one of the call's eight locals, or a field of the running object, by number.
#[derive(Clone, Copy, Debug, PartialEq, Eq)]
pub enum Variable {
    Local(u8),
    Field(u8),
}

/// The variables that a call passes on, in order; at most four.
// No list with a length: these five need no fact of their own to say that no gap stands between arguments.
#[derive(Clone, Copy, Debug, PartialEq, Eq)]
pub enum Arguments {
    Empty,
    One(Variable),
    Two(Variable, Variable),
    Three(Variable, Variable, Variable),
    Four(Variable, Variable, Variable, Variable),
}

/// One statement of a method's body.
#[derive(Clone, Copy, Debug, PartialEq, Eq)]
pub enum Statement {
    /// `N`: `to` becomes a number.
    Constant {
        to: Variable,
        number: i32,
    },
    /// `T`: `to` becomes the running object's name.
    Itself {
        to: Variable,
    },
    /// `C`: `to` becomes a copy of `from`.
    Copy {
        to: Variable,
        from: Variable,
    },
    /// `A`: `to` becomes `left` + `right`.
    Add {
        to: Variable,
        left: Variable,
        right: Variable,
    },
    /// `D`: `to` becomes `left` − `right`.
    Subtract {
        to: Variable,
        left: Variable,
        right: Variable,
    },
    /// `L`: `to` becomes 1 if `left` < `right`, else 0.
    Less {
        to: Variable,
        left: Variable,
        right: Variable,
    },
    /// `I`: the next `first` statements where `guard` is a number other than 0, or the `second` statements after those where it is 0.
    Branch {
        guard: Variable,
        first: u8,
        second: u8,
    },
    /// `M`: calls a method of the object that `receiver` names; `to` becomes the name of the reply's future.
    Invoke {
        to: Option<Variable>,
        receiver: Variable,
        method: u8,
        arguments: Arguments,
    },
    /// `G`: `to` becomes what the future that `future` names holds.
    Get {
        to: Variable,
        future: Variable,
    },
    /// `O`: `to` becomes the name of a new object of a class at a level.
    Create {
        to: Variable,
        class: u8,
        level: Level,
    },
    /// `R`: ends the call with `value` as its reply.
    Return {
        value: Variable,
    },
}

/// A method: how many parameters it takes, and its body.
#[derive(Drop)]
pub struct Method {
    pub parameters: u8,
    pub statements: Vec<Statement>,
}

/// A class: the declared label of each field, and its methods, each by number.
#[derive(Drop)]
pub struct Class {
    pub fields: Vec<Level>,
    pub methods: Vec<Method>,
}
