//! The five calls of the parties, and their answers.
ghost use Rattle.std.specs.Prelude.{◌≡◌};
ghost use Rattle.rules.specs.Answers.{refusal_number, number_of};
ghost use Rattle.rules.specs.Calling.{bearer, request_of};

use crate::tables::Note;
use crate::values::{Labelled, Name};

/// A number that a party passes on, with the label that it gives it.
#[derive(Clone, Copy, Debug, PartialEq, Eq)]
pub struct Argument {
    pub number: i32,
    pub label: i32,
}

/// What a party asks, at the level that it bears. All numbers are as they were sent.
#[derive(Debug, PartialEq, Eq, Drop)]
pub enum Request {
    /// Makes an object of a class at a level.
    Make {
        bearer: i32,
        class: i32,
        level: i32,
    },
    /// Calls a method of the object of that home and number.
    Post {
        bearer: i32,
        home: i32,
        number: i32,
        method: i32,
        arguments: Vec<Argument>,
    },
    /// Lets that object serve its oldest call in the party's line.
    Turn {
        bearer: i32,
        home: i32,
        number: i32,
    },
    /// Reads the future of that home and number.
    Collect {
        bearer: i32,
        home: i32,
        number: i32,
    },
    /// Takes the oldest note of a class out of the party's line.
    Take {
        bearer: i32,
        class: i32,
    },
}

impl Request {
    /// The level that the party bears, as it was sent.
    pub fn bearer(&self) -> i32
        ensures { result ≡ bearer (request_of self.now) }
    {
        match self {
            Request::Make { bearer, .. }
            | Request::Post { bearer, .. }
            | Request::Turn { bearer, .. }
            | Request::Collect { bearer, .. }
            | Request::Take { bearer, .. } => *bearer,
        }
    }
}

/// Why a call was not carried out. Nothing is altered then.
#[derive(Clone, Copy, Debug, PartialEq, Eq)]
pub enum Refusal {
    /// 1: a level, a home or a label is no level.
    NotALevel = 1,
    /// 2: no such class or method, or another count of arguments.
    Unknown = 2,
    /// 3: not made, or its home does not flow to the party's level.
    NotMade = 3,
    /// 4: a rule of flow fails.
    NoFlow = 4,
    /// 5: no space at the party's level.
    Full = 5,
    /// 6: no call in line, a future that is open still, or no note.
    Nothing = 6,
}

impl Refusal {
    /// The number that the refusal returns, 1 to 6.
    pub fn number(self) -> u8
        ensures { result ≡ refusal_number self }
    {
        self as u8
    }
}

/// What a party gets back.
// No `Result`: a refusal is one of seven things that a party gets back, each with its own kind and number in the rules.
#[derive(Clone, Copy, Debug, PartialEq, Eq)]
pub enum Answer {
    Refused(Refusal),
    /// make: the object's name.
    Made(Name),
    /// post: the name of the answer's future.
    Posted(Name),
    /// turn: the call ended.
    Ended,
    /// turn: the call waits for a future, and stands as far as it ran.
    Held,
    /// collect: the value, or mark 1 in its place.
    Collected(Labelled),
    /// note: what was noted.
    Noted(Note),
}

impl Answer {
    /// The number that the answer returns: 0 if it was granted, 10 for a turn that is held, or the refusal's.
    // By a match: variants that carry values have no numbers of their own.
    pub fn number(self) -> u8
        ensures { result ≡ number_of self }
    {
        match self {
            Answer::Refused(why) => why.number(),
            Answer::Held => 10,
            Answer::Made(_)
            | Answer::Posted(_)
            | Answer::Ended
            | Answer::Collected(_)
            | Answer::Noted(_) => 0,
        }
    }
}
