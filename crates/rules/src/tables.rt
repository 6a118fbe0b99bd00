//! What the four tables hold: objects, futures, calls in line and notes.
ghost use Rattle.std.specs.Prelude.{◌≡◌, ◌&&◌, ◌==◌, nat_eq};
ghost use Rattle.rules.specs.Values.{layer_number};
ghost use Rattle.rules.specs.Futures.{after_event, held_value};
ghost use Rattle.std.proofs.Common.{rules};

use crate::values::{Labelled, Mark, Name};
use line::Element;
use order::Level;

/// Which part of the host made a mark.
#[derive(Clone, Copy, Debug, PartialEq, Eq)]
pub enum Layer {
    /// 1: a post, whose argument was withheld.
    AtPost = 1,
    /// 2: an object's wrapper.
    AtObject = 2,
    /// 3: a future's wrapper.
    AtFuture = 3,
    /// 4: a table without space.
    AtTable = 4,
    /// 5: the statement itself.
    AtStatement = 5,
}

impl Layer {
    /// The number of the layer, 1 to 5.
    pub fn number(self) -> u8
        ensures { result ≡ layer_number self }
    {
        self as u8
    }
}

/// The note that a new mark leaves: which mark, who made it, and the class, method and statement that were at work. Statements count from 1;
/// 0 stands for a post.
#[derive(Clone, Copy, Debug, PartialEq, Eq)]
pub struct Note {
    pub cause: Mark,
    pub layer: Layer,
    pub class: u8,
    pub method: u8,
    pub statement: u8,
}

/// A call in line: whom it is for, which method, its eight locals, the place of its next statement, and the number of the future that it
/// owes an answer, if any.
// Eight places in the value itself, here and in an object: serving a call allocates nothing.
#[derive(Clone, Copy, Debug, PartialEq, Eq)]
pub struct Call {
    pub receiver: Name,
    pub method: u8,
    pub locals: [Labelled; 8],
    pub next: u8,
    pub owed: Option<u8>,
}

/// A call waits in a line under its receiver's name.
impl Element for Call {
    type Key = Name;

    ghost key_of = { λ c. c.receiver };

    ghost same = { λ a b. (a.home == b.home) && a.number == b.number };

    ghost tells = { Prim.search rules };

    ghost exact = { Prim.search rules };

    ghost itself = { Prim.search rules };

    fn key(&self) -> Name {
        self.receiver
    }
}

/// A note waits in a line under its class.
// An impl beside that of calls: the keys have two types, and what is the same key is a test of its own for each.
impl Element for Note {
    type Key = u8;

    ghost key_of = { λ n. n.class };

    ghost same = { nat_eq };

    ghost tells = { Prim.search rules };

    ghost exact = { Prim.search rules };

    ghost itself = { Prim.search rules };

    fn key(&self) -> u8 {
        self.class
    }
}

/// An object: its class, its level, and its fields; those past its class's count are not used.
#[derive(Clone, Copy, Debug, PartialEq, Eq)]
pub struct Object {
    pub class: u8,
    pub level: Level,
    pub fields: [Labelled; 8],
}

/// The place of an answer that is still owed, or the answer.
// No `Option`: the rules name both states, and a table with free places holds options of futures.
#[derive(Clone, Copy, Debug, PartialEq, Eq)]
pub enum Future {
    Open,
    Holding(Labelled),
}

/// What happens to a future.
#[derive(Clone, Copy, Debug, PartialEq, Eq)]
pub enum Event {
    /// A call ends with a value for it.
    Resolve(Labelled),
    /// A party asks for what it holds.
    Collect,
    /// A script asks for what it holds.
    Get,
}

impl Future {
    /// Meets an event, and gives the value that the future held before it, if any. Only an open future accepts a value; one that holds a
    /// value keeps it.
    pub fn meet(&mut self, event: Event) -> Option<Labelled>
        ensures gives { result ≡ held_value self.old }
        ensures becomes { self.new ≡ after_event self.old event }
    {
        match (*self, event) {
            (Future::Open, Event::Resolve(value)) => {
                *self = Future::Holding(value);
                None
            }
            (Future::Open, Event::Collect | Event::Get) => None,
            (Future::Holding(value), _) => Some(value),
        }
    }
}
