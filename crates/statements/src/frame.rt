//! What stays the same through a turn, and one statement of it.
ghost use Rattle.std.specs.Prelude.{◌≡◌, ◌<◌, ◌≤◌, true, length};
ghost use Rattle.std.specs.Option.{ForSome};
ghost use Rattle.script.specs.Classes.{classes_of};
ghost use Rattle.script.specs.Layout.{every, in_range};
ghost use Rattle.rules.specs.Wrapper.{class_at};
ghost use Rattle.statements.specs.Numbers.{number_of};

use order::Level;
use rules::values::Name;
use script::class::{Class, Statement, Variable};

/// What stays the same through a turn: the program, the running object, its method, and the call.
///
/// It fits its program: the labels of its fields are those that its class declares, and its body is of at most 32 statements, each in its
/// range.
#[derive(Clone, Copy)]
pub struct Frame<'a> {
    /// The classes of the program, by number.
    pub classes: &'a [Class],
    /// The labels that the running object's class declares.
    pub fields: &'a [Level],
    /// The statements of the method before its R.
    pub body: &'a [Statement],
    /// The name of the running object.
    pub this: Name,
    /// The class of the running object, by number.
    pub class: u8,
    /// The level of the running object.
    pub level: Level,
    /// The method, by number.
    pub method: u8,
    /// The level of the call.
    pub called_at: Level,
    /// The statement where the turn goes on: those before it were carried out already.
    pub from: usize,
    pub ghost declared: { fields.now ≡ (class_at (classes_of classes.now) class).fields },
    pub ghost ranges: { every (in_range 8 (length fields.now)) body.now ≡ true },
    pub ghost short: { length body.now ≤ 32 },
}

/// One statement at work: the one at `at` in the body of a frame, in a context, and where its result goes.
// The variables and the tables stay parameters: a struct that held their `&mut` would owe in each contract that it still holds the same.
#[derive(Clone, Copy)]
pub struct Step<'a> {
    /// What stays the same through the turn.
    pub frame: Frame<'a>,
    /// Where the statement stands in the body, from 0.
    pub at: usize,
    /// The level that what it does depends on.
    pub context: Level,
    /// The variable that its result goes into, if there is one.
    pub to: Option<Variable>,
    pub ghost within: { at < length frame.body.now },
    pub ghost fits: { ForSome to (λ x. number_of x < 8) },
}
