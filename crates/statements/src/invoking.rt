//! M: a call of another object.
ghost use Rattle.std.specs.Prelude.{◌≡◌, ◌<◌, ◌≤◌, length, Some};
ghost use Rattle.rules.specs.Wrapper.{verdict};
ghost use Rattle.rules.specs.Statements.{read, passed, given_to, asked, invoked};
ghost use Rattle.store.specs.States.{state_of};
ghost use Rattle.statements.specs.declared.variables.Variables.{Variables};
ghost use Rattle.statements.specs.Asking.{left_by};
ghost use Rattle.statements.specs.Turning.{working, program_of, scene_of_frame};

use crate::frame::Step;
use crate::giving::{refusal_mark, wrong_kind};
pub use crate::passing::Passed;
use crate::variables::Variables;
use order::{Level, Order};
use rules::calls::Refusal;
use rules::tables::Layer;
use rules::values::{Labelled, Name, Value};
use script::class::{Arguments, Variable};
use store::tables::Tables;
use wrapper::admitting::{Asked, admit};
use wrapper::noting::Made;
use wrapper::sending::{Sending, send};

impl<'a> Step<'a> {
    /// Sends a call at a level, if the receiver's wrapper admits it: the name of its future, if the statement has a variable for it; or why it
    /// is refused.
    // Level, receiver, method and arguments come one by one, here and in `ask`: `invoke` works out each, and no other calls them.
    // `level < 8` is no fact of a struct: a level is worked out by joins, and an order's law says it of each.
    fn call<O: Order>(
        &self,
        order: &O,
        tables: &mut Tables,
        level: Level,
        receiver: Name,
        method: u8,
        arguments: &[Labelled],
    ) -> Result<Option<Name>, Refusal>
        requires level { level < 8 }
        requires few { length arguments.now ≤ 4 }
        ensures { (v : Variables) → left_by (O.Order.levels order.now) self.now level result (working v tables.new) ≡ asked (O.Order.levels order.now) (program_of self.now.frame) (scene_of_frame self.now.frame) self.now.context self.now.at self.now.to level receiver method arguments.now (working v tables.old) (verdict (O.Order.levels order.now) (program_of self.now.frame) (state_of tables.old) level receiver (Some method) (length arguments.now) (given_to self.now.to)) }
    {
        let answered = self.to.is_some();
        let asked = Asked {
            level,
            receiver,
            method: Some(method),
            count: arguments.len(),
            answered,
        };
        let object = admit(order, self.frame.classes, tables, &asked)?;
        let call = Sending {
            level,
            context: self.context,
            place: self.place(),
            layer: Layer::AtObject,
            receiver,
            method,
            answered,
        };
        let owed = send(order, tables, &call, &object, arguments);
        Ok(owed.map(|number| Name {
            home: level,
            number,
        }))
    }

    /// Asks the receiver's wrapper for a call at a level. Where it is admitted it goes out, and the variable, if there is one, becomes its future's
    /// name; else it leaves a mark.
    fn ask<O: Order>(
        &self,
        order: &O,
        variables: &mut Variables,
        tables: &mut Tables,
        level: Level,
        receiver: Name,
        method: u8,
        arguments: &[Labelled],
    )
        requires level { level < 8 }
        requires few { length arguments.now ≤ 4 }
        ensures { working variables.new tables.new ≡ asked (O.Order.levels order.now) (program_of self.now.frame) (scene_of_frame self.now.frame) self.now.context self.now.at self.now.to level receiver method arguments.now (working variables.old tables.old) (verdict (O.Order.levels order.now) (program_of self.now.frame) (state_of tables.old) level receiver (Some method) (length arguments.now) (given_to self.now.to)) }
    {
        // By a match: a call without a variable leaves nothing, so there are three ways.
        let made = match self.call(order, tables, level, receiver, method, arguments) {
            Ok(Some(future)) => Made::Plain(Labelled {
                value: Value::FutureName(future),
                label: level,
            }),
            Ok(None) => return,
            Err(why) => refusal_mark(why, Layer::AtObject, level),
        };
        self.give(order, variables, tables, made);
    }

    /// M: calls a method of the object that `receiver` names, at the level of the context, the receiver's label and its home joined.
    pub fn invoke<O: Order>(
        &self,
        order: &O,
        variables: &mut Variables,
        tables: &mut Tables,
        receiver: Variable,
        method: u8,
        arguments: Arguments,
    )
        ensures { working variables.new tables.new ≡ invoked (O.Order.levels order.now) (program_of self.now.frame) (scene_of_frame self.now.frame) self.now.context self.now.at self.now.to (read (working variables.old tables.old) receiver).value (read (working variables.old tables.old) receiver).label method (passed (working variables.old tables.old) arguments) (working variables.old tables.old) }
    {
        let passed = variables.passed(arguments);
        let found = variables.read(receiver);
        let Value::ObjectName(name) = found.value else {
            self.give(order, variables, tables, wrong_kind(found.label));
            return;
        };
        let level = order.join(order.join(self.context, found.label), name.home);
        let values = passed.as_slice();
        self.ask(order, variables, tables, level, name, method, values);
    }
}
