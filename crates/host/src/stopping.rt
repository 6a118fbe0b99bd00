//! What a turn leaves when it stops.
ghost use Rattle.std.specs.Prelude.{◌≡◌, ◌<◌, slice_index_or};
ghost use Rattle.stepper.specs.Halves.{ends, StopsWithin};
ghost use Rattle.rules.specs.Values.{blank};
ghost use Rattle.rules.specs.Tables.{object_of, call_of};
ghost use Rattle.rules.specs.Lists.{update};
ghost use Rattle.rules.specs.Turns.{with_fields, resolved, reply, ended, paused};
ghost use Rattle.rules.specs.Calling.{stopped};
ghost use Rattle.statements.specs.Turning.{running_of};
ghost use Rattle.host.specs.Hosts.{program_in, state_in};
ghost use Rattle.store.specs.States.{objects_of, futures_of, found_call, SameButObjects, SameButFutures};

use crate::calls::classes_of;
use crate::host::Host;
use crate::methods::{reply_variable, statements_of};
use crate::taken::Taken;
use crate::turning::Turned;
use order::{Level, Order};
use rules::calls::Answer;
use rules::tables::{Call, Object};
use rules::values::Labelled;
use statements::variables::Variables;
use stepper::turn::Outcome;
use store::tables::Tables;

/// The reply of a call goes into the future that it owes, if any.
// `level < 8` is no fact of a struct here, where the level comes alone; where it comes with a call, `Taken` has it.
fn pay(tables: &mut Tables, level: Level, owed: Option<u8>, value: Labelled)
    requires { level < 8 }
    ensures futures { futures_of tables.new ≡ update (futures_of tables.old) level (resolved owed value (futures_of tables.old level)) }
    ensures same { SameButFutures tables.old tables.new }
{
    if let Some(number) = owed {
        tables.resolve(level, number, value);
    }
}

impl Host {
    /// The reply of a call that ends: what its R gives, with its label joined with the call's level.
    fn reply<O: Order>(&self, order: &O, taken: &Taken, variables: &Variables) -> Labelled
        ensures { result ≡ reply (O.Order.levels order.now) (program_in self.now) taken.now.level (object_of taken.now.object) (call_of taken.now.call) (running_of variables.now (state_in self.now)) }
    {
        let statements = statements_of(
            classes_of(&self.program),
            taken.object.class,
            taken.call.method,
        );
        let value = variables.read(reply_variable(statements));
        Labelled {
            label: order.join(value.label, taken.level),
            ..value
        }
    }

    /// The object's fields stand in the table again, as the turn left them. The other tables and the program stay.
    fn put_back(&mut self, taken: &Taken, variables: &Variables)
        ensures objects { objects_of self.new.tables ≡ with_fields (objects_of self.old.tables) taken.now.name (object_of taken.now.object) (λ i. slice_index_or variables.now.fields i blank) }
        ensures same { SameButObjects self.old.tables self.new.tables }
        ensures program { self.new.program ≡ self.old.program }
    {
        let left = Object {
            fields: variables.fields,
            ..taken.object
        };
        self.tables.objects.put(
            usize::from(taken.name.home),
            usize::from(taken.name.number),
            left,
        );
    }

    /// Ends a call: the object's fields stand in the table again, the reply goes into the owed future, and the call out of line.
    fn end<O: Order>(&mut self, order: &O, taken: &Taken, variables: &Variables)
        ensures state { state_in self.new ≡ ended (O.Order.levels order.now) (program_in self.old) taken.now.level taken.now.name (object_of taken.now.object) (found_call (taken.now.place, taken.now.call)) (running_of variables.now (state_in self.old)) }
        ensures program { self.new.program ≡ self.old.program }
    {
        let value = self.reply(order, taken, variables);
        self.put_back(taken, variables);
        pay(&mut self.tables, taken.level, taken.call.owed, value);
        let _ = self
            .tables
            .calls
            .take(usize::from(taken.level), taken.place);
    }

    /// Holds a call at a statement: the object's fields stand in the table again, and the call stays in its place, as far as it ran.
    fn hold(&mut self, taken: &Taken, variables: &Variables, at: u8)
        ensures state { state_in self.new ≡ paused taken.now.level taken.now.name (object_of taken.now.object) (found_call (taken.now.place, taken.now.call)) at (running_of variables.now (state_in self.old)) }
        ensures program { self.new.program ≡ self.old.program }
    {
        self.put_back(taken, variables);
        let held = Call {
            locals: variables.locals,
            next: at,
            ..taken.call
        };
        self.tables
            .calls
            .put(usize::from(taken.level), taken.place, held);
    }

    /// What a turn leaves, and the party's answer.
    pub(crate) fn stop<O: Order>(&mut self, order: &O, taken: &Taken, turned: &Turned) -> Answer
        requires { StopsWithin 32 turned.now.outcome }
        ensures served { stopped (O.Order.levels order.now) (program_in self.old) taken.now.level taken.now.name (object_of taken.now.object) (found_call (taken.now.place, taken.now.call)) (ends turned.now.outcome (running_of turned.now.variables (state_in self.old))) ≡ record { answer = result; state = state_in self.new } }
        ensures program { self.new.program ≡ self.old.program }
    {
        match turned.outcome {
            Outcome::Ended => {
                self.end(order, taken, &turned.variables);
                Answer::Ended
            }
            Outcome::Held { at } => {
                // `as` fits: a turn stops within 32 statements.
                self.hold(taken, &turned.variables, at as u8);
                Answer::Held
            }
        }
    }
}
