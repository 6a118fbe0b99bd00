//! Giving an object its turn.
ghost use Rattle.std.specs.Prelude.{◌≡◌, ◌<◌, true};
ghost use Rattle.stepper.specs.Halves.{ends, StopsWithin};
ghost use Rattle.rules.specs.Tables.{object_of, call_of};
ghost use Rattle.rules.specs.Turns.{turned as turned_by};
ghost use Rattle.rules.specs.Calling.{turn};
ghost use Rattle.statements.specs.Turning.{running_of};
ghost use Rattle.host.specs.Hosts.{program_in, state_in, told, Answers};

use crate::calls::classes_of;
use crate::host::Host;
use crate::methods::{before_last, statements_of};
use crate::numbers::{level as level_of, name_of};
use crate::taken::Taken;
use order::Order;
use rules::calls::{Answer, Refusal};
use statements::frame::Frame;
use statements::turn::take_turn;
use statements::variables::Variables;
use stepper::turn::Outcome;
use wrapper::admitting::find_object;
use wrapper::classes::fields_of;

/// How a turn came out, and what its variables then hold.
#[derive(Clone, Copy)]
pub struct Turned {
    pub outcome: Outcome,
    pub variables: Variables,
}

impl Host {
    /// Carries out a call that was taken up, as far as it goes.
    fn carry_out<O: Order>(&mut self, order: &O, taken: &Taken) -> Turned
        requires { taken.now.level < (O.Order.levels order.now).count }
        ensures does { ends result.outcome (running_of result.variables (state_in self.new)) ≡ turned_by (O.Order.levels order.now) (program_in self.old) (state_in self.old) taken.now.level taken.now.name (object_of taken.now.object) (call_of taken.now.call) }
        ensures place { StopsWithin 32 result.outcome }
        ensures program { self.new.program ≡ self.old.program }
    {
        let Taken { object, call, .. } = taken;
        let classes = classes_of(&self.program);
        let frame = Frame {
            classes,
            fields: fields_of(classes, object.class),
            body: before_last(statements_of(classes, object.class, call.method)),
            this: taken.name,
            class: object.class,
            level: object.level,
            method: call.method,
            called_at: taken.level,
            from: usize::from(call.next),
        };
        let mut variables = Variables {
            locals: call.locals,
            fields: object.fields,
        };
        let outcome = take_turn(order, &frame, &mut variables, &mut self.tables);
        Turned { outcome, variables }
    }

    /// Lets the object of a name serve its oldest call in the party's line; answers whether the call ended or is held, or why not.
    pub fn turn<O: Order>(&mut self, order: &O, bearer: i32, home: i32, number: i32) -> Answer
        ensures { Answers (O.Order.levels order.now) self.old (turn bearer home number) result self.new }
    {
        self.try_turn(order, bearer, home, number)
            .unwrap_or_else(Answer::Refused)
    }

    /// Whether the call ended or is held, or why there is no turn.
    fn try_turn<O: Order>(
        &mut self,
        order: &O,
        bearer: i32,
        home: i32,
        number: i32,
    ) -> Result<Answer, Refusal>
        ensures { Answers (O.Order.levels order.now) self.old (turn bearer home number) (told (λ r. r) result) self.new }
    {
        let level = level_of(order, bearer)?;
        let name = name_of(order, home, number)?;
        let object = find_object(order, &self.tables, level, name).ok_or(Refusal::NotMade)?;
        let (place, call) = self
            .tables
            .calls
            .oldest(usize::from(level), name)
            .ok_or(Refusal::Nothing)?;
        let taken = Taken {
            level,
            name,
            object,
            place,
            call,
        };
        let turned = self.carry_out(order, &taken);
        Ok(self.stop(order, &taken, &turned))
    }
}
