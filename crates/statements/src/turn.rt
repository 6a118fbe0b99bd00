//! A turn on the tables in memory.
ghost use Rattle.std.specs.Prelude.{◌≡◌, ◌<◌, true, [], ◌∷◌, length};
ghost use Rattle.script.specs.Bodies.{nested};
ghost use Rattle.rules.specs.Turns.{exec};
ghost use Rattle.store.specs.States.{state_of};
ghost use Rattle.stepper.specs.Halves.{ends, StopsWithin};
ghost use Rattle.statements.specs.Turning.{running_of, working, program_of, scene_of_frame};

use crate::frame::Frame;
use crate::variables::Variables;
use order::{Level, Order};
use stepper::machine::{Machine, Next, pass};
use stepper::turn::{Outcome, run};
use store::tables::Tables;

/// A turn at work: what stays the same, the variables, and the tables, which are lent to it.
#[derive(Drop)]
struct Turn<'a, 't> {
    frame: Frame<'a>,
    variables: Variables,
    tables: &'t mut Tables,
}

/// One statement at a time: it is passed over before the place where the turn goes on, and carried out from there on.
impl<'a, 't> Machine for Turn<'a, 't> {
    ghost running = { λ s. running_of s.variables (state_of s.tables.now) };

    ghost scene = { λ s. scene_of_frame s.frame };

    ghost program = { λ s. program_of s.frame };

    ghost ready = { λ _ _. Unit {0} };

    ghost lent = { λ s. s.tables.ghost_name ∷ [] };

    fn step<O: Order>(&mut self, order: &O, at: usize, context: Level) -> Next {
        let frame = self.frame;
        if at < frame.from {
            return pass(frame.body, frame.from, at, context);
        }
        frame.carry_out(order, &mut self.variables, self.tables, at, context)
    }
}

/// Takes a turn: carries out the statements of a body, in the call's level as their context, until the call has ended or a statement holds
/// it.
///
/// * `does`: the outcome, the variables and the tables are those of the rules.
/// * `place`: a statement that holds the turn is one of the body.
pub fn take_turn<O: Order>(
    order: &O,
    frame: &Frame<'_>,
    variables: &mut Variables,
    tables: &mut Tables,
) -> Outcome
    requires level { frame.now.called_at < (O.Order.levels order.now).count }
    requires nested { nested (length frame.now.body.now) frame.now.body.now 4 0 (length frame.now.body.now) ≡ true }
    ensures does { ends result (working variables.new tables.new) ≡ exec (O.Order.levels order.now) (program_of frame.now) (scene_of_frame frame.now) (length frame.now.body.now) 0 (length frame.now.body.now) frame.now.called_at (working variables.old tables.old) }
    ensures place { StopsWithin (length frame.now.body.now) result }
{
    let frame = *frame;
    let mut turn = Turn {
        frame,
        variables: *variables,
        tables,
    };
    let outcome = run(order, &mut turn, frame.body, frame.called_at);
    *variables = turn.variables;
    outcome
}
