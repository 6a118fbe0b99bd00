//! I: which branch it picks, and what it raises before.
ghost use Rattle.std.specs.Prelude.{◌≡◌, ◌+◌, ◌≤◌, length};
ghost use Rattle.rules.specs.Values.{labelled};
ghost use Rattle.rules.specs.Tables.{State};
ghost use Rattle.rules.specs.Statements.{read, raise};
ghost use Rattle.stepper.specs.declared.machine.Next.TheVariants.{Enter};
ghost use Rattle.stepper.specs.Halves.{picked};
ghost use Rattle.statements.specs.Turning.{running_of, program_of, scene_of_frame};

use crate::frame::Step;
use crate::variables::Variables;
use order::{Level, Order};
use rules::values::{Labelled, Value};
use script::class::{Statement, Variable};
use stepper::machine::Next;
use wrapper::classes::assigned_by;

/// What a variable holds once its label is raised.
fn raised<O: Order>(order: &O, by: Level, variables: &Variables, x: Variable) -> Labelled
    ensures { (σ : State) → result ≡ labelled (read (running_of variables.now σ) x).value ((O.Order.levels order.now).join (read (running_of variables.now σ) x).label by) }
{
    let held = variables.read(x);
    Labelled {
        label: order.join(held.label, by),
        ..held
    }
}

/// Where a guard's value leads: a number other than 0 picks the first branch, 0 the second, anything else neither.
fn pick(value: Value, first: Next, second: Next) -> Next
    ensures { result ≡ picked value first second }
{
    match value {
        Value::Number(0) => second,
        Value::Number(_) => first,
        _ => Next::On,
    }
}

impl<'a> Step<'a> {
    /// Raises all that the `count` statements after this one assign by the guard's label and the context, where that label does not flow to
    /// the context.
    fn raise<O: Order>(&self, order: &O, variables: &mut Variables, guard: Level, count: usize)
        requires { self.now.at + 1 + count ≤ length self.now.frame.body.now }
        ensures { (σ : State) → running_of variables.new σ ≡ raise (O.Order.levels order.now) (program_of self.now.frame) (scene_of_frame self.now.frame) guard self.now.context (self.now.at + 1) count (running_of variables.old σ) }
    {
        // Without statements there is nothing to raise, and no need of the copy below.
        if count == 0 || order.flows(guard, self.context) {
            return;
        }
        let by = order.join(guard, self.context);
        let start = self.at + 1;
        let branches = &self.frame.body[start..start + count];
        // Each from what it held before, so that a variable that two statements assign is raised once.
        let before = *variables;
        for statement in branches {
            if let Some(to) = assigned_by(*statement) {
                variables.store(to, raised(order, by, &before, to));
            }
        }
    }

    /// I: raises what its branches assign, and leads into the first branch where the guard is a number other than 0, into the second where
    /// it is 0, and on where it is no number.
    pub fn branch<O: Order>(
        &self,
        order: &O,
        variables: &mut Variables,
        guard: Variable,
        first: u8,
        second: u8,
    ) -> Next
        requires { self.now.at + 1 + (first + second) ≤ length self.now.frame.body.now }
        ensures next { (σ : State) → result ≡ picked (read (running_of variables.old σ) guard).value (Enter (self.now.at + 1) (self.now.at + 1 + first) ((O.Order.levels order.now).join (read (running_of variables.old σ) guard).label self.now.context)) (Enter (self.now.at + 1 + first) (self.now.at + 1 + first + second) ((O.Order.levels order.now).join (read (running_of variables.old σ) guard).label self.now.context)) }
        ensures does { (σ : State) → running_of variables.new σ ≡ raise (O.Order.levels order.now) (program_of self.now.frame) (scene_of_frame self.now.frame) (read (running_of variables.old σ) guard).label self.now.context (self.now.at + 1) (first + second) (running_of variables.old σ) }
    {
        let guard = variables.read(guard);
        let start = self.at + 1;
        let first = usize::from(first);
        let second = usize::from(second);
        let middle = start + first;
        let end = middle + second;
        self.raise(order, variables, guard.label, first + second);
        let context = order.join(guard.label, self.context);
        pick(
            guard.value,
            Next::Enter {
                from: start,
                to: middle,
                context,
            },
            Next::Enter {
                from: middle,
                to: end,
                context,
            },
        )
    }
}
