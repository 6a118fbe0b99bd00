//! The statement at a place, of whatever kind.
ghost use Rattle.std.specs.Prelude.{◌≡◌, ◌+◌, ◌<◌, ◌≤◌, length, slice_index_or};
ghost use Rattle.script.specs.Bodies.{idle, branch_rows};
ghost use Rattle.rules.specs.Wrapper.{target};
ghost use Rattle.stepper.specs.Halves.{does_lead, does_change};
ghost use Rattle.statements.specs.Turning.{working, program_of, scene_of_frame};

use crate::frame::{Frame, Step};
use crate::operating::Operation;
use crate::variables::Variables;
use order::{Level, Order};
use script::class::Statement;
use stepper::machine::Next;
use store::tables::Tables;
use wrapper::classes::assigned_by;

impl<'a> Frame<'a> {
    /// The statement at `at` at work, in a context.
    fn step(&self, at: usize, context: Level) -> Step<'a>
        requires { at < length self.now.body.now }
        ensures frame { result.frame ≡ self.now }
        ensures at { result.at ≡ at }
        ensures context { result.context ≡ context }
        ensures to { result.to ≡ target (slice_index_or self.now.body.now at idle) }
    {
        Step {
            frame: *self,
            at,
            context,
            to: assigned_by(self.body[at]),
        }
    }

    /// Carries out the statement at `at`, in a context, and tells where it leads.
    pub fn carry_out<O: Order>(
        &self,
        order: &O,
        variables: &mut Variables,
        tables: &mut Tables,
        at: usize,
        context: Level,
    ) -> Next
        requires level { context < (O.Order.levels order.now).count }
        requires within { at + 1 + branch_rows (slice_index_or self.now.body.now at idle) ≤ length self.now.body.now }
        ensures next { result ≡ does_lead (O.Order.levels order.now) (program_of self.now) (scene_of_frame self.now) (slice_index_or self.now.body.now at idle) at context (working variables.old tables.old) }
        ensures does { working variables.new tables.new ≡ does_change (O.Order.levels order.now) (program_of self.now) (scene_of_frame self.now) (slice_index_or self.now.body.now at idle) at context (working variables.old tables.old) }
    {
        let step = self.step(at, context);
        match self.body[at] {
            Statement::Constant { number, .. } => step.constant(order, variables, tables, number),
            Statement::Itself { .. } => step.itself(order, variables, tables),
            Statement::Copy { from, .. } => step.copy(order, variables, tables, from),
            Statement::Add { left, right, .. } => {
                step.operate(order, variables, tables, Operation::Sum, left, right);
            }
            Statement::Subtract { left, right, .. } => {
                step.operate(order, variables, tables, Operation::Difference, left, right);
            }
            Statement::Less { left, right, .. } => {
                step.operate(order, variables, tables, Operation::Comparison, left, right);
            }
            Statement::Branch {
                guard,
                first,
                second,
            } => return step.branch(order, variables, guard, first, second),
            Statement::Invoke {
                receiver,
                method,
                arguments,
                ..
            } => step.invoke(order, variables, tables, receiver, method, arguments),
            Statement::Get { future, .. } => return step.get(order, variables, tables, future),
            Statement::Create { class, level, .. } => step.create(
                order, variables, tables, class, level,
            ),
            Statement::Return { .. } => {}
        }
        Next::On
    }
}
