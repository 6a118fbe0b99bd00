//! A, D and L: a sum, a difference, and whether one number is less than another.
ghost use Rattle.std.specs.Prelude.{◌≡◌};
ghost use Rattle.rules.specs.Values.{worked};
ghost use Rattle.rules.specs.Statements.{read, operated};
ghost use Rattle.wrapper.specs.Marks.{made_of};
ghost use Rattle.statements.specs.Turning.{working, program_of, scene_of_frame, with_result_of};
ghost use Rattle.statements.specs.Operations.{on_numbers};

use crate::frame::Step;
use crate::giving::wrong_kind;
use crate::variables::Variables;
use order::Order;
use rules::values::{Labelled, Value};
use script::class::Variable;
use store::tables::Tables;
use wrapper::noting::Made;

/// What a statement works out from two numbers.
// An enum and no closure: the clauses name what an operation works out by its variant, and of a closure they could only name each call.
#[derive(Clone, Copy)]
pub enum Operation {
    /// A: the sum.
    Sum,
    /// D: the difference.
    Difference,
    /// L: 1 if the first is less than the second, else 0.
    Comparison,
}

impl Operation {
    /// What comes out for two numbers; it clamps to the ends of 32 bits, signed.
    pub fn on_numbers(self, left: i32, right: i32) -> i32
        ensures { result ≡ on_numbers self left right }
    {
        match self {
            Operation::Sum => left.saturating_add(right),
            Operation::Difference => left.saturating_sub(right),
            Operation::Comparison => i32::from(left < right),
        }
    }

    /// What comes out for two values with their labels: both must be numbers, and the label is both joined.
    pub fn on_values<O: Order>(self, order: &O, left: Labelled, right: Labelled) -> Made
        ensures { made_of result ≡ worked (on_numbers self) left.value right.value ((O.Order.levels order.now).join left.label right.label) }
    {
        let label = order.join(left.label, right.label);
        match (left.value, right.value) {
            (Value::Number(x), Value::Number(y)) => Made::Plain(Labelled {
                value: Value::Number(self.on_numbers(x, y)),
                label,
            }),
            _ => wrong_kind(label),
        }
    }
}

impl<'a> Step<'a> {
    /// A, D or L: its variable becomes what comes out for `left` and `right`.
    pub fn operate<O: Order>(
        &self,
        order: &O,
        variables: &mut Variables,
        tables: &mut Tables,
        operation: Operation,
        left: Variable,
        right: Variable,
    )
        ensures { working variables.new tables.new ≡ with_result_of (O.Order.levels order.now) self.now (operated (O.Order.levels order.now) (program_of self.now.frame) (scene_of_frame self.now.frame) (on_numbers operation) (read (working variables.old tables.old) left) (read (working variables.old tables.old) right)) (working variables.old tables.old) }
    {
        let made = operation.on_values(order, variables.read(left), variables.read(right));
        self.give(order, variables, tables, made);
    }
}
