//! A turn, as a loop over ranges of statements.
ghost use Rattle.std.specs.Prelude.{◌≡◌, ◌<◌, true, length};
ghost use Rattle.script.specs.Bodies.{branch_rows, nested};
ghost use Rattle.rules.specs.Turns.{exec};
ghost use Rattle.stepper.specs.Halves.{ends, StopsWithin, TwoHalves};

use crate::machine::{Machine, Next};
use arrayvec::ArrayVec;
use order::{Level, Order};
use script::class::Statement;

/// How a turn came out.
// No `Option<usize>`: its `None` would not say that the call has ended, and the rules tell the two apart by name.
#[derive(Clone, Copy)]
pub enum Outcome {
    /// The call has ended.
    Ended,
    /// The statement at `at` holds the turn.
    Held { at: usize },
}

/// Statements that are still to be carried out, and their context.
#[derive(Clone, Copy, Default)]
struct Range {
    at: usize,
    end: usize,
    context: Level,
}

/// How deep branches nest in a body.
const DEPTH: usize = 4;

/// How many of the statements after one belong to its two branches.
fn rows_of(statement: Statement) -> usize
    ensures { result ≡ branch_rows statement }
{
    match statement {
        Statement::Branch { first, second, .. } => usize::from(first) + usize::from(second),
        _ => 0,
    }
}

/// Carries out a turn: the statements of a body from the first to the last, in a context.
///
/// The ranges that the branch at hand stands in wait for its end, the innermost last.
pub fn run<O: Order, M: Machine>(
    order: &O,
    machine: &mut M,
    body: &[Statement],
    level: Level,
) -> Outcome
    requires can { M.Machine.ready (O.Order.levels order.now) machine.old }
    requires level { level < (O.Order.levels order.now).count }
    requires body { body.now ≡ (M.Machine.scene machine.old).body }
    requires nested { nested (length body.now) body.now 4 0 (length body.now) ≡ true }
    ensures does { ends result (M.Machine.running machine.new) ≡ exec (O.Order.levels order.now) (M.Machine.program machine.old) (M.Machine.scene machine.old) (length body.now) 0 (length body.now) level (M.Machine.running machine.old) }
    ensures place { StopsWithin (length body.now) result }
    ensures halves { TwoHalves }
    ensures stays { M.Machine.scene machine.new ≡ M.Machine.scene machine.old }
    ensures same { M.Machine.program machine.new ≡ M.Machine.program machine.old }
    ensures lent { M.Machine.lent machine.new ≡ M.Machine.lent machine.old }
    ensures still { M.Machine.ready (O.Order.levels order.now) machine.new }
{
    let mut waiting = ArrayVec::<Range, DEPTH>::new();
    let mut range = Range {
        at: 0,
        end: body.len(),
        context: level,
    };
    // A loop, by places: a statement leads on, into a range or nowhere, and places are what a machine and the rules count by.
    loop {
        if range.at < range.end {
            let after = range.at + 1 + rows_of(body[range.at]);
            match machine.step(order, range.at, range.context) {
                Next::On => range.at = after,
                Next::Enter { from, to, context } => {
                    waiting.push(Range { at: after, ..range });
                    range = Range {
                        at: from,
                        end: to,
                        context,
                    };
                }
                Next::Hold => break Outcome::Held { at: range.at },
            }
        } else if let Some(outer) = waiting.pop() {
            range = outer;
        } else {
            break Outcome::Ended;
        }
    }
}
