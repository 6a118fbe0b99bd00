//! What a turn works on, one statement at a time.
ghost use Rattle.std.specs.Prelude.{◌≡◌, ◌+◌, ◌<◌, ◌≤◌, List, length, slice_index_or};
ghost use Rattle.std.specs.Borrow.{GName};
ghost use Rattle.order.specs.Levels.{Levels};
ghost use Rattle.script.specs.Classes.{Program};
ghost use Rattle.script.specs.Bodies.{idle, branch_rows};
ghost use Rattle.rules.specs.Statements.{Scene, Running};
ghost use Rattle.stepper.specs.Halves.{changed, leads, passes};

use order::{Level, Order};
use script::class::Statement;

/// Where a statement leads.
// Three cases, which no `Option` has.
#[derive(Clone, Copy)]
pub enum Next {
    /// To the statement after it and its branches.
    On,
    /// Into the statements from one place up to another, in a context.
    Enter {
        from: usize,
        to: usize,
        context: Level,
    },
    /// Nowhere: it holds the turn.
    Hold,
}

/// What a turn works on.
///
/// It holds no order: the order is lent to each call. What its one method does is told in two halves: where a statement leads, and what it
/// changes. Before the place where the turn goes on, `pass` is the whole of it.
pub trait Machine {
    /// The call's locals, the object's fields and the tables, as the rules have them.
    ghost running: { Self → Running };

    /// What stays the same through the turn.
    ghost scene: { Self → Scene };

    /// The program that the turn is of.
    ghost program: { Self → Program };

    /// What the machine needs, and keeps, under an order.
    ghost ready: { Levels → Self → Type 0 };

    /// The ghost names of the `&mut` that the machine holds, so that who lent them knows what they hold after the turn.
    ghost lent: { Self → List GName };

    /// Carries out the statement at `at`, in a context; or passes over it, where the turn goes on behind it.
    fn step<O: Order>(&mut self, order: &O, at: usize, context: Level) -> Next
        requires can { ready (O.Order.levels order.now) self.old }
        requires level { context < (O.Order.levels order.now).count }
        requires within { at + 1 + branch_rows (slice_index_or (scene self.old).body at idle) ≤ length (scene self.old).body }
        ensures next { result ≡ leads (O.Order.levels order.now) (program self.old) (scene self.old) (slice_index_or (scene self.old).body at idle) at context (running self.old) }
        ensures does { running self.new ≡ changed (O.Order.levels order.now) (program self.old) (scene self.old) (slice_index_or (scene self.old).body at idle) at context (running self.old) }
        ensures stays { scene self.new ≡ scene self.old }
        ensures same { program self.new ≡ program self.old }
        ensures lent { lent self.new ≡ lent self.old }
        ensures still { ready (O.Order.levels order.now) self.new };
}

/// Where the statement at `at` leads if a turn passes over it, since it goes on at `from`: into the branch in which that place stands.
pub fn pass(body: &[Statement], from: usize, at: usize, context: Level) -> Next
    requires { at + 1 + branch_rows (slice_index_or body.now at idle) ≤ length body.now }
    ensures { result ≡ passes from (slice_index_or body.now at idle) at context }
{
    if let Statement::Branch { first, second, .. } = body[at] {
        let start = at + 1;
        let middle = start + usize::from(first);
        let end = middle + usize::from(second);
        if from < middle {
            return Next::Enter {
                from: start,
                to: middle,
                context,
            };
        }
        if from < end {
            return Next::Enter {
                from: middle,
                to: end,
                context,
            };
        }
    }
    Next::On
}
