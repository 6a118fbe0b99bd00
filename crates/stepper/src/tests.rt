//! A machine whose turn goes on at its last statement, an R, so that it only finds its way there.
ghost use Rattle.std.specs.Prelude.{◌≡◌, ◌+◌, true, [], length, pos, slice_index_or};
ghost use Rattle.script.specs.Bodies.{idle, is_return};
ghost use Rattle.rules.specs.declared.values.Value.TheVariants.{Number};
ghost use Rattle.rules.specs.Values.{labelled, name};

use crate::machine::{Machine, Next, pass};
use crate::turn::{Outcome, run};
use order::{Ladder, Level, Order};
use script::class::{Statement, Variable};
use std::test::Fail;

#[derive(Drop)]
struct Finder<'a> {
    body: &'a [Statement],
    from: usize,
    steps: u32,
}

impl<'a> Machine for Finder<'a> {
    ghost running = { λ _. record { locals = λ _. labelled (Number (pos 0)) 0; fields = λ _. labelled (Number (pos 0)) 0; tables = record { objects = λ _. []; futures = λ _. []; calls = λ _. []; notes = λ _. [] } } };

    ghost scene = { λ s. record { self = name 0 0; class = 0; level = 0; method = 0; body = s.body.now; called_at = 0; from = s.from } };

    ghost program = { λ _. [] };

    ghost ready = { λ _ s. (s.from + 1 ≡ length s.body.now) × (is_return (slice_index_or s.body.now s.from idle) ≡ true) };

    ghost lent = { λ _. [] };

    fn step<O: Order>(&mut self, _order: &O, at: usize, context: Level) -> Next {
        self.steps = self.steps.wrapping_add(1);
        if at < self.from {
            return pass(self.body, self.from, at, context);
        }
        Next::On
    }
}

#[test]
fn finds_a_statement_in_a_branch_in_a_branch(rt: HostRuntime) -> Result<(), Fail> {
    let guard = Variable::Local(0);
    let end = Statement::Return { value: guard };
    let body = [
        Statement::Branch {
            guard,
            first: 1,
            second: 2,
        },
        end,
        Statement::Branch {
            guard,
            first: 1,
            second: 0,
        },
        end,
    ];
    let mut finder = Finder {
        body: &body,
        from: 3,
        steps: 0,
    };
    match run(&Ladder {}, &mut finder, &body, 1) {
        Outcome::Ended => {
            assert!(rt; finder.steps == 3);
            Ok(())
        },
        Outcome::Held { .. } => Err(Fail::new("held")),
    }
}
