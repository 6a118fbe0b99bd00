//! The values that a call passes on.
ghost use Rattle.std.specs.Prelude.{◌≡◌, ◌≤◌, length};
ghost use Rattle.rules.specs.Tables.{State};
ghost use Rattle.rules.specs.Statements.{passed};

use crate::variables::Variables;
use rules::values::Labelled;
use script::class::Arguments;
use wrapper::making::zero;

/// The values that a call passes on: the first `count` of four.
// In the value itself, since sending a call allocates nothing. An `ArrayVec` asks for a `Default`, and is no `Copy`: what was a `Copy` stays one.
#[derive(Clone, Copy)]
pub struct Passed {
    pub values: [Labelled; 4],
    pub count: usize,
    pub ghost few: { count ≤ 4 },
}

impl Passed {
    ghost use Rattle.statements.specs.Passing.{values_of};

    /// The values, in order.
    pub fn as_slice(&self) -> &[Labelled]
        ensures values { result.now ≡ values_of self.now }
        ensures few { length result.now ≤ 4 }
    {
        &self.values[..self.count]
    }
}

impl Variables {
    ghost use Rattle.statements.specs.Passing.{values_of};
    ghost use Rattle.statements.specs.Turning.{running_of};

    /// The values that a call passes on, in order.
    pub fn passed(&self, arguments: Arguments) -> Passed
        ensures { (σ : State) → values_of result ≡ passed (running_of self.now σ) arguments }
    {
        let none = zero(0);
        match arguments {
            Arguments::Empty => Passed {
                values: [none; 4],
                count: 0,
            },
            Arguments::One(x) => Passed {
                values: [self.read(x), none, none, none],
                count: 1,
            },
            Arguments::Two(x, y) => Passed {
                values: [self.read(x), self.read(y), none, none],
                count: 2,
            },
            Arguments::Three(x, y, z) => Passed {
                values: [self.read(x), self.read(y), self.read(z), none],
                count: 3,
            },
            Arguments::Four(x, y, z, w) => Passed {
                values: [self.read(x), self.read(y), self.read(z), self.read(w)],
                count: 4,
            },
        }
    }
}
