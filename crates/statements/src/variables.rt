//! The variables of a turn.
ghost use Rattle.std.specs.Prelude.{◌≡◌, ◌<◌, slice_index_or};
ghost use Rattle.rules.specs.Values.{blank};
ghost use Rattle.rules.specs.Tables.{State};
ghost use Rattle.rules.specs.Statements.{read, stored};
ghost use Rattle.statements.specs.Numbers.{number_of};
ghost use Rattle.statements.specs.Turning.{running_of};

use rules::values::Labelled;
use script::class::Variable;
use wrapper::making::zero;

/// What a turn reads and assigns: the call's eight locals, and the fields of the running object; those past its class's count are not used.
// Eight places each, in the value itself: serving a call allocates nothing.
#[derive(Clone, Copy)]
pub struct Variables {
    pub locals: [Labelled; 8],
    pub fields: [Labelled; 8],
}

/// What a place holds; 0 labelled 0 past the eighth.
fn held(places: &[Labelled; 8], number: u8) -> Labelled
    ensures { result ≡ slice_index_or places.now number blank }
{
    places.get(usize::from(number)).copied().unwrap_or(zero(0))
}

impl Variables {
    /// What a variable holds; 0 labelled 0 past the eighth.
    pub fn read(&self, x: Variable) -> Labelled
        ensures { (σ : State) → result ≡ read (running_of self.now σ) x }
    {
        match x {
            Variable::Local(number) => held(&self.locals, number),
            Variable::Field(number) => held(&self.fields, number),
        }
    }

    /// Puts a value into a variable, as it is.
    pub fn store(&mut self, to: Variable, value: Labelled)
        requires { number_of to < 8 }
        ensures { (σ : State) → running_of self.new σ ≡ stored (running_of self.old σ) to value }
    {
        match to {
            Variable::Local(number) => self.locals[usize::from(number)] = value,
            Variable::Field(number) => self.fields[usize::from(number)] = value,
        }
    }
}
