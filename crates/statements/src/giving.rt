//! Results, and where they go.
ghost use Rattle.std.specs.Prelude.{◌≡◌, ◌+◌, ◌<◌};
ghost use Rattle.std.specs.Option.{ForSome};
ghost use Rattle.rules.specs.declared.values.Mark.TheVariants.{WrongKind};
ghost use Rattle.rules.specs.declared.tables.Layer.TheVariants.{AtObject, AtStatement};
ghost use Rattle.rules.specs.Values.{fresh};
ghost use Rattle.rules.specs.Tables.{State};
ghost use Rattle.rules.specs.Statements.{settled, put, call_mark, object_mark};
ghost use Rattle.wrapper.specs.Marks.{made_of, place_of};
ghost use Rattle.statements.specs.Numbers.{number_of};
ghost use Rattle.statements.specs.Turning.{running_of, working, program_of, scene_of_frame, with_result_of};

use crate::frame::{Frame, Step};
use crate::variables::Variables;
use order::{Level, Order};
use rules::calls::Refusal;
use rules::tables::Layer;
use rules::values::{Labelled, Mark};
use script::class::Variable;
use store::tables::Tables;
use wrapper::making::floor;
use wrapper::noting::{Made, Place, settle};

/// The mark that stands for what was refused: 3 without space, else 2, by the layer that refused it.
pub(crate) fn refusal_mark(why: Refusal, layer: Layer, label: Level) -> Made
    ensures call { layer ≡ AtObject → made_of result ≡ call_mark why label }
    ensures object { layer ≡ AtStatement → made_of result ≡ object_mark why label }
{
    match why {
        Refusal::Full => Made::Fresh {
            mark: Mark::NoSpace,
            layer: Layer::AtTable,
            label,
        },
        _ => Made::Fresh {
            mark: Mark::Refused,
            layer,
            label,
        },
    }
}

/// The mark *wrong kind* of a statement, with a label.
pub(crate) fn wrong_kind(label: Level) -> Made
    ensures { made_of result ≡ fresh WrongKind AtStatement label }
{
    Made::Fresh {
        mark: Mark::WrongKind,
        layer: Layer::AtStatement,
        label,
    }
}

impl<'a> Frame<'a> {
    /// The label of a result in a variable: its own joined with the context and, in a field, with the floor.
    fn settled<O: Order>(&self, order: &O, context: Level, to: Variable, label: Level) -> Level
        ensures { result ≡ settled (O.Order.levels order.now) (program_of self.now) (scene_of_frame self.now) context to label }
    {
        let joined = order.join(label, context);
        match to {
            Variable::Local(_) => joined,
            Variable::Field(k) => order.join(joined, floor(order, self.fields, self.this.home, k)),
        }
    }

    /// Puts a result into its variable, if there is one.
    pub fn put<O: Order>(
        &self,
        order: &O,
        variables: &mut Variables,
        context: Level,
        to: Option<Variable>,
        value: Labelled,
    )
        requires { ForSome to (λ x. number_of x < 8) }
        ensures { (σ : State) → running_of variables.new σ ≡ put (O.Order.levels order.now) (program_of self.now) (scene_of_frame self.now) context to value (running_of variables.old σ) }
    {
        if let Some(to) = to {
            let label = self.settled(order, context, to, value.label);
            variables.store(to, Labelled { label, ..value });
        }
    }
}

impl<'a> Step<'a> {
    /// The place that notes of the statement tell: they count statements from 1.
    pub fn place(&self) -> Place
        ensures { place_of result ≡ record { class = self.now.frame.class; method = self.now.frame.method; statement = self.now.at + 1 } }
    {
        // `as` fits: a body has at most 32 statements.
        Place {
            class: self.frame.class,
            method: self.frame.method,
            statement: (self.at + 1) as u8,
        }
    }

    /// Puts what the statement gives into its variable, if there is one; the note of a new mark goes into its line.
    pub fn give<O: Order>(
        &self,
        order: &O,
        variables: &mut Variables,
        tables: &mut Tables,
        made: Made,
    )
        ensures { working variables.new tables.new ≡ with_result_of (O.Order.levels order.now) self.now (made_of made) (working variables.old tables.old) }
    {
        let value = settle(order, tables, self.context, self.place(), made);
        self.frame
            .put(order, variables, self.context, self.to, value);
    }
}
