//! G: what a future gives.
ghost use Rattle.std.specs.Prelude.{◌≡◌, slice_index_or};
ghost use Rattle.rules.specs.declared.tables.Future.TheVariants.{Open};
ghost use Rattle.rules.specs.Statements.{read, opened, fetched};
ghost use Rattle.store.specs.States.{state_of, futures_of};
ghost use Rattle.stepper.specs.Halves.{waiting};
ghost use Rattle.statements.specs.Turning.{working, program_of, scene_of_frame};
ghost use Rattle.statements.specs.Fetching.{fetched_of, taken_by};

use crate::frame::{Frame, Step};
use crate::giving::wrong_kind;
use crate::variables::Variables;
use order::{Level, Order};
use rules::tables::{Event, Future, Layer};
use rules::values::{Labelled, Mark, Name, Value};
use script::class::Variable;
use stepper::machine::Next;
use store::tables::Tables;
use wrapper::noting::Made;
use wrapper::sending::mask;

/// The future of a name; one that was not made counts as open.
fn future_of(tables: &Tables, name: Name) -> Future
    ensures { result ≡ slice_index_or (futures_of tables.now name.home) name.number Open }
{
    tables
        .futures
        .get(usize::from(name.home), usize::from(name.number))
        .unwrap_or(Future::Open)
}

impl<'a> Frame<'a> {
    /// What a future gives at a level. A value comes with its label joined with the level, if that flows to the object's level, or else as
    /// the mark *withheld*. An open future holds the turn where the level flows to the call's, and else gives the mark *not yet*.
    fn open<O: Order>(&self, order: &O, level: Level, mut future: Future) -> Option<Made>
        ensures { fetched_of result ≡ opened (O.Order.levels order.now) (program_of self.now) (scene_of_frame self.now) level future }
    {
        let Some(value) = future.meet(Event::Get) else {
            let not_yet = Made::Plain(Labelled {
                value: Value::Marked(Mark::NotYet),
                label: level,
            });
            return (!order.flows(level, self.called_at)).then_some(not_yet);
        };
        Some(mask(order, self.level, level, Layer::AtFuture, value))
    }
}

impl<'a> Step<'a> {
    /// What G finds behind a value: none where it has to wait. A mark is copied.
    fn fetch<O: Order>(&self, order: &O, tables: &Tables, future: Labelled) -> Option<Made>
        ensures { fetched_of result ≡ fetched (O.Order.levels order.now) (program_of self.now.frame) (scene_of_frame self.now.frame) (state_of tables.now) self.now.context future.value future.label }
    {
        match future.value {
            Value::FutureName(name) => {
                let level = order.join(order.join(self.context, future.label), name.home);
                self.frame.open(order, level, future_of(tables, name))
            }
            Value::Marked(_) => Some(Made::Plain(future)),
            _ => Some(wrong_kind(future.label)),
        }
    }

    /// G: its variable becomes what the future that `future` names holds, or a mark; or the statement holds the turn, and nothing changes.
    pub fn get<O: Order>(
        &self,
        order: &O,
        variables: &mut Variables,
        tables: &mut Tables,
        future: Variable,
    ) -> Next
        ensures next { result ≡ waiting (fetched (O.Order.levels order.now) (program_of self.now.frame) (scene_of_frame self.now.frame) (state_of tables.old) self.now.context (read (working variables.old tables.old) future).value (read (working variables.old tables.old) future).label) }
        ensures does { working variables.new tables.new ≡ taken_by (O.Order.levels order.now) self.now (fetched (O.Order.levels order.now) (program_of self.now.frame) (scene_of_frame self.now.frame) (state_of tables.old) self.now.context (read (working variables.old tables.old) future).value (read (working variables.old tables.old) future).label) (working variables.old tables.old) }
    {
        let Some(made) = self.fetch(order, tables, variables.read(future)) else {
            return Next::Hold;
        };
        self.give(order, variables, tables, made);
        Next::On
    }
}
