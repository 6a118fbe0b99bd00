//! Reading what a future holds.
ghost use Rattle.std.specs.Prelude.{◌≡◌, []};
ghost use Rattle.rules.specs.Calling.{future_for, readable};
ghost use Rattle.store.specs.States.{state_of};

use order::{Level, Order};
use rules::tables::Future;
use rules::values::{Labelled, Mark, Name, Value};
use store::tables::Tables;

/// The future of a name, if it was made and its home flows to a level.
// One call of the table's, as for objects: the clause is the rules' own word for it.
pub fn find_future<O: Order>(order: &O, tables: &Tables, level: Level, name: Name) -> Option<Future>
    ensures { result ≡ future_for (O.Order.levels order.now) [] (state_of tables.now) level name }
{
    tables.futures.find(order, level, name)
}

/// The value as a party may see it at a level: as it is where its label flows there, else the mark *withheld*.
pub fn shown_to<O: Order>(order: &O, level: Level, value: Labelled) -> Labelled
    ensures { result ≡ readable (O.Order.levels order.now) [] level value }
{
    if order.flows(value.label, level) {
        value
    } else {
        Labelled {
            value: Value::Marked(Mark::Withheld),
            label: level,
        }
    }
}
