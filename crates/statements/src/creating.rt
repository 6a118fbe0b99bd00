//! O: a new object.
ghost use Rattle.std.specs.Prelude.{◌≡◌, ◌<◌};
ghost use Rattle.rules.specs.Wrapper.{unmakeable};
ghost use Rattle.store.specs.States.{state_of};
ghost use Rattle.statements.specs.Turning.{working, program_of};
ghost use Rattle.statements.specs.Creating.{created_by};

use crate::frame::Step;
use crate::giving::refusal_mark;
use crate::variables::Variables;
use order::{Level, Order};
use rules::tables::Layer;
use rules::values::{Labelled, Value};
use store::tables::Tables;
use wrapper::making::make_object;
use wrapper::noting::Made;

impl<'a> Step<'a> {
    /// O: makes an object with the context as its home, and its variable becomes the object's name; or a mark, where it is not made.
    pub fn create<O: Order>(
        &self,
        order: &O,
        variables: &mut Variables,
        tables: &mut Tables,
        class: u8,
        level: Level,
    )
        requires { self.now.context < (O.Order.levels order.now).count }
        ensures { working variables.new tables.new ≡ created_by (O.Order.levels order.now) self.now class level (unmakeable (O.Order.levels order.now) (program_of self.now.frame) (state_of tables.old) self.now.context class level) (working variables.old tables.old) }
    {
        // By a match: both are a `Made`, and a closure for each would be no shorter.
        let made = match make_object(
            order,
            self.frame.classes,
            tables,
            self.context,
            class,
            level,
        ) {
            Ok(name) => Made::Plain(Labelled {
                value: Value::ObjectName(name),
                label: self.context,
            }),
            Err(why) => refusal_mark(why, Layer::AtStatement, self.context),
        };
        self.give(order, variables, tables, made);
    }
}
