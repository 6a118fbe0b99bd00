//! N, T and C: a number, the running object's name, and a copy.
ghost use Rattle.std.specs.Prelude.{◌≡◌};
ghost use Rattle.rules.specs.declared.values.Value.TheVariants.{Number, ObjectName};
ghost use Rattle.rules.specs.Values.{labelled, plain};
ghost use Rattle.rules.specs.Statements.{read};
ghost use Rattle.statements.specs.Turning.{working, with_result_of};

use crate::frame::Step;
use crate::variables::Variables;
use order::Order;
use rules::values::{Labelled, Value};
use script::class::Variable;
use store::tables::Tables;
use wrapper::noting::Made;

impl<'a> Step<'a> {
    /// N: its variable becomes a number, with label 0 as its own.
    pub fn constant<O: Order>(
        &self,
        order: &O,
        variables: &mut Variables,
        tables: &mut Tables,
        number: i32,
    )
        ensures { working variables.new tables.new ≡ with_result_of (O.Order.levels order.now) self.now (plain (labelled (Number number) 0)) (working variables.old tables.old) }
    {
        let made = Made::Plain(Labelled {
            value: Value::Number(number),
            label: 0,
        });
        self.give(order, variables, tables, made);
    }

    /// T: its variable becomes the running object's name, with label 0 as its own.
    pub fn itself<O: Order>(&self, order: &O, variables: &mut Variables, tables: &mut Tables)
        ensures { working variables.new tables.new ≡ with_result_of (O.Order.levels order.now) self.now (plain (labelled (ObjectName self.now.frame.this) 0)) (working variables.old tables.old) }
    {
        let made = Made::Plain(Labelled {
            value: Value::ObjectName(self.frame.this),
            label: 0,
        });
        self.give(order, variables, tables, made);
    }

    /// C: its variable becomes a copy of `from`.
    pub fn copy<O: Order>(
        &self,
        order: &O,
        variables: &mut Variables,
        tables: &mut Tables,
        from: Variable,
    )
        ensures { working variables.new tables.new ≡ with_result_of (O.Order.levels order.now) self.now (plain (read (working variables.old tables.old) from)) (working variables.old tables.old) }
    {
        let made = Made::Plain(variables.read(from));
        self.give(order, variables, tables, made);
    }
}
