//! The four tables: objects, futures, calls in line and notes.
ghost use Rattle.std.specs.Prelude.{◌≡◌, ◌<◌, slice_set};
ghost use Rattle.rules.specs.Lists.{update};
ghost use Rattle.rules.specs.Tables.{new};
ghost use Rattle.rules.specs.declared.tables.Future.TheVariants.{Holding};
ghost use Rattle.store.specs.States.{state_of, futures_of, SameButFutures};

use crate::table::Table;
use order::Level;
use rules::tables::{Call, Future, Note, Object};
use rules::values::Labelled;

/// What stands at each level: at most 8 objects, 32 futures, 16 calls in line and 16 notes.
#[derive(Drop)]
pub struct Tables {
    pub objects: Table<Object, 8, 64>,
    pub futures: Table<Future, 32, 256>,
    pub calls: Table<Call, 16, 128>,
    pub notes: Table<Note, 16, 128>,
}

impl Tables {
    /// Tables with nothing in them.
    pub fn new() -> Tables
        ensures { state_of result ≡ new }
    {
        Tables {
            objects: Table::new(),
            futures: Table::new(),
            calls: Table::new(),
            notes: Table::new(),
        }
    }

    /// A future of a level takes a value, if it was made.
    pub fn resolve(&mut self, level: Level, number: u8, value: Labelled)
        requires { level < 8 }
        ensures futures { futures_of self.new ≡ update (futures_of self.old) level (slice_set (futures_of self.old level) number (Holding value)) }
        ensures same { SameButFutures self.old self.new }
    {
        self.futures.put(
            usize::from(level),
            usize::from(number),
            Future::Holding(value),
        );
    }
}
