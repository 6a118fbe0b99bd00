//! New marks and their notes.
ghost use Rattle.std.specs.Prelude.{◌≡◌};
ghost use Rattle.rules.specs.Values.{given};
ghost use Rattle.rules.specs.Tables.{filed};
ghost use Rattle.store.specs.States.{notes_of, SameButNotes};
ghost use Rattle.wrapper.specs.Marks.{made_of, place_of};

use order::{Level, Order};
use rules::tables::{Layer, Note};
use rules::values::{Labelled, Mark, Value};
use store::tables::Tables;

/// Who is at work when a mark is made: a class, a method, and a statement from 1, or 0 by post.
#[derive(Clone, Copy, Debug, PartialEq, Eq)]
pub struct Place {
    pub class: u8,
    pub method: u8,
    pub statement: u8,
}

/// What a statement or a wrapper gives.
// No `Result`: a fresh mark is no failure; it goes into its variable as any value does, and the rules name the two so.
#[derive(Clone, Copy, Debug, PartialEq, Eq)]
pub enum Made {
    /// A value as it is.
    Plain(Labelled),
    /// A new mark, which leaves a note.
    Fresh {
        mark: Mark,
        layer: Layer,
        label: Level,
    },
}

/// The value that was made. The note of a new mark goes into the line of the mark's own label joined with the context; a full line loses it.
pub fn settle<O: Order>(
    order: &O,
    tables: &mut Tables,
    context: Level,
    place: Place,
    made: Made,
) -> Labelled
    ensures value { result ≡ given (made_of made) }
    ensures notes { notes_of tables.new ≡ filed (O.Order.levels order.now).join context (place_of place) (made_of made) (notes_of tables.old) }
    ensures same { SameButNotes tables.old tables.new }
{
    match made {
        Made::Plain(value) => value,
        Made::Fresh { mark, layer, label } => {
            let line = order.join(label, context);
            // Field by field: a note is the rules' own type, and a place is the wrapper's.
            let note = Note {
                cause: mark,
                layer,
                class: place.class,
                method: place.method,
                statement: place.statement,
            };
            let _ = tables.notes.add(usize::from(line), note);
            Labelled {
                value: Value::Marked(mark),
                label,
            }
        }
    }
}
