//! The whole way from a text's bytes to a program or to its first fault.
ghost use Rattle.std.specs.Prelude.{◌≡◌, Ok, Err, MatchResult};
ghost use Rattle.script.specs.declared.fault.ByteFault.TheVariants.{Names};
ghost use Rattle.script.specs.declared.fault.RowFault.TheVariants.{Bytes};
ghost use Rattle.script.specs.Bytes.{got, bad, names, bytes_at};
ghost use Rattle.script.specs.Readers.{left, Ended};
ghost use Rattle.script.specs.Classes.{classes_of};
ghost use Rattle.script.specs.Reading.{entry_from, row_from, reading};
ghost use Rattle.script.specs.Drafts.{draft_of, Does, Gives};
ghost use Rattle.script.specs.Programs.{program_of};
ghost use Rattle.script.specs.Laws.{ReadsExactly, OneText, NestsFourDeep};

use crate::class::Class;
use crate::draft::Draft;
use crate::fault::{LoadError, RowFault};
use crate::program::Program;
use crate::reader::Reader;
use crate::row::{Entry, Place};
use order::Order;
use std::alloc::Global;

/// A reader of the text, past the names line.
fn open(text: &[u8]) -> Result<Reader<'_>, RowFault>
    ensures { MatchResult result (λ s. (bytes_at names text.now ≡ got tt (left s)) × (s.line ≡ 2)) (λ e. (bytes_at names text.now ≡ bad) × (e ≡ Bytes (Names 1))) }
{
    let mut reader = Reader::new(text);
    reader.names_line()?;
    Ok(reader)
}

/// What the next line says at its place.
fn next_entry(reader: &mut Reader<'_>, levels: u8, place: Place) -> Result<Entry, RowFault>
    ensures reads { MatchResult result (λ x. entry_from levels reader.old.line place (left reader.old) ≡ Ok (x, left reader.new)) (λ f. entry_from levels reader.old.line place (left reader.old) ≡ Err f) }
    ensures ended { Ended result reader.old reader.new }
{
    let line = reader.line();
    let row = reader.row()?;
    place.entry(levels, line, &row)
}

/// Reads the next line, and takes in what it says.
fn read_row(reader: &mut Reader<'_>, levels: u8, draft: &mut Draft) -> Result<(), LoadError>
    ensures reads { Does result (row_from levels reader.old.line (draft_of draft.old) (left reader.old)) (draft_of draft.new, left reader.new) }
    ensures ended { Ended result reader.old reader.new }
{
    let line = reader.line();
    let said = next_entry(reader, levels, draft.place())?;
    draft.take_in(line, said)
}

/// The classes that a text is read as under a count of levels.
fn read(heap: Global, levels: u8, text: &[u8]) -> Result<Vec<Class>, LoadError>
    ensures { Gives (λ v. classes_of v.items) result (reading levels text.now) }
{
    let mut reader = open(text)?;
    let mut draft = Draft::new(heap);
    // Row by row: each moves the reader, grows the draft and may end it all by `?`, which no closure could tell of.
    while !reader.is_at_end() {
        read_row(&mut reader, levels, &mut draft)?;
    }
    draft.finish()
}

/// The classes that a text is read as under an order.
fn read_under<O: Order>(heap: Global, order: &O, text: &[u8]) -> Result<Vec<Class>, LoadError>
    ensures { Gives (λ v. classes_of v.items) result (reading (O.Order.levels order.now).count text.now) }
{
    read(heap, order.count(), text)
}

/// Loads a script text under an order of levels: the program that it is read as, or its first fault, or want of memory.
///
/// Besides, for the order's count of levels: a text is read as a program exactly when it is the text of a well-formed program's rows, and the
/// program is that one; two texts that are read as the same program are the same text; and every statement of a text that is read as a
/// program stands in at most four branches.
pub fn load<O: Order>(heap: Global, order: &O, text: &[u8]) -> Result<Program, LoadError>
    ensures reads { Gives program_of result (reading (O.Order.levels order.now).count text.now) }
    ensures exactly { ReadsExactly (O.Order.levels order.now).count }
    ensures once { OneText (O.Order.levels order.now).count }
    ensures depth { NestsFourDeep (O.Order.levels order.now).count }
{
    let classes = read_under(heap, order, text)?;
    Ok(Program { classes })
}
