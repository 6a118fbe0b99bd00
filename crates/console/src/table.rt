//! The whole table that is put out, as one text: the line of names, and a row for each call or a row 0.
ghost use Rattle.std.specs.Prelude.{◌≡◌, ◌++◌, IfOk, OnOk, string_bytes};
ghost use Rattle.console.specs.Outputs.{row_text};
ghost use Rattle.console.specs.Tables.{row_for, left_by, answers_text, too_long_text, fault_table_text};

use crate::output::OutputRow;
use rules::calls::Answer;
use script::fault::BodyFault;
use std::alloc::{AllocError, Global};
use std::fmt::Write;

/// The line that names the columns, which is put out first.
const NAMES: &str = "call r k p q s t u\n";

/// The row of the first call row, which could be read or not, and the answers that are left for the others.
fn first_row(readable: bool, answers: &[Answer]) -> (OutputRow, &[Answer])
    ensures row { result.0 ≡ row_for readable answers.now }
    ensures rest { result.1.now ≡ left_by readable answers.now }
{
    match answers.split_first() {
        Some((answer, others)) if readable => (OutputRow::from(*answer), others),
        _ => (OutputRow::unreadable(), answers),
    }
}

/// Adds the line of a row, with the number of its call in front.
fn put_row(table: &mut String, call: usize, row: OutputRow) -> Result<(), AllocError>
    ensures { OnOk result (string_bytes table.new ≡ string_bytes table.old ++ row_text call row) }
{
    writeln!(table, "{call} {row}")
}

/// The table of some call rows: each that could be read has the next of the answers, and each other one has 9.
pub fn answers_table(
    heap: Global,
    readable: &[bool],
    answers: &[Answer],
) -> Result<String, AllocError>
    ensures { IfOk result (λ t. string_bytes t ≡ answers_text readable.now answers.now) }
{
    let mut table = String::from_str(heap, NAMES)?;
    let mut rest = answers;
    // A `for`: a row takes an answer only where it could be read, so what is left of the answers goes on from turn to turn.
    for (i, known) in readable.iter().enumerate() {
        let (row, others) = first_row(*known, rest);
        put_row(&mut table, i + 1, row)?;
        rest = others;
    }
    Ok(table)
}

/// The table of an input that is too long: row 0 with 9.
pub fn too_long_table(heap: Global) -> Result<String, AllocError>
    ensures { IfOk result (λ t. string_bytes t ≡ too_long_text) }
{
    let mut table = String::from_str(heap, NAMES)?;
    put_row(&mut table, 0, OutputRow::unreadable())?;
    Ok(table)
}

/// The table of a text that does not load: row 0 with 7, and the line, the cause and the layer of the fault.
pub fn fault_table(heap: Global, fault: &BodyFault) -> Result<String, AllocError>
    ensures { IfOk result (λ t. string_bytes t ≡ fault_table_text fault.now) }
{
    let (line, cause, layer) = (fault.line(), fault.cause(), fault.layer());
    format!(in heap; "{NAMES}0 7 0 {line} {cause} {layer} 0 0\n")
}
