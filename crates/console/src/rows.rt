//! One call row, read as a whole.
ghost use Rattle.std.specs.Prelude.{◌≡◌, IfOk};
ghost use Rattle.console.specs.Requests.{row_request, line_request};
ghost use Rattle.console.specs.Rows.{called, GivesWhole};

use crate::reader::{RowError, request};
use rules::calls::Request;
use script::reader::Reader;
use std::alloc::{AllocError, Global};

/// The request of a row, of which nothing may be left.
fn whole_request(heap: Global, row: &[u8]) -> Result<Request, RowError>
    ensures { GivesWhole result (row_request row.now) }
{
    let mut reader = Reader::new(row);
    let request = request(heap, &mut reader)?;
    if !reader.is_at_end() {
        return Err(RowError::Unreadable);
    }
    Ok(request)
}

/// The request that a line says, if it says one; or want of memory. A line without its line feed says none.
pub fn read_row(heap: Global, line: &[u8]) -> Result<Option<Request>, AllocError>
    ensures { IfOk result (λ x. called x ≡ line_request line.now) }
{
    let Some(row) = line.strip_suffix(b"\n") else {
        return Ok(None);
    };
    // By a match: a row that cannot be read is an answer, and only want of memory goes up.
    match whole_request(heap, row) {
        Ok(request) => Ok(Some(request)),
        Err(RowError::Unreadable) => Ok(None),
        Err(RowError::Memory) => Err(AllocError),
    }
}
