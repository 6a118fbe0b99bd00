//! All the call rows of an input: the requests that they say, and which of them say one.
ghost use Rattle.std.specs.Prelude.{[], IfOk, OnOk};
ghost use Rattle.console.specs.Requests.{rows};
ghost use Rattle.console.specs.Laws.{RowsExactly};
ghost use Rattle.console.specs.Rows.{called, Sorted, Grown};

use crate::rows::read_row;
use rules::calls::Request;
use std::alloc::{AllocError, Global};

/// Call rows, with the requests apart, so that these can be handed on as one list.
// Two lists: serving borrows the requests as one slice, and each owns its arguments, so none can stand in a row of its own.
#[derive(Drop)]
pub struct Calls {
    /// What the readable rows ask, in their order.
    pub requests: Vec<Request>,
    /// For each row, whether it could be read.
    pub readable: Vec<bool>,
}

impl Calls {
    /// No rows.
    fn new(heap: Global) -> Calls
        ensures { Sorted result [] }
    {
        Calls {
            requests: Vec::new(heap),
            readable: Vec::new(heap),
        }
    }

    /// Adds a row after the others; or want of memory.
    fn add(&mut self, row: Option<Request>) -> Result<(), AllocError>
        ensures { OnOk result (Grown (called row) self.old self.new) }
    {
        self.readable.push(row.is_some())?;
        if let Some(request) = row {
            self.requests.push(request)?;
        }
        Ok(())
    }

    /// Reads all the call rows in some bytes; or want of memory.
    ///
    /// Besides, a row says a request exactly when it is the text of that request and all the request's numbers are of 32 bits.
    #[tactic(auto, using(crate::proofs::Sorting::taken_none))]
    pub fn read(heap: Global, bytes: &[u8]) -> Result<Calls, AllocError>
        ensures reads { IfOk result (λ calls. Sorted calls (rows bytes.now)) }
        ensures exactly { RowsExactly }
    {
        let mut calls = Calls::new(heap);
        for line in bytes.split_inclusive(|b| *b == b'\n') {
            calls.add(read_row(heap, line)?)?;
        }
        Ok(calls)
    }
}
