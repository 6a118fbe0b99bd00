//! The bench: reads a script text and call rows from standard input, serves the calls on the ladder of four levels, and prints a table of
//! the answers.
#![tactic(auto)]

ghost use Rattle.std.specs.Prelude.{◌≡◌, IfOk, string_bytes};
ghost use Rattle.bench.specs.Printed.{printed};

use anyhow::anyhow;
use console::calls::Calls;
use console::parts::{MOST_BYTES, is_too_long, split};
use console::table::{answers_table, fault_table, too_long_table};
use host::serve;
use order::Ladder;
use script::fault::LoadError;
use std::alloc::{AllocError, Global};
use std::io::Read;

/// Standard input, up to the first byte past the most that are served.
fn read_input(rt: &HostRuntime) -> anyhow::Result<Vec<u8>> {
    let mut input = Vec::new(rt.alloc());
    rt.stdin()
        // `as`: a `usize` has no `From` into a `u64`.
        .take(MOST_BYTES as u64 + 1)
        .read_to_end(&mut input)
        .map_err(|_| anyhow!("standard input cannot be read"))?;
    Ok(input)
}

/// The table that is printed for an input, or want of memory.
fn table_of(heap: Global, input: &[u8]) -> Result<String, AllocError>
    ensures { IfOk result (λ t. string_bytes t ≡ printed input.now) }
{
    if is_too_long(input) {
        return too_long_table(heap);
    }
    let parts = split(input);
    let calls = Calls::read(heap, parts.rows)?;
    // By a match: a text that does not load has a table too, and only want of memory goes up.
    match serve(heap, &Ladder {}, parts.text, calls.requests.as_slice()) {
        Ok(served) => answers_table(heap, calls.readable.as_slice(), served.answers.as_slice()),
        Err(LoadError::Fault(fault)) => fault_table(heap, &fault),
        Err(LoadError::Memory) => Err(AllocError),
    }
}

/// Prints the table for what stands on standard input.
fn run(rt: &HostRuntime) -> anyhow::Result<()> {
    let input = read_input(rt)?;
    let table = table_of(rt.alloc(), input.as_slice())?;
    rt.print(table.as_str())?;
    Ok(())
}

fn main(rt: HostRuntime) -> anyhow::Result<()> {
    run(&rt)
}
