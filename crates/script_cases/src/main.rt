//! Loads each text of a table of cases with the ladder, and prints what became of it, one line for each case.
//!
//! The table comes from standard input. A case is a line `case NAME`, the lines of its text, and a line `end`; or a line `cut` in place of
//! `end`, and then the text lacks its last line feed.
#![tactic(auto)]

mod table;
mod verdict;

use order::Ladder;
use std::alloc::Global;
use std::io;
use std::io::Read;
use table::Case;
use verdict::Verdict;

/// The bytes of standard input.
fn input(rt: &HostRuntime) -> io::Result<Vec<u8>> {
    let mut bytes = Vec::new(rt.alloc());
    rt.stdin().read_to_end(&mut bytes)?;
    Ok(bytes)
}

/// What became of a case's text.
fn judge(heap: Global, case: &Case<'_>) -> Verdict {
    Verdict::from(&script::load(heap, &Ladder {}, case.text))
}

/// Prints a line for each case of the table.
fn run(rt: &HostRuntime) -> anyhow::Result<()> {
    let heap = rt.alloc();
    let bytes = input(rt)?;
    for case in table::cases(heap, &bytes)? {
        let name = std::str::from_utf8(case.name)?;
        let verdict = judge(heap, &case);
        println!(rt; "{name}: {verdict}")?;
    }
    Ok(())
}

fn main(rt: HostRuntime) -> anyhow::Result<()> {
    run(&rt)
}
