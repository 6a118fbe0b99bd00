//! Checks one script text from standard input on the ladder of four levels: prints its classes, or its first fault and what would be right.
#![tactic(auto)]

mod advice;
mod lines;
mod table;

use anyhow::{anyhow, ensure};
use order::Ladder;
use script::fault::{BodyFault, LoadError};
use script::load;
use std::alloc::{AllocError, Global};
use std::io::Read;

/// The most bytes that a text may have.
const LIMIT: usize = 60_000;

/// Standard input, up to the first byte past the limit.
// The bench reads its input so too, up to another limit: no crate below both reads, and one made for these four lines would be no plainer.
fn read_text(rt: &HostRuntime) -> anyhow::Result<Vec<u8>> {
    let mut text = Vec::new(rt.alloc());
    rt.stdin()
        // `as`: a `usize` has no `From` into a `u64`.
        .take(LIMIT as u64 + 1)
        .read_to_end(&mut text)
        .map_err(|_| anyhow!("standard input cannot be read"))?;
    Ok(text)
}

/// A line as text, with a dot for each byte that is no printable character of ASCII.
fn printable(heap: Global, line: &[u8]) -> Result<String, AllocError> {
    line.iter()
        .map(|b| match b {
            b' '..=b'~' => char::from(*b),
            _ => '.',
        })
        .collect(heap)
}

/// The byte after a row's second space, where its letter stands.
fn letter_of(line: &[u8]) -> Option<u8> {
    line.splitn(3, |b| *b == b' ').nth(2)?.first().copied()
}

/// Tells a fault: its line, cause and layer, the line itself, what is wrong and what would be right.
fn tell(rt: &HostRuntime, text: &[u8], fault: &BodyFault) -> anyhow::Result<()> {
    let number = fault.line();
    let cause = fault.cause();
    let layer = fault.layer();
    let line = lines::numbered(text, number);
    let shown = printable(rt.alloc(), line)?;
    let right = advice::advise(fault, letter_of(line));
    println!(rt; "does not load: line {number}, cause {cause}, layer {layer}")?;
    println!(rt; "  line:  {shown}")?;
    println!(rt; "  wrong: {fault}")?;
    println!(rt; "  right: {right}")?;
    Ok(())
}

/// Checks the text on standard input.
fn run(rt: &HostRuntime) -> anyhow::Result<()> {
    let text = read_text(rt)?;
    ensure!(
        text.len() <= LIMIT,
        "the text is longer than 60000 bytes, the most that is read"
    );
    // By a match: a program and a fault are both told, and only then does the fault go up.
    match load(rt.alloc(), &Ladder {}, &text) {
        Ok(program) => table::print_program(rt, &program),
        Err(LoadError::Fault(fault)) => {
            tell(rt, &text, &fault)?;
            Err(anyhow!("the text does not load"))
        }
        Err(LoadError::Memory) => Err(LoadError::Memory.into()),
    }
}

fn main(rt: HostRuntime) -> anyhow::Result<()> {
    run(&rt)
}
