//! A table of cases, cut at its lines.
ghost use Rattle.std.specs.Prelude.{◌≡◌, ◌<◌, ◌≤◌, length, IfOk, Some, None, MatchResult};
ghost use Rattle.script_cases.specs.Lines.{to_feed, line_of, after_line, ending_of, text_length, text_parted};

use anyhow::{Context, bail};
use std::alloc::Global;

/// The byte that ends a line.
const LINE_FEED: u8 = b'\n';

/// A case: its name, and the text to load.
#[derive(Clone, Copy)]
pub struct Case<'a> {
    pub name: &'a [u8],
    pub text: &'a [u8],
}

/// The bytes at the front of others, and those that are left after them.
#[derive(Clone, Copy)]
struct Cut<'a> {
    front: &'a [u8],
    rest: &'a [u8],
}

/// How a text ends: whole, or short of its last line feed.
#[derive(Clone, Copy)]
enum Ending {
    Whole,
    Short,
}

impl Ending {
    /// How many bytes the text has, of those before its ending.
    fn text_length(self, before: usize) -> usize
        ensures value { result ≡ text_length self before }
        ensures within { result ≤ before }
    {
        match self {
            Ending::Whole => before,
            Ending::Short => before.saturating_sub(1),
        }
    }
}

/// How many bytes stand before the first line feed; all of them where there is none.
fn line_length(bytes: &[u8]) -> usize
    ensures value { result ≡ to_feed bytes.now }
    ensures within { result ≤ length bytes.now }
{
    bytes.iter().take_while(|b| **b != LINE_FEED).count()
}

/// The first line without its line feed, and what stands after that.
fn cut_line(bytes: &[u8]) -> Cut<'_>
    requires { 0 < length bytes.now }
    ensures front { result.front.now ≡ line_of bytes.now }
    ensures rest { result.rest.now ≡ after_line bytes.now }
    ensures shorter { length result.rest.now < length bytes.now }
{
    let length = line_length(bytes);
    Cut {
        front: &bytes[..length],
        rest: bytes.get(length + 1..).unwrap_or(&[]),
    }
}

/// The ending that a line says, if it says one.
fn read_ending(line: &[u8]) -> Option<Ending>
    ensures { result ≡ ending_of line.now }
{
    match line {
        b"end" => Some(Ending::Whole),
        b"cut" => Some(Ending::Short),
        _ => None,
    }
}

/// The text at the front of the lines, and what stands after the line `end` or `cut` that ends it.
fn cut_text(lines: &[u8]) -> anyhow::Result<Cut<'_>>
    ensures cases { MatchResult result (λ c. text_parted lines.now ≡ Some (c.front.now, c.rest.now)) (λ _. text_parted lines.now ≡ None) }
    ensures shorter { IfOk result (λ c. length c.rest.now ≤ length lines.now) }
{
    let mut rest = lines;
    // Over a slice that shrinks: how far it came is what the text's length is counted by.
    while !rest.is_empty() {
        let line = cut_line(rest);
        if let Some(ending) = read_ending(line.front) {
            let before = lines.len() - rest.len();
            return Ok(Cut {
                front: &lines[..ending.text_length(before)],
                rest: line.rest,
            });
        }
        rest = line.rest;
    }
    bail!("a case of the table has no end")
}

/// The cases of a table.
pub fn cases(heap: Global, table: &[u8]) -> anyhow::Result<Vec<Case<'_>>> {
    let mut cases = Vec::new(heap);
    let mut rest = table;
    // Over a slice that shrinks: a case has as many lines as its text, which is known only once it is cut off.
    while !rest.is_empty() {
        let head = cut_line(rest);
        let name = head
            .front
            .strip_prefix(b"case ")
            .context("a line of the table stands in no case")?;
        let body = cut_text(head.rest)?;
        cases.push(Case {
            name,
            text: body.front,
        })?;
        rest = body.rest;
    }
    Ok(cases)
}
