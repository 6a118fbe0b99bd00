//! The two parts of the input: a script text, and the call rows after the first empty line.
ghost use Rattle.std.specs.Prelude.{◌≡◌, false, length, nat_lt};
ghost use Rattle.console.specs.Parts.{most_bytes, text_on, text_part, rows_on, rows_part};

/// How many bytes an input may have.
pub const MOST_BYTES: usize = 60_000;

/// The parts of an input that is lent.
#[derive(Drop)]
pub struct Parts<'a> {
    /// The text, with the line feed of its last line.
    pub text: &'a [u8],
    /// What follows the empty line.
    pub rows: &'a [u8],
}

/// Whether an input is too long to be served.
pub fn is_too_long(input: &[u8]) -> bool
    ensures { result ≡ nat_lt most_bytes (length input.now) }
{
    input.len() > MOST_BYTES
}

/// Takes an input apart at its first line of no bytes. Without one, all of it is text.
#[tactic(auto, using(crate::proofs::Parting::same_text, crate::proofs::Parting::same_rows))]
pub fn split(input: &[u8]) -> Parts<'_>
    ensures text { result.text.now ≡ text_part input.now }
    ensures rows { result.rows.now ≡ rows_part input.now }
{
    match input.strip_prefix(b"\n") {
        Some(rows) => Parts { text: &[], rows },
        None => split_later(input),
    }
}

/// The same at the first line of no bytes that other lines stand before.
fn split_later(input: &[u8]) -> Parts<'_>
    ensures text { result.text.now ≡ text_on false input.now }
    ensures rows { result.rows.now ≡ rows_on false input.now }
{
    let ends = input
        .windows(2)
        .position(|pair| matches!(pair, [b'\n', b'\n']));
    match ends {
        Some(i) => Parts {
            text: &input[..=i],
            rows: &input[i + 2..],
        },
        None => Parts {
            text: input,
            rows: &[],
        },
    }
}
