//! The lines of a text, to show the one that is blamed.
ghost use Rattle.std.specs.Prelude.{◌≡◌, ◌-◌};
ghost use Rattle.script_check.specs.Lines.{line_at};

/// The line with a number, from 1, without its line feed; no bytes where there is no such line.
pub fn numbered(text: &[u8], number: usize) -> &[u8]
    ensures { result.now ≡ line_at (number - 1) text.now }
{
    text.split(|b| *b == b'\n')
        .nth(number.saturating_sub(1))
        .unwrap_or(&[])
}
