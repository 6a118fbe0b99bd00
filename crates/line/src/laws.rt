ghost use Rattle.std.specs.Prelude.{ℕ, ◌<◌, List, length};
ghost use Rattle.line.specs.Laws.{FoundAsBefore, LeaveInOrder, OthersInOrder};

use crate::element::Element;

/// States the laws of lines: elements with one key leave in the order in which they came, an addition leaves what is
/// found under another key, and a removal leaves the order of the others. It does nothing.
pub fn order_is_kept<E: Element>()
    ensures in_order { LeaveInOrder E.key_of E.same }
    ensures as_before { FoundAsBefore E.key_of E.same }
    ensures others { (line : List E) (gone : ℕ) → gone < length line → OthersInOrder line gone }
{}
