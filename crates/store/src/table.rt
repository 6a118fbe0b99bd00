//! A table of one kind of elements.
ghost use Rattle.std.specs.Prelude.{◌≡◌, ◌*◌, true, length};
ghost use Rattle.line.specs.Tables.{packed};

/// A line for each of eight levels, of at most `ROOM` elements each, all in `SLOTS` slots. No gap stands in front of an element.
// The slots lie in the table itself: serving a call allocates nothing.
#[derive(Drop)]
pub struct Table<E, const ROOM: usize, const SLOTS: usize> {
    pub(crate) slots: [Option<E>; SLOTS],
    ghost size: { length slots ≡ 8 * ROOM },
    ghost packed: { packed ROOM slots ≡ true },
}
