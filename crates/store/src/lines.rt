//! What is done to a table's lines.
ghost use Rattle.std.specs.Prelude.{◌≡◌, Bool, ◌*◌, ◌<◌, [], length, Some, None, if◌then◌else◌, is_ok, nat_lt, slice_set, MatchResult};
ghost use Rattle.std.specs.Option.{option_map};
ghost use Rattle.rules.specs.Lists.{update, added, nth, oldest, without};
ghost use Rattle.store.specs.Lines.{lines_of, found_of};

use crate::kept::Kept;
use crate::table::Table;
use line::{Element, add_at, count_at, entry_at, look_at, replace_at, take_at};
use order::{Level, Order};
use rules::values::Name;

// `level < 8` is asked, and no struct says it: who calls has a level of an order, whose law gives the fact; a struct would be made anew at each call.
impl<E: Kept, const ROOM: usize, const SLOTS: usize> Table<E, ROOM, SLOTS> {
    /// A table with nothing in it.
    pub(crate) fn new() -> Self
        requires { SLOTS ≡ 8 * ROOM }
        ensures { lines_of E.told result ≡ λ level. [] }
    {
        Table {
            slots: [None; SLOTS],
        }
    }

    /// How many elements stand at a level.
    #[tactic(auto, using(crate::proofs::Lining::length_lines))]
    pub fn count(&self, level: usize) -> usize
        requires { level < 8 }
        ensures { result ≡ length (lines_of E.told self.now level) }
    {
        count_at(&self.slots, ROOM, level)
    }

    /// The element at a place of a level, if one stands there. Any level and any place may be asked for.
    #[tactic(auto, using(crate::proofs::Lining::nth_lines, crate::proofs::Lining::nth_past))]
    pub fn get(&self, level: usize, place: usize) -> Option<E>
        ensures { option_map E.told result ≡ nth (lines_of E.told self.now level) place }
    {
        if level >= 8 {
            return None;
        }
        entry_at(&self.slots, ROOM, level, place)
    }

    /// The element of a name, if it was made and its home flows to a level.
    pub fn find<O: Order>(&self, order: &O, level: Level, name: Name) -> Option<E>
        ensures { option_map E.told result ≡ (if (O.Order.levels order.now).flow name.home level then nth (lines_of E.told self.now name.home) name.number else None) }
    {
        let home = order.flows(name.home, level).then_some(name.home)?;
        self.get(usize::from(home), usize::from(name.number))
    }

    /// Adds an element to a level's line, and answers its place. A full line stays as it is, and gives the element back.
    #[tactic(auto, using(crate::proofs::Lining::length_lines))]
    pub fn add(&mut self, level: usize, e: E) -> Result<usize, E>
        requires { level < 8 }
        ensures accepts { is_ok result ≡ nat_lt (length (lines_of E.told self.old level)) ROOM }
        ensures answers { MatchResult result (λ place. place ≡ length (lines_of E.told self.old level)) (λ back. back ≡ e) }
        ensures lines { lines_of E.told self.new ≡ update (lines_of E.told self.old) level (added ROOM (lines_of E.told self.old level) (E.told e)) }
    {
        add_at(&mut self.slots, ROOM, level, e)
    }

    /// The oldest element with a key in a level's line, and its place: what the rules find there by any test that what
    /// they have for an element passes exactly if the element has the key.
    #[tactic(auto, using(crate::proofs::Lining::oldest_lines))]
    pub fn oldest(&self, level: usize, key: E::Key) -> Option<(usize, E)>
    where
        E: Element,
        requires { level < 8 }
        ensures { (test : E.Told → Bool) → ((e : E) → E.same (E.key_of e) key ≡ test (E.told e)) → option_map (found_of E.told) result ≡ oldest test (lines_of E.told self.now level) }
    {
        look_at(&self.slots, ROOM, level, key)
    }

    /// Puts an element in the place of another. Nothing happens where none stands there.
    #[tactic(auto, using(crate::proofs::Lining::lines_put, crate::proofs::Lining::none_put))]
    pub fn put(&mut self, level: usize, place: usize, e: E)
        requires { level < 8 }
        ensures { lines_of E.told self.new ≡ update (lines_of E.told self.old) level (slice_set (lines_of E.told self.old level) place (E.told e)) }
    {
        if entry_at(&self.slots, ROOM, level, place).is_some() {
            replace_at(&mut self.slots, ROOM, level, place, e);
        }
    }

    /// Takes the element at a place out of a level's line, and gives it: one has to stand there.
    #[tactic(auto, using(crate::proofs::Lining::lines_taken, crate::proofs::Lining::taken_was, crate::proofs::Lining::length_lines))]
    pub fn remove(&mut self, level: usize, place: usize) -> E
        requires level { level < 8 }
        requires within { place < length (lines_of E.told self.old level) }
        ensures taken { Some (E.told result) ≡ nth (lines_of E.told self.old level) place }
        ensures lines { lines_of E.told self.new ≡ update (lines_of E.told self.old) level (without place (lines_of E.told self.old level)) }
    {
        take_at(&mut self.slots, ROOM, level, place)
    }

    /// Takes the element at a place out of a level's line, and gives it. Nothing happens where none stands there.
    #[tactic(auto, using(crate::proofs::Lining::lines_taken, crate::proofs::Lining::none_taken, crate::proofs::Lining::taken_was, crate::proofs::Lining::nth_lines, crate::proofs::Lining::within_lines))]
    pub fn take(&mut self, level: usize, place: usize) -> Option<E>
        requires { level < 8 }
        ensures taken { option_map E.told result ≡ nth (lines_of E.told self.old level) place }
        ensures lines { lines_of E.told self.new ≡ update (lines_of E.told self.old) level (without place (lines_of E.told self.old level)) }
    {
        entry_at(&self.slots, ROOM, level, place)?;
        Some(self.remove(level, place))
    }
}
