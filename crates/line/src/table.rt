// The slots are lent, and the type that owns them keeps `packed`: so these are functions of a table, its room and a level, and no methods.
ghost use Rattle.std.specs.Prelude.{◌≡◌, ◌<◌, true, [], ◌∷◌, ◌++◌, length, IfSome, is_ok, MatchResult, OnSome, nat_lt, slice_index_or, slice_set};
ghost use Rattle.std.specs.List.{remove};
ghost use Rattle.line.specs.Slots.{elements, nth, oldest};
ghost use Rattle.line.specs.Tables.{HasLevel, OthersStay, packed, part};

use crate::element::Element;
use crate::slots::{add, at_place, count, look, replace, take};

/// How many elements wait in the level's line.
pub fn count_at<E: Copy>(table: &[Option<E>], room: usize, level: usize) -> usize
    requires { HasLevel room level table.now }
    ensures { result ≡ length (elements (part room level table.now)) }
{
    count(&table[level * room..level * room + room])
}

/// The element at the place in the level's line, if there is one. Any place may be asked for.
#[tactic(auto, using(crate::proofs::Parts::packed_at))]
pub fn entry_at<E: Copy>(table: &[Option<E>], room: usize, level: usize, place: usize) -> Option<E>
    requires level { HasLevel room level table.now }
    requires packed { packed room table.now ≡ true }
    ensures found { result ≡ nth (elements (part room level table.now)) place }
    ensures within { OnSome result (place < length (elements (part room level table.now))) }
{
    at_place(&table[level * room..level * room + room], place)
}

/// Finds the oldest element with the key in the level's line, and answers its place there and the element.
pub fn look_at<E: Element + Copy>(
    table: &[Option<E>],
    room: usize,
    level: usize,
    key: E::Key,
) -> Option<(usize, E)>
    requires { HasLevel room level table.now }
    ensures found { result ≡ oldest (λ e. E.same (E.key_of e) key) (elements (part room level table.now)) }
    ensures within { IfSome result (λ f. f.0 < length (elements (part room level table.now))) }
    ensures holds { IfSome result (λ f. (d : E) → slice_index_or (elements (part room level table.now)) f.0 d ≡ f.1) }
{
    look(&table[level * room..level * room + room], key)
}

/// Puts the element last in the level's line, and answers its place there. It is refused exactly when `room` elements
/// wait there already: then it is given back, and the table is as it stood. Every other level's line stays as it was.
#[tactic(auto, using(crate::proofs::Parts::packed_at))]
pub fn add_at<E: Copy>(table: &mut [Option<E>], room: usize, level: usize, e: E) -> Result<usize, E>
    requires level { HasLevel room level table.old }
    requires packed { packed room table.old ≡ true }
    ensures accepts { is_ok result ≡ nat_lt (length (elements (part room level table.old))) room }
    ensures cases { MatchResult result (λ place. (place ≡ length (elements (part room level table.old))) × (elements (part room level table.new) ≡ elements (part room level table.old) ++ e ∷ [])) (λ y. (y ≡ e) × (table.new ≡ table.old)) }
    ensures others { OthersStay room level table.old table.new }
    ensures packed { packed room table.new ≡ true }
{
    add(&mut table[level * room..level * room + room], e)
}

/// Puts the element in the place of the one that stands there in the level's line. Every other level's line stays
/// as it was.
#[tactic(auto, using(crate::proofs::Parts::packed_at))]
pub fn replace_at<E: Copy>(table: &mut [Option<E>], room: usize, level: usize, place: usize, e: E)
    requires level { HasLevel room level table.old }
    requires within { place < length (elements (part room level table.old)) }
    requires packed { packed room table.old ≡ true }
    ensures elements { elements (part room level table.new) ≡ slice_set (elements (part room level table.old)) place e }
    ensures others { OthersStay room level table.old table.new }
    ensures packed { packed room table.new ≡ true }
{
    replace(&mut table[level * room..level * room + room], place, e);
}

/// Removes the element at the place in the level's line, and answers it. The later ones of the level move up, and
/// every other level's line stays as it was.
#[tactic(auto, using(crate::proofs::Parts::packed_at))]
pub fn take_at<E: Copy>(table: &mut [Option<E>], room: usize, level: usize, place: usize) -> E
    requires level { HasLevel room level table.old }
    requires within { place < length (elements (part room level table.old)) }
    requires packed { packed room table.old ≡ true }
    ensures taken { result ≡ slice_index_or (elements (part room level table.old)) place result }
    ensures elements { elements (part room level table.new) ≡ remove (elements (part room level table.old)) place }
    ensures others { OthersStay room level table.old table.new }
    ensures packed { packed room table.new ≡ true }
{
    take(&mut table[level * room..level * room + room], place)
}
