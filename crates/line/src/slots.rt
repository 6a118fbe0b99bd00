ghost use Rattle.std.specs.Prelude.{◌≡◌, ◌<◌, true, [], ◌∷◌, ◌++◌, length, IfSome, is_ok, is_some, MatchResult, nat_lt, slice_index_or, slice_set};
ghost use Rattle.std.specs.List.{prefix_len, remove};
ghost use Rattle.line.specs.Slots.{elements, compact, nth, oldest};

use crate::element::Element;

// The slots are lent, so `compact` is asked and ensured: who owns them keeps it.

/// How many slots stand in front of the first free one.
fn taken<E: Copy>(slots: &[Option<E>]) -> usize
    ensures { result ≡ prefix_len is_some slots.now }
{
    slots.iter().take_while(|slot| slot.is_some()).count()
}

/// How many elements wait.
#[tactic(auto, using(crate::proofs::Lines::count_elements))]
pub fn count<E: Copy>(slots: &[Option<E>]) -> usize
    ensures { result ≡ length (elements slots.now) }
{
    taken(slots)
}

/// The element at the place, if there is one.
#[tactic(auto, using(crate::proofs::Places::slot_nth, crate::proofs::Places::slot_past))]
pub fn at_place<E: Copy>(slots: &[Option<E>], place: usize) -> Option<E>
    requires { compact slots.now ≡ true }
    ensures { result ≡ nth (elements slots.now) place }
{
    *slots.get(place)?
}

/// Finds the oldest element with the key, and answers its place and the element. The line stays as it is.
pub fn look<E: Element + Copy>(slots: &[Option<E>], key: E::Key) -> Option<(usize, E)>
    ensures found { result ≡ oldest (λ e. E.same (E.key_of e) key) (elements slots.now) }
    ensures within { IfSome result (λ f. f.0 < length (elements slots.now)) }
    ensures holds { IfSome result (λ f. (d : E) → slice_index_or (elements slots.now) f.0 d ≡ f.1) }
{
    // A loop, which ends at a free slot by `?`: the proof of a chain (`map_while`, `enumerate`, `find`) did not close.
    for (i, slot) in slots.iter().enumerate() {
        let e = (*slot)?;
        if e.key() == key {
            return Some((i, e));
        }
    }
    None
}

/// Puts the element last, and answers its place. It is refused exactly when all slots are taken: then it is given
/// back, and the slots are as they stood.
#[tactic(auto, using(crate::proofs::Lines::add_elements, crate::proofs::Lines::add_compact))]
pub fn add<E: Copy>(slots: &mut [Option<E>], e: E) -> Result<usize, E>
    requires { compact slots.old ≡ true }
    ensures accepts { is_ok result ≡ nat_lt (length (elements slots.old)) (length slots.old) }
    ensures cases { MatchResult result (λ place. (place ≡ length (elements slots.old)) × (elements slots.new ≡ elements slots.old ++ e ∷ [])) (λ y. (y ≡ e) × (slots.new ≡ slots.old)) }
    ensures compact { compact slots.new ≡ true }
{
    let next = count(slots);
    // By a test, and not by `get_mut`: the library says nothing of what a slice ends as after that, so the proof did not close.
    if next < slots.len() {
        slots[next] = Some(e);
        Ok(next)
    } else {
        Err(e)
    }
}

/// Puts the element in the place of the one that stands there.
#[tactic(auto, using(crate::proofs::Lines::count_within, crate::proofs::Lines::replace_elements, crate::proofs::Lines::replace_compact))]
pub fn replace<E: Copy>(slots: &mut [Option<E>], place: usize, e: E)
    requires within { place < length (elements slots.old) }
    requires compact { compact slots.old ≡ true }
    ensures elements { elements slots.new ≡ slice_set (elements slots.old) place e }
    ensures compact { compact slots.new ≡ true }
{
    slots[place] = Some(e);
}

/// Removes the element at the place, and answers it. The later ones move up, and the last slot is free again.
#[tactic(auto, using(crate::proofs::Lines::count_within))]
pub fn take<E: Copy>(slots: &mut [Option<E>], place: usize) -> E
    requires within { place < length (elements slots.old) }
    requires compact { compact slots.old ≡ true }
    ensures taken { result ≡ slice_index_or (elements slots.old) place result }
    ensures elements { elements slots.new ≡ remove (elements slots.old) place }
    ensures compact { compact slots.new ≡ true }
{
    let taken = slots[place].take();
    slots[place..].rotate_left(1);
    taken.unwrap()
}
