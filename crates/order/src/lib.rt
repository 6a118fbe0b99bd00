//! Orders of security levels: which level's data may flow to which, and at which level stands what was made from two.
#![tactic(auto)]

ghost use Rattle.std.specs.Prelude.{◌≡◌, ℕ, refl};
ghost use Rattle.order.specs.Levels.{Levels, Laws};
ghost use Rattle.order.specs.Supplied.{ladder, makers};
ghost use Rattle.order.specs.Joins.{Joins, within};
ghost use Rattle.order.specs.Tested.{laws_of};

/// The number of a level. The levels of an order are the numbers below its count.
pub type Level = u8;

/// An order of levels. It is a value that is asked by `&self`; it alters nothing and always answers.
///
/// What an order promises stands in its law, which every implementation proves: there are 1 to 8 levels; each flows to itself; two that
/// flow to each other are one; flows compose; level 0 flows to all; two levels flow to their join, and the join flows to every level that
/// both flow to. A number that is no level flows nowhere, and the join of any two numbers is a level.
pub trait Order {
    /// What the order says, as data.
    ghost levels: { Self → Levels };

    /// How many levels there are.
    fn count(&self) -> u8
        ensures { result ≡ (levels self.now).count };

    /// Whether what stands at `from` may go to `to`.
    fn flows(&self, from: Level, to: Level) -> bool
        ensures { result ≡ (levels self.now).flow from to };

    /// The level of what was made from both.
    fn join(&self, one: Level, other: Level) -> Level
        ensures { result ≡ (levels self.now).join one other };

    ghost lawful: { (s : Self) → Laws (levels s) };
}

/// How many levels the ladder has.
const RUNGS: Level = 4;

/// How many sets three makers have.
const SETS: Level = 8;

/// Four levels, one above the other: each flows to itself and to those above it, and the join is the larger.
#[derive(Clone, Copy)]
pub struct Ladder {}

impl Order for Ladder {
    ghost levels = { λ _. ladder };

    ghost lawful = { λ s. laws_of 4 _ _ refl };

    fn count(&self) -> u8 {
        RUNGS
    }

    fn flows(&self, from: Level, to: Level) -> bool {
        from < RUNGS && to < RUNGS && from <= to
    }

    fn join(&self, one: Level, other: Level) -> Level {
        if one < RUNGS && other < RUNGS {
            one.max(other)
        } else {
            0
        }
    }
}

/// The sets of three makers, A, B and C, as bits 0, 1 and 2: a set flows to each set that has all its makers, and the join is the union.
#[derive(Clone, Copy)]
pub struct Makers {}

impl Order for Makers {
    ghost levels = { λ _. makers };

    ghost lawful = { λ s. laws_of 8 _ _ refl };

    fn count(&self) -> u8 {
        SETS
    }

    fn flows(&self, from: Level, to: Level) -> bool {
        from < SETS && to < SETS && from & to == from
    }

    fn join(&self, one: Level, other: Level) -> Level {
        if one < SETS && other < SETS {
            one | other
        } else {
            0
        }
    }
}

/// The join of `one` and `other` if it may flow to `limit`.
///
/// It carries the theory of joins: in every order the join of two levels is their least bound, and it commutes, regroups, repeats and grows.
pub fn join_within<O: Order>(order: &O, one: Level, other: Level, limit: Level) -> Option<Level>
    ensures value { result ≡ within (O.levels order.now) one other limit }
    ensures theory { Joins (O.levels order.now) }
{
    let joined = order.join(one, other);
    order.flows(joined, limit).then_some(joined)
}
