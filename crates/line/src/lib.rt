//! A line: a bounded container, over lent slots, for everything that waits or is kept in order. docs/lines.md tells of it.
#![tactic(auto)]

mod element;
mod laws;
mod slots;
mod table;

pub use element::Element;
pub use laws::order_is_kept;
pub use slots::{add, look, replace, take};
pub use table::{add_at, count_at, entry_at, look_at, replace_at, take_at};

#[cfg(test)]
mod tests;
