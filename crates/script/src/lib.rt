//! Script texts: what a loaded program is, and the way from a text's bytes to it or to its first fault.
//!
//! A text goes through three layers, each with a fault type of its own: `reader` (bytes: the names line, a row's form, letter and numbers),
//! `row` (rows: sequence, limits, ranges) and `body` (bodies: branches, R, an empty body). `draft` puts together what the rows say, and
//! `loading` goes the whole way. `reader` is public, since other texts spell their numbers in the same way.
#![tactic(auto)]

mod body;
pub mod class;
mod draft;
pub mod fault;
mod heading;
mod loading;
pub mod program;
pub mod reader;
mod row;
mod show;

pub use loading::load;
