//! The statements of a turn, carried out on the tables in memory.
//!
//! `variables` holds what a turn reads and assigns, and `frame` what stays the same through it, and a statement at work. `giving` puts a
//! result into its variable, with its label and its note, and `passing` has the values of a call. `plain`, `operating`, `branching`, `invoking`, `getting` and `creating` carry out the kinds of statements, each tied
//! by an equation to the rules; `carrying` tells the kinds apart. `turn` takes a whole turn.
#![tactic(auto)]

pub mod branching;
pub mod carrying;
pub mod creating;
pub mod frame;
pub mod getting;
pub mod giving;
pub mod invoking;
pub mod operating;
pub mod passing;
pub mod plain;
pub mod turn;
pub mod variables;
