//! The wrapper of objects: which calls it admits, what becomes of their arguments, and how objects are made, over the tables in memory.
//!
//! `classes` looks up what a program declares, `floors` joins the labels of fields with an object's home, `noting` files the notes of new marks, `making` makes objects, `admitting` judges calls, and
//! `sending` puts an admitted call in line. Each function is tied by an equation to the rules.
#![tactic(auto)]

pub mod admitting;
pub mod classes;
pub mod floors;
pub mod making;
pub mod noting;
pub mod sending;
