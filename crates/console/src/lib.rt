//! The rows of the bench program: its input taken apart, its call rows read, and its output rows made.
//!
//! `docs/bench-rows.md` has the formats in words. `parts` takes an input apart, `calls` reads the call rows, and `table` makes the text that is
//! put out. The definitions that the contracts cite are tried out on examples by `cases_come_out`.
#![tactic(auto)]

ghost use Rattle.console.specs.Cases.{Readable, Unreadable, ListsOfRows, Parted, PutOut, WholeTables};

pub mod calls;
mod output;
pub mod parts;
mod reader;
mod rows;
pub mod table;

/// What the definitions say of some rows, inputs and answers, worked out.
pub fn cases_come_out() -> u8
    ensures readable { Readable }
    ensures unreadable { Unreadable }
    ensures lists { ListsOfRows }
    ensures parted { Parted }
    ensures put_out { PutOut }
    ensures tables { WholeTables }
{
    0
}
