//! A call that an object takes up for its turn.
ghost use Rattle.std.specs.Prelude.{◌<◌};

use order::Level;
use rules::tables::{Call, Object};
use rules::values::Name;

/// The call that a turn takes up: at which level, for the object of which name, that object, and the call with its place in line.
#[derive(Clone, Copy)]
pub struct Taken {
    pub level: Level,
    pub name: Name,
    pub object: Object,
    pub place: usize,
    pub call: Call,
    ghost level_within: { level < 8 },
    ghost home_within: { name.home < 8 },
}
