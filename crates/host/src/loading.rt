//! A new host, and loading a script text into it.
ghost use Rattle.std.specs.Prelude.{◌≡◌, None};
ghost use Rattle.rules.specs.Tables.{new};
ghost use Rattle.host.specs.Hosts.{state_in, Loads, refusal_of, load_number};

use crate::host::Host;
use order::Order;
use script::fault::{BodyFault, LoadError};
use script::load;
use std::alloc::Global;
use store::tables::Tables;

/// Why a text was not loaded. Nothing is altered then.
#[derive(Clone, Copy, Debug)]
pub enum LoadRefusal {
    /// 8: a text is loaded already; this one was not looked at.
    AlreadyLoaded,
    /// 7: the text's first fault.
    Faulty(BodyFault),
    /// There is not enough memory. This says nothing about the text.
    Memory,
}

impl LoadRefusal {
    /// The number that the refusal returns; none for want of memory.
    // By a match: one variant carries a fault, and one has no number.
    pub fn number(self) -> Option<u8>
        ensures { result ≡ load_number self }
    {
        match self {
            LoadRefusal::AlreadyLoaded => Some(8),
            LoadRefusal::Faulty(_) => Some(7),
            LoadRefusal::Memory => None,
        }
    }
}

impl From<LoadError> for LoadRefusal {
    ghost from_gives = { λ e r. r ≡ refusal_of e };

    fn from(e: LoadError) -> LoadRefusal {
        match e {
            LoadError::Fault(fault) => LoadRefusal::Faulty(fault),
            LoadError::Memory => LoadRefusal::Memory,
        }
    }
}

impl Host {
    /// A host with nothing loaded and nothing in its tables. It serves all calls as one without classes.
    pub fn new() -> Host
        ensures program { result.program ≡ None }
        ensures tables { state_in result ≡ new }
    {
        Host {
            program: None,
            tables: Tables::new(),
        }
    }

    /// Loads a script text under an order, unless one is loaded already, which is looked at first.
    pub fn load<O: Order>(
        &mut self,
        heap: Global,
        order: &O,
        text: &[u8],
    ) -> Result<(), LoadRefusal>
        ensures { Loads (O.Order.levels order.now) text.now self.old result self.new }
    {
        if self.program.is_some() {
            return Err(LoadRefusal::AlreadyLoaded);
        }
        self.program = Some(load(heap, order, text)?);
        Ok(())
    }
}
