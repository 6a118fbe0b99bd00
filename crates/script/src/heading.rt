//! The head of a method that is being read.
ghost use Rattle.std.specs.Prelude.{◌≡◌, if◌then◌else◌, Ok, Err};
ghost use Rattle.script.specs.declared.fault.BodyFault.TheVariants.{Body};
ghost use Rattle.script.specs.Bodies.{stands};

use crate::body::is_body;
use crate::class::Statement;
use crate::fault::BodyFault;

/// The line and the parameters of a P row.
#[derive(Clone, Copy)]
pub struct Heading {
    pub line: usize,
    pub parameters: u8,
}

impl Heading {
    /// Checks that the statements under this heading are a body; if they are not, its line is blamed.
    pub fn check(&self, statements: &[Statement]) -> Result<(), BodyFault>
        ensures { result ≡ (if stands statements.now then Ok tt else Err (Body self.now.line)) }
    {
        if !is_body(statements) {
            return Err(BodyFault::Body { line: self.line });
        }
        Ok(())
    }
}
