//! The third layer: whether the statements of a method are a body.
ghost use Rattle.std.specs.Prelude.{◌≡◌, length};
ghost use Rattle.script.specs.Bodies.{is_return, nested, no_return, stands};

use crate::class::Statement;

impl Statement {
    /// Whether this is an R.
    pub fn is_return(&self) -> bool
        ensures { result ≡ is_return self.now }
    {
        matches!(self, Statement::Return { .. })
    }
}

/// Whether branches nest at most `depth` deep in the statements, and end inside what encloses them.
fn nests(statements: &[Statement], depth: u8) -> bool
    ensures { result ≡ nested (length statements.now) statements.now depth 0 (length statements.now) }
{
    let mut left = statements;
    while let Some((statement, rest)) = left.split_first() {
        left = rest;
        if let Statement::Branch { first, second, .. } = statement {
            if depth == 0 {
                return false;
            }
            let Some((one, after)) = rest.split_at_checked(usize::from(*first)) else {
                return false;
            };
            let Some((two, after)) = after.split_at_checked(usize::from(*second)) else {
                return false;
            };
            if !nests(one, depth - 1) || !nests(two, depth - 1) {
                return false;
            }
            left = after;
        }
    }
    true
}

/// Whether none of the statements is an R.
fn has_no_return(statements: &[Statement]) -> bool
    ensures { result ≡ no_return statements.now }
{
    statements.iter().all(|statement| !statement.is_return())
}

/// Whether the statements are a body: the last is an R, no other is, and branches nest at most four deep and end before it.
pub fn is_body(statements: &[Statement]) -> bool
    ensures { result ≡ stands statements.now }
{
    let Some((last, front)) = statements.split_last() else {
        return false;
    };
    last.is_return() && has_no_return(front) && nests(front, 4)
}
