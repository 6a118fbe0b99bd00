//! The body of a method, by class and number.
ghost use Rattle.std.specs.Prelude.{◌≡◌, ◌-◌, length, Some, slice_index_or};
ghost use Rattle.script.specs.Bodies.{idle};
ghost use Rattle.script.specs.Classes.{classes_of};
ghost use Rattle.rules.specs.Wrapper.{method_at};
ghost use Rattle.rules.specs.Turns.{before_last, statements_of, returned};

use script::class::{Class, Statement, Variable};
use wrapper::classes::find_method;

/// The statements of a method of a class; none where it is missing.
pub fn statements_of(classes: &[Class], class: u8, method: u8) -> &[Statement]
    ensures { result.now ≡ statements_of (method_at (classes_of classes.now) class (Some method)) }
{
    find_method(classes, class, method).map_or(&[], |found| found.statements.as_slice())
}

/// The statements before the last, which is the R.
pub fn before_last(statements: &[Statement]) -> &[Statement]
    ensures { result.now ≡ before_last statements.now }
{
    statements.split_last().map_or(&[], |(_, before)| before)
}

/// The variable that the last statement, an R, gives back.
pub fn reply_variable(statements: &[Statement]) -> Variable
    ensures { result ≡ returned (slice_index_or statements.now (length statements.now - 1) idle) }
{
    match statements.last() {
        Some(Statement::Return { value }) => *value,
        _ => Variable::Local(0),
    }
}
