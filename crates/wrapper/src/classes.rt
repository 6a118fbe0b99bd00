//! What a program declares: the fields and methods of its classes, and what a statement assigns.
ghost use Rattle.std.specs.Prelude.{◌≡◌, [], map, Some, None, MatchOption};
ghost use Rattle.script.specs.Classes.{classes_of, class_of, method_of};
ghost use Rattle.rules.specs.Wrapper.{class_at, method_at, target};

use order::Level;
use script::class::{Class, Method, Statement, Variable};

/// The class of a number, if the program has it.
fn find_class(classes: &[Class], class: u8) -> Option<&Class>
    ensures { MatchOption result (class_at (classes_of classes.now) class ≡ record { fields = []; methods = [] }) (λ c. class_at (classes_of classes.now) class ≡ class_of c.now) }
{
    classes.get(usize::from(class))
}

/// The declared labels of a class's fields; none where the program lacks the class.
// `methods_of` has this shape: one function for both would take a closure as long as either body.
pub fn fields_of(classes: &[Class], class: u8) -> &[Level]
    ensures { result.now ≡ (class_at (classes_of classes.now) class).fields }
{
    find_class(classes, class).map_or(&[], |found| found.fields.as_slice())
}

/// The methods of a class; none where the program lacks the class.
fn methods_of(classes: &[Class], class: u8) -> &[Method]
    ensures { map method_of result.now ≡ (class_at (classes_of classes.now) class).methods }
{
    find_class(classes, class).map_or(&[], |found| found.methods.as_slice())
}

/// The method of a class, by number, if the class has it.
pub fn find_method(classes: &[Class], class: u8, method: u8) -> Option<&Method>
    ensures { MatchOption result (method_at (classes_of classes.now) class (Some method) ≡ None) (λ m. method_at (classes_of classes.now) class (Some method) ≡ Some (method_of m.now)) }
{
    methods_of(classes, class).get(usize::from(method))
}

/// The variable that a statement assigns, if any.
pub fn assigned_by(statement: Statement) -> Option<Variable>
    ensures { result ≡ target statement }
{
    match statement {
        Statement::Constant { to, .. }
        | Statement::Itself { to }
        | Statement::Copy { to, .. }
        | Statement::Add { to, .. }
        | Statement::Subtract { to, .. }
        | Statement::Less { to, .. }
        | Statement::Get { to, .. }
        | Statement::Create { to, .. } => Some(to),
        Statement::Invoke { to, .. } => to,
        Statement::Branch { .. } | Statement::Return { .. } => None,
    }
}
