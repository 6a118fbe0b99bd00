//! A program that was loaded.
ghost use Rattle.std.specs.Prelude.{◌≡◌, true};
ghost use Rattle.script.specs.Classes.{classes_of};
ghost use Rattle.script.specs.Layout.{well_formed};

use crate::class::Class;

/// The classes of a script text that loaded.
///
/// It keeps as a fact what loading checked: the counts, the ranges, that every variable exists, that branches nest at most four deep and end
/// inside their enclosing body, and that R stands last and only there. Labels are below eight under every order.
#[derive(Drop)]
pub struct Program {
    pub(crate) classes: Vec<Class>,
    ghost formed: { well_formed 8 (classes_of classes.items) ≡ true },
}

impl Program {
    /// The classes, by number.
    pub fn classes(&self) -> &[Class]
        ensures { result.now ≡ self.now.classes.items }
    {
        self.classes.as_slice()
    }
}
