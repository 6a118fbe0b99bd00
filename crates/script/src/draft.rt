//! A program that is being read, row by row.
ghost use Rattle.std.specs.Prelude.{◌≡◌, Ok};
ghost use Rattle.script.specs.Reading.{bind, place, nothing, close_body, close_class, turn_class, take_in, finish};
ghost use Rattle.script.specs.Drafts.{draft_of, Does, Gives};
ghost use Rattle.script.specs.Classes.{classes_of};

use crate::class::{Class, Method, Statement};
use crate::fault::LoadError;
use crate::heading::Heading;
use crate::row::{Entry, Item, Place};
use order::Level;
use std::alloc::Global;

/// What was read so far: the classes that are complete; of the class at hand its fields, the methods that are complete, and, where a method
/// is open, its heading and its statements.
#[derive(Drop)]
pub struct Draft {
    heap: Global,
    classes: Vec<Class>,
    fields: Vec<Level>,
    methods: Vec<Method>,
    heading: Option<Heading>,
    statements: Vec<Statement>,
}

impl Draft {
    /// Nothing was read yet.
    pub fn new(heap: Global) -> Draft
        ensures { draft_of result ≡ nothing }
    {
        Draft {
            heap,
            classes: Vec::new(heap),
            fields: Vec::new(heap),
            methods: Vec::new(heap),
            heading: None,
            statements: Vec::new(heap),
        }
    }

    /// How many methods of the class at hand were begun.
    fn methods_begun(&self) -> usize
        ensures { result ≡ (place (draft_of self.now)).methods }
    {
        self.methods.len() + usize::from(self.heading.is_some())
    }

    /// Where the next row stands.
    pub fn place(&self) -> Place
        ensures { result ≡ place (draft_of self.now) }
    {
        Place {
            class: self.classes.len(),
            fields: self.fields.len(),
            methods: self.methods_begun(),
            statements: self.statements.len(),
        }
    }

    /// Where a method is open, checks that its statements are a body, and adds it to the methods.
    fn close_body(&mut self) -> Result<(), LoadError>
        ensures { Does result (close_body (draft_of self.old)) (draft_of self.new) }
    {
        let Some(heading) = self.heading else {
            return Ok(());
        };
        heading.check(&self.statements)?;
        // `replace`, here and below, and no `take`, which could fail: a list is made with a heap.
        let statements = std::mem::replace(&mut self.statements, Vec::new(self.heap));
        self.methods.push(Method {
            parameters: heading.parameters,
            statements,
        })?;
        self.heading = None;
        Ok(())
    }

    /// Adds the class at hand to the classes.
    fn close_class(&mut self) -> Result<(), LoadError>
        ensures { Does result (Ok (close_class (draft_of self.old))) (draft_of self.new) }
    {
        let fields = std::mem::replace(&mut self.fields, Vec::new(self.heap));
        let methods = std::mem::replace(&mut self.methods, Vec::new(self.heap));
        self.classes.push(Class { fields, methods })?;
        Ok(())
    }

    /// Closes the open method and, where another class begins, the class at hand.
    fn close(&mut self, begins_class: bool) -> Result<(), LoadError>
        ensures { Does result (bind (close_body (draft_of self.old)) (λ d. Ok (turn_class begins_class d))) (draft_of self.new) }
    {
        self.close_body()?;
        if begins_class {
            self.close_class()?;
        }
        Ok(())
    }

    /// Takes in what the row at `line` says.
    pub fn take_in(&mut self, line: usize, said: Entry) -> Result<(), LoadError>
        ensures { Does result (take_in line said.begins_class said.item (draft_of self.old)) (draft_of self.new) }
    {
        match said.item {
            Item::Label { label } => {
                self.close(said.begins_class)?;
                self.fields.push(label)?;
            }
            Item::Head { parameters } => {
                self.close(said.begins_class)?;
                self.heading = Some(Heading { line, parameters });
            }
            Item::Action { statement } => {
                self.statements.push(statement)?;
            }
        }
        Ok(())
    }

    /// Closes what is open at the end of the text, and gives all classes.
    pub fn finish(mut self) -> Result<Vec<Class>, LoadError>
        ensures { Gives (λ v. classes_of v.items) result (finish (draft_of self)) }
    {
        self.close_body()?;
        if self.place().has_begun() {
            self.close_class()?;
        }
        Ok(self.classes)
    }
}
