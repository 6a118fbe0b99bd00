//! The calls of the parties.
ghost use Rattle.std.specs.Prelude.{◌≡◌, true};
ghost use Rattle.script.specs.Classes.{classes_of};
ghost use Rattle.script.specs.Layout.{well_formed};
ghost use Rattle.rules.specs.Calling.{make, collect, note};
ghost use Rattle.host.specs.Hosts.{classes_in, told, Answers};

use crate::host::Host;
use crate::numbers::{byte, level as level_of, name_of};
use crate::reading::{find_future, shown_to};
use order::Order;
use rules::calls::{Answer, Refusal};
use rules::tables::{Event, Note};
use rules::values::{Labelled, Name};
use script::class::Class;
use script::program::Program;
use wrapper::making::make_object;

/// The classes that are loaded; none before a text is loaded.
// Of the field, and no method of the host: calls read the classes while they alter the tables.
pub fn classes_of(program: &Option<Program>) -> &[Class]
    ensures is { result.now ≡ classes_in program.now }
    ensures formed { well_formed 8 (classes_of result.now) ≡ true }
{
    program.as_ref().map_or(&[], |loaded| loaded.classes())
}

// Each call of the parties is two functions: the private one gives up by `?`, and the public one answers what a party is told.
impl Host {
    /// Makes an object of a class at a level, at home with the party; answers its name, or why not.
    pub fn make<O: Order>(&mut self, order: &O, bearer: i32, class: i32, level: i32) -> Answer
        ensures { Answers (O.Order.levels order.now) self.old (make bearer class level) result self.new }
    {
        self.try_make(order, bearer, class, level)
            .map_or_else(Answer::Refused, Answer::Made)
    }

    /// The name of the object that it makes, or why not.
    fn try_make<O: Order>(
        &mut self,
        order: &O,
        bearer: i32,
        class: i32,
        level: i32,
    ) -> Result<Name, Refusal>
        ensures { Answers (O.Order.levels order.now) self.old (make bearer class level) (told Answer.Made result) self.new }
    {
        let home = level_of(order, bearer)?;
        let at = level_of(order, level)?;
        let class = byte(class).ok_or(Refusal::Unknown)?;
        make_object(
            order,
            classes_of(&self.program),
            &mut self.tables,
            home,
            class,
            at,
        )
    }

    /// Reads the future of a name; answers the value, the mark *withheld* where its label does not flow to the party, or why not.
    pub fn collect<O: Order>(&mut self, order: &O, bearer: i32, home: i32, number: i32) -> Answer
        ensures { Answers (O.Order.levels order.now) self.old (collect bearer home number) result self.new }
    {
        self.try_collect(order, bearer, home, number)
            .map_or_else(Answer::Refused, Answer::Collected)
    }

    /// What the party may see of the future's value, or why not.
    fn try_collect<O: Order>(
        &self,
        order: &O,
        bearer: i32,
        home: i32,
        number: i32,
    ) -> Result<Labelled, Refusal>
        ensures { Answers (O.Order.levels order.now) self.now (collect bearer home number) (told Answer.Collected result) self.now }
    {
        let level = level_of(order, bearer)?;
        let name = name_of(order, home, number)?;
        let mut future = find_future(order, &self.tables, level, name).ok_or(Refusal::NotMade)?;
        let value = future.meet(Event::Collect).ok_or(Refusal::Nothing)?;
        Ok(shown_to(order, level, value))
    }

    /// Takes the oldest note of a class out of the party's line; answers it, or why not.
    pub fn note<O: Order>(&mut self, order: &O, bearer: i32, class: i32) -> Answer
        ensures { Answers (O.Order.levels order.now) self.old (note bearer class) result self.new }
    {
        self.try_note(order, bearer, class)
            .map_or_else(Answer::Refused, Answer::Noted)
    }

    /// The note that it takes, or why not.
    fn try_note<O: Order>(&mut self, order: &O, bearer: i32, class: i32) -> Result<Note, Refusal>
        ensures { Answers (O.Order.levels order.now) self.old (note bearer class) (told Answer.Noted result) self.new }
    {
        let level = level_of(order, bearer)?;
        let class = byte(class).ok_or(Refusal::Unknown)?;
        classes_of(&self.program)
            .get(usize::from(class))
            .ok_or(Refusal::Unknown)?;
        let (place, found) = self
            .tables
            .notes
            .oldest(usize::from(level), class)
            .ok_or(Refusal::Nothing)?;
        // The note that was found is the answer: from what `take` gives there would be one refusal more, which cannot come.
        let _ = self.tables.notes.take(usize::from(level), place);
        Ok(found)
    }
}
