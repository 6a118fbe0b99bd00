//! Posting a call to an object.
ghost use Rattle.std.specs.Prelude.{◌≡◌, ◌<◌, ◌≤◌, true, map, length, take};
ghost use Rattle.rules.specs.Calling.{post, argument_value};
ghost use Rattle.host.specs.Hosts.{told, Delivers, Answers};

use crate::arguments::first_values;
use crate::calls::classes_of;
use crate::host::Host;
use crate::numbers::{byte, level as level_of};
use order::{Level, Order};
use rules::calls::{Answer, Argument, Refusal};
use rules::tables::Layer;
use rules::values::{Labelled, Name};
use wrapper::admitting::{Asked, admit};
use wrapper::noting::Place;
use wrapper::sending::{Sending, send};

impl Host {
    /// Sends a call with these arguments, whose values are the first of `values`, to the object of a name; gives the reply's future, or why its
    /// wrapper does not admit the call.
    // `level < 8` is no fact of a struct: the level is one of the order's, by the party's number.
    fn deliver<O: Order>(
        &mut self,
        order: &O,
        level: Level,
        receiver: Name,
        method: i32,
        arguments: &[Argument],
        values: &[Labelled; 4],
    ) -> Result<Name, Refusal>
        requires level { level < 8 }
        requires values { length arguments.now ≤ 4 → take (length arguments.now) values.now ≡ map argument_value arguments.now }
        ensures { Delivers (O.Order.levels order.now) self.old level receiver method arguments.now (told Answer.Posted result) self.new }
    {
        let method = byte(method);
        let asked = Asked {
            level,
            receiver,
            method,
            count: arguments.len(),
            answered: true,
        };
        let object = admit(order, classes_of(&self.program), &self.tables, &asked)?;
        let method = method.unwrap();
        let sending = Sending {
            level,
            context: level,
            place: Place {
                class: object.class,
                method,
                statement: 0,
            },
            layer: Layer::AtPost,
            receiver,
            method,
            answered: true,
        };
        let owed = send(
            order,
            &mut self.tables,
            &sending,
            &object,
            &values[0..arguments.len()],
        );
        Ok(Name {
            home: level,
            number: owed.unwrap(),
        })
    }

    /// Calls a method of the object of a name with some numbers, each with its label; answers the future of the reply, or why not.
    // The numbers come apart, as they were sent: home and number are a name only once both were judged, and the labels are judged between them.
    pub fn post<O: Order>(
        &mut self,
        order: &O,
        bearer: i32,
        home: i32,
        number: i32,
        method: i32,
        arguments: &[Argument],
    ) -> Answer
        ensures { Answers (O.Order.levels order.now) self.old (post bearer home number method arguments.now) result self.new }
    {
        self.try_post(order, bearer, home, number, method, arguments)
            .map_or_else(Answer::Refused, Answer::Posted)
    }

    /// The name of the reply's future, or why not.
    fn try_post<O: Order>(
        &mut self,
        order: &O,
        bearer: i32,
        home: i32,
        number: i32,
        method: i32,
        arguments: &[Argument],
    ) -> Result<Name, Refusal>
        ensures { Answers (O.Order.levels order.now) self.old (post bearer home number method arguments.now) (told Answer.Posted result) self.new }
    {
        let level = level_of(order, bearer)?;
        let home = level_of(order, home)?;
        let values = first_values(order, arguments)?;
        let number = byte(number).ok_or(Refusal::NotMade)?;
        self.deliver(
            order,
            level,
            Name { home, number },
            method,
            arguments,
            &values,
        )
    }
}
