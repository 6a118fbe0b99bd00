//! Judging a call: whether the object's wrapper admits it.
ghost use Rattle.std.specs.Prelude.{◌≡◌, ◌<◌, ◌&&◌, [], Some, None, MatchOption};
ghost use Rattle.std.specs.Option.{option_map};
ghost use Rattle.script.specs.Classes.{classes_of, method_of};
ghost use Rattle.script.specs.Layout.{every};
ghost use Rattle.rules.specs.Tables.{object_of};
ghost use Rattle.rules.specs.Wrapper.{target, taking, method_at, room, object_for, verdict};
ghost use Rattle.store.specs.States.{state_of};
ghost use Rattle.wrapper.specs.Floors.{writes_in};
ghost use Rattle.wrapper.specs.Outcomes.{verdict_of};

use crate::classes::find_method;
use crate::floors::Floors;
use order::{Level, Order};
use rules::calls::Refusal;
use rules::tables::Object;
use rules::values::Name;
use script::class::{Class, Method};
use store::tables::Tables;

/// A call that is asked for: at which level, of whom, which method with how many arguments, and whether it is to be answered.
#[derive(Clone, Copy, Debug, PartialEq, Eq)]
pub struct Asked {
    pub level: Level,
    pub receiver: Name,
    /// None stands for a number that no method can have.
    pub method: Option<u8>,
    pub count: usize,
    pub answered: bool,
}

/// The object of a name, if it was made and its home flows to a level.
// One call of the table's, as for futures: the clause is the rules' own word for it.
pub fn find_object<O: Order>(order: &O, tables: &Tables, level: Level, name: Name) -> Option<Object>
    ensures { option_map object_of result ≡ object_for (O.Order.levels order.now) [] (state_of tables.now) level name }
{
    tables.objects.find(order, level, name)
}

/// Whether a call at a level flows to the object and to the floor of each field that the method assigns.
fn flows_in<O: Order>(
    order: &O,
    floors: &Floors,
    level: Level,
    object: &Object,
    method: &Method,
) -> bool
    ensures { result ≡ (O.Order.levels order.now).flow level object.now.level && every (λ s. writes_in (O.Order.levels order.now) floors.now.declared.now level floors.now.home (target s)) method.now.statements.items }
{
    order.flows(level, object.level) && floors.admit_all(order, level, method.statements.as_slice())
}

/// The method of a class, by number, if it takes that many arguments.
fn accepting(classes: &[Class], class: u8, method: Option<u8>, count: usize) -> Option<&Method>
    ensures { MatchOption result (taking count (method_at (classes_of classes.now) class method) ≡ None) (λ m. taking count (method_at (classes_of classes.now) class method) ≡ Some (method_of m.now)) }
{
    find_method(classes, class, method?).filter(|found| usize::from(found.parameters) == count)
}

/// Whether a level has a place in line and, where the call is to be answered, a future.
// `level < 8` is no fact of a struct, here and in `making` and `sending`: three of the five functions that ask it are lent a level alone.
fn has_room(tables: &Tables, level: Level, answered: bool) -> bool
    requires { level < 8 }
    ensures { result ≡ room (state_of tables.now) level answered }
{
    (!answered || tables.futures.count(usize::from(level)) < 32)
        && tables.calls.count(usize::from(level)) < 16
}

/// The wrapper's verdict on a call: the object that is to serve it, or why not.
// Order, classes and tables come apart, here and in `making`: the order is lent to each call, and tables are altered while classes are read.
pub fn admit<O: Order>(
    order: &O,
    classes: &[Class],
    tables: &Tables,
    asked: &Asked,
) -> Result<Object, Refusal>
    requires { asked.now.level < 8 }
    ensures { verdict_of result ≡ verdict (O.Order.levels order.now) (classes_of classes.now) (state_of tables.now) asked.now.level asked.now.receiver asked.now.method asked.now.count asked.now.answered }
{
    let level = asked.level;
    let object = find_object(order, tables, level, asked.receiver).ok_or(Refusal::NotMade)?;
    let method = accepting(classes, object.class, asked.method, asked.count).ok_or(
        Refusal::Unknown,
    )?;
    let floors = Floors::of(classes, object.class, asked.receiver.home);
    if !flows_in(order, &floors, level, &object, method) {
        return Err(Refusal::NoFlow);
    }
    if !has_room(tables, level, asked.answered) {
        return Err(Refusal::Full);
    }
    Ok(object)
}
