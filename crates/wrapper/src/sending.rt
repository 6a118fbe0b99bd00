//! Sending an admitted call.
ghost use Rattle.std.specs.Prelude.{◌≡◌, ℕ, ◌<◌, ◌≤◌, true, [], map, length, slice_index_or};
ghost use Rattle.rules.specs.Values.{blank, given};
ghost use Rattle.rules.specs.Tables.{object_of, all_filed};
ghost use Rattle.rules.specs.Wrapper.{shown, first_locals, room, ticket, sent};
ghost use Rattle.store.specs.States.{state_of, notes_of, futures_of, SameButNotes, SameButFutures};
ghost use Rattle.wrapper.specs.Marks.{made_of, place_of};
ghost use Rattle.wrapper.specs.Sends.{with_future};

use crate::making::zero;
use crate::noting::{Made, Place, settle};
use order::{Level, Order, join_within};
use rules::tables::{Call, Future, Layer, Object};
use rules::values::{Labelled, Mark, Name};
use store::tables::Tables;

/// A call that was admitted, on its way: the level at which it goes, the context that it is sent in, who sends it by which layer, whom it is
/// for, which method, and whether it is to be answered.
// Four fields are those of `Asked`, which is the state before: what is asked has a number that need be no method's, what is sent has a method.
#[derive(Clone, Copy, Debug, PartialEq, Eq)]
pub struct Sending {
    pub level: Level,
    pub context: Level,
    pub place: Place,
    pub layer: Layer,
    pub receiver: Name,
    pub method: u8,
    pub answered: bool,
}

/// What an object of a level gets of a value that comes to it at another: the value with both labels joined, or the mark *withheld* where that
/// does not flow to the object's level.
pub fn mask<O: Order>(order: &O, level: Level, at: Level, layer: Layer, x: Labelled) -> Made
    ensures { made_of result ≡ shown (O.Order.levels order.now) [] level at layer x }
{
    match join_within(order, x.label, at, level) {
        Some(label) => Made::Plain(Labelled { label, ..x }),
        None => Made::Fresh {
            mark: Mark::Withheld,
            layer,
            label: level,
        },
    }
}

/// The first locals of a call: each argument by itself, masked against the receiver's level, and then zeros. The notes of withheld ones are filed.
fn masked<O: Order>(
    order: &O,
    tables: &mut Tables,
    sending: &Sending,
    level: Level,
    arguments: &[Labelled],
) -> [Labelled; 8]
    requires { length arguments.now ≤ 8 }
    ensures locals { (λ (k : ℕ). slice_index_or result k blank) ≡ first_locals sending.now.level (map given (map (shown (O.Order.levels order.now) [] level sending.now.level sending.now.layer) arguments.now)) }
    ensures notes { notes_of tables.new ≡ all_filed (O.Order.levels order.now).join sending.now.context (place_of sending.now.place) (map (shown (O.Order.levels order.now) [] level sending.now.level sending.now.layer) arguments.now) (notes_of tables.old) }
    ensures same { SameButNotes tables.old tables.new }
{
    let mut locals = [zero(sending.level); 8];
    // A `for`, and no chain: each argument files its note in the tables, and of tables that a closure altered nothing is known.
    for (i, x) in arguments.iter().enumerate() {
        let made = mask(order, level, sending.level, sending.layer, *x);
        locals[i] = settle(order, tables, sending.context, sending.place, made);
    }
    locals
}

/// A new open future at a level for a call that is to be answered, and its number.
fn open_future(tables: &mut Tables, level: Level, answered: bool) -> Option<u8>
    requires level { level < 8 }
    requires room { room (state_of tables.old) level answered ≡ true }
    ensures owed { result ≡ ticket (state_of tables.old) level answered }
    ensures futures { futures_of tables.new ≡ with_future (futures_of tables.old) level answered }
    ensures same { SameButFutures tables.old tables.new }
{
    if !answered {
        return None;
    }
    let number = tables.futures.add(usize::from(level), Future::Open).ok()?;
    // `as`: the place is below 32, and a `try_from` would add a failure that never comes.
    Some(number as u8)
}

/// Puts an admitted call last in line, with its future, if it is to be answered; gives the future's number.
pub fn send<O: Order>(
    order: &O,
    tables: &mut Tables,
    sending: &Sending,
    object: &Object,
    arguments: &[Labelled],
) -> Option<u8>
    requires level { sending.now.level < 8 }
    requires room { room (state_of tables.old) sending.now.level sending.now.answered ≡ true }
    requires few { length arguments.now ≤ 8 }
    ensures owed { result ≡ ticket (state_of tables.old) sending.now.level sending.now.answered }
    ensures state { state_of tables.new ≡ sent (O.Order.levels order.now) [] (state_of tables.old) sending.now.level sending.now.context (place_of sending.now.place) sending.now.layer sending.now.receiver (object_of object.now) sending.now.method arguments.now sending.now.answered }
{
    let locals = masked(order, tables, sending, object.level, arguments);
    let owed = open_future(tables, sending.level, sending.answered);
    let call = Call {
        receiver: sending.receiver,
        method: sending.method,
        locals,
        next: 0,
        owed,
    };
    let _ = tables.calls.add(usize::from(sending.level), call);
    owed
}
