//! Making objects.
ghost use Rattle.std.specs.Prelude.{◌≡◌, ◌<◌};
ghost use Rattle.script.specs.Classes.{classes_of};
ghost use Rattle.rules.specs.Values.{nought};
ghost use Rattle.rules.specs.Wrapper.{makeable};
ghost use Rattle.store.specs.States.{state_of};
ghost use Rattle.wrapper.specs.Floors.{floor_in};
ghost use Rattle.wrapper.specs.Outcomes.{Makes};

use crate::floors::Floors;
use order::{Level, Order};
use rules::calls::Refusal;
use rules::tables::Object;
use rules::values::{Labelled, Name, Value};
use script::class::Class;
use store::tables::Tables;

/// The number 0 with a label.
pub fn zero(label: Level) -> Labelled
    ensures { result ≡ nought label }
{
    Labelled {
        value: Value::Number(0),
        label,
    }
}

/// The floor of a field in a class that declares those labels: its declared label joined with the object's home.
// Beside `Floors::floor`: who calls has the declared labels and the home apart.
pub fn floor<O: Order>(order: &O, fields: &[Level], home: Level, field: u8) -> Level
    ensures { result ≡ floor_in (O.Order.levels order.now) fields.now home field }
{
    Floors {
        declared: fields,
        home,
    }
    .floor(order, field)
}

/// Whether the home, and every floor, flows to a level.
fn is_makeable<O: Order>(order: &O, classes: &[Class], home: Level, class: u8, level: Level) -> bool
    ensures { result ≡ makeable (O.Order.levels order.now) (classes_of classes.now) home class level }
{
    order.flows(home, level) && Floors::of(classes, class, home).flow_to(order, level)
}

/// Makes an object of a class at a level, with a home; or tells why not, and changes nothing.
pub fn make_object<O: Order>(
    order: &O,
    classes: &[Class],
    tables: &mut Tables,
    home: Level,
    class: u8,
    level: Level,
) -> Result<Name, Refusal>
    requires { home < 8 }
    ensures { Makes (O.Order.levels order.now) (classes_of classes.now) (state_of tables.old) home class level result (state_of tables.new) }
{
    if usize::from(class) >= classes.len() {
        return Err(Refusal::Unknown);
    }
    if !is_makeable(order, classes, home, class, level) {
        return Err(Refusal::NoFlow);
    }
    // Asked before the object is made, which in a full home would be for nothing; `add` asks once more.
    if tables.objects.count(usize::from(home)) >= 8 {
        return Err(Refusal::Full);
    }
    let fields = Floors::of(classes, class, home).first_fields(order);
    let object = Object {
        class,
        level,
        fields,
    };
    let number = tables
        .objects
        .add(usize::from(home), object)
        .map_err(|_| Refusal::Full)?;
    // `as`: the place is below 8, and a `try_from` would add a failure that never comes.
    Ok(Name {
        home,
        number: number as u8,
    })
}
