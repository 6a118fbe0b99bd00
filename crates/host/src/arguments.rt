//! The arguments of a post.
ghost use Rattle.std.specs.Prelude.{◌≡◌, ℕ, ◌<◌, ◌≤◌, true, false, map, length, take, MatchResult};
ghost use Rattle.script.specs.Layout.{every};
ghost use Rattle.rules.specs.Calling.{is_level, labels_stand, argument_value};

use crate::numbers::level;
use order::Order;
use rules::calls::{Argument, Refusal};
use rules::values::{Labelled, Value};
use wrapper::making::zero;

/// The value of an argument; a refusal where its label is no level.
fn value_of<O: Order>(order: &O, x: Argument) -> Result<Labelled, Refusal>
    ensures { MatchResult result (λ v. (is_level (O.Order.levels order.now) x.label ≡ true) × (v ≡ argument_value x)) (λ why. (is_level (O.Order.levels order.now) x.label ≡ false) × (why ≡ Refusal.NotALevel)) }
{
    let label = level(order, x.label)?;
    Ok(Labelled {
        value: Value::Number(x.number),
        label,
    })
}

/// The values of up to four arguments, and zeros after them; a refusal where a label is no level.
fn values_of<O: Order>(order: &O, arguments: &[Argument]) -> Result<[Labelled; 4], Refusal>
    requires { length arguments.now ≤ 4 }
    ensures { MatchResult result (λ v. (every (λ x. is_level (O.Order.levels order.now) x.label) arguments.now ≡ true) × (take (length arguments.now) v ≡ map argument_value arguments.now)) (λ why. (every (λ x. is_level (O.Order.levels order.now) x.label) arguments.now ≡ false) × (why ≡ Refusal.NotALevel)) }
{
    let mut values = [zero(0); 4];
    // An array of four with zeros behind, since serving a call allocates nothing. By places: of a `zip` with the array's `iter_mut` nothing tells what was written.
    for (i, x) in arguments.iter().enumerate() {
        values[i] = value_of(order, *x)?;
    }
    Ok(values)
}

/// The values of the first four arguments, and zeros after them; a refusal where a label of those is no level.
pub fn first_values<O: Order>(order: &O, arguments: &[Argument]) -> Result<[Labelled; 4], Refusal>
    ensures { MatchResult result (λ v. (labels_stand (O.Order.levels order.now) arguments.now ≡ true) × (length arguments.now ≤ 4 → take (length arguments.now) v ≡ map argument_value arguments.now)) (λ why. (labels_stand (O.Order.levels order.now) arguments.now ≡ false) × (why ≡ Refusal.NotALevel)) }
{
    values_of(order, arguments.get(..4).unwrap_or(arguments))
}
