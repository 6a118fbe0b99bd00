//! Numbers as they were sent: any signed number of 32 bits.
ghost use Rattle.std.specs.Prelude.{◌≡◌, ◌<◌, IfOk};
ghost use Rattle.std.specs.Option.{ok_or};
ghost use Rattle.rules.specs.Calling.{level_of};
ghost use Rattle.host.specs.Numbers.{byte_of, named};

use order::{Level, Order};
use rules::calls::Refusal;
use rules::values::Name;

/// The number, if it fits a byte.
pub fn byte(n: i32) -> Option<u8>
    ensures { result ≡ byte_of n }
{
    u8::try_from(n).ok()
}

/// The level that the number is; a refusal, if it is none.
pub fn level<O: Order>(order: &O, n: i32) -> Result<Level, Refusal>
    ensures value { result ≡ ok_or (level_of (O.Order.levels order.now) n) Refusal.NotALevel }
    ensures below { IfOk result (λ k. k < (O.Order.levels order.now).count) }
{
    byte(n)
        .filter(|k| *k < order.count())
        .ok_or(Refusal::NotALevel)
}

/// The name that a home and a number make; a refusal where the home is no level, and then where the number is no byte.
pub fn name_of<O: Order>(order: &O, home: i32, number: i32) -> Result<Name, Refusal>
    ensures value { result ≡ named (level_of (O.Order.levels order.now) home) (byte_of number) }
    ensures below { IfOk result (λ n. n.home < (O.Order.levels order.now).count) }
{
    let home = level(order, home)?;
    let number = byte(number).ok_or(Refusal::NotMade)?;
    Ok(Name { home, number })
}
