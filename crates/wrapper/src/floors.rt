//! The floors of an object's fields.
ghost use Rattle.std.specs.Prelude.{◌≡◌, ℕ, if◌then◌else◌, nat_lt, slice_index_or};
ghost use Rattle.script.specs.Classes.{classes_of};
ghost use Rattle.script.specs.Layout.{every};
ghost use Rattle.rules.specs.Values.{blank, nought};
ghost use Rattle.rules.specs.Wrapper.{class_at, target};
ghost use Rattle.wrapper.specs.Floors.{floor_in, writes_in};

use crate::classes::{assigned_by, fields_of};
use crate::making::zero;
use order::{Level, Order};
use rules::values::Labelled;
use script::class::{Class, Statement, Variable};
use std::array;

/// The floors of an object's fields: the labels that its class declares for them, each joined with the object's home.
#[derive(Clone, Copy)]
pub struct Floors<'a> {
    pub declared: &'a [Level],
    pub home: Level,
}

impl<'a> Floors<'a> {
    /// The floors that an object of a class has at a home.
    pub(crate) fn of(classes: &'a [Class], class: u8, home: Level) -> Floors<'a>
        ensures declared { result.declared.now ≡ (class_at (classes_of classes.now) class).fields }
        ensures home { result.home ≡ home }
    {
        Floors {
            declared: fields_of(classes, class),
            home,
        }
    }

    /// The floor of a field: its declared label joined with the object's home.
    pub fn floor<O: Order>(&self, order: &O, field: u8) -> Level
        ensures { result ≡ floor_in (O.Order.levels order.now) self.now.declared.now self.now.home field }
    {
        let declared = self.declared.get(usize::from(field)).copied().unwrap_or(0);
        order.join(declared, self.home)
    }

    /// Whether every floor flows to a level.
    pub(crate) fn flow_to<O: Order>(&self, order: &O, level: Level) -> bool
        ensures { result ≡ every (λ declared. (O.Order.levels order.now).flow ((O.Order.levels order.now).join declared self.now.home) level) self.now.declared.now }
    {
        self.declared.iter().all(|declared| order.flows(order.join(*declared, self.home), level))
    }

    /// The fields of a new object: each is 0 labelled with its floor.
    pub(crate) fn first_fields<O: Order>(&self, order: &O) -> [Labelled; 8]
        ensures { (k : ℕ) → slice_index_or result k blank ≡ (if nat_lt k 8 then nought (floor_in (O.Order.levels order.now) self.now.declared.now self.now.home k) else blank) }
    {
        // `as`: there are eight places, and a `try_from` would add a failure that never comes.
        array::from_fn(|k| zero(self.floor(order, k as u8)))
    }

    /// Whether a call at a level may assign the variable, if there is one: the level flows to a field's floor.
    fn admit<O: Order>(&self, order: &O, level: Level, to: Option<Variable>) -> bool
        ensures { result ≡ writes_in (O.Order.levels order.now) self.now.declared.now level self.now.home to }
    {
        match to {
            Some(Variable::Field(k)) => order.flows(level, self.floor(order, k)),
            Some(Variable::Local(_)) | None => true,
        }
    }

    /// Whether a call at a level may assign all that the statements assign.
    pub(crate) fn admit_all<O: Order>(
        &self,
        order: &O,
        level: Level,
        statements: &[Statement],
    ) -> bool
        ensures { result ≡ every (λ s. writes_in (O.Order.levels order.now) self.now.declared.now level self.now.home (target s)) statements.now }
    {
        statements.iter().all(|statement| self.admit(order, level, assigned_by(*statement)))
    }
}
