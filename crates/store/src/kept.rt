//! What can stand in a table, and what the rules have for it.
ghost use Rattle.rules.specs.Tables.{Object as RulesObject, object_of, Call as RulesCall, call_of};
ghost use Rattle.rules.specs.declared.tables.Future.{Future as RulesFuture};
ghost use Rattle.rules.specs.declared.tables.Note.{Note as RulesNote};

use rules::tables::{Call, Future, Note, Object};

/// What can stand in a table: the rules have something for it.
pub trait Kept: Copy {
    // The type of what the rules have for it.
    ghost Told: { Type 0 };

    // What the rules have for it.
    ghost told: { Self → Told };
}

impl Kept for Object {
    ghost Told = { RulesObject };

    ghost told = { object_of };
}

impl Kept for Future {
    ghost Told = { RulesFuture };

    ghost told = { λ f. f };
}

impl Kept for Call {
    ghost Told = { RulesCall };

    ghost told = { call_of };
}

impl Kept for Note {
    ghost Told = { RulesNote };

    ghost told = { λ n. n };
}
