//! What parties and scripts exchange, and the rules of the host as definitions.
//!
//! The rules stand in `specs/`: what a wrapper admits, what each statement does, how a turn goes, and what each of the parties' five calls
//! answers. What is proved of them stands on the contracts of the two functions below; the crate `host` serves the
//! calls as these rules say.
#![tactic(auto)]

ghost use Rattle.rules.specs.Laws.{Secrecy, LabelsAlwaysFlow, LabelsAlwaysLevels, FuturesOwed, ValuesStay, RefusalsAlterNothing};
ghost use Rattle.rules.specs.Cases.{Settled, ToldApartByNone, AllLoad, PremisesMet};

pub mod calls;
pub mod tables;
pub mod values;

/// What the rules promise, in every order that keeps its laws, for every program that loads and every list of calls.
///
/// * `secrecy`: two lists that are alike to a reader give that reader the same answers.
/// * `labels`, `levels`: every label is a level, and flows to the level of the object that it stands in or waits for.
/// * `owed`, `stay`: the open futures of a level are those that calls in line there owe, one each; a value that a future holds stays.
/// * `refusals`: an answer of 1 to 9 leaves every table as it was.
pub fn rules_keep_secrets() -> u8
    ensures secrecy { Secrecy }
    ensures labels { LabelsAlwaysFlow }
    ensures levels { LabelsAlwaysLevels }
    ensures owed { FuturesOwed }
    ensures stay { ValuesStay }
    ensures refusals { RefusalsAlterNothing }
{
    0
}

/// The settled cases, worked out by the rules themselves; two alike lists with different secrets, which leave different tables while the reader
/// sees the same; that every program among them loads; and that runs meet the premises of the promises.
pub fn cases_come_out() -> u8
    ensures settled { Settled }
    ensures secrets { ToldApartByNone }
    ensures loads { AllLoad }
    ensures premises { PremisesMet }
{
    0
}
