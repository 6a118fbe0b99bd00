//! What became of a text.
ghost use Rattle.script_cases.specs.Verdicts.{Counts, Judges};

use script::fault::LoadError;
use script::program::Program;
use std::fmt;

/// What became of a text: how much a program has, or where the fault is, or that there was no memory.
#[derive(Clone, Copy, Debug, PartialEq, Eq)]
pub enum Verdict {
    Loads {
        classes: usize,
        methods: usize,
        statements: usize,
    },
    Told {
        line: usize,
        cause: u8,
        layer: u8,
    },
    NoMemory,
}

impl From<&Result<Program, LoadError>> for Verdict {
    ghost from_gives = { λ outcome verdict. Judges outcome.now verdict };

    fn from(outcome: &Result<Program, LoadError>) -> Verdict {
        match outcome {
            Ok(program) => Verdict::loads(program),
            Err(LoadError::Fault(fault)) => Verdict::Told {
                line: fault.line(),
                cause: fault.cause(),
                layer: fault.layer(),
            },
            Err(LoadError::Memory) => Verdict::NoMemory,
        }
    }
}

impl Verdict {
    /// The verdict on a text that loaded: how many classes there are, how many methods in all of them, and how many statements in all of those.
    fn loads(program: &Program) -> Verdict
        ensures { Counts program.now result }
    {
        let classes = program.classes();
        Verdict::Loads {
            classes: classes.len(),
            methods: classes.iter().fold(
                0,
                |sum: usize, class| sum.saturating_add(class.methods.len()),
            ),
            statements: classes.iter().flat_map(|class| &class.methods).fold(
                0,
                |sum: usize, method| sum.saturating_add(method.statements.len()),
            ),
        }
    }
}

impl fmt::Display for Verdict {
    fn fmt<W: fmt::Write>(&self, f: &mut fmt::Formatter<W>) -> fmt::Result {
        match self {
            Verdict::Loads {
                classes,
                methods,
                statements,
            } => {
                write!(
                    f,
                    "loads, {classes} classes, {methods} methods, {statements} statements"
                )
            }
            Verdict::Told { line, cause, layer } => write!(
                f,
                "line {line}, cause {cause}, layer {layer}"
            ),
            Verdict::NoMemory => write!(f, "no memory"),
        }
    }
}
