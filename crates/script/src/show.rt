//! Variables, arguments and statements as text.
use crate::class::{Arguments, Statement, Variable};
use std::fmt;

impl fmt::Display for Variable {
    fn fmt<W: fmt::Write>(&self, f: &mut fmt::Formatter<W>) -> fmt::Result {
        match self {
            Variable::Local(k) => write!(f, "local {k}"),
            Variable::Field(k) => write!(f, "field {k}"),
        }
    }
}

impl fmt::Display for Arguments {
    fn fmt<W: fmt::Write>(&self, f: &mut fmt::Formatter<W>) -> fmt::Result {
        match self {
            Arguments::Empty => write!(f, "nothing"),
            Arguments::One(a) => write!(f, "{a}"),
            Arguments::Two(a, b) => write!(f, "{a}, {b}"),
            Arguments::Three(a, b, c) => write!(f, "{a}, {b}, {c}"),
            Arguments::Four(a, b, c, d) => write!(f, "{a}, {b}, {c}, {d}"),
        }
    }
}

impl fmt::Display for Statement {
    fn fmt<W: fmt::Write>(&self, f: &mut fmt::Formatter<W>) -> fmt::Result {
        match self {
            Statement::Constant { to, number } => write!(f, "{to} := {number}"),
            Statement::Itself { to } => write!(f, "{to} := this object"),
            Statement::Copy { to, from } => write!(f, "{to} := {from}"),
            Statement::Add { to, left, right } => write!(f, "{to} := {left} + {right}"),
            Statement::Subtract { to, left, right } => write!(f, "{to} := {left} - {right}"),
            Statement::Less { to, left, right } => write!(f, "{to} := {left} < {right}"),
            Statement::Branch {
                guard,
                first,
                second,
            } => write!(
                f,
                "if {guard}: the next {first}, else the {second} after them"
            ),
            Statement::Invoke {
                to: None,
                receiver,
                method,
                arguments,
            } => write!(f, "method {method} of {receiver} with {arguments}"),
            Statement::Invoke {
                to: Some(to),
                receiver,
                method,
                arguments,
            } => write!(f, "{to} := method {method} of {receiver} with {arguments}"),
            Statement::Get { to, future } => write!(f, "{to} := what {future} holds"),
            Statement::Create { to, class, level } => {
                write!(f, "{to} := new object of class {class} at level {level}")
            }
            Statement::Return { value } => write!(f, "return {value}"),
        }
    }
}
