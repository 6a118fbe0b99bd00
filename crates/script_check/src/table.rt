//! The table of a program that loaded.
use script::class::{Class, Method};
use script::program::Program;

/// One method: its parameters and its statements, counted from 1.
fn print_method(rt: &HostRuntime, number: usize, method: &Method) -> anyhow::Result<()> {
    let parameters = method.parameters;
    let count = method.statements.len();
    println!(rt; "  method {number}: parameters {parameters}, statements {count}")?;
    for (i, statement) in method.statements.iter().enumerate() {
        let at = i.saturating_add(1);
        println!(rt; "    {at:>2}  {statement}")?;
    }
    Ok(())
}

/// One class: the labels of its fields and its methods.
fn print_class(rt: &HostRuntime, number: usize, class: &Class) -> anyhow::Result<()> {
    let fields = class.fields.len();
    let methods = class.methods.len();
    println!(rt; "class {number}: fields {fields}, methods {methods}")?;
    for (i, label) in class.fields.iter().enumerate() {
        println!(rt; "  field {i}: label {label}")?;
    }
    for (i, method) in class.methods.iter().enumerate() {
        print_method(rt, i, method)?;
    }
    Ok(())
}

/// All classes of a program.
pub fn print_program(rt: &HostRuntime, program: &Program) -> anyhow::Result<()> {
    let count = program.classes().len();
    println!(rt; "loads: classes {count}")?;
    for (i, class) in program.classes().iter().enumerate() {
        print_class(rt, i, class)?;
    }
    Ok(())
}
