// What went wrong, as a person reads it: sentences with names of options in them, which an error alone does not hold.
use anyhow::bail;
use kinds::answers::{Clash, Failure};
use kinds::steps::AtStep;
use options::parts::{Options, Part, Stuck, changes_before};
use product::controller::ChangeFault;
use product::telling::{Numbers, tell};
use std::fmt;
use texts::reading::Unreadable;

// Prints the error, and answers what that means for all options.
pub fn tell_unreadable(rt: &HostRuntime, unreadable: Unreadable) -> anyhow::Result<()> {
    println!(rt; "{unreadable}")?;
    bail!("the options were not read, and none was put on")
}

// The name of an option, each byte as the character of its number, or ? where there is no option. It is only printed.
#[derive(Clone, Copy)]
struct Name<'a>(Option<&'a Part>);

impl<'a> fmt::Display for Name<'a> {
    fn fmt<W: fmt::Write>(&self, f: &mut fmt::Formatter<W>) -> fmt::Result {
        match self.0 {
            Some(part) => {
                for byte in &part.name {
                    f.write_char(char::from(*byte))?;
                }
                Ok(())
            }
            None => f.write_char('?'),
        }
    }
}

// The option whose changes have the place `at` in the row. A loop, since `left` counts down
// from option to option until one reaches past it.
fn option_at(options: &Options, at: usize) -> Option<&Part> {
    let mut left = at;
    for part in &options.parts {
        if left < part.count {
            return Some(part);
        }
        left -= part.count;
    }
    None
}

// The names of all options, in order.
pub fn tell_names(rt: &HostRuntime, options: &Options) -> anyhow::Result<()> {
    for part in &options.parts {
        let name = Name(Some(part));
        print!(rt; " {name}")?;
    }
    println!(rt; "")?;
    Ok(())
}

fn tell_fault(rt: &HostRuntime, options: &Options, at: AtStep<ChangeFault>) -> anyhow::Result<()> {
    let told = tell(at.fault);
    let name = Name(option_at(options, at.step));
    let cause = told.cause;
    println!(rt; "not put on: {name}: {cause}")?;
    let Numbers {
        module,
        sheet,
        step,
        part,
        position,
        ..
    } = told.into();
    println!(rt;
        "  module {module}, sheet {sheet}, step {step}, part {part}, position {position}"
    )?;
    Ok(())
}

pub fn tell_misfit(
    rt: &HostRuntime,
    options: &Options,
    failure: Failure<AtStep<ChangeFault>>,
) -> anyhow::Result<()> {
    match failure {
        Failure::Length => bail!("the run is not as long as a controller"),
        Failure::Overfull => bail!("a list would have more than 120 lines"),
        Failure::Fault(at) => tell_fault(rt, options, at),
    }
}

// Says which later option holds the option at the place `at` back.
pub fn tell_stuck(
    rt: &HostRuntime,
    options: &Options,
    at: usize,
    stuck: Stuck,
) -> anyhow::Result<()> {
    let Stuck::By(stop) = stuck else {
        return Err(stuck.into());
    };
    let behind = changes_before(&options.parts, at.saturating_add(1));
    let name = Name(option_at(options, behind.saturating_add(stop.step)));
    let why = match stop.fault {
        Clash::Refused => "depends on it",
        Clash::TooFar => "would get a number too large to be written",
    };
    println!(rt; "not taken off: {name} {why}")?;
    Ok(())
}
