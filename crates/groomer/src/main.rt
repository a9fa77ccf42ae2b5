// Puts the options of a text file onto a fresh controller, takes one of them off, and prints the controller before and after.
//     groomer FILE [OPTION]
#![tactic(auto)]

mod showing;
mod telling;

use anyhow::bail;
use options::parts::{Options, Stuck};
use product::controller::controller_words;
use showing::show_controller;
use std::{env, fs};
use telling::{tell_misfit, tell_names, tell_stuck, tell_unreadable};
use texts::reading::read_options;

// Puts all options on, and prints what the controller then holds.
fn fit(rt: &HostRuntime, options: &Options, run: &mut [u32]) -> anyhow::Result<()> {
    match options.put_on(run) {
        Ok(()) => show_controller(rt, run),
        Err(failure) => tell_misfit(rt, options, failure),
    }
}

fn take(
    rt: &HostRuntime,
    options: &mut Options,
    name: &str,
    run: &mut [u32],
) -> anyhow::Result<()> {
    let at = options.find(name.as_bytes()).ok_or(Stuck::NoSuchOption)?;
    match options.take_off(rt.alloc(), at) {
        Ok(()) => {
            println!(rt; "taken off: {name}")?;
            fit(rt, options, run)
        }
        Err(stuck) => tell_stuck(rt, options, at, stuck),
    }
}

fn run(rt: &HostRuntime) -> anyhow::Result<()> {
    let mut args = env::args(rt)?;
    let _ = args.next();
    let Some(path) = args.next() else {
        bail!("usage: groomer FILE [OPTION]");
    };
    let text = fs::read_to_string(rt, path.as_str())?;
    let mut options = match read_options(rt.alloc(), text.as_str()) {
        Ok(options) => options,
        Err(unreadable) => return tell_unreadable(rt, unreadable),
    };
    let mut words = vec![in rt.alloc(); 0u32; controller_words() as usize]?;
    print!(rt; "put on:")?;
    tell_names(rt, &options)?;
    fit(rt, &options, &mut words)?;
    match args.next() {
        Some(name) => take(rt, &mut options, name.as_str(), &mut words),
        None => Ok(()),
    }
}

fn main(rt: HostRuntime) -> anyhow::Result<()> {
    run(&rt)
}
