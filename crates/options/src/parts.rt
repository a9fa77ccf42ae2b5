// Options in a row, put onto a fresh controller and taken off again.
ghost use Rattle.std.specs.Prelude.{◌≡◌, ◌^◌, ◌<◌, ◌≤◌, ◌↔◌, length, is_ok, if◌then◌else◌, IsErrOf};
ghost use Rattle.std.specs.List.{remove};
ghost use Rattle.rows.specs.Replay.{Replayed};
ghost use Rattle.product.specs.Controller.{controller};
ghost use Rattle.options.specs.declared.parts.Stuck.TheVariants.{NoMemory as no_memory, By as by};
ghost use Rattle.options.specs.Fitting.{start_of, TakenOff};
ghost use Rattle.options.specs.Parts.{FirstNamed};

use kinds::answers::{Clash, Failure};
use kinds::steps::AtStep;
use product::controller::{Change, ChangeFault, Controller};
use rows::place::Place;
use rows::replay::replay_fresh;
use rows::take_out::take_out;
use std::alloc::{AllocError, Global};
use thiserror::Error;

// An option: its name, and the number of its changes. A name is any bytes, which a text could not hold.
#[derive(Debug, Drop, PartialEq, Eq)]
pub struct Part {
    pub name: Vec<u8>,
    pub count: usize,
}

// Options, in the order in which they are put on: their changes stand in one row, those of each option together.
// One row and none in each part, since options are put on and taken off in the row of all.
#[derive(Debug, Drop, PartialEq, Eq)]
pub struct Options {
    pub parts: Vec<Part>,
    pub row: Vec<Change>,
}

// Why an option was not taken off.
#[derive(Clone, Copy, Debug, PartialEq, Eq, Error)]
pub enum Stuck {
    #[error("there is no memory left")]
    NoMemory,
    #[error("there is no such option")]
    NoSuchOption,
    // A change behind it, told by its place among those behind it, does not commute with it.
    #[error("a change of a later option does not commute with it")]
    By(AtStep<Clash>),
}

// The conversions are by hand, since clauses name the error that they make, and a derived one has no contract.
impl From<AllocError> for Stuck {
    ghost from_gives = { λ _ stuck. stuck ≡ no_memory };

    fn from(_e: AllocError) -> Stuck {
        Stuck::NoMemory
    }
}

impl From<AtStep<Clash>> for Stuck {
    ghost from_gives = { λ stop stuck. stuck ≡ by stop };

    fn from(stop: AtStep<Clash>) -> Stuck {
        Stuck::By(stop)
    }
}

// The number of changes of the first `count` options.
pub fn changes_before(parts: &[Part], count: usize) -> usize
    ensures { start_of parts.now count < 2 ^ 64 → result ≡ start_of parts.now count }
{
    parts
        .iter()
        .take(count)
        .fold(0usize, |sum, part| sum.saturating_add(part.count))
}

impl Options {
    // The place of the option of a name, the first if there are several. The closure has the name itself: with a reference to
    // it the search took a quarter more time, and it is nearly all that reading a text of many options takes.
    pub fn find(&self, name: &[u8]) -> Option<usize>
        ensures { FirstNamed self.now.parts.items name.now result }
    {
        self.parts
            .iter()
            .position(move |part| part.name.as_slice() == name)
    }

    // Puts all options onto a fresh controller, in order. A fault tells the place in the row of the change that found it.
    pub fn put_on(&self, run: &mut [u32]) -> Result<(), Failure<AtStep<ChangeFault>>>
        ensures { Replayed controller self.now.row.items run.old result run.new }
    {
        replay_fresh::<Controller>(&self.row, run)
    }

    // Takes the option at a place off: its changes commute right over all behind them, and are dropped. Where that is
    // stopped, or memory fails, all options stay as they were.
    pub fn take_off(&mut self, heap: Global, at: usize) -> Result<(), Stuck>
        ensures row { start_of self.old.parts.items at < 2 ^ 64 → TakenOff self.old.row.items self.old.parts.items at result self.new.row.items }
        ensures absent { IsErrOf result Stuck.NoSuchOption ↔ (length self.old.parts.items ≤ at) }
        ensures parts { self.new.parts.items ≡ (if is_ok result then remove self.old.parts.items at else self.old.parts.items) }
    {
        let Some(part) = self.parts.get(at) else {
            return Err(Stuck::NoSuchOption);
        };
        let place = Place {
            start: changes_before(&self.parts, at),
            count: part.count,
        };
        let mut row = Vec::from_slice(heap, &self.row)?;
        let left = take_out::<Controller>(&mut row, place)?;
        row.truncate(left);
        self.row = row;
        drop(self.parts.remove(at));
        Ok(())
    }
}
