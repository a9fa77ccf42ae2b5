// A text of options.
ghost use Rattle.std.specs.Prelude.{◌≡◌, ◌≤◌, true, [], ◌∷◌, ◌++◌, is_ok, IfOk, IfErr, if◌then◌else◌};
ghost use Rattle.kinds.specs.Sequences.{all_written};
ghost use Rattle.product.specs.Controller.{controller};

use crate::changes::{Reason, read_change};
use crate::words::{Word, Words};
use options::parts::{Options, Part};
use product::controller::Change;
use std::alloc::{AllocError, Global};
use std::iter::Peekable;
use thiserror::Error;

// Why a line of the text could not be read.
#[derive(Clone, Copy, Debug, PartialEq, Eq, Error)]
pub enum Complaint {
    #[error("there is no memory left")]
    NoMemory(#[from(alloc)] AllocError),
    #[error("the option has no name")]
    OptionHasNoName,
    #[error("there is an option of that name above")]
    NameIsTaken,
    #[error("the change belongs to no option")]
    NoOptionYet,
    #[error("there are words behind the option's name")]
    WordsLeft,
    #[error(transparent)]
    NoChange(#[from] Reason),
}

// The first line that could not be read, counted from 1, and why.
#[derive(Clone, Copy, Debug, PartialEq, Eq, Error)]
#[error("line {line}: {complaint}")]
pub struct Unreadable {
    pub line: usize,
    pub complaint: Complaint,
}

// Begins an option, with the name that the words give.
fn begin(options: &mut Options, heap: Global, words: &mut Peekable<Words>) -> Result<(), Complaint>
    ensures { options.new.row.items ≡ options.old.row.items }
{
    let Some(Word::Plain(name)) = words.next() else {
        return Err(Complaint::OptionHasNoName);
    };
    if options.find(name).is_some() {
        return Err(Complaint::NameIsTaken);
    }
    if words.next().is_some() {
        return Err(Complaint::WordsLeft);
    }
    let name = Vec::from_slice(heap, name)?;
    options.parts.push(Part { name, count: 0 })?;
    Ok(())
}

// Adds a change to the last option.
fn add(options: &mut Options, change: Change) -> Result<(), Complaint>
    ensures { options.new.row.items ≡ (if is_ok result then options.old.row.items ++ change ∷ [] else options.old.row.items) }
{
    let Some(part) = options.parts.last_mut() else {
        return Err(Complaint::NoOptionYet);
    };
    options.row.push(change)?;
    part.count = part.count.saturating_add(1);
    Ok(())
}

// Reads one line of the text.
fn read_line(options: &mut Options, heap: Global, line: &[u8]) -> Result<(), Complaint>
    ensures { all_written controller options.old.row.items ≡ true → all_written controller options.new.row.items ≡ true }
{
    let mut words = Words::new(line).peekable();
    match words.peek() {
        None => Ok(()),
        Some(Word::Plain(b"option")) => {
            let _ = words.next();
            begin(options, heap, &mut words)
        }
        Some(_) => {
            let change = read_change(&mut words)?;
            add(options, change)
        }
    }
}

// The options of a text. Every change that is read can be written; a text that has a line that cannot be read gives no
// options, but the line and the reason.
pub fn read_options(heap: Global, text: &str) -> Result<Options, Unreadable>
    ensures written { IfOk result (λ o. all_written controller o.row.items ≡ true) }
    ensures from_one { IfErr result (λ unreadable. 1 ≤ unreadable.line) }
{
    let mut options = Options {
        parts: Vec::new(heap),
        row: Vec::new(heap),
    };
    for (i, line) in text.lines().enumerate() {
        read_line(&mut options, heap, line.as_bytes()).map_err(|complaint| Unreadable {
            line: i.saturating_add(1),
            complaint,
        })?;
    }
    Ok(options)
}
