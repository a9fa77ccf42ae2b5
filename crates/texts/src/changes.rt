// A change of the controller, read from the words of a line.
ghost use Rattle.std.specs.Prelude.{◌≡◌, true, IfOk};
ghost use Rattle.product.specs.Controller.{controller};

use crate::numbers::{signed, unsigned};
use crate::words::{Word, Words};
use kinds::kind::Kind;
use lines::note::Note;
use lines::rule::Rule;
use lists::hunk::{Hunk, Lines};
use modules::{InModule, Module};
use pairs::Steps;
use product::controller::{Change, Controller, MODULE_NAMES, Step};
use sheets::{Sheet, SheetChange};
use sides::Side;
use std::iter::Peekable;
use tables::{Cell, CellChange};
use thiserror::Error;

// Why a line is no change.
#[derive(Clone, Copy, Debug, PartialEq, Eq, Error)]
pub enum Reason {
    #[error("a module is expected: basic, winch, tiller or a number")]
    ModuleExpected,
    #[error("the number of a sheet is expected")]
    SheetExpected,
    #[error("create, remove, move, notes, rules or cell is expected")]
    FormExpected,
    #[error("a number is expected, and one that its field can hold")]
    NumberExpected,
    #[error("a line is expected: a number for rules, a quoted text of at most 16 bytes for notes, or - for none")]
    LineExpected,
    #[error("-> is expected")]
    ArrowExpected,
    #[error("a quote is not closed")]
    TextNotClosed,
    #[error("there are words behind the change")]
    WordsLeft,
    #[error("the fields make no patch: a number is out of its range, the hunk has no line, the sheet is moved onto itself, or a note has a byte that is no text")]
    NoPatch,
}

// A line of a list, as it is written in a text.
trait Spelled: Copy {
    fn spelled(word: Option<Word>) -> Option<Self>;
}

impl Spelled for Rule {
    fn spelled(word: Option<Word>) -> Option<Rule> {
        match word {
            Some(Word::Plain(text)) => unsigned(text).map(Rule),
            _ => None,
        }
    }
}

impl Spelled for Note {
    fn spelled(word: Option<Word>) -> Option<Note> {
        match word {
            Some(Word::Quoted(text)) => note(text),
            _ => None,
        }
    }
}

// One byte of a quoted text and what is left of it: a backslash takes the next byte as it is, and \x two hexadecimal digits.
fn first_byte(text: &[u8]) -> Option<(u8, &[u8])> {
    match text {
        [b'\\', b'x', high, low, rest @ ..] => Some((unsigned(&[b'0', b'x', *high, *low])?, rest)),
        [b'\\', b'x', ..] => None,
        [b'\\', byte, rest @ ..] => Some((*byte, rest)),
        [byte, rest @ ..] => Some((*byte, rest)),
        [] => None,
    }
}

// The note of a quoted text of at most sixteen bytes.
fn note(text: &[u8]) -> Option<Note> {
    let mut bytes = [0u8; 16];
    let mut rest = text;
    for place in bytes.iter_mut() {
        if rest.is_empty() {
            break;
        }
        let (byte, more) = first_byte(rest)?;
        *place = byte;
        rest = more;
    }
    if rest.is_empty() {
        Note::from_bytes(&bytes)
    } else {
        None
    }
}

// What the next word gives, if it is a plain one that `read` can read.
fn next_plain<T, F: FnOnce(&[u8]) -> Option<T>>(
    words: &mut Peekable<Words>,
    read: F,
    expected: Reason,
) -> Result<T, Reason>
    requires { F.IsAlwaysCallable read }
{
    match words.next() {
        Some(Word::Plain(text)) => read(text).ok_or(expected),
        _ => Err(expected),
    }
}

fn next_number<N, F: FnOnce(&[u8]) -> Option<N>>(
    words: &mut Peekable<Words>,
    read: F,
) -> Result<N, Reason>
    requires { F.IsAlwaysCallable read }
{
    next_plain(words, read, Reason::NumberExpected)
}

fn next_arrow(words: &mut Peekable<Words>) -> Result<(), Reason> {
    match words.next() {
        Some(Word::Plain(b"->")) => Ok(()),
        _ => Err(Reason::ArrowExpected),
    }
}

// No line, written as a minus sign, or one or two.
fn next_lines<L: Spelled>(words: &mut Peekable<Words>) -> Result<Lines<L>, Reason> {
    match words.next() {
        Some(Word::Plain(b"-")) => Ok(Lines::Zero),
        Some(Word::Open) => Err(Reason::TextNotClosed),
        word => {
            let first = L::spelled(word).ok_or(Reason::LineExpected)?;
            match L::spelled(words.peek().copied()) {
                Some(second) => {
                    let _ = words.next();
                    Ok(Lines::Two(first, second))
                }
                None => Ok(Lines::One(first)),
            }
        }
    }
}

fn next_hunk<L: Spelled>(words: &mut Peekable<Words>) -> Result<Hunk<L>, Reason> {
    let start = next_number(words, unsigned)?;
    let old = next_lines(words)?;
    next_arrow(words)?;
    let new = next_lines(words)?;
    Ok(Hunk { start, old, new })
}

fn next_cell(words: &mut Peekable<Words>) -> Result<CellChange, Reason> {
    let row = next_number(words, unsigned)?;
    let column = next_number(words, unsigned)?;
    let old = next_number(words, signed)?;
    next_arrow(words)?;
    let new = next_number(words, signed)?;
    Ok(CellChange {
        cell: Cell { row, column },
        old,
        new,
    })
}

// What follows the word that names a part of a sheet.
fn next_step(part: Option<Word>, words: &mut Peekable<Words>) -> Result<Step, Reason> {
    match part {
        Some(Word::Plain(b"notes")) => Ok(Side::Left(next_hunk(words)?)),
        Some(Word::Plain(b"rules")) => Ok(Side::Right(Side::Left(next_hunk(words)?))),
        Some(Word::Plain(b"cell")) => Ok(Side::Right(Side::Right(next_cell(words)?))),
        _ => Err(Reason::FormExpected),
    }
}

// One step, or two with the word `then` between them.
fn next_steps(part: Option<Word>, words: &mut Peekable<Words>) -> Result<Steps<Step>, Reason> {
    let first = next_step(part, words)?;
    match words.peek() {
        Some(Word::Plain(b"then")) => {
            let _ = words.next();
            let part = words.next();
            Ok(Steps::Two(first, next_step(part, words)?))
        }
        _ => Ok(Steps::One(first)),
    }
}

// A module by its name or its number.
fn module(text: &[u8]) -> Option<Module> {
    match MODULE_NAMES.iter().position(|name| name.as_bytes() == text) {
        Some(number) => u8::try_from(number).ok().map(Module),
        None => unsigned(text).map(Module),
    }
}

fn next_sheet(words: &mut Peekable<Words>) -> Result<Sheet, Reason> {
    let number = next_plain(words, unsigned, Reason::SheetExpected)?;
    Ok(Sheet(number))
}

fn next_change(words: &mut Peekable<Words>) -> Result<Change, Reason> {
    let module = next_plain(words, module, Reason::ModuleExpected)?;
    let sheet = next_sheet(words)?;
    let patch = match words.next() {
        Some(Word::Plain(b"create")) => SheetChange::Create(sheet),
        Some(Word::Plain(b"remove")) => SheetChange::Remove(sheet),
        Some(Word::Plain(b"move")) => SheetChange::Move {
            from: sheet,
            to: next_sheet(words)?,
        },
        part => SheetChange::Inside(sheet, next_steps(part, words)?),
    };
    Ok(InModule { module, patch })
}

// The change that the words make, if they make one that can be written.
pub(crate) fn read_change(words: &mut Peekable<Words>) -> Result<Change, Reason>
    ensures { IfOk result (λ c. controller.written c ≡ true) }
{
    let change = next_change(words)?;
    match words.next() {
        None => {}
        Some(Word::Open) => return Err(Reason::TextNotClosed),
        Some(_) => return Err(Reason::WordsLeft),
    }
    if Controller::writable(change) {
        Ok(change)
    } else {
        Err(Reason::NoPatch)
    }
}
