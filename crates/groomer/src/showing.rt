// A controller, as a person reads it.
use kinds::kind::Kind;
use lines::line::Line;
use lines::note::Note;
use lines::rule::Rule;
use lists::Lists;
use product::controller::{Content, MODULE_NAMES};
use std::{fmt, io};

const SHEETS: usize = 4;

const COLUMNS: usize = 8;

// The text of a note, without the zero bytes behind it. It is only printed.
#[derive(Clone, Copy)]
struct Text(Note);

impl fmt::Display for Text {
    fn fmt<W: fmt::Write>(&self, f: &mut fmt::Formatter<W>) -> fmt::Result {
        for byte in self.0.bytes() {
            if byte != 0 {
                f.write_char(char::from(byte))?;
            }
        }
        Ok(())
    }
}

fn show_notes(rt: &HostRuntime, words: &[u32]) -> io::Result<()> {
    let Some((count, lines)) = words.split_first() else {
        return Ok(());
    };
    println!(rt; "    notes")?;
    for (i, line) in lines
        .chunks_exact(Note::words() as usize)
        .take(*count as usize)
        .enumerate()
    {
        if let Some(note) = Note::read(line) {
            let text = Text(note);
            println!(rt; "      {i} \"{text}\"")?;
        }
    }
    Ok(())
}

fn show_rules(rt: &HostRuntime, words: &[u32]) -> io::Result<()> {
    let Some((count, rules)) = words.split_first() else {
        return Ok(());
    };
    println!(rt; "    rules")?;
    for (i, rule) in rules.iter().take(*count as usize).enumerate() {
        println!(rt; "      {i} {rule:08x}")?;
    }
    Ok(())
}

fn show_table(rt: &HostRuntime, words: &[u32]) -> io::Result<()> {
    println!(rt; "    cells")?;
    for (row, words) in words.chunks(COLUMNS).enumerate() {
        for (column, word) in words.iter().enumerate() {
            if let Some(value) = tables::word_cell(*word)
                && value != 0
            {
                println!(rt; "      {row} {column} {value}")?;
            }
        }
    }
    Ok(())
}

// Prints a sheet that is there.
fn show_sheet(rt: &HostRuntime, words: &[u32]) -> io::Result<()> {
    let Some((notes, words)) = words.split_at_checked(Lists::<Note>::words() as usize) else {
        return Ok(());
    };
    let Some((rules, cells)) = words.split_at_checked(Lists::<Rule>::words() as usize) else {
        return Ok(());
    };
    show_notes(rt, notes)?;
    show_rules(rt, rules)?;
    show_table(rt, cells)
}

// Prints every sheet that is there. A sheet has a word in front that says whether it is.
pub fn show_controller(rt: &HostRuntime, run: &[u32]) -> anyhow::Result<()> {
    let words = 1 + Content::words() as usize;
    for (module, sheets) in MODULE_NAMES.iter().zip(run.chunks(SHEETS * words)) {
        for (number, sheet) in sheets.chunks(words).enumerate() {
            if let [1, words @ ..] = sheet {
                println!(rt; "  module {module} sheet {number}")?;
                show_sheet(rt, words)?;
            }
        }
    }
    Ok(())
}
