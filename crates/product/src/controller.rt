// The kind of the product's changes: modules over sheets over pairs over sides of notes and (sides of rules and table).
ghost use Rattle.std.specs.Prelude.{◌≡◌};

use kinds::kind::Kind;
use kinds::steps::AtStep;
use lines::line::Line;
use lines::note::Note;
use lines::rule::Rule;
use lists::Lists;
use lists::hunk::{Hunk, ListFault};
use modules::{InModule, ModuleFault, Modules};
use pairs::{Pairs, Steps};
use sheets::{SheetChange, SheetFault, Sheets};
use sides::{Side, Sides};
use tables::{CellChange, CellFault, Tables};

// What a sheet holds: notes, rules and a table.
pub type Content = Sides<Lists<Note>, Sides<Lists<Rule>, Tables>>;

pub type Controller = Modules<Sheets<Pairs<Content>>>;

// A step changes the notes, the rules or the table of a sheet.
pub type Step = Side<Hunk<Note>, Side<Hunk<Rule>, CellChange>>;

pub type StepFault = Side<ListFault, Side<ListFault, CellFault>>;

pub type Change = InModule<SheetChange<Steps<Step>>>;

pub type ChangeFault = ModuleFault<SheetFault<AtStep<StepFault>>>;

// The names of the modules, in the order of their numbers.
pub const MODULE_NAMES: [&str; 3] = ["basic", "winch", "tiller"];

// The number of words of a controller.
pub fn controller_words() -> u32
    ensures { result ≡ 8004 }
{
    Controller::words()
}
