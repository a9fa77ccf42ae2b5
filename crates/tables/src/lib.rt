// Tables of 8 by 8 cells, each of which holds a signed 16-bit value. A patch changes the value of one cell.
#![tactic(auto)]

ghost use Rattle.std.specs.Prelude.{◌≡◌, ℕ, true, false, ℤ, is_ok, if◌then◌else◌, Some, None, ◌≢◌, slice_index};
ghost use Rattle.kinds.specs.Bounded.{Applied};
ghost use Rattle.tables.specs.Table.{in_table, place as place_of, in_range, word as word_of, Read, table};
ghost use Rattle.tables.specs.Proofs.Changes.{table_lawful};

use kinds::answers::{Clash, Failure};
use kinds::counts::roomy;
use kinds::kind::Kind;

// A cell of a table, which has the rows 0 to 7 and the columns 0 to 7.
#[derive(Clone, Copy, Debug, PartialEq, Eq)]
pub struct Cell {
    pub row: u8,
    pub column: u8,
}

#[derive(Clone, Copy, Debug, PartialEq, Eq)]
pub struct CellChange {
    pub cell: Cell,
    pub old: i16,
    pub new: i16,
}

// What a change can find wrong with a table.
#[derive(Clone, Copy, Debug, PartialEq, Eq)]
pub enum CellFault {
    // The cell does not hold the old value, or a table does not have it.
    Differs(Cell),
}

// The kind of tables.
pub struct Tables;

impl Cell {
    // Where the cell stands among a table's cells, which are taken by rows, if a table has it.
    pub fn place(self) -> Option<usize>
        ensures { result ≡ (if in_table self then Some (place_of self) else None) }
    {
        let inside = self.row < 8 && self.column < 8;
        inside.then(|| usize::from(self.row) * 8 + usize::from(self.column))
    }
}

// The word of a cell that holds the value: the value modulo 65,536.
// This and the next are functions and no `From`, since both types are the library's.
pub fn cell_word(value: i16) -> u32
    ensures modulo { result ≡ word_of value }
    ensures exact { (v : ℤ) → in_range v ≡ true → result ≡ word_of v → v ≡ value }
{
    u32::from(value.cast_unsigned())
}

// The value of a cell with this word. Each value from -32,768 to 32,767 is read back from its word.
pub fn word_cell(word: u32) -> Option<i16>
    ensures read { Read word result }
    ensures exact { (v : ℤ) → in_range v ≡ true → word ≡ word_of v → result ≡ Some v }
{
    u16::try_from(word).ok().map(|bits| bits.cast_signed())
}

impl Kind for Tables {
    type Patch = CellChange;

    type Fault = CellFault;

    ghost theory = { table };

    ghost lawful = { table_lawful };

    fn words() -> u32 {
        64
    }

    fn writable(p: CellChange) -> bool {
        p.cell.place().is_some()
    }

    fn grows_by(_p: CellChange) -> u32 {
        0
    }

    fn invert(p: CellChange) -> CellChange {
        CellChange {
            old: p.new,
            new: p.old,
            ..p
        }
    }

    fn commute(p: CellChange, q: CellChange) -> Result<(CellChange, CellChange), Clash> {
        if p.cell == q.cell {
            return Err(Clash::Refused);
        }
        Ok((q, p))
    }

    // In any run only the word of the cell is written, and none after a failure.
    fn apply(p: CellChange, run: &mut [u32]) -> Result<(), Failure<CellFault>>
        ensures applied { Applied table p run.old result run.new }
        ensures failed { is_ok result ≡ false → run.new ≡ run.old }
        ensures others { (k : ℕ) → (k ≢ place_of p.cell) → slice_index run.new k ≡ slice_index run.old k }
    {
        if !roomy(run, Self::words()) {
            return Err(Failure::Length);
        }
        let differs = Failure::Fault(CellFault::Differs(p.cell));
        let place = p.cell.place().ok_or(differs)?;
        if run[place] != cell_word(p.old) {
            return Err(differs);
        }
        run[place] = cell_word(p.new);
        Ok(())
    }
}
