// A fault of a change, told by its cause and its place, and as six numbers.
ghost use Rattle.std.specs.Prelude.{◌≡◌};
ghost use Rattle.product.specs.Telling.{cause_number, part_number, found, told, numbers_of};

use crate::controller::{ChangeFault, StepFault};
use lists::hunk::ListFault;
use modules::{Module, ModuleFault};
use sheets::{Sheet, SheetFault};
use sides::Side;
use std::fmt;
use tables::CellFault;

// What a change finds wrong with a controller.
#[derive(Clone, Copy, Debug, PartialEq, Eq)]
pub enum Cause {
    SheetAbsent,
    SheetThere,
    NotFresh,
    PastEnd,
    LineDiffers,
    CellDiffers,
}

// A part of a sheet.
#[derive(Clone, Copy, Debug, PartialEq, Eq)]
pub enum Part {
    Notes,
    Rules,
    Table,
}

// Where in a sheet a step found its fault.
#[derive(Clone, Copy, Debug, PartialEq, Eq)]
pub struct Place {
    pub step: usize,
    pub part: Part,
    // The length of the list that ends too early, the line that differs, or the cell that differs, counted by rows.
    pub position: u32,
}

// A fault. One of a whole sheet has no place in it.
#[derive(Clone, Copy, Debug, PartialEq, Eq)]
pub struct Told {
    pub cause: Cause,
    pub module: Module,
    pub sheet: Sheet,
    pub place: Option<Place>,
}

// The six numbers of a fault, as the rules give them.
#[derive(Clone, Copy, Debug, PartialEq, Eq)]
pub struct Numbers {
    pub cause: u8,
    pub module: u8,
    pub sheet: u8,
    pub step: usize,
    pub part: u8,
    pub position: u32,
}

impl From<Cause> for u8 {
    ghost from_gives = { λ cause number. number ≡ cause_number cause };

    fn from(cause: Cause) -> u8 {
        match cause {
            Cause::SheetAbsent => 1,
            Cause::SheetThere => 2,
            Cause::NotFresh => 3,
            Cause::PastEnd => 4,
            Cause::LineDiffers => 5,
            Cause::CellDiffers => 6,
        }
    }
}

impl From<Part> for u8 {
    ghost from_gives = { λ part number. number ≡ part_number part };

    fn from(part: Part) -> u8 {
        match part {
            Part::Notes => 0,
            Part::Rules => 1,
            Part::Table => 2,
        }
    }
}

// By hand, since a cause is told of a fault and is no error itself.
impl fmt::Display for Cause {
    fn fmt<W: fmt::Write>(&self, f: &mut fmt::Formatter<W>) -> fmt::Result {
        f.write_str(match self {
            Cause::SheetAbsent => "the sheet is absent",
            Cause::SheetThere => "the sheet is there",
            Cause::NotFresh => "the sheet is not fresh",
            Cause::PastEnd => "the hunk reaches past the end of the list",
            Cause::LineDiffers => "the old line differs",
            Cause::CellDiffers => "the cell differs",
        })
    }
}

impl From<Told> for Numbers {
    ghost from_gives = { λ fault numbers. numbers ≡ numbers_of fault };

    fn from(told: Told) -> Numbers {
        let place = told.place.unwrap_or(Place {
            step: 0,
            part: Part::Notes,
            position: 0,
        });
        Numbers {
            cause: told.cause.into(),
            module: told.module.0,
            sheet: told.sheet.0,
            step: place.step,
            part: place.part.into(),
            position: place.position,
        }
    }
}

// What was found in a part of a sheet: the cause, the part and the position.
fn find(fault: StepFault) -> (Cause, Part, u32)
    ensures { result ≡ found fault }
{
    match fault {
        Side::Left(ListFault::PastEnd { length }) => (Cause::PastEnd, Part::Notes, length),
        Side::Left(ListFault::Differs { at }) => (Cause::LineDiffers, Part::Notes, at),
        Side::Right(Side::Left(ListFault::PastEnd { length })) => (
            Cause::PastEnd,
            Part::Rules,
            length,
        ),
        Side::Right(Side::Left(ListFault::Differs { at })) => (Cause::LineDiffers, Part::Rules, at),
        Side::Right(Side::Right(CellFault::Differs(cell))) => (
            Cause::CellDiffers,
            Part::Table,
            // Not `Cell::place`: a cell that no table has is told too.
            u32::from(cell.row) * 8 + u32::from(cell.column),
        ),
    }
}

// The cause of a fault, and where it was found. A module that is not there has no sheets.
pub fn tell(fault: ChangeFault) -> Told
    ensures { result ≡ told fault }
{
    let (module, fault) = match fault {
        ModuleFault::NoModule(module) => (module, SheetFault::Absent(Sheet(0))),
        ModuleFault::Inside(module, fault) => (module, fault),
    };
    let (cause, sheet, place) = match fault {
        SheetFault::Absent(sheet) => (Cause::SheetAbsent, sheet, None),
        SheetFault::There(sheet) => (Cause::SheetThere, sheet, None),
        SheetFault::NotFresh(sheet) => (Cause::NotFresh, sheet, None),
        SheetFault::Inside(sheet, at) => {
            let (cause, part, position) = find(at.fault);
            let place = Place {
                step: at.step,
                part,
                position,
            };
            (cause, sheet, Some(place))
        }
    };
    Told {
        cause,
        module,
        sheet,
        place,
    }
}
