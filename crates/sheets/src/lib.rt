// Sheets: for each of four sheets a document has a document of the kind below or none. A change makes, removes or moves a sheet, or changes it inside.
#![tactic(auto)]

ghost use Rattle.std.specs.Prelude.{◌≡◌, ◌+◌, ◌*◌, ◌<◌, ◌≤◌, ◌⊎◌, ◌^◌, length, if◌then◌else◌, Some, None, IfOk, IfSome, ◌==◌, nat_lt};
ghost use Rattle.kinds.specs.Bounded.{Applied, saturated};
ghost use Rattle.std.specs.List.{list_all};
ghost use Rattle.sheets.specs.declared.SheetChange.TheVariants.{Create as creating, Remove as removing, Move as moving, Inside as changing};
ghost use Rattle.sheets.specs.Proofs.SheetLaws.{sheets_lawful};
ghost use Rattle.sheets.specs.Sheets.{touches as is_of, share as are_of_one, there_at, absent_at, moved_words, FourRuns, FourSheets, Worked, Others, sheets as the_sheets};

use kinds::answers::{Clash, Failure};
use kinds::counts::{roomy, total};
use kinds::kind::Kind;

// The number of a sheet, from 0 to 3. No enum, so that one that no sheet has can be told and refused.
#[derive(Clone, Copy, Debug, PartialEq, Eq)]
pub struct Sheet(pub u8);

#[derive(Clone, Copy, Debug, PartialEq, Eq)]
pub enum SheetChange<P> {
    // A fresh sheet where there is none.
    Create(Sheet),
    // No sheet where there is a fresh one.
    Remove(Sheet),
    // A sheet, with all that it holds, to where there is none.
    Move { from: Sheet, to: Sheet },
    // A patch of the kind below, in a sheet.
    Inside(Sheet, P),
}

#[derive(Clone, Copy, Debug, PartialEq, Eq)]
pub enum SheetFault<F> {
    // The sheet is not there.
    Absent(Sheet),
    // The sheet is there.
    There(Sheet),
    // The sheet is there, and is not fresh.
    NotFresh(Sheet),
    // What the patch found wrong in this sheet.
    Inside(Sheet, F),
}

// The kind of documents with four sheets of the kind K.
pub struct Sheets<K> {
    below: K,
}

const COUNT: u8 = 4;

// Whether the change is of the sheet x.
fn touches<P: Copy>(c: SheetChange<P>, x: Sheet) -> bool
    ensures { result ≡ is_of c x }
{
    match c {
        SheetChange::Create(a) | SheetChange::Remove(a) | SheetChange::Inside(a, _) => a == x,
        SheetChange::Move { from, to } => from == x || to == x,
    }
}

// Whether two changes are of one sheet.
fn share<P: Copy>(c: SheetChange<P>, d: SheetChange<P>) -> bool
    ensures { result ≡ are_of_one c d }
{
    match c {
        SheetChange::Create(a) | SheetChange::Remove(a) | SheetChange::Inside(a, _) => touches(
            d, a,
        ),
        SheetChange::Move { from, to } => touches(d, from) || touches(d, to),
    }
}

// Where the words of the sheet a begin, of four sheets of `width` words each.
fn find(width: usize, a: Sheet) -> Option<usize>
    requires { 4 * width < 2 ^ 64 }
    ensures found { result ≡ (if nat_lt a.0 4 then Some (a.0 * width) else None) }
    ensures within { IfSome result (λ at. at + width ≤ 4 * width) }
{
    (a.0 < COUNT).then(|| usize::from(a.0) * width)
}

// Run and width are two parameters, here and below: of a struct that holds a lent run contracts would say what comes back.

// Where the words of the sheet a begin, if it is there.
fn find_there<F>(run: &[u32], width: usize, a: Sheet) -> Result<usize, Failure<SheetFault<F>>>
    requires { FourRuns width run.now }
    ensures found { result ≡ there_at width a run.now }
    ensures within { IfOk result (λ at. at + width ≤ length run.now) }
{
    match find(width, a) {
        Some(at) if run[at] != 0 => Ok(at),
        _ => Err(Failure::Fault(SheetFault::Absent(a))),
    }
}

// Where the words of the sheet a begin, if it is absent.
fn find_absent<F>(run: &[u32], width: usize, a: Sheet) -> Result<usize, Failure<SheetFault<F>>>
    requires { FourRuns width run.now }
    ensures found { result ≡ absent_at width a run.now }
    ensures within { IfOk result (λ at. at + width ≤ length run.now) }
{
    match find(width, a) {
        Some(at) if run[at] == 0 => Ok(at),
        Some(_) => Err(Failure::Fault(SheetFault::There(a))),
        None => Err(Failure::Fault(SheetFault::Absent(a))),
    }
}

// Whether all words are zero.
fn all_zero(run: &[u32]) -> bool
    ensures { result ≡ list_all (λ x. x == 0) run.now }
{
    run.iter().all(|word| *word == 0)
}

// Moves `count` words to a place apart from theirs, and leaves zeros.
fn move_words(run: &mut [u32], from: usize, to: usize, count: usize)
    requires { (from + count ≤ length run.old) × ((to + count ≤ length run.old) × ((from + count ≤ to) ⊎ (to + count ≤ from))) }
    ensures { run.new ≡ moved_words from to count run.old }
{
    run.copy_within(from..from + count, to);
    run[from..from + count].fill(0);
}

// The four changes of a run that holds four sheets of `width` words each. An absent sheet's words are all zero,
// and so are those of a fresh document, so that creating and removing write the first word only.
fn create<K: Kind>(
    a: Sheet,
    run: &mut [u32],
    width: usize,
) -> Result<(), Failure<SheetFault<K::Fault>>>
    requires { FourSheets K.Kind.theory width run.old }
    ensures { Worked K.Kind.theory (creating a) run.old result run.new }
{
    let at = find_absent(run, width, a)?;
    run[at] = 1;
    Ok(())
}

// A sheet that is not there is told before one that is not fresh.
fn remove<K: Kind>(
    a: Sheet,
    run: &mut [u32],
    width: usize,
) -> Result<(), Failure<SheetFault<K::Fault>>>
    requires { FourSheets K.Kind.theory width run.old }
    ensures { Worked K.Kind.theory (removing a) run.old result run.new }
{
    let at = find_there(run, width, a)?;
    if !all_zero(&run[at + 1..at + width]) {
        return Err(Failure::Fault(SheetFault::NotFresh(a)));
    }
    run[at] = 0;
    Ok(())
}

// The source is tested before the target.
fn move_sheet<K: Kind>(
    from: Sheet,
    to: Sheet,
    run: &mut [u32],
    width: usize,
) -> Result<(), Failure<SheetFault<K::Fault>>>
    requires { FourSheets K.Kind.theory width run.old }
    ensures { Worked K.Kind.theory (moving from to) run.old result run.new }
{
    let source = find_there(run, width, from)?;
    let target = find_absent(run, width, to)?;
    move_words(run, source, target, width);
    Ok(())
}

// Lends the kind below the words of the one sheet.
fn inside<K: Kind>(
    a: Sheet,
    p: K::Patch,
    run: &mut [u32],
    width: usize,
) -> Result<(), Failure<SheetFault<K::Fault>>>
    requires { FourSheets K.Kind.theory width run.old }
    ensures { Worked K.Kind.theory (changing a p) run.old result run.new }
{
    let at = find_there(run, width, a)?;
    K::apply(p, &mut run[at + 1..at + width]).map_err(|failure| failure.map(
        |fault| SheetFault::Inside(a, fault),
    ))
}

// The number of words of a sheet.
fn sheet_words<K: Kind>() -> u32
    ensures { result ≡ saturated (1 + K.Kind.theory.width) }
{
    total(1, 1, K::words())
}

impl<K: Kind> Kind for Sheets<K> {
    type Patch = SheetChange<K::Patch>;

    type Fault = SheetFault<K::Fault>;

    ghost theory = { the_sheets K.Kind.theory };

    ghost lawful = { sheets_lawful K.Kind.theory K.lawful };

    fn words() -> u32 {
        total(COUNT as u32, sheet_words::<K>(), 0)
    }

    fn writable(p: SheetChange<K::Patch>) -> bool {
        match p {
            SheetChange::Create(a) | SheetChange::Remove(a) => a.0 < COUNT,
            SheetChange::Move { from, to } => from.0 < COUNT && to.0 < COUNT && from != to,
            SheetChange::Inside(a, x) => a.0 < COUNT && K::writable(x),
        }
    }

    fn grows_by(p: SheetChange<K::Patch>) -> u32 {
        match p {
            SheetChange::Create(_) | SheetChange::Remove(_) | SheetChange::Move { .. } => 0,
            SheetChange::Inside(_, x) => K::grows_by(x),
        }
    }

    fn invert(p: SheetChange<K::Patch>) -> SheetChange<K::Patch> {
        match p {
            SheetChange::Create(a) => SheetChange::Remove(a),
            SheetChange::Remove(a) => SheetChange::Create(a),
            SheetChange::Move { from, to } => SheetChange::Move { from: to, to: from },
            SheetChange::Inside(a, x) => SheetChange::Inside(a, K::invert(x)),
        }
    }

    fn commute(
        p: SheetChange<K::Patch>,
        q: SheetChange<K::Patch>,
    ) -> Result<(SheetChange<K::Patch>, SheetChange<K::Patch>), Clash> {
        if !share(p, q) {
            return Ok((q, p));
        }
        match (p, q) {
            (SheetChange::Inside(a, x), SheetChange::Inside(b, y)) => {
                let (second, first) = K::commute(x, y)?;
                Ok((
                    SheetChange::Inside(b, second),
                    SheetChange::Inside(a, first),
                ))
            }
            // Numbers in the guards: the prover does not cover a call of `==` there before p and q are used again.
            (SheetChange::Move { from, to }, SheetChange::Inside(a, x)) if a.0 == to.0 => Ok((
                SheetChange::Inside(from, x),
                p,
            )),
            (SheetChange::Inside(a, x), SheetChange::Move { from, to }) if a.0 == from.0 => Ok((
                q,
                SheetChange::Inside(to, x),
            )),
            _ => Err(Clash::Refused),
        }
    }

    // Lends the kind below the words of one sheet, and writes those of the sheets that the change is of.
    fn apply(p: SheetChange<K::Patch>, run: &mut [u32]) -> Result<(), Failure<SheetFault<K::Fault>>>
        ensures applied { Applied (the_sheets K.Kind.theory) p run.old result run.new }
        ensures others { Others p (1 + K.Kind.theory.width) run.old run.new }
    {
        if !roomy(run, Self::words()) {
            return Err(Failure::Length);
        }
        let width = sheet_words::<K>() as usize;
        match p {
            SheetChange::Create(a) => create::<K>(a, run, width),
            SheetChange::Remove(a) => remove::<K>(a, run, width),
            SheetChange::Move { from, to } => move_sheet::<K>(from, to, run, width),
            SheetChange::Inside(a, x) => inside::<K>(a, x, run, width),
        }
    }
}
