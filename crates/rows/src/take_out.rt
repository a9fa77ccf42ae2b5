// A patch of a row, taken out.
ghost use Rattle.rows.specs.TakeOut.{TakenOut};

use crate::pass::pass_over;
use crate::place::Place;
use kinds::answers::Clash;
use kinds::kind::Kind;
use kinds::steps::AtStep;

// Takes the changes of the place out of the row: they commute right over all behind them, which stand as that left
// them. The answer is how many are left, in front of those taken out. Where one of those behind stops them, it is told
// by its place among them, and the row is of no more use.
pub fn take_out<K: Kind>(row: &mut [K::Patch], place: Place) -> Result<usize, AtStep<Clash>>
    ensures { TakenOut K.Kind.theory row.old place.start place.count result row.new }
{
    let n = row.len();
    if n <= place.start {
        return Ok(n);
    }
    pass_over::<K>(&mut row[place.start..], place.count)?;
    Ok(n - place.count.min(n - place.start))
}
