// A patch passed over all later ones, in a copy of its history.
ghost use Rattle.std.specs.Prelude.{◌≡◌};
ghost use Rattle.shop.specs.Calls.{taken_out};
ghost use Rattle.shop.specs.Held.{state_of};
ghost use Rattle.calls.specs.Handed.{with_work};
ghost use Rattle.calls.specs.TakeOut.{TakenInRow};

use crate::checks::{in_shop, sound_at};
use crate::rooms::room_to_work;
use forms::find::find;
use histories::Stop;
use histories::flat::pass_to_end;
use histories::named::Named;
use kinds::kind::Kind;
use memory::read::copy;
use rows::place::Place;
use shop::refusal::Refusal;
use shop::shop::Shop;

// Copies the history to the work row, where the patch of the name passes over all later ones. The answer is its place
// there: in front of it stand those that were before it, and then the later ones as they are without it.
pub(crate) fn take_out<K: Kind>(
    shop: &Shop<K::Patch>,
    number: u8,
    name: u8,
    work: &mut [Named<K::Patch>],
) -> Result<Place, Refusal<K::Fault>>
    ensures { TakenInRow (taken_out K.Kind.theory (with_work shop.now work.old) (state_of shop.now) number name) result work.new }
{
    in_shop::<K>(number)?;
    room_to_work::<K>(shop, work)?;
    let history = sound_at::<K>(shop, number)?;
    let place = find::<K>(history, name).ok_or(Refusal::NotHeld)?;
    let n = copy::<K>(shop, number, work);
    let passed = pass_to_end::<K>(&mut work[..n], place);
    let start = passed.map_err(|stop| match stop {
        Stop::By(name) => Refusal::NeededBy(name),
        Stop::TooFar => Refusal::Torn(number),
    })?;
    Ok(Place {
        start,
        count: place.count,
    })
}
