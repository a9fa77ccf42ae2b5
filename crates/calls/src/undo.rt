// Undo: the inverse of a patch becomes a patch at the end of the history, under a new name.
ghost use Rattle.std.specs.Prelude.{◌≡◌};
ghost use Rattle.kinds.specs.Parts.{part};
ghost use Rattle.shop.specs.Calls.{undo as undo_answer};
ghost use Rattle.shop.specs.Held.{state_of};
ghost use Rattle.shop.specs.Reached.{Undo};
ghost use Rattle.calls.specs.Handed.{with_work};
ghost use Rattle.calls.specs.Leaves.{Leaves};

use crate::checks::{next_name, room_for};
use crate::take_out::take_out;
use forms::changes::growth_of_inverse;
use histories::named::{Labelled, Named};
use kinds::kind::Kind;
use memory::write::{append_inverse, part};
use shop::refusal::Refusal;
use shop::shop::Shop;

// Appends the inverse of the patch of the name, as it stands behind all later ones. The answer is its name.
pub fn undo<K: Kind>(
    shop: &mut Shop<K::Patch>,
    number: u8,
    name: u8,
    work: &mut [Named<K::Patch>],
) -> Result<u8, Refusal<K::Fault>>
    ensures answer { result ≡ part (λ x. x.1) (λ x. x) (undo_answer K.Kind.theory (with_work shop.old work.old) (state_of shop.old) number name) }
    ensures leaves { Leaves K.Kind.theory (with_work shop.old work.old) shop.old (Undo number name) result shop.new }
{
    let place = take_out::<K>(shop, number, name, work)?;
    let fresh = next_name(shop.counter)?;
    let growth = growth_of_inverse::<Labelled<K>>(part(work, place));
    room_for::<K>(shop.row(number), place.count, growth)?;
    append_inverse::<K>(shop, number, work, place, fresh);
    shop.counter = fresh;
    Ok(fresh)
}
