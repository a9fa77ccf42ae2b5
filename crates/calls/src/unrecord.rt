// Unrecord: a patch is dropped, and the later ones move to where they belong without it.
ghost use Rattle.std.specs.Prelude.{◌≡◌};
ghost use Rattle.kinds.specs.Parts.{part};
ghost use Rattle.shop.specs.Calls.{unrecord as unrecord_answer};
ghost use Rattle.shop.specs.Held.{state_of};
ghost use Rattle.shop.specs.Reached.{Unrecord};
ghost use Rattle.calls.specs.Handed.{with_work};
ghost use Rattle.calls.specs.Leaves.{Leaves};

use crate::take_out::take_out;
use forms::form::patch_count;
use histories::named::Named;
use kinds::kind::Kind;
use memory::write::replace;
use shop::refusal::Refusal;
use shop::shop::Shop;

// Drops the patch of the name, and answers the number of patches left.
pub fn unrecord<K: Kind>(
    shop: &mut Shop<K::Patch>,
    number: u8,
    name: u8,
    work: &mut [Named<K::Patch>],
) -> Result<usize, Refusal<K::Fault>>
    ensures answer { result ≡ part (λ x. x.1) (λ x. x) (unrecord_answer K.Kind.theory (with_work shop.old work.old) (state_of shop.old) number name) }
    ensures leaves { Leaves K.Kind.theory (with_work shop.old work.old) shop.old (Unrecord number name) result shop.new }
{
    let place = take_out::<K>(shop, number, name, work)?;
    replace::<K>(shop, number, work, place.start);
    Ok(patch_count::<K>(shop.row(number)))
}
