// Level: whether two repositories hold the same names.
ghost use Rattle.std.specs.Prelude.{◌≡◌, ◌<◌, true, ◌↔◌, Ok};
ghost use Rattle.histories.specs.Agreement.{SameNames};
ghost use Rattle.forms.specs.Form.{grouped};
ghost use Rattle.shop.specs.State.{at};
ghost use Rattle.shop.specs.Held.{state_of};
ghost use Rattle.shop.specs.Promise.{Promise};
ghost use Rattle.calls.specs.Level.{all_held, same_names, level as level_answer};

use crate::checks::in_shop;
use forms::find::holds;
use histories::named::Named;
use kinds::kind::Kind;
use shop::refusal::Refusal;
use shop::shop::Shop;

// Whether each name of the one row is held by the other.
fn all_held<K: Kind>(one: &[Named<K::Patch>], other: &[Named<K::Patch>]) -> bool
    ensures { result ≡ all_held (grouped one.now) (grouped other.now) }
{
    one.iter().all(|change| holds::<K>(other, change.name))
}

// Whether the two rows hold the same names.
fn same_names<K: Kind>(one: &[Named<K::Patch>], other: &[Named<K::Patch>]) -> bool
    ensures { result ≡ same_names (grouped one.now) (grouped other.now) }
{
    all_held::<K>(one, other) && all_held::<K>(other, one)
}

// Whether the two repositories hold the same names: they show the same document then.
pub fn level<K: Kind>(
    shop: &Shop<K::Patch>,
    first: u8,
    second: u8,
) -> Result<bool, Refusal<K::Fault>>
    ensures answer { result ≡ level_answer K.Kind.theory (state_of shop.now) first second }
    ensures level { first < 4 → second < 4 → (result ≡ Ok true) ↔ SameNames (λ p. p.name) (at (state_of shop.now) first) (at (state_of shop.now) second) }
    ensures promise { Promise K.Kind.theory }
{
    in_shop::<K>(first)?;
    in_shop::<K>(second)?;
    Ok(same_names::<K>(shop.row(first), shop.row(second)))
}
