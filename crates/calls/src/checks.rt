// What is looked at before a call changes anything, one refusal each.
ghost use Rattle.std.specs.Prelude.{◌≡◌, ◌+◌, true, List, length, nat_lt, IfOk};
ghost use Rattle.kinds.specs.Bounded.{saturated};
ghost use Rattle.kinds.specs.Parts.{part};
ghost use Rattle.histories.specs.declared.named.Named.{Named as Under};
ghost use Rattle.histories.specs.Named.{patches};
ghost use Rattle.forms.specs.Form.{grouped, sound};
ghost use Rattle.shop.specs.Calls.{in_shop, a_patch, sound_at, room_for, or_refused};
ghost use Rattle.shop.specs.Held.{row_at, state_of};
ghost use Rattle.shop.specs.declared.refusal.Refusal.TheVariants.{NoName};

use forms::changes::{MOST_IN_PATCH, first_unwritable};
use forms::form::{MOST_CHANGES, MOST_GROWTH, MOST_PATCHES, growth, is_sound, patch_count};
use histories::named::Named;
use kinds::kind::Kind;
use shop::refusal::Refusal;
use shop::shop::Shop;

// The call goes on if a test holds; if not, it is refused so.
pub(crate) fn or_refused<F: Copy>(holds: bool, refusal: Refusal<F>) -> Result<(), Refusal<F>>
    ensures { result ≡ or_refused holds refusal }
{
    if holds { Ok(()) } else { Err(refusal) }
}

// There are four repositories.
pub(crate) fn in_shop<K: Kind>(number: u8) -> Result<(), Refusal<K::Fault>>
    ensures { result ≡ in_shop K.Kind.theory number }
{
    or_refused(number < 4, Refusal::NoRepository(number))
}

// One to eight changes, all of which can be written.
pub(crate) fn a_patch<K: Kind>(changes: &[K::Patch]) -> Result<(), Refusal<K::Fault>>
    ensures { result ≡ a_patch K.Kind.theory changes.now }
{
    or_refused(
        (1..=MOST_IN_PATCH).contains(&changes.len()),
        Refusal::WrongCount,
    )?;
    first_unwritable::<K>(changes).map_or(Ok(()), |place| Err(Refusal::Unwritable(place)))
}

// The row of the repository, if its history has the right form.
pub(crate) fn sound_at<K: Kind>(
    shop: &Shop<K::Patch>,
    number: u8,
) -> Result<&[Named<K::Patch>], Refusal<K::Fault>>
    ensures row { IfOk result (λ row. row.now ≡ row_at shop.now number) }
    ensures history { part (λ row. grouped row.now) (λ x. x) result ≡ sound_at K.Kind.theory (state_of shop.now) number }
    ensures form { IfOk result (λ row. sound K.Kind.theory shop.now.counter (grouped row.now) ≡ true) }
{
    let row = shop.row(number);
    or_refused(is_sound::<K>(row, shop.counter), Refusal::Torn(number))?;
    Ok(row)
}

// The name that follows those given out.
pub(crate) fn next_name<F: Copy>(counter: u8) -> Result<u8, Refusal<F>>
    ensures { result ≡ part (λ _. counter + 1) (λ x. x) (or_refused (nat_lt counter 255) NoName) }
{
    counter.checked_add(1).ok_or(Refusal::NoName)
}

// The history in the row and one patch more, of so many changes and so much growth, stay within 40 patches, 160 changes
// and growth 120.
pub(crate) fn room_for<K: Kind>(
    row: &[Named<K::Patch>],
    count: usize,
    more: u32,
) -> Result<(), Refusal<K::Fault>>
    ensures { (p : Under (List K.Patch)) → length p.changes ≡ count → saturated ((patches K.Kind.theory).growth p) ≡ more → result ≡ room_for K.Kind.theory (grouped row.now) p }
{
    or_refused(patch_count::<K>(row) < MOST_PATCHES, Refusal::Full)?;
    or_refused(
        row.len().saturating_add(count) <= MOST_CHANGES,
        Refusal::Full,
    )?;
    or_refused(
        growth::<K>(row).saturating_add(more) <= MOST_GROWTH,
        Refusal::Overgrown,
    )
}
