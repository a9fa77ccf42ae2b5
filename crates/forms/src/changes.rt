// What is asked of changes, one by one: whether they can be written, and how much they grow a document.
ghost use Rattle.std.specs.Prelude.{◌≡◌, ◌&&◌};
ghost use Rattle.kinds.specs.Bounded.{saturated};
ghost use Rattle.kinds.specs.Sequences.{growths, all_written, inverses};
ghost use Rattle.histories.specs.Named.{one_to_eight};
ghost use Rattle.forms.specs.Find.{unwritable};

use kinds::counts::total;
use kinds::kind::Kind;

// The most changes of a patch.
pub const MOST_IN_PATCH: usize = 8;

// The place of the first change that cannot be written.
pub fn first_unwritable<K: Kind>(changes: &[K::Patch]) -> Option<usize>
    ensures { result ≡ unwritable K.Kind.theory 0 changes.now }
{
    changes.iter().position(|change| !K::writable(*change))
}

// Whether the changes make a patch: one to eight, and each can be written.
pub(crate) fn make_patch<K: Kind>(changes: &[K::Patch]) -> bool
    ensures { result ≡ one_to_eight changes.now && all_written K.Kind.theory changes.now }
{
    (1..=MOST_IN_PATCH).contains(&changes.len())
        && changes.iter().all(|change| K::writable(*change))
}

// By how much the changes can make a document larger, at most.
pub fn growth_of<K: Kind>(changes: &[K::Patch]) -> u32
    ensures { result ≡ saturated (growths K.Kind.theory changes.now) }
{
    changes
        .iter()
        .fold(0, |sum, change| total(1, K::grows_by(*change), sum))
}

// By how much the inverse of the changes can make a document larger, at most.
// No common function with the one above: with a closure for the growth of a change it would be longer than the two.
pub fn growth_of_inverse<K: Kind>(changes: &[K::Patch]) -> u32
    ensures { result ≡ saturated (growths K.Kind.theory (inverses K.Kind.theory changes.now)) }
{
    changes.iter().fold(
        0,
        |sum, change| total(1, K::grows_by(K::invert(*change)), sum),
    )
}
