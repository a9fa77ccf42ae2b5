// Whether a flat row has the form of a history.
ghost use Rattle.std.specs.Prelude.{◌≡◌, ◌&&◌, length};
ghost use Rattle.kinds.specs.Bounded.{saturated};
ghost use Rattle.kinds.specs.Sequences.{growths, all_written};
ghost use Rattle.histories.specs.Named.{patches};
ghost use Rattle.forms.specs.Form.{grouped, numbered, apart, sound};

use crate::changes::{growth_of, make_patch};
use crate::find::holds;
use histories::flat::leading;
use histories::named::{Labelled, Named};
use kinds::kind::Kind;

// The most patches of a history.
pub const MOST_PATCHES: usize = 40;

// The most changes that all patches of a history have together.
pub const MOST_CHANGES: usize = 160;

// The most by which all patches of a history grow its document.
pub const MOST_GROWTH: u32 = 120;

// How many patches the row holds.
pub fn patch_count<K: Kind>(row: &[Named<K::Patch>]) -> usize
    ensures { result ≡ length (grouped row.now) }
{
    row.chunk_by(|a, b| a.name == b.name).count()
}

// By how much the patches of the row can make a document larger, at most.
pub fn growth<K: Kind>(row: &[Named<K::Patch>]) -> u32
    ensures { result ≡ saturated (growths (patches K.Kind.theory) (grouped row.now)) }
{
    growth_of::<Labelled<K>>(row)
}

// Whether each patch can be written, its name is 1 to the counter, and no later patch has this name.
fn patches_sound<K: Kind>(row: &[Named<K::Patch>], counter: u8) -> bool
    ensures { result ≡ all_written (patches K.Kind.theory) (grouped row.now)
        && numbered counter (grouped row.now) && apart (λ w. w.name) (grouped row.now) }
{
    let Some(first) = row.first() else {
        return true;
    };
    let name = first.name;
    let (patch, later) = row.split_at(leading::<K>(row, name));
    (1..=counter).contains(&name)
        && make_patch::<Labelled<K>>(patch)
        && !holds::<K>(later, name)
        // A recursion, since a chain over the parts does not give what stands behind each.
        && patches_sound::<K>(later, counter)
}

// Whether the row holds a history of the right form, where names up to the counter have been given.
pub fn is_sound<K: Kind>(row: &[Named<K::Patch>], counter: u8) -> bool
    ensures { result ≡ sound K.Kind.theory counter (grouped row.now) }
{
    row.len() <= MOST_CHANGES
        && growth::<K>(row) <= MOST_GROWTH
        && patch_count::<K>(row) <= MOST_PATCHES
        && patches_sound::<K>(row, counter)
}
