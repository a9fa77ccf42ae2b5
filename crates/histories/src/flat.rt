// What is done with a history in a flat row: the changes of each patch stand one after the other, each under the name
// of the patch.
ghost use Rattle.std.specs.Prelude.{◌≡◌, ◌≤◌, List, ◌++◌, map, length};
ghost use Rattle.kinds.specs.Bounded.{answer};
ghost use Rattle.kinds.specs.Sequences.{inverses, sequences};
ghost use Rattle.rows.specs.Pass.{Passed};
ghost use Rattle.histories.specs.declared.named.Named.{Named as Under};
ghost use Rattle.histories.specs.Named.{under, patches};
ghost use Rattle.histories.specs.History.{passed as history_passed, merged};
ghost use Rattle.histories.specs.Flat.{flat_of, flat, flat_both, ToEnd, OtherName, ToldApart, BeginsWith, passing_by};

use crate::Stop;
use crate::named::{Labelled, Named};
use kinds::answers::Clash;
use kinds::kind::Kind;
use rows::pass::{carry_left, pass_over};
use rows::place::Place;

// The first `count` changes of the row commute right over all others, and stand last then. The first that refuses them
// is told by its name, and the row is of no more use then.
// Not `rows::pass::pass_over`: that tells a place, and the name that stood there is lost once the row is spoiled.
fn pass_rest<K: Kind>(row: &mut [Named<K::Patch>], count: usize) -> Result<(), Stop>
    ensures { (ps qs : List (Under K.Patch)) → row.old ≡ ps ++ qs → length ps ≡ count → Passed (passing_by K.Kind.theory ps qs) result row.new }
{
    // By places, since each turn lends the neighbours one place further, and no iterator lends those again.
    for start in 0..row.len().saturating_sub(count) {
        let name = row[start + count].name;
        let carried = carry_left::<Labelled<K>>(&mut row[start..=start + count]);
        carried.map_err(|clash| Stop::at(name, clash))?;
    }
    Ok(())
}

// The patch whose changes stand at the place passes over all later patches. The answer is the number of changes that
// then stand in front of it. Where a patch refuses it, the row is of no more use.
pub fn pass_to_end<K: Kind>(row: &mut [Named<K::Patch>], place: Place) -> Result<usize, Stop>
    ensures { (before : List (Under K.Patch)) (p : Under (List K.Patch)) (h : List (Under (List K.Patch)))
        → row.old ≡ before ++ (flat_of p ++ flat h) → length before ≡ place.start → length p.changes ≡ place.count
        → ToEnd before (flat_both (history_passed (patches K.Kind.theory) (λ w. w.name) p h)) result row.new }
{
    let n = row.len();
    if n < place.start {
        return Ok(n);
    }
    pass_rest::<K>(&mut row[place.start..], place.count)?;
    Ok(n.saturating_sub(place.count))
}

// How many changes at the front of the row have the name.
pub fn leading<K: Kind>(row: &[Named<K::Patch>], name: u8) -> usize
    ensures counted { (cs : List K.Patch) (behind : List (Under K.Patch)) → row.now ≡ map (under name) cs ++ behind → OtherName name behind → result ≡ length cs }
    ensures within { result ≤ length row.now }
{
    row.iter().take_while(|change| change.name == name).count()
}

// Writes the inverses of the patches into a row that is as long, in reverse order.
fn invert_into<K: Kind>(patches: &[K::Patch], row: &mut [K::Patch])
    requires { length row.old ≡ length patches.now }
    ensures { row.new ≡ inverses K.Kind.theory patches.now }
{
    row.copy_from_slice(patches);
    row.reverse();
    for patch in row.iter_mut() {
        *patch = K::invert(*patch);
    }
}

// Writes the inverse of the patches over the front of the row. What stands behind commutes left over it, and stands
// first then. Where it is stopped, the row is of no more use.
fn merge_one<K: Kind>(patches: &[K::Patch], row: &mut [K::Patch]) -> Result<(), Clash>
    requires { length patches.now ≤ length row.old }
    ensures { (free ns : List K.Patch) → row.old ≡ free ++ ns → length free ≡ length patches.now
        → Passed (answer (sequences K.Kind.theory) (inverses K.Kind.theory patches.now) ns) result row.new }
{
    let count = patches.len();
    invert_into::<K>(patches, &mut row[..count]);
    pass_over::<K>(row, count).map_err(|stop| stop.fault)
}

// The last `count` changes of the work row are a patch that stands where the history in `others` begins. It is merged
// over this history, first patch first: the inverse of each and then the patch commute. In front of the patch the work
// row has as many changes as the history, which may be any, and at last it begins with the patch. Where one of the
// history refuses it, the work row is of no more use.
pub fn merge<K: Kind>(
    others: &[Named<K::Patch>],
    work: &mut [Named<K::Patch>],
    count: usize,
) -> Result<(), Stop>
    ensures { (ws : List (Under (List K.Patch))) (n : Under (List K.Patch)) (free : List (Under K.Patch))
        → others.now ≡ flat ws → ToldApart ws → work.old ≡ free ++ flat_of n → length free ≡ length (flat ws) → length n.changes ≡ count
        → BeginsWith count (merged (patches K.Kind.theory) (λ w. w.name) ws n) result work.new }
{
    let mut end = work.len();
    if end.saturating_sub(count) < others.len() {
        return Ok(());
    }
    // No `for` over `chunk_by`, which the prover does not cover in a generic function.
    let mut left = others;
    while let Some(first) = left.first() {
        let name = first.name;
        let (patch, later) = left.split_at(leading::<K>(left, name));
        let start = end - count - patch.len();
        let merged = merge_one::<Labelled<K>>(patch, &mut work[start..end]);
        merged.map_err(|clash| Stop::at(name, clash))?;
        left = later;
        end -= patch.len();
    }
    Ok(())
}
