// The search for what a patch depends on, in the row of its own history.
ghost use Rattle.std.specs.Prelude.{◌≡◌, ◌-◌, ◌≤◌, List, [], ◌∷◌, ◌++◌, length, IfOk};
ghost use Rattle.histories.specs.declared.named.Named.{Named as Under};
ghost use Rattle.histories.specs.Named.{patches};
ghost use Rattle.histories.specs.History.{Block, over_block, or_joins, block};
ghost use Rattle.histories.specs.Flat.{flat_of, flat, ToldApart};
ghost use Rattle.needs.specs.Block.{flat_block, Found};

use histories::Stop;
use histories::flat::{leading, pass_to_end};
use histories::named::{Labelled, Named};
use kinds::kind::Kind;
use rows::copy::copy_row;
use rows::place::Place;

// The first `first` changes of the row are a patch, and the others are a block, of whose patch the changes are the last
// `count`. The patch is tried on the block. Where it passes over all of it, the row begins with the block as it stands
// then; where it is refused, it joins the front of the block, which is as before. The answer is the number of changes of
// the needs. The work row is at least as long as the row, and holds the row as it was before the try.
fn try_on_block<K: Kind>(
    row: &mut [Named<K::Patch>],
    work: &mut [Named<K::Patch>],
    first: usize,
    count: usize,
) -> Result<usize, Stop>
    ensures found { (p : Under (List K.Patch)) (b : Block (Under (List K.Patch))) → row.old ≡ flat_of p ++ flat_block b
        → length p.changes ≡ first → length b.itself.changes ≡ count → length row.old ≤ length work.old
        → Found count (or_joins (patches K.Kind.theory) (λ w. w.name) p b (over_block (patches K.Kind.theory) (λ w. w.name) p b)) result row.new }
    ensures within { IfOk result (λ k. k ≤ length row.old - count) }
{
    let before = row.len().saturating_sub(count);
    copy_row::<Labelled<K>>(row, work);
    let patch = Place {
        start: 0,
        count: first,
    };
    match pass_to_end::<K>(row, patch) {
        Ok(_) => Ok(before.saturating_sub(first)),
        Err(Stop::By(_name)) => {
            copy_row::<Labelled<K>>(work, row);
            Ok(before)
        }
        Err(Stop::TooFar) => Err(Stop::TooFar),
    }
}

// The last `count` changes of the row are a patch. The patches in front of it are tried on its block, nearest first: one
// that passes over the whole block is none of the needs, and one that is refused is. The row begins with the needs then,
// and right behind them stands the patch. The answer is the number of changes of the needs. The work row is at least as
// long as the row, and may hold anything. Where a commute is too far, the row is of no more use.
pub fn find_block<K: Kind>(
    row: &mut [Named<K::Patch>],
    work: &mut [Named<K::Patch>],
    count: usize,
) -> Result<usize, Stop>
    ensures found { (ps : List (Under (List K.Patch))) (n : Under (List K.Patch)) → row.old ≡ flat (ps ++ n ∷ []) → ToldApart (ps ++ n ∷ [])
        → length n.changes ≡ count → length row.old ≤ length work.old
        → Found count (block (patches K.Kind.theory) (λ w. w.name) ps n) result row.new }
    ensures within { IfOk result (λ k. k ≤ length row.old - count) }
{
    let before = row.len().saturating_sub(count);
    if before == 0 {
        return Ok(0);
    }
    let name = row[0].name;
    let first = leading::<K>(&row[..before], name);
    // A recursion, since a loop from the end would have to walk back over each name to find where its patch begins.
    let needs = find_block::<K>(&mut row[first..], work, count)?;
    try_on_block::<K>(&mut row[..first + needs + count], work, first, count)
}
