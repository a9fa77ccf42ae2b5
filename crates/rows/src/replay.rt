// A row of patches, applied one after the other.
ghost use Rattle.kinds.specs.Bounded.{Applied};
ghost use Rattle.kinds.specs.Sequences.{sequences};
ghost use Rattle.rows.specs.Replay.{Replayed};

use kinds::answers::Failure;
use kinds::counts::roomy;
use kinds::kind::Kind;
use kinds::steps::{AtStep, at_step};

// Applies the patches of the row to the document in the run, in order. A fault tells the place in the row of the patch
// that found it.
pub fn replay<K: Kind>(row: &[K::Patch], run: &mut [u32]) -> Result<(), Failure<AtStep<K::Fault>>>
    ensures { Applied (sequences K.Kind.theory) row.now run.old result run.new }
{
    if !roomy(run, K::words()) {
        return Err(Failure::Length);
    }
    for (step, patch) in row.iter().enumerate() {
        at_step(step, K::apply(*patch, run))?;
    }
    Ok(())
}

// Replays the row on the fresh document. A run of the wrong length is refused, and left as found.
pub fn replay_fresh<K: Kind>(
    row: &[K::Patch],
    run: &mut [u32],
) -> Result<(), Failure<AtStep<K::Fault>>>
    ensures { Replayed K.Kind.theory row.now run.old result run.new }
{
    if !roomy(run, K::words()) {
        return Err(Failure::Length);
    }
    run.fill(0);
    replay::<K>(row, run)
}
