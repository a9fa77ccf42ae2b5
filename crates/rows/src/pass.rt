// Patches that commute with others of the same row, in place.
ghost use Rattle.std.specs.Prelude.{◌≡◌, ◌+◌, ◌<◌, List, [], ◌∷◌, ◌++◌, length, take, drop, IfErr};
ghost use Rattle.kinds.specs.Bounded.{answer};
ghost use Rattle.kinds.specs.Sequences.{answer_over, sequences};
ghost use Rattle.kinds.specs.Parts.{part};
ghost use Rattle.rows.specs.Pass.{Carried, Passed, passing, fault_of};

use kinds::answers::Clash;
use kinds::kind::Kind;
use kinds::steps::AtStep;

// The last patch of the row commutes left over all others, nearest first. Where it is stopped on the way, the row is
// of no more use.
pub fn carry_left<K: Kind>(row: &mut [K::Patch]) -> Result<(), Clash>
    ensures { (ps : List K.Patch) (q : K.Patch) → row.old ≡ ps ++ q ∷ [] → Carried (answer_over K.Kind.theory ps q) result row.new }
{
    // By places, since two neighbours are written at once and no iterator lends both.
    for i in (1..row.len()).rev() {
        let (q, p) = K::commute(row[i - 1], row[i])?;
        row[i - 1] = q;
        row[i] = p;
    }
    Ok(())
}

// The first `count` patches of the row commute right over all others, and stand last then. Where one of the others
// stops them, it is told by its place among the others, and the row is of no more use.
pub fn pass_over<K: Kind>(row: &mut [K::Patch], count: usize) -> Result<(), AtStep<Clash>>
    ensures passed { Passed (passing K.Kind.theory (take count row.old) (drop count row.old)) result row.new }
    ensures whole { Passed (answer (sequences K.Kind.theory) (take count row.old) (drop count row.old)) (part (λ u. u) fault_of result) row.new }
    ensures within { IfErr result (λ s. count + s.step < length row.old) }
{
    // By places, since each turn lends the neighbours one place further, and no iterator lends those again.
    for step in 0..row.len().saturating_sub(count) {
        carry_left::<K>(&mut row[step..=step + count]).map_err(|fault| AtStep { step, fault })?;
    }
    Ok(())
}
