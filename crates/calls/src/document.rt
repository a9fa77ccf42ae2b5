// The document of a history, in a run of words.
ghost use Rattle.std.specs.Prelude.{◌≡◌, ℕ, ◌+◌, ◌≤◌, true, length, replicate, MatchResult};
ghost use Rattle.kinds.specs.Bounded.{roomy};
ghost use Rattle.kinds.specs.Laws.{most};
ghost use Rattle.kinds.specs.Parts.{part};
ghost use Rattle.kinds.specs.Sequences.{growths, sequences};
ghost use Rattle.forms.specs.Form.{grouped, sound};
ghost use Rattle.shop.specs.declared.refusal.Refusal.TheVariants.{Fault};
ghost use Rattle.shop.specs.Calls.{document as document_of};
ghost use Rattle.calls.specs.Run.{LeftInRun};

use histories::named::{Labelled, Named};
use kinds::kind::Kind;
use rows::replay::{replay, replay_fresh};
use shop::refusal::Refusal;

// Replays the history of the repository into the run. One that cannot be replayed is damaged.
pub(crate) fn document<K: Kind>(
    history: &[Named<K::Patch>],
    number: u8,
    run: &mut [u32],
) -> Result<(), Refusal<K::Fault>>
    ensures { (counter : ℕ) → sound K.Kind.theory counter (grouped history.now) ≡ true → roomy K.Kind.theory (length run.old) ≡ true
        → LeftInRun K.Kind.theory (document_of K.Kind.theory number (grouped history.now)) result run.new }
{
    replay_fresh::<Labelled<K>>(history, run).map_err(|_| Refusal::Torn(number))
}

// Applies the changes of a new patch to the document in the run, for which there is room. A change that does not apply
// is told by its place.
pub(crate) fn apply_changes<K: Kind>(
    changes: &[K::Patch],
    run: &mut [u32],
) -> Result<(), Refusal<K::Fault>>
    ensures { (d : K.Kind.theory.Doc) → K.Kind.theory.fits d → run.old ≡ K.Kind.theory.encode d → roomy K.Kind.theory (length run.old) ≡ true
        → K.Kind.theory.size d + growths K.Kind.theory changes.now ≤ most
        → LeftInRun K.Kind.theory (part (λ e. e) Fault ((sequences K.Kind.theory).apply changes.now d)) result run.new }
{
    Ok(replay::<K>(changes, run)?)
}

// Zeros in the run, where the answer is a refusal.
// Not `inspect_err`: the prover does not know what a closure that is handed on wrote to the run.
pub(crate) fn zeros_if_refused<A, F>(
    answer: Result<A, Refusal<F>>,
    run: &mut [u32],
) -> Result<A, Refusal<F>>
    ensures answer { result ≡ answer }
    ensures run { MatchResult answer (λ _. run.new ≡ run.old) (λ _. run.new ≡ replicate (length run.old) 0) }
{
    if answer.is_err() {
        run.fill(0);
    }
    answer
}
