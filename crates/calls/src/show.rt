// Show: the document of a repository, in a run of words.
ghost use Rattle.std.specs.Prelude.{◌≡◌, true, length};
ghost use Rattle.kinds.specs.Bounded.{roomy};
ghost use Rattle.kinds.specs.Parts.{part};
ghost use Rattle.kinds.specs.Sequences.{and_then};
ghost use Rattle.shop.specs.Calls.{sound_at, document as document_of, show as show_answer};
ghost use Rattle.shop.specs.Held.{state_of};
ghost use Rattle.calls.specs.Handed.{with_run};
ghost use Rattle.calls.specs.Run.{run_after, LeftInRun};

use crate::checks::{in_shop, sound_at};
use crate::document::{document, zeros_if_refused};
use crate::rooms::room_to_show;
use forms::form::patch_count;
use kinds::kind::Kind;
use shop::refusal::Refusal;
use shop::shop::Shop;

// The document of a repository whose history has the right form.
fn shown<K: Kind>(
    shop: &Shop<K::Patch>,
    number: u8,
    run: &mut [u32],
) -> Result<(), Refusal<K::Fault>>
    ensures { roomy K.Kind.theory (length run.old) ≡ true
        → LeftInRun K.Kind.theory (and_then (sound_at K.Kind.theory (state_of shop.now) number) (document_of K.Kind.theory number)) result run.new }
{
    document::<K>(sound_at::<K>(shop, number)?, number, run)
}

// Replays the history of the repository into the run, and answers its number of patches.
pub fn show<K: Kind>(
    shop: &Shop<K::Patch>,
    number: u8,
    run: &mut [u32],
) -> Result<usize, Refusal<K::Fault>>
    ensures answer { result ≡ part (λ x. x.1) (λ x. x)
        (show_answer K.Kind.theory (with_run shop.now run.old) (state_of shop.now) number) }
    ensures run { run.new ≡ run_after K.Kind.theory run.old (part (λ x. x.0) (λ x. x)
        (show_answer K.Kind.theory (with_run shop.now run.old) (state_of shop.now) number)) }
{
    in_shop::<K>(number)?;
    room_to_show::<K>(shop, run)?;
    zeros_if_refused(shown::<K>(shop, number, run), run)?;
    Ok(patch_count::<K>(shop.row(number)))
}
