// Record: changes become a patch at the end of a history, under a new name.
ghost use Rattle.std.specs.Prelude.{◌≡◌, ◌+◌, true, length, IfOk};
ghost use Rattle.kinds.specs.Bounded.{roomy};
ghost use Rattle.kinds.specs.Parts.{part};
ghost use Rattle.shop.specs.Calls.{record_patch};
ghost use Rattle.shop.specs.Held.{state_of};
ghost use Rattle.shop.specs.Reached.{Record};
ghost use Rattle.calls.specs.Handed.{with_run};
ghost use Rattle.calls.specs.Leaves.{Leaves};
ghost use Rattle.calls.specs.Run.{run_after, LeftInRun, new_document};

use crate::checks::{a_patch, in_shop, next_name, room_for, sound_at};
use crate::document::{apply_changes, document, zeros_if_refused};
use crate::rooms::room_to_show;
use forms::changes::growth_of;
use kinds::kind::Kind;
use memory::write::append;
use shop::refusal::Refusal;
use shop::shop::Shop;

// The document with the changes applied, in the run, and the new name.
fn recorded<K: Kind>(
    shop: &Shop<K::Patch>,
    number: u8,
    changes: &[K::Patch],
    run: &mut [u32],
) -> Result<u8, Refusal<K::Fault>>
    ensures document { roomy K.Kind.theory (length run.old) ≡ true
        → LeftInRun K.Kind.theory (new_document K.Kind.theory (state_of shop.now) number changes.now) (part (λ n. tt) (λ x. x) result) run.new }
    ensures name { IfOk result (λ n. n ≡ shop.now.counter + 1) }
{
    let history = sound_at::<K>(shop, number)?;
    let name = next_name(shop.counter)?;
    room_for::<K>(history, changes.len(), growth_of::<K>(changes))?;
    document::<K>(history, number, run)?;
    apply_changes::<K>(changes, run)?;
    Ok(name)
}

// Applies the changes to the document of the repository, leaves the new document in the run, and appends them as one
// patch. The answer is its name.
pub fn record<K: Kind>(
    shop: &mut Shop<K::Patch>,
    number: u8,
    changes: &[K::Patch],
    run: &mut [u32],
) -> Result<u8, Refusal<K::Fault>>
    ensures answer { result ≡ part (λ x. x.2) (λ x. x)
        (record_patch K.Kind.theory (with_run shop.old run.old) (state_of shop.old) number changes.now) }
    ensures run { run.new ≡ run_after K.Kind.theory run.old (part (λ x. x.0) (λ x. x)
        (record_patch K.Kind.theory (with_run shop.old run.old) (state_of shop.old) number changes.now)) }
    ensures leaves { Leaves K.Kind.theory (with_run shop.old run.old) shop.old (Record number changes.now) result shop.new }
{
    in_shop::<K>(number)?;
    room_to_show::<K>(shop, run)?;
    a_patch::<K>(changes)?;
    let name = zeros_if_refused(recorded::<K>(shop, number, changes, run), run)?;
    append::<K>(shop, number, changes, name);
    shop.counter = name;
    Ok(name)
}
