// The memory that is handed to a call: rows with room for 160 changes, and a run of the kind's words.
ghost use Rattle.std.specs.Prelude.{◌≡◌, true, length, IfOk};
ghost use Rattle.kinds.specs.Bounded.{roomy};
ghost use Rattle.shop.specs.Calls.{enough};
ghost use Rattle.calls.specs.Handed.{with_work, with_run};

use crate::checks::or_refused;
use forms::form::MOST_CHANGES;
use histories::named::Named;
use kinds::counts::roomy;
use kinds::kind::Kind;
use memory::read::rows_long;
use shop::refusal::Refusal;
use shop::shop::Shop;

// A call with a document run, and no work row.
pub(crate) fn room_to_show<K: Kind>(
    shop: &Shop<K::Patch>,
    run: &[u32],
) -> Result<(), Refusal<K::Fault>>
    ensures answer { result ≡ enough K.Kind.theory (with_run shop.now run.now) }
    ensures run { IfOk result (λ _. roomy K.Kind.theory (length run.now) ≡ true) }
{
    let enough = rows_long(shop) && roomy(run, K::words());
    or_refused(enough, Refusal::WrongRoom)
}

// A call with a work row, and no document run.
// Not one function with the one above: it would be handed both answers of the tests, and join them.
pub(crate) fn room_to_work<K: Kind>(
    shop: &Shop<K::Patch>,
    work: &[Named<K::Patch>],
) -> Result<(), Refusal<K::Fault>>
    ensures { result ≡ enough K.Kind.theory (with_work shop.now work.now) }
{
    let enough = work.len() >= MOST_CHANGES && rows_long(shop);
    or_refused(enough, Refusal::WrongRoom)
}
