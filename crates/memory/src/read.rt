// What is read from the memory of a shop.
ghost use Rattle.std.specs.Prelude.{◌≡◌, length};
ghost use Rattle.shop.specs.Calls.{all_long};
ghost use Rattle.shop.specs.Held.{rooms, row_at};
ghost use Rattle.memory.specs.Write.{covered};

use forms::form::MOST_CHANGES;
use histories::named::Named;
use kinds::kind::Kind;
use shop::shop::Shop;

// Copies the changes of a repository's history over the front of the work row, if they fit in. The answer is their
// number.
pub fn copy<K: Kind>(shop: &Shop<K::Patch>, number: u8, work: &mut [Named<K::Patch>]) -> usize
    ensures count { result ≡ length (row_at shop.now number) }
    ensures work { work.new ≡ covered (row_at shop.now number) work.old }
{
    let changes = shop.row(number);
    let count = changes.len();
    if work.len() < count {
        return count;
    }
    work[..count].copy_from_slice(changes);
    count
}

// Whether every row of the shop has room for 160 changes.
pub fn rows_long<P>(shop: &Shop<P>) -> bool
    ensures { result ≡ all_long (rooms shop.now) }
{
    shop.repositories
        .iter()
        .map(|repository| repository.row.len())
        .all(|room| room >= MOST_CHANGES)
}
