// What is written to the memory of a shop.
ghost use Rattle.std.specs.Prelude.{◌≡◌, ℕ, ◌<◌, List, map, length, drop};
ghost use Rattle.kinds.specs.Sequences.{inverses};
ghost use Rattle.histories.specs.declared.named.Named.{Named as Under};
ghost use Rattle.histories.specs.Named.{under};
ghost use Rattle.shop.specs.Held.{used, room};
ghost use Rattle.memory.specs.Write.{first, appended, replaced, appended_at, replaced_at, TellsEach, RowsBecome};

use histories::named::Named;
use kinds::kind::Kind;
use rows::place::Place;
use shop::repository::Repository;
use shop::shop::Shop;

// The entries at the place, and none if the row has fewer.
pub fn part<P>(row: &[Named<P>], place: Place) -> &[Named<P>]
    ensures { result.now ≡ first place.count (drop place.start row.now) }
{
    row.get(place.start..)
        .and_then(|rest| rest.get(..place.count))
        .unwrap_or(&[])
}

// The row becomes what `entry` tells of each place.
// Not `iter_mut().zip(..)` with an iterator of entries: behind such an adapter the prover knows no entry of the row.
fn write<T: Copy, F: Fn(usize) -> T>(row: &mut [T], entry: F)
    requires { (i : ℕ) → i < length row.old → F.pre entry i }
    ensures { (xs : List T) → length xs ≡ length row.old → TellsEach (F.post entry) xs → row.new ≡ xs }
{
    for (i, slot) in row.iter_mut().enumerate() {
        *slot = entry(i);
    }
}

// Appends `count` entries to the history, of which `entry` tells each, if there is room for them.
fn append_entries<P: Copy, F: Fn(usize) -> Named<P>>(
    repository: &mut Repository<P>,
    count: usize,
    entry: F,
)
    requires { (i : ℕ) → i < count → F.pre entry i }
    ensures changes { (xs : List (Under P)) → length xs ≡ count → TellsEach (F.post entry) xs
        → used repository.new ≡ appended (room repository.old) (used repository.old) xs }
    ensures room { room repository.new ≡ room repository.old }
{
    let start = repository.count;
    if repository.row.len() - start < count {
        return;
    }
    write(&mut repository.row[start..start + count], entry);
    repository.count = start + count;
}

// Appends entries of another row to the history, if there is room for them. They are copied at once, which takes two
// thirds of the time of a closure that tells each.
fn append_copies<P: Copy>(repository: &mut Repository<P>, entries: &[Named<P>])
    ensures changes { used repository.new ≡ appended (room repository.old) (used repository.old) entries.now }
    ensures room { room repository.new ≡ room repository.old }
{
    let start = repository.count;
    let count = entries.len();
    if repository.row.len() - start < count {
        return;
    }
    repository.row[start..start + count].copy_from_slice(entries);
    repository.count = start + count;
}

// Appends `count` entries to the history of a repository, of which `entry` tells each, if there is such a repository
// and room for them.
fn append_at<P: Copy, F: Fn(usize) -> Named<P>>(
    shop: &mut Shop<P>,
    number: u8,
    count: usize,
    entry: F,
)
    requires { (i : ℕ) → i < count → F.pre entry i }
    ensures { (xs : List (Under P)) → length xs ≡ count → TellsEach (F.post entry) xs
        → RowsBecome shop.old shop.new (appended_at shop.old number xs) }
{
    if number > 3 {
        return;
    }
    // Not `get_mut`: of a slice that lent an entry so, the prover knows no more than its length.
    append_entries(&mut shop.repositories[number as usize], count, entry);
}

// The history becomes that in the first `count` entries of the work row, if there are so many and room for them.
fn replace_entries<P: Copy>(repository: &mut Repository<P>, work: &[Named<P>], count: usize)
    ensures changes { used repository.new ≡ replaced (room repository.old) (used repository.old) work.now count }
    ensures room { room repository.new ≡ room repository.old }
{
    if work.len() < count || repository.row.len() < count {
        return;
    }
    repository.row[0..count].copy_from_slice(&work[..count]);
    repository.count = count;
}

// Appends the changes under the name to the history of a repository, if there is such a repository and room for them.
pub fn append<K: Kind>(shop: &mut Shop<K::Patch>, number: u8, changes: &[K::Patch], name: u8)
    ensures { RowsBecome shop.old shop.new (appended_at shop.old number (map (under name) changes.now)) }
{
    let entry = |i: usize| Named {
        name,
        changes: changes[i],
    };
    append_at(shop, number, changes.len(), entry);
}

// Appends the inverse of a patch under the name to the history of a repository, if there is such a repository and room
// for it. The changes of the patch are those at the place in the work row; where it has fewer, nothing is appended.
pub fn append_inverse<K: Kind>(
    shop: &mut Shop<K::Patch>,
    number: u8,
    work: &[Named<K::Patch>],
    place: Place,
    name: u8,
)
    ensures { RowsBecome shop.old shop.new (appended_at shop.old number
        (map (under name) (inverses K.Kind.theory (map (λ c. c.changes) (first place.count (drop place.start work.now)))))) }
{
    let patch = part(work, place);
    let entry = |i: usize| Named {
        name,
        changes: K::invert(patch[patch.len() - 1 - i].changes),
    };
    append_at(shop, number, patch.len(), entry);
}

// Appends the first `count` entries of the work row to the history of a repository, if the row has so many and there
// is such a repository and room for them.
pub fn append_row<K: Kind>(
    shop: &mut Shop<K::Patch>,
    number: u8,
    work: &[Named<K::Patch>],
    count: usize,
)
    ensures { RowsBecome shop.old shop.new (appended_at shop.old number (first count work.now)) }
{
    if number > 3 {
        return;
    }
    let entries = part(work, Place { start: 0, count });
    // Not `get_mut`, as in `append_at`.
    append_copies(&mut shop.repositories[number as usize], entries);
}

// The history of a repository becomes that in the first `count` entries of the work row, if the row has so many and
// there is such a repository and room for them.
pub fn replace<K: Kind>(
    shop: &mut Shop<K::Patch>,
    number: u8,
    work: &[Named<K::Patch>],
    count: usize,
)
    ensures { RowsBecome shop.old shop.new (replaced_at shop.old number work.now count) }
{
    if number > 3 {
        return;
    }
    // Not `get_mut`: of a slice that lent an entry so, the prover knows no more than its length.
    replace_entries(&mut shop.repositories[number as usize], work, count);
}
