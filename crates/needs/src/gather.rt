// Needed patches, brought to the front of a history.
ghost use Rattle.std.specs.Prelude.{◌≡◌, ℕ, List, []};
ghost use Rattle.histories.specs.declared.named.Named.{Named as Under};
ghost use Rattle.histories.specs.Named.{named, patches};
ghost use Rattle.histories.specs.History.{holds, gathered};
ghost use Rattle.histories.specs.Flat.{flat};
ghost use Rattle.needs.specs.Gather.{ComeFirst, Gathers};

use histories::named::{Labelled, Named};
use kinds::answers::Clash;
use kinds::kind::Kind;
use rows::pass::carry_left;

// Whether a change of the row has the name. This is promised of the changes, and by `forms::find::holds` of the patches.
pub fn holds_name<K: Kind>(row: &[Named<K::Patch>], name: u8) -> bool
    ensures { result ≡ holds (λ c. c.name) row.now name }
{
    row.iter().any(|change| change.name == name)
}

// The patches of the row that have the name of a change in `needs` commute left over the others, first one first. They
// stand in front then, and the answer is the number of their changes. Where one is stopped on the way, the row is of no
// more use. Each change passes all others before the next one does, so the clash that is told may be another one than
// where whole patches pass.
pub fn gather<K: Kind>(
    needs: &[Named<K::Patch>],
    row: &mut [Named<K::Patch>],
) -> Result<usize, Clash>
    ensures changes { ComeFirst (gathered (named K.Kind.theory) (λ c. c.name) needs.now [] row.old) result row.new }
    ensures patches { (ws h : List (Under (List K.Patch))) → ((n : ℕ) → holds (λ w. w.name) ws n ≡ holds (λ c. c.name) needs.now n) → row.old ≡ flat h
        → Gathers (gathered (patches K.Kind.theory) (λ w. w.name) ws [] h) result row.new }
{
    let mut needed = 0;
    // By places, since each turn lends a part of the row, which no iterator over it allows.
    for i in 0..row.len() {
        if holds_name::<K>(needs, row[i].name) {
            let carried = carry_left::<Labelled<K>>(&mut row[needed..=i]);
            carried?;
            needed += 1;
        }
    }
    Ok(needed)
}
