// Changes of any kind, each under a name: a kind again.
ghost use Rattle.histories.specs.Proofs.NamedLaws.{named_lawful};
ghost use Rattle.histories.specs.Named.{named as the_named};

use kinds::answers::{Clash, Failure};
use kinds::kind::Kind;

// What a patch does, and the name of the patch.
#[derive(Clone, Copy, Debug, PartialEq, Eq)]
pub struct Named<X> {
    pub name: u8,
    pub changes: X,
}

// The kind whose patches are those of the kind K, each under a name.
pub struct Labelled<K> {
    below: K,
}

impl<K: Kind> Kind for Labelled<K> {
    type Patch = Named<K::Patch>;

    type Fault = K::Fault;

    ghost theory = { the_named K.Kind.theory };

    ghost lawful = { named_lawful K.Kind.theory K.lawful };

    fn words() -> u32 {
        K::words()
    }

    fn writable(p: Named<K::Patch>) -> bool {
        K::writable(p.changes)
    }

    fn grows_by(p: Named<K::Patch>) -> u32 {
        K::grows_by(p.changes)
    }

    fn invert(p: Named<K::Patch>) -> Named<K::Patch> {
        Named {
            changes: K::invert(p.changes),
            ..p
        }
    }

    // Each keeps its name.
    fn commute(
        p: Named<K::Patch>,
        q: Named<K::Patch>,
    ) -> Result<(Named<K::Patch>, Named<K::Patch>), Clash> {
        let (b, a) = K::commute(p.changes, q.changes)?;
        Ok((Named { changes: b, ..q }, Named { changes: a, ..p }))
    }

    fn apply(p: Named<K::Patch>, run: &mut [u32]) -> Result<(), Failure<K::Fault>> {
        K::apply(p.changes, run)
    }
}
