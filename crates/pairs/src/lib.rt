// Pairs: a patch is one step or two of the kind below, in order.
#![tactic(auto)]

ghost use Rattle.std.specs.Prelude.{◌≡◌};
ghost use Rattle.kinds.specs.Parts.{part};
ghost use Rattle.kinds.specs.Sequences.{answer_over};
ghost use Rattle.pairs.specs.Proofs.PairLaws.{pairs_lawful};
ghost use Rattle.pairs.specs.Pairs.{listed, pairs as the_pairs};

use kinds::answers::{Clash, Failure};
use kinds::counts::total;
use kinds::kind::Kind;
use kinds::steps::{AtStep, at_step};

#[derive(Clone, Copy, Debug, PartialEq, Eq)]
pub enum Steps<P> {
    One(P),
    Two(P, P),
}

// The kind of patches of one step or two of the kind K. Its documents are those of K.
pub struct Pairs<K> {
    below: K,
}

// q, commuted left over the steps of p, nearest first.
fn over<K: Kind>(p: Steps<K::Patch>, q: K::Patch) -> Result<(K::Patch, Steps<K::Patch>), Clash>
    ensures { part (λ (q', p'). (q', listed p')) (λ c. c) result ≡ answer_over K.Kind.theory (listed p) q }
{
    match p {
        Steps::One(only) => {
            let (q, only) = K::commute(only, q)?;
            Ok((q, Steps::One(only)))
        }
        Steps::Two(far, near) => {
            let (q, near) = K::commute(near, q)?;
            let (q, far) = K::commute(far, q)?;
            Ok((q, Steps::Two(far, near)))
        }
    }
}

impl<K: Kind> Kind for Pairs<K> {
    type Patch = Steps<K::Patch>;

    type Fault = AtStep<K::Fault>;

    ghost theory = { the_pairs K.Kind.theory };

    ghost lawful = { pairs_lawful K.Kind.theory K.lawful };

    fn words() -> u32 {
        K::words()
    }

    fn writable(p: Steps<K::Patch>) -> bool {
        match p {
            Steps::One(only) => K::writable(only),
            Steps::Two(first, second) => K::writable(first) && K::writable(second),
        }
    }

    fn grows_by(p: Steps<K::Patch>) -> u32 {
        match p {
            Steps::One(only) => K::grows_by(only),
            Steps::Two(first, second) => total(1, K::grows_by(first), K::grows_by(second)),
        }
    }

    fn invert(p: Steps<K::Patch>) -> Steps<K::Patch> {
        match p {
            Steps::One(only) => Steps::One(K::invert(only)),
            Steps::Two(first, second) => Steps::Two(K::invert(second), K::invert(first)),
        }
    }

    fn commute(
        p: Steps<K::Patch>,
        q: Steps<K::Patch>,
    ) -> Result<(Steps<K::Patch>, Steps<K::Patch>), Clash> {
        match q {
            Steps::One(only) => {
                let (only, p) = over::<K>(p, only)?;
                Ok((Steps::One(only), p))
            }
            Steps::Two(first, second) => {
                let (first, p) = over::<K>(p, first)?;
                let (second, p) = over::<K>(p, second)?;
                Ok((Steps::Two(first, second), p))
            }
        }
    }

    fn apply(p: Steps<K::Patch>, run: &mut [u32]) -> Result<(), Failure<AtStep<K::Fault>>> {
        match p {
            Steps::One(only) => at_step(0, K::apply(only, run)),
            Steps::Two(first, second) => {
                at_step(0, K::apply(first, run))?;
                at_step(1, K::apply(second, run))
            }
        }
    }
}
