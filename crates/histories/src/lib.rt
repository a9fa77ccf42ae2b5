// Histories: patches under names, recorded, removed and pulled, over any kind.
#![tactic(auto)]

ghost use Rattle.histories.specs.Agreement.{HistoriesAgree};

use kinds::answers::Clash;
use kinds::kind::Kind;
use thiserror::Error;

pub mod flat;
pub mod named;

// What stops a patch on its way through a history.
#[derive(Clone, Copy, Debug, PartialEq, Eq, Error)]
pub enum Stop {
    // It does not commute with the patch of this name.
    #[error("refused by patch {0}")]
    By(u8),
    // A commute on the way is too far.
    #[error("a commute is too far")]
    TooFar,
}

impl Stop {
    ghost use Rattle.std.specs.Prelude.{◌≡◌};
    ghost use Rattle.histories.specs.History.{stopped_at};

    // What stops a patch at the patch of this name.
    pub(crate) fn at(name: u8, clash: Clash) -> Stop
        ensures { result ≡ stopped_at (λ n. n) name clash }
    {
        match clash {
            Clash::Refused => Stop::By(name),
            Clash::TooFar => Stop::TooFar,
        }
    }
}

// In every run any two histories with the same names show the same document, each of them can be replayed, and no
// commute that a step asks for is too far.
pub fn histories_agree<K: Kind>()
    ensures { HistoriesAgree K.Kind.theory }
{}

#[cfg(test)]
mod tests {
    use super::*;
    use std::test::Fail;

    #[test]
    fn a_stop_tells_what_stopped(rt: HostRuntime) -> Result<(), Fail> {
        let by = format!(in rt.alloc(); "{}", Stop::By(3))?;
        assert_eq!(rt; by.as_str(), "refused by patch 3");
        let far = format!(in rt.alloc(); "{}", Stop::TooFar)?;
        assert_eq!(rt; far.as_str(), "a commute is too far");
        Ok(())
    }
}
