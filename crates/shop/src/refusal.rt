// Why a call was refused.
ghost use Rattle.std.specs.Prelude.{◌≡◌};
ghost use Rattle.shop.specs.Refusals.{number as number_of_lem, failure_told};

use kinds::answers::Failure;
use kinds::steps::AtStep;
use std::fmt::Debug;
use thiserror::Error;

#[derive(Clone, Copy, Debug, PartialEq, Eq, Error)]
#[error_bound(F: Debug)]
pub enum Refusal<F> {
    #[error("refusal {}: there is no repository {}", self.number(), .0)]
    NoRepository(u8),
    #[error("refusal {}: giver and taker are one", self.number())]
    SameRepository,
    // The document run has another length than the kind's words, or a row has room for less than 160 changes.
    #[error("refusal {}: the document run or a row has the wrong length", self.number())]
    WrongRoom,
    #[error("refusal {}: a patch has one to eight changes", self.number())]
    WrongCount,
    #[error("refusal {}: change {} has a field out of range", self.number(), .0)]
    Unwritable(usize),
    #[error("refusal {}: the name is not held", self.number())]
    NotHeld,
    #[error("refusal {}: the taker holds the name", self.number())]
    AlreadyHeld,
    #[error("refusal {}: change {} does not apply: {:?}", self.number(), .0.step, .0.fault)]
    Fault(AtStep<F>),
    #[error("refusal {}: the taker lacks patch {}, which is needed", self.number(), .0)]
    Lacking(u8),
    #[error("refusal {}: it clashes with patch {} of the taker", self.number(), .0)]
    Clashes(u8),
    #[error("refusal {}: the later patch {} depends on it", self.number(), .0)]
    NeededBy(u8),
    #[error("refusal {}: all names are given out", self.number())]
    NoName,
    #[error("refusal {}: more than 40 patches or 160 changes would be held", self.number())]
    Full,
    #[error("refusal {}: the repository would grow beyond 120", self.number())]
    Overgrown,
    #[error("refusal {}: the history of repository {} is damaged", self.number(), .0)]
    Torn(u8),
}

impl<F> Refusal<F> {
    // The number that the rules give it. A public method: its name says which number, where a `From` into `u8` would not.
    pub fn number(&self) -> u8
        ensures { result ≡ number_of_lem self.now }
    {
        match self {
            Refusal::NoRepository(_) => 1,
            Refusal::SameRepository => 2,
            Refusal::WrongRoom => 3,
            Refusal::WrongCount => 4,
            Refusal::Unwritable(_) => 5,
            Refusal::NotHeld => 11,
            Refusal::AlreadyHeld => 12,
            Refusal::Fault(_) => 13,
            Refusal::Lacking(_) => 14,
            Refusal::Clashes(_) => 15,
            Refusal::NeededBy(_) => 16,
            Refusal::NoName => 17,
            Refusal::Full => 18,
            Refusal::Overgrown => 19,
            Refusal::Torn(_) => 20,
        }
    }
}

// A change that fails to apply is told so. Where there is room for the document, it is always a fault.
impl<F> From<Failure<AtStep<F>>> for Refusal<F> {
    ghost from_gives = { λ failure refusal. refusal ≡ failure_told failure };

    fn from(failure: Failure<AtStep<F>>) -> Refusal<F> {
        match failure {
            Failure::Length => Refusal::WrongRoom,
            Failure::Overfull => Refusal::Overgrown,
            Failure::Fault(fault) => Refusal::Fault(fault),
        }
    }
}

#[cfg(test)]
mod tests {
    use super::*;
    use std::test::Fail;

    #[test]
    fn a_refusal_tells_its_number_and_its_value(rt: HostRuntime) -> Result<(), Fail> {
        let torn = format!(in rt.alloc(); "{}", Refusal::<u8>::Torn(2))?;
        assert_eq!(rt;
            torn.as_str(),
            "refusal 20: the history of repository 2 is damaged"
        );
        let fault = Refusal::Fault(AtStep {
            step: 3,
            fault: 7u8,
        });
        let fault = format!(in rt.alloc(); "{fault}")?;
        assert_eq!(rt; fault.as_str(), "refusal 13: change 3 does not apply: 7");
        Ok(())
    }
}
