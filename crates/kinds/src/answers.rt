// What stops a commute or an application.
ghost use Rattle.std.specs.Prelude.{◌≡◌};
ghost use Rattle.kinds.specs.Parts.{FaultMapped, fault_or_failure};

use thiserror::Error;

// Why two neighbouring patches were not commuted.
#[derive(Clone, Copy, Debug, PartialEq, Eq, Error)]
pub enum Clash {
    // The two depend on each other.
    #[error("the patches depend on each other")]
    Refused,
    // A patch on the way has a number that its field cannot hold.
    #[error("a number would be too large to be written")]
    TooFar,
}

// Why a patch was not applied to the words of a document.
#[derive(Clone, Copy, Debug, PartialEq, Eq)]
pub enum Failure<F> {
    // The run is not as long as the kind's words.
    Length,
    // The document would outgrow its words.
    Overfull,
    // The document is not one that the patch applies to.
    Fault(F),
}

impl<F> Failure<F> {
    // The fault, for a layer to add its place to. Any other failure is the layer's own as it is.
    pub fn fault<G>(self) -> Result<F, Failure<G>>
        ensures { result ≡ fault_or_failure self }
    {
        match self {
            Failure::Length => Err(Failure::Length),
            Failure::Overfull => Err(Failure::Overfull),
            Failure::Fault(fault) => Ok(fault),
        }
    }

    // The same failure, its fault told as `tell` does: a layer adds its place.
    pub fn map<G, T: FnOnce(F) -> G>(self, tell: T) -> Failure<G>
        requires { T.IsAlwaysCallable tell }
        ensures { FaultMapped (T.post tell) self result }
    {
        match self {
            Failure::Length => Failure::Length,
            Failure::Overfull => Failure::Overfull,
            Failure::Fault(fault) => Failure::Fault(tell(fault)),
        }
    }
}
