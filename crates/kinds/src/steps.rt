// The steps of a patch that is made of several.
ghost use Rattle.std.specs.Prelude.{◌≡◌};
ghost use Rattle.kinds.specs.Parts.{failing, FaultMapped};
ghost use Rattle.kinds.specs.Sequences.{found_at};

use crate::answers::Failure;

// A fault, and the number of the step, from 0, at which it was found.
#[derive(Clone, Copy, Debug, PartialEq, Eq)]
pub struct AtStep<F> {
    pub step: usize,
    pub fault: F,
}

// The whole patch fails as its step does, with the number of the step added to a fault.
pub fn at_step<F>(step: usize, r: Result<(), Failure<F>>) -> Result<(), Failure<AtStep<F>>>
    ensures { result ≡ failing (found_at step) r }
{
    r.map_err(
        |failure|
            ensures { FaultMapped (λ f x. x ≡ found_at step f) failure result }
        { failure.map(|fault| AtStep { step, fault }) },
    )
}
