ghost use Rattle.std.specs.Prelude.{◌≡◌};
ghost use Rattle.kinds.specs.Theory.{Theory};
ghost use Rattle.kinds.specs.Bounded.{answer, Applied, saturated};
ghost use Rattle.kinds.specs.Laws.{Undo, SwapBack, SameEffect, Turning, Three, Growth, Reach, StaysWritten, HeldInWords, Lawful};

use crate::answers::{Clash, Failure};

// A kind of patch. It is a type that is never a value: its functions take none.
pub trait Kind {
    type Patch: Copy;

    // What a patch can find wrong with a document.
    type Fault: Copy;

    ghost theory: { Theory Self.Patch Self.Fault };

    // The number of words of a document.
    fn words() -> u32
        ensures { result ≡ saturated theory.width };

    // Whether the fields make a patch.
    fn writable(p: Self::Patch) -> bool
        ensures { result ≡ theory.written p };

    // By how much the patch can make a document larger, at most.
    fn grows_by(p: Self::Patch) -> u32
        ensures { result ≡ saturated (theory.growth p) };

    fn invert(p: Self::Patch) -> Self::Patch
        ensures { result ≡ theory.invert p };

    // p and then q, as q and then p.
    fn commute(p: Self::Patch, q: Self::Patch) -> Result<(Self::Patch, Self::Patch), Clash>
        ensures { result ≡ answer theory p q };

    // The words of a document become those of the document that p makes of it.
    fn apply(p: Self::Patch, run: &mut [u32]) -> Result<(), Failure<Self::Fault>>
        ensures { Applied theory p run.old result run.new };

    // All laws in one record, which is what an impl proves.
    ghost lawful: { Lawful theory };

    // Each law by its own name. None is for an impl to write.
    ghost undo: { Undo theory } = { lawful.undo };

    ghost swap_back: { SwapBack theory } = { lawful.swap_back };

    ghost same_effect: { SameEffect theory } = { lawful.same_effect };

    ghost turning: { Turning theory } = { lawful.turning };

    ghost three: { Three theory } = { lawful.three };

    ghost growth: { Growth theory } = { lawful.grows };

    ghost reach: { Reach theory } = { lawful.reach };

    ghost stays_written: { StaysWritten theory } = { lawful.stays_written };

    ghost held_in_words: { HeldInWords theory } = { lawful.held_in_words };
}
