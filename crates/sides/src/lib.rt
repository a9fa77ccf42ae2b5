// Sides: a document is one of each of two kinds, and a patch changes one of them.
#![tactic(auto)]

ghost use Rattle.std.specs.Prelude.{◌≡◌};
ghost use Rattle.kinds.specs.Parts.{failing};
ghost use Rattle.sides.specs.declared.Side.TheVariants.{Left as to_left, Right as to_right};
ghost use Rattle.kinds.specs.Bounded.{Applied};
ghost use Rattle.kinds.specs.Slots.{Around};
ghost use Rattle.sides.specs.Proofs.SideLaws.{sides_lawful};
ghost use Rattle.sides.specs.Sides.{sides as the_sides, side_start, side_width};

use kinds::answers::{Clash, Failure};
use kinds::counts::{roomy, total};
use kinds::kind::Kind;

// What is of the one side or of the other. No `Result`, since neither is an error.
#[derive(Clone, Copy, Debug, PartialEq, Eq)]
pub enum Side<A, B> {
    Left(A),
    Right(B),
}

// The kind of documents with a left side of the kind L and a right side of the kind R.
pub struct Sides<L, R> {
    left: L,
    right: R,
}

// A failure of the left side, with its place added.
// A match and no `Failure::map`, which the prover does not cover where a type, as G here, is in the result alone.
fn at_left<F, G>(r: Result<(), Failure<F>>) -> Result<(), Failure<Side<F, G>>>
    ensures { result ≡ failing to_left r }
{
    match r {
        Ok(()) => Ok(()),
        Err(failure) => Err(Failure::Fault(Side::Left(failure.fault()?))),
    }
}

// A failure of the right side, with its place added. For the same reason a match of its own.
fn at_right<F, G>(r: Result<(), Failure<G>>) -> Result<(), Failure<Side<F, G>>>
    ensures { result ≡ failing to_right r }
{
    match r {
        Ok(()) => Ok(()),
        Err(failure) => Err(Failure::Fault(Side::Right(failure.fault()?))),
    }
}

impl<L: Kind, R: Kind> Kind for Sides<L, R> {
    type Patch = Side<L::Patch, R::Patch>;

    type Fault = Side<L::Fault, R::Fault>;

    ghost theory = { the_sides L.Kind.theory R.Kind.theory };

    ghost lawful = { sides_lawful L.Kind.theory R.Kind.theory L.lawful R.lawful };

    fn words() -> u32 {
        total(1, L::words(), R::words())
    }

    fn writable(p: Side<L::Patch, R::Patch>) -> bool {
        match p {
            Side::Left(a) => L::writable(a),
            Side::Right(b) => R::writable(b),
        }
    }

    fn grows_by(p: Side<L::Patch, R::Patch>) -> u32 {
        match p {
            Side::Left(a) => L::grows_by(a),
            Side::Right(b) => R::grows_by(b),
        }
    }

    fn invert(p: Side<L::Patch, R::Patch>) -> Side<L::Patch, R::Patch> {
        match p {
            Side::Left(a) => Side::Left(L::invert(a)),
            Side::Right(b) => Side::Right(R::invert(b)),
        }
    }

    fn commute(
        p: Side<L::Patch, R::Patch>,
        q: Side<L::Patch, R::Patch>,
    ) -> Result<(Side<L::Patch, R::Patch>, Side<L::Patch, R::Patch>), Clash> {
        match (p, q) {
            (Side::Left(a), Side::Left(b)) => {
                let (b, a) = L::commute(a, b)?;
                Ok((Side::Left(b), Side::Left(a)))
            }
            (Side::Right(a), Side::Right(b)) => {
                let (b, a) = R::commute(a, b)?;
                Ok((Side::Right(b), Side::Right(a)))
            }
            (Side::Left(_), Side::Right(_)) => Ok((q, p)),
            (Side::Right(_), Side::Left(_)) => Ok((q, p)),
        }
    }

    // Lends the words of the one side to its kind.
    fn apply(
        p: Side<L::Patch, R::Patch>,
        run: &mut [u32],
    ) -> Result<(), Failure<Side<L::Fault, R::Fault>>>
        ensures applied { Applied (the_sides L.Kind.theory R.Kind.theory) p run.old result run.new }
        ensures others { Around (side_start L.Kind.theory R.Kind.theory p) (side_width L.Kind.theory R.Kind.theory p) run.old run.new }
    {
        if !roomy(run, Self::words()) {
            return Err(Failure::Length);
        }
        let middle = L::words() as usize;
        let end = run.len();
        match p {
            Side::Left(a) => at_left(L::apply(a, &mut run[0..middle])),
            Side::Right(b) => at_right(R::apply(b, &mut run[middle..end])),
        }
    }
}
