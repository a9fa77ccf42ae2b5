// Lists of lines, for every line type: the hunk as a kind of patch.
#![tactic(auto)]

ghost use Rattle.lists.specs.Proofs.Lawful.{lists_lawful};
ghost use Rattle.lists.specs.Hunk.{lists as the_lists};

pub mod apply;
pub mod hunk;

use apply::{apply_hunk, list_words};
use hunk::{Hunk, ListFault};
use kinds::answers::{Clash, Failure};
use kinds::kind::Kind;
use lines::line::Line;

// The kind of lists of lines of the type L.
pub struct Lists<L> {
    line: L,
}

impl<L: Line> Kind for Lists<L> {
    type Patch = Hunk<L>;

    type Fault = ListFault;

    ghost theory = { the_lists L.Line.form };

    ghost lawful = { lists_lawful L.Line.form L.filled L.read_back L.tells_same };

    fn words() -> u32 {
        list_words::<L>()
    }

    fn writable(p: Hunk<L>) -> bool {
        p.old.count() + p.new.count() > 0 && p.old.writable() && p.new.writable()
    }

    fn grows_by(p: Hunk<L>) -> u32 {
        p.new.count()
    }

    fn invert(p: Hunk<L>) -> Hunk<L> {
        Hunk {
            old: p.new,
            new: p.old,
            ..p
        }
    }

    fn commute(p: Hunk<L>, q: Hunk<L>) -> Result<(Hunk<L>, Hunk<L>), Clash> {
        let first = p.start as u32;
        let second = q.start as u32;
        if first + p.new.count() < second {
            let to = second - p.new.count() + p.old.count();
            Ok((q.moved(to)?, p))
        } else if second + q.old.count() < first {
            let to = first - q.old.count() + q.new.count();
            Ok((q, p.moved(to)?))
        } else {
            Err(Clash::Refused)
        }
    }

    fn apply(p: Hunk<L>, run: &mut [u32]) -> Result<(), Failure<ListFault>> {
        apply_hunk(p, run)
    }
}
