// What a hunk is made of.
ghost use Rattle.std.specs.Prelude.{◌≡◌, if◌then◌else◌, Ok, Err, nat_lt};
ghost use Rattle.kinds.specs.declared.answers.Clash.TheVariants.{TooFar};
ghost use Rattle.lists.specs.Hunk.{lines_of, count as count_of, moved as moved_to, last_start, all_written};

use kinds::answers::Clash;
use lines::line::Line;

// No line, one or two. An enum and no vector, so that a third line cannot be written down.
#[derive(Clone, Copy, Debug, PartialEq, Eq)]
pub enum Lines<L> {
    Zero,
    One(L),
    Two(L, L),
}

// Puts the new lines in the place of the old ones, which stand from the line `start` on.
#[derive(Clone, Copy, Debug, PartialEq, Eq)]
pub struct Hunk<L> {
    pub start: u16,
    pub old: Lines<L>,
    pub new: Lines<L>,
}

// What a hunk can find wrong with a list.
#[derive(Clone, Copy, Debug, PartialEq, Eq)]
pub enum ListFault {
    // The old lines would end past the end of the list, which has so many lines.
    PastEnd { length: u32 },
    // This line of the list, the first such one, is not the old line.
    Differs { at: u32 },
}

impl<L: Line> Lines<L> {
    pub fn count(self) -> u32
        ensures { result ≡ count_of self }
    {
        match self {
            Lines::Zero => 0,
            Lines::One(_) => 1,
            Lines::Two(_, _) => 2,
        }
    }

    // Whether the fields of each make a line.
    pub fn writable(self) -> bool
        ensures { result ≡ all_written L.Line.form (lines_of self) }
    {
        match self {
            Lines::Zero => true,
            Lines::One(a) => a.writable(),
            Lines::Two(a, b) => a.writable() && b.writable(),
        }
    }
}

impl<L: Line> Hunk<L> {
    // The same lines at another start, if it is in its range.
    pub fn moved(self, to: u32) -> Result<Hunk<L>, Clash>
        ensures { result ≡ (if nat_lt last_start to then Err TooFar else Ok (moved_to self to)) }
    {
        let start = u16::try_from(to).map_err(|_| Clash::TooFar)?;
        Ok(Hunk { start, ..self })
    }
}
