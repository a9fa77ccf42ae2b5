// A repository: a history in a flat row.
ghost use Rattle.std.specs.Prelude.{◌≤◌, length};

use histories::named::Named;

// The first `count` entries of the row are the changes of the history, each under the name of its patch. What stands
// behind them is free: a row is fixed memory that the caller hands in, so its count stands beside it. Two
// repositories are equal if their counts and all entries of their rows are, free ones too.
#[derive(Debug, Drop, PartialEq, Eq)]
pub struct Repository<P> {
    pub row: Vec<Named<P>>,
    pub count: usize,
    ghost within: { count ≤ length row.items },
}

impl<P> Repository<P> {
    ghost use Rattle.std.specs.Prelude.{◌≡◌};
    ghost use Rattle.shop.specs.Held.{used};

    // The changes of the history.
    pub fn changes(&self) -> &[Named<P>]
        ensures { result.now ≡ used self.now }
    {
        &self.row[..self.count]
    }
}
