// Four repositories, and the number of names that were given out.
ghost use Rattle.std.specs.Prelude.{◌≡◌, length};

use crate::repository::Repository;
use histories::named::Named;

// An array, found by number: the rules have four repositories, and name them by the numbers 0 to 3.
#[derive(Debug, Drop, PartialEq, Eq)]
pub struct Shop<P> {
    pub repositories: [Repository<P>; 4],
    pub counter: u8,
    ghost four: { length repositories ≡ 4 },
}

impl<P> Shop<P> {
    ghost use Rattle.shop.specs.Held.{row_at};

    // The changes of a repository's history. A number that no repository has gives none.
    pub fn row(&self, number: u8) -> &[Named<P>]
        ensures { result.now ≡ row_at self.now number }
    {
        self.repositories
            .get(usize::from(number))
            .map_or(&[], |repository| repository.changes())
    }
}
