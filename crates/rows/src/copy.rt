// A row copied over another.
ghost use Rattle.std.specs.Prelude.{◌≡◌, ◌++◌, length, take, drop};

use kinds::kind::Kind;

// Writes the patches of one row over the front of another, as many as find room there. What stands behind them stays.
pub fn copy_row<K: Kind>(from: &[K::Patch], to: &mut [K::Patch])
    ensures { to.new ≡ take (length to.old) from.now ++ drop (length from.now) to.old }
{
    let n = from.len().min(to.len());
    to[..n].copy_from_slice(&from[..n]);
}
