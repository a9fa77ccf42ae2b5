// Where a patch stands in a flat row.
ghost use Rattle.std.specs.Prelude.{◌≡◌, ◌+◌, ◌<◌, ◌≤◌, length, option_map, IfSome};
ghost use Rattle.histories.specs.History.{holds as held};
ghost use Rattle.forms.specs.Form.{grouped};
ghost use Rattle.forms.specs.Find.{standing, place_of};

use histories::flat::leading;
use histories::named::Named;
use kinds::kind::Kind;
use rows::place::Place;

// The place of the first patch of the name.
pub fn find<K: Kind>(row: &[Named<K::Patch>], name: u8) -> Option<Place>
    ensures found { result ≡ option_map place_of (standing (λ w. w.name) (grouped row.now) name) }
    ensures within { IfSome result (λ place. place.start + place.count ≤ length row.now) }
{
    let start = row.iter().position(|change| change.name == name)?;
    let count = leading::<K>(&row[start..], name);
    Some(Place { start, count })
}

// Whether a patch of the row has the name.
pub fn holds<K: Kind>(row: &[Named<K::Patch>], name: u8) -> bool
    ensures { result ≡ held (λ w. w.name) (grouped row.now) name }
{
    find::<K>(row, name).is_some()
}
