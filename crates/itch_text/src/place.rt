//! Where a line stands in a text.
ghost use Rattle.std.specs.Prelude.{◌≡◌};
ghost use Rattle.itch_text.specs.Faults.{kind_of_name};
ghost use Rattle.itch_text.specs.Names.{as_name};
ghost use Rattle.itch_text.specs.Order.{next_place};

use crate::name::Name;
use itch_layouts::Layout;

/// Where a line stands in a text, which decides which lines may stand there.
#[derive(Clone, Copy)]
pub(crate) enum Place {
    /// Before the end marker.
    Entries,
    /// After the end marker.
    Ended,
    /// After all that a file can hold.
    Closed,
}

impl Place {
    /// Where the line after one of this name stands, or `None` where no line of this name may stand here.
    pub(crate) fn after(self, name: Name<Layout>) -> Option<Place>
        ensures { result ≡ next_place self (kind_of_name (as_name name)) }
    {
        match (self, name) {
            (Place::Entries, Name::Message(_) | Name::Raw) => Some(Place::Entries),
            (Place::Entries, Name::End) => Some(Place::Ended),
            (Place::Entries, Name::Cut) | (Place::Ended, Name::Rest) => Some(Place::Closed),
            _ => None,
        }
    }
}
