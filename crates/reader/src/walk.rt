// Going along a list of headers.
ghost use Rattle.std.specs.Prelude.{◌≡◌};
ghost use Rattle.reader.specs.Fetched.{Reads};
ghost use Rattle.reader.specs.Header.{read_of};
ghost use Rattle.reader.specs.Sought.{sought_value};
ghost use Rattle.volume.specs.Walk.{find};

use crate::header::Header;
use crate::reading::header_for;
use crate::romfs::Romfs;
use crate::sought::{Sought, is_dots};
use device::Device;
use volume::{PathFault, PathRule};

// The header that is sought, in the list that begins at an offset; a fault has this place in the path.
pub(crate) fn find<D: Device>(
    store: &mut D,
    romfs: Romfs,
    place: usize,
    sought: Sought<'_>,
    first: u32,
) -> Result<Header, PathFault<D::Refusal>>
    ensures { Reads D.meaning D.moves romfs store.old (λ v. find v place (sought_value sought.entry) first) (read_of result) store.new }
{
    let mut sought = sought;
    let mut at = first;
    while at != 0 {
        let header = header_for(store, romfs, place, at)?;
        if !is_dots(header.name()) {
            if sought.is_it(header.name()) {
                return Ok(header);
            }
            sought.behind();
        }
        at = header.next;
    }
    Err(PathFault::Rule(place, PathRule::Missing))
}
