// A replay of a record for one file.
ghost use Rattle.std.specs.Prelude.{◌≡◌, ◌≤◌, ◌<◌, ◌+◌, max, List, length, IfSome, MatchOption, Some};
ghost use Rattle.site_model.specs.History.{Step, content_of};
ghost use Rattle.site_memory.specs.Record.{history_of, next};
ghost use Rattle.site_memory.specs.Place.{IsPlace, Shows, IsShown};

use crate::Kept;

/// What a replay knows of one file.
#[derive(Clone, Copy)]
pub(crate) struct Place {
    length: u64,
    // Where the next byte goes, if the newest step is a write of the file.
    cursor: Option<u64>,
}

/// The length of the file. What it has from `at` on goes into `out`, as far as there is room.
pub(crate) fn replay(kept: &[Kept], file: u32, at: u64, out: &mut [u8]) -> u64
    ensures length { result ≡ length (content_of file (history_of kept.now)) }
    ensures shows { Shows (content_of file (history_of kept.now)) at out.new }
{
    let mut place = Place {
        length: 0,
        cursor: None,
    };
    for entry in kept {
        place = step(place, *entry, file, at, out);
    }
    place.length
}

fn step(place: Place, entry: Kept, file: u32, at: u64, out: &mut [u8]) -> Place
    requires room { place.length < u64.MAX }
    requires within { IfSome place.cursor (λ c. c ≤ place.length) }
    ensures place { (steps : List Step) → IsPlace place file steps
        → IsPlace result file (next entry steps) }
    ensures shows { (steps : List Step) → IsPlace place file steps
        → Shows (content_of file steps) at out.old
        → Shows (content_of file (next entry steps)) at out.new }
    ensures longer { result.length ≤ place.length + 1 }
{
    let length = place.length;
    match entry {
        Kept::Wrote {
            file: other,
            at: start,
            ..
        } => {
            if other == file {
                return Place {
                    length,
                    cursor: Some(start.min(length)),
                };
            }
            Place {
                length,
                cursor: None,
            }
        }
        Kept::Byte(byte) => follow(place, byte, at, out),
        Kept::Synced { .. } => Place {
            length,
            cursor: None,
        },
        Kept::Said(_) => Place {
            length,
            cursor: None,
        },
    }
}

// The newest write reads one byte more.
fn follow(place: Place, byte: u8, at: u64, out: &mut [u8]) -> Place
    requires room { place.length < u64.MAX }
    requires within { IfSome place.cursor (λ c. c ≤ place.length) }
    ensures place { MatchOption place.cursor (result ≡ place)
        (λ c. (result.length ≡ max place.length (c + 1)) × (result.cursor ≡ Some (c + 1))) }
    ensures out { MatchOption place.cursor (out.new ≡ out.old)
        (λ c. IsShown at c byte out.old out.new) }
    ensures longer { result.length ≤ place.length + 1 }
{
    let Some(cursor) = place.cursor else {
        return place;
    };
    show(at, cursor, byte, out);
    Place {
        length: place.length.max(cursor + 1),
        cursor: Some(cursor + 1),
    }
}

// The buffer's front stands at `at` in the file, and the byte at `cursor`.
fn show(at: u64, cursor: u64, byte: u8, out: &mut [u8])
    ensures { IsShown at cursor byte out.old out.new }
{
    if at <= cursor && cursor - at < out.len() as u64 {
        out[(cursor - at) as usize] = byte;
    }
}
