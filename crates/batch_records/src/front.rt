//! How much of a day part has to be read: no record of a day has as many fields as one that is cut here, so that a line of
//! millions of fields takes no memory.

ghost use Rattle.std.specs.Prelude.{◌≡◌, ◌<◌, if◌then◌else◌};
ghost use Rattle.csv.specs.Reading.{is_bom};
ghost use Rattle.batch_records.specs.Front.{IsEnough, bare, is_marked, moved};

// Where a byte stands in a record.
#[derive(Clone, Copy)]
pub(crate) enum Place {
    // At the start of a field.
    Start,
    // In a field without quotes, or after what was in quotes.
    Bare,
    // In quotes.
    Quoted,
    // After a quote that closes, or is the first of two.
    Closed,
}

// Where a byte stands, and how many fields of its record have ended.
#[derive(Clone, Copy)]
pub(crate) struct Spot {
    pub place: Place,
    pub ended: usize,
}

// More fields than a record of a day has.
const TOO_MANY: usize = 16;

// After a byte that stands in no quotes and is none.
fn bare(c: u8, ended: usize) -> Spot
    requires { ended < 16 }
    ensures { result ≡ bare c ended }
{
    if c == b';' {
        Spot {
            place: Place::Start,
            ended: ended + 1,
        }
    } else if c == b'\r' || c == b'\n' {
        Spot {
            place: Place::Start,
            ended: 0,
        }
    } else {
        Spot {
            place: Place::Bare,
            ended,
        }
    }
}

fn quoted(place: Place, ended: usize) -> Spot
    ensures { result ≡ record { place = place; ended = ended } }
{
    Spot { place, ended }
}

// The next spot, after a byte.
fn moved(spot: Spot, c: u8) -> Spot
    requires { spot.ended < 16 }
    ensures { result ≡ moved spot c }
{
    let quote = c == b'"';
    match spot.place {
        Place::Quoted => {
            if quote {
                quoted(Place::Closed, spot.ended)
            } else {
                quoted(Place::Quoted, spot.ended)
            }
        }
        Place::Bare => bare(c, spot.ended),
        Place::Start | Place::Closed => {
            if quote {
                quoted(Place::Quoted, spot.ended)
            } else {
                bare(c, spot.ended)
            }
        }
    }
}

fn is_mark(a: u8, b: u8, c: u8) -> bool
    ensures { result ≡ is_bom a b c }
{
    a == 0xEF && b == 0xBB && c == 0xBF
}

// Whether the bytes begin with a byte order mark.
fn is_marked(bytes: &[u8]) -> bool
    ensures { result ≡ is_marked bytes.now }
{
    match bytes {
        [a, b, c, ..] => is_mark(*a, *b, *c),
        _ => false,
    }
}

fn mark_len(bytes: &[u8]) -> usize
    ensures { result ≡ (if is_marked bytes.now then 3 else 0) }
{
    if is_marked(bytes) { 3 } else { 0 }
}

// How much of a day part tells its day: all of it, or as much as shows that a record has too many fields.
pub fn front_len(part: &[u8]) -> usize
    ensures { IsEnough part.now result }
{
    let mut spot = Spot {
        place: Place::Start,
        ended: 0,
    };
    for i in mark_len(part)..part.len() {
        spot = moved(spot, part[i]);
        if spot.ended == TOO_MANY {
            return i + 1;
        }
    }
    part.len()
}
