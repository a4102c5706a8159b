// The order of record types.
#![tactic(auto)]

ghost use Rattle.std.specs.Prelude.{◌≡◌};
ghost use Rattle.check_order.specs.Order.{filled, line_at, next_place, complete};

use layout::Line;

// Where in the order of record types the next record stands.
#[derive(Clone, Copy)]
pub enum Place {
    Start,
    FileOpen,
    BatchOpen,
    AddendumDue,
    EntryDone,
    BatchDone,
    FileDone,
}

fn filled(n: u64) -> bool
    ensures { result ≡ filled n }
{
    n % 10 == 0
}

// What a record that begins with byte b is taken for, after n records that led to this place.
pub fn line_at(place: Place, n: u64, b: u8) -> Line
    ensures { result ≡ line_at place n b }
{
    match (place, b) {
        (Place::Start, b'1') => Line::FileHeader,
        (Place::FileOpen | Place::BatchDone, b'5') => Line::BatchHeader,
        (Place::BatchOpen | Place::EntryDone, b'6') => Line::Entry,
        (Place::AddendumDue, b'7') => Line::Addendum,
        (Place::EntryDone, b'8') => Line::BatchControl,
        (Place::BatchDone, b'9') => Line::FileControl,
        (Place::FileDone, _) if filled(n) => Line::Past,
        (Place::FileDone, _) => Line::Filler,
        _ => Line::Other,
    }
}

// Where the record after this one stands.
pub fn next_place(place: Place, line: Line, rec: &[u8; 94]) -> Place
    ensures { result ≡ next_place place line rec.now }
{
    match line {
        Line::FileHeader => Place::FileOpen,
        Line::BatchHeader => Place::BatchOpen,
        Line::Entry if rec[78] == b'1' => Place::AddendumDue,
        Line::Entry | Line::Addendum => Place::EntryDone,
        Line::BatchControl => Place::BatchDone,
        Line::FileControl | Line::Filler => Place::FileDone,
        Line::Past | Line::Other => place,
    }
}

// Whether no record is due any more.
pub fn complete(place: Place, n: u64) -> bool
    ensures { result ≡ complete place n }
{
    matches!(place, Place::FileDone) && filled(n)
}
