// Fields and lines in RFC 4180's grammar.
#![tactic(auto)]

ghost use Rattle.std.specs.Prelude.{◌+◌, ◌≤◌, ◌≡◌, false, length, map, drop, is_some, IfSome};
ghost use Rattle.std.specs.Iterator.{YieldsFirst, item_count};
ghost use Rattle.csv_cells.specs.declared.Scan.{Scan};
ghost use Rattle.csv_cells.specs.Cells.{is_text_data, is_quoted_data, go_on, may_end, cell_of, inner_of, undoubled, break_at, size_by, six_fields, stop_from, text_from, six_texts, line_size, filled_to};

// How far the field at hand has got: nothing of it yet, inside a field without quotes, between quotes, behind a quote that closes or
// is the first of two, or it cannot go on.
#[derive(Clone, Copy)]
pub enum Scan {
    Fresh,
    Plain,
    Quoted,
    Quote,
    Stuck,
}

// The field at the front of some bytes: how many they are, and whether it may end there.
#[derive(Clone, Copy)]
pub struct Cell {
    pub size: usize,
    pub whole: bool,
}

// A range to a `matches!`, joined by `|`: LLVM makes a compare of each, and one `matches!` of the three would branch at every end.
fn is_text_data(b: u8) -> bool
    ensures { result ≡ is_text_data b }
{
    matches!(b, b' '..=b'!') | matches!(b, b'#'..=b'+') | matches!(b, b'-'..=b'~')
}

fn is_quoted_data(b: u8) -> bool
    ensures { result ≡ is_quoted_data b }
{
    is_text_data(b) || matches!(b, b',' | b'\r' | b'\n')
}

// How a field goes on, by how far it has got.
fn go_on(scan: Scan, b: u8) -> Scan
    ensures { result ≡ go_on scan b }
{
    match (scan, b) {
        (Scan::Fresh | Scan::Quote, b'"') => Scan::Quoted,
        (Scan::Quoted, b'"') => Scan::Quote,
        (Scan::Fresh | Scan::Plain, _) if is_text_data(b) => Scan::Plain,
        (Scan::Quoted, _) if is_quoted_data(b) => Scan::Quoted,
        _ => Scan::Stuck,
    }
}

fn may_end(scan: Scan) -> bool
    ensures { result ≡ may_end scan }
{
    !matches!(scan, Scan::Quoted | Scan::Stuck)
}

// The field at the front of these bytes.
fn front(s: &[u8]) -> Cell
    ensures { (result ≡ cell_of s.now) × (result.size ≤ length s.now) }
{
    let mut scan = Scan::Fresh;
    for (i, b) in s.iter().enumerate() {
        match go_on(scan, *b) {
            Scan::Stuck => {
                return Cell {
                    size: i,
                    whole: may_end(scan),
                };
            }
            next => scan = next,
        }
    }
    Cell {
        size: s.len(),
        whole: may_end(scan),
    }
}

// The field that begins at a byte of the line.
pub fn cell_at(s: &[u8], at: usize) -> Cell
    requires { at ≤ length s.now }
    ensures { (result ≡ cell_of (drop at s.now)) × (at + result.size ≤ length s.now) }
{
    front(&s[at..])
}

// The bytes of the line with its break at a byte, where one stands there.
pub fn line_end(s: &[u8], stop: usize) -> Option<usize>
    requires { stop ≤ length s.now }
    ensures stands { is_some result ≡ break_at s.now stop }
    ensures size { IfSome result (λ n. n ≡ size_by s.now stop) }
{
    match &s[stop..] {
        [] => Some(stop),
        [b'\r', b'\n', ..] => Some(stop + 2),
        _ => None,
    }
}

// What stands between the quotes of a field, or all of it.
pub fn inner(raw: &[u8]) -> &[u8]
    ensures { result.now ≡ inner_of raw.now }
{
    match raw {
        [b'"', middle @ .., _] => middle,
        [b'"'] => &[],
        _ => raw,
    }
}

// The field that begins at a byte, where it may end: what stands between its quotes, and where it stops.
fn field(s: &[u8], at: usize) -> Option<(&[u8], usize)>
    requires { at ≤ length s.now }
    ensures whole { is_some result ≡ (cell_of (drop at s.now)).whole }
    ensures text { IfSome result (λ field. undoubled false field.0.now ≡ text_from s.now at) }
    ensures stop { IfSome result (λ field. (field.1 ≡ stop_from s.now at) × (field.1 ≤ length s.now)) }
{
    let Cell { size, whole: true } = cell_at(s, at) else {
        return None;
    };
    let stop = at + size;
    Some((inner(&s[at..stop]), stop))
}

// A line of six fields: what stands between the quotes of each, and the bytes of the line.
#[derive(Clone, Copy)]
pub struct Line<'a> {
    pub fields: [&'a [u8]; 6],
    pub size: usize,
}

// The line of six fields at the front of these bytes, where one stands there.
pub fn six_fields(s: &[u8]) -> Option<Line<'_>>
    ensures stands { is_some result ≡ six_fields s.now }
    ensures size { IfSome result (λ line. line.size ≡ line_size s.now) }
    ensures texts { IfSome result (λ line. map (λ field. undoubled false field.now) line.fields ≡ six_texts s.now) }
{
    let mut fields = [s; 6];
    let mut at = 0;
    for k in 0..5 {
        let (text, stop) = field(s, at)?;
        if !s[stop..].starts_with(b",") {
            return None;
        }
        fields[k] = text;
        at = stop + 1;
    }
    let (text, stop) = field(s, at)?;
    fields[5] = text;
    let size = line_end(s, stop)?;
    Some(Line { fields, size })
}

// The bytes of a text, with one quote for two.
#[derive(Drop)]
struct Text<'a>(&'a [u8]);

impl<'a> Iterator for Text<'a> {
    type Item = u8;

    ghost next_gives = { YieldsFirst (λ s. undoubled false s.0.now) };

    ghost remaining = { item_count (λ s. undoubled false s.0.now) };

    #[tactic(auto, using(crate::proofs::CellLaws::text_bytes))]
    fn next(&mut self) -> Option<u8> {
        match self.0 {
            [] => None,
            [b'"', _, behind @ ..] => {
                self.0 = behind;
                Some(b'"')
            }
            [b, behind @ ..] => {
                self.0 = behind;
                Some(*b)
            }
        }
    }
}

// How many bytes the text has.
pub fn text_size(inner: &[u8]) -> usize
    ensures { result ≡ length (undoubled false inner.now) }
{
    Text(inner).count()
}

// Writes the text over the whole slice, with blanks behind it.
pub fn put_text(to: &mut [u8], inner: &[u8])
    requires { length (undoubled false inner.now) ≤ length to.old }
    ensures { to.new ≡ filled_to (length to.old) (undoubled false inner.now) }
{
    let mut text = Text(inner);
    for b in to.iter_mut() {
        *b = text.next().unwrap_or(b' ');
    }
}
