// What the public answers are made of, and the field table of each record type.
#![tactic(auto)]

ghost use Rattle.std.specs.Prelude.{◌≡◌, true, length, get_or};
ghost use Rattle.layout.specs.Fields.{rows_of, no_row, first_field};
ghost use Rattle.layout.specs.WorkFits.{row_fits};
ghost use Rattle.layout.specs.Paper.{number_of, refusal};
ghost use Rattle.layout.specs.Ways.{record_bytes};

// How the records of a file stand: back to back, or each with CR LF behind it.
#[derive(Clone, Copy, PartialEq, Eq)]
pub enum Way {
    Plain,
    Lined,
}

// The number of a record, from 1, through the whole file.
#[derive(Clone, Copy)]
pub struct RecordNo(pub u64);

// The number of an entry, from 1, through the whole file: never a record's.
#[derive(Clone, Copy)]
pub struct EntryNo(pub u64);

// Why something is refused: one case for each number of the paper's table, in its order.
#[derive(Clone, Copy, PartialEq, Eq)]
pub enum Fault {
    Length,
    Ended,
    Misplaced,
    Past,
    Fixed,
    Digits,
    Text,
    Blank,
    Leading,
    Date,
    Value,
    CheckDigit,
    Bank,
    Amount,
    Side,
    Trace,
    BatchNumber,
    Count,
    Hash,
    Limit,
    Total,
    Batch,
    Room,
    Shape,
    NoEntry,
    LineEnd,
    NoneLeft,
    Remittance,
    Comma,
    Cents,
    Long,
    Rows,
}

#[derive(Clone, Copy)]
pub struct Refusal {
    pub fault: Fault,
    pub record: RecordNo,
    pub field: u64,
}

// Granted, with what was asked for, or the first refusal.
pub type Answer<T> = Result<T, Refusal>;

// What a check counts in a file that it accepts.
#[derive(Clone, Copy)]
pub struct Acceptance {
    pub batches: u64,
    pub entries: u64,
    pub addenda: u64,
    pub debit: u64,
    pub credit: u64,
    pub bycode: [u64; 24],
}

impl Refusal {
    // By its cause and its place: the record's number and the field's.
    pub fn at(fault: Fault, number: u64, k: u64) -> Refusal
        ensures { Err result ≡ refusal fault number k }
    {
        Refusal {
            fault,
            record: RecordNo(number),
            field: k,
        }
    }

    // Of the whole that was lent: no record, no field.
    pub fn whole(fault: Fault) -> Refusal
        ensures { Err result ≡ refusal fault 0 0 }
    {
        Refusal::at(fault, 0, 0)
    }
}

// What a record is taken for at its place in the file.
#[derive(Clone, Copy, PartialEq, Eq)]
pub enum Line {
    FileHeader,
    BatchHeader,
    Entry,
    Addendum,
    BatchControl,
    FileControl,
    Filler,
    Past,
    Other,
}

// A rule that looks at its own field alone.
#[derive(Clone, Copy)]
pub enum Own {
    Destination,
    Origin,
    Time,
    Modifier,
    Class,
    EntryClass,
    Bank,
    Account,
}

// A rule that looks at another field or at an earlier record.
#[derive(Clone, Copy)]
pub enum Near {
    Code,
    CheckDigit,
    Amount,
    Trace,
    EntryTrace,
    BatchNumber,
    Flag,
}

// A sum that a control record repeats.
#[derive(Clone, Copy)]
pub enum Sum {
    BatchRecords,
    BatchHash,
    BatchDebit,
    BatchCredit,
    Batches,
    Blocks,
    FileRecords,
    FileHash,
    FileDebit,
    FileCredit,
}

// What a field has to be.
#[derive(Clone, Copy)]
pub enum Kind {
    Type,
    Misplaced,
    Past,
    Nines,
    Fixed(u8),
    Blanks,
    Digits,
    Optional,
    Mandatory,
    Date,
    Own(Own),
    Near(Near),
    AsBatch(u8),
    Count(Sum),
    Hash(Sum),
    Total(Sum),
}

// One row of a field table: first column, last column, kind.
#[derive(Clone, Copy)]
pub struct Row {
    pub first: u8,
    pub last: u8,
    pub kind: Kind,
}

// A row of a table: first column, last column, kind.
macro_rules! row {
    ($first:literal, $last:literal, $kind:expr) => {
        Row {
            first: $first,
            last: $last,
            kind: $kind,
        }
    };
}

const FILE_HEADER: [Row; 13] = [
    row!(1, 1, Kind::Type),
    row!(2, 3, Kind::Fixed(1)),
    row!(4, 13, Kind::Own(Own::Destination)),
    row!(14, 23, Kind::Own(Own::Origin)),
    row!(24, 29, Kind::Date),
    row!(30, 33, Kind::Own(Own::Time)),
    row!(34, 34, Kind::Own(Own::Modifier)),
    row!(35, 37, Kind::Fixed(94)),
    row!(38, 39, Kind::Fixed(10)),
    row!(40, 40, Kind::Fixed(1)),
    row!(41, 63, Kind::Optional),
    row!(64, 86, Kind::Optional),
    row!(87, 94, Kind::Optional),
];

const BATCH_HEADER: [Row; 13] = [
    row!(1, 1, Kind::Type),
    row!(2, 4, Kind::Own(Own::Class)),
    row!(5, 20, Kind::Mandatory),
    row!(21, 40, Kind::Optional),
    row!(41, 50, Kind::Mandatory),
    row!(51, 53, Kind::Own(Own::EntryClass)),
    row!(54, 63, Kind::Mandatory),
    row!(64, 69, Kind::Optional),
    row!(70, 75, Kind::Date),
    row!(76, 78, Kind::Blanks),
    row!(79, 79, Kind::Fixed(1)),
    row!(80, 87, Kind::Digits),
    row!(88, 94, Kind::Near(Near::BatchNumber)),
];

const ENTRY: [Row; 11] = [
    row!(1, 1, Kind::Type),
    row!(2, 3, Kind::Near(Near::Code)),
    row!(4, 11, Kind::Own(Own::Bank)),
    row!(12, 12, Kind::Near(Near::CheckDigit)),
    row!(13, 29, Kind::Own(Own::Account)),
    row!(30, 39, Kind::Near(Near::Amount)),
    row!(40, 54, Kind::Optional),
    row!(55, 76, Kind::Mandatory),
    row!(77, 78, Kind::Optional),
    row!(79, 79, Kind::Near(Near::Flag)),
    row!(80, 94, Kind::Near(Near::Trace)),
];

const ADDENDUM: [Row; 5] = [
    row!(1, 1, Kind::Type),
    row!(2, 3, Kind::Fixed(5)),
    row!(4, 83, Kind::Optional),
    row!(84, 87, Kind::Fixed(1)),
    row!(88, 94, Kind::Near(Near::EntryTrace)),
];

const BATCH_CONTROL: [Row; 11] = [
    row!(1, 1, Kind::Type),
    row!(2, 4, Kind::AsBatch(2)),
    row!(5, 10, Kind::Count(Sum::BatchRecords)),
    row!(11, 20, Kind::Hash(Sum::BatchHash)),
    row!(21, 32, Kind::Total(Sum::BatchDebit)),
    row!(33, 44, Kind::Total(Sum::BatchCredit)),
    row!(45, 54, Kind::AsBatch(41)),
    row!(55, 73, Kind::Blanks),
    row!(74, 79, Kind::Blanks),
    row!(80, 87, Kind::AsBatch(80)),
    row!(88, 94, Kind::AsBatch(88)),
];

const FILE_CONTROL: [Row; 8] = [
    row!(1, 1, Kind::Type),
    row!(2, 7, Kind::Count(Sum::Batches)),
    row!(8, 13, Kind::Count(Sum::Blocks)),
    row!(14, 21, Kind::Count(Sum::FileRecords)),
    row!(22, 31, Kind::Hash(Sum::FileHash)),
    row!(32, 43, Kind::Total(Sum::FileDebit)),
    row!(44, 55, Kind::Total(Sum::FileCredit)),
    row!(56, 94, Kind::Blanks),
];

const FILLER: [Row; 1] = [row!(1, 94, Kind::Nines)];

const PAST: [Row; 1] = [row!(1, 94, Kind::Past)];

const OTHER: [Row; 1] = [row!(1, 1, Kind::Misplaced)];

// What stands behind a table's last row.
const NO_ROW: Row = row!(1, 1, Kind::Type);

// The table of this record type.
pub fn rows(line: Line) -> &'static [Row]
    ensures { result.now ≡ rows_of line }
{
    match line {
        Line::FileHeader => &FILE_HEADER,
        Line::BatchHeader => &BATCH_HEADER,
        Line::Entry => &ENTRY,
        Line::Addendum => &ADDENDUM,
        Line::BatchControl => &BATCH_CONTROL,
        Line::FileControl => &FILE_CONTROL,
        Line::Filler => &FILLER,
        Line::Past => &PAST,
        Line::Other => &OTHER,
    }
}

// Row k, from 0, of the table of this record type.
pub fn row_of(line: Line, k: usize) -> Row
    ensures { (result ≡ get_or (rows_of line) k no_row) × (row_fits result ≡ true) }
{
    rows(line).get(k).copied().unwrap_or(NO_ROW)
}

// How many rows the table of this record type has.
pub fn rows_in(line: Line) -> usize
    ensures { result ≡ length (rows_of line) }
{
    rows(line).len()
}

// The number of the first row's field.
pub fn first_field(line: Line) -> u64
    ensures { result ≡ first_field line }
{
    match line {
        Line::Filler | Line::Past => 0,
        _ => 1,
    }
}

// The paper's number of a fault.
pub fn number_of(fault: Fault) -> u64
    ensures { result ≡ number_of fault }
{
    match fault {
        Fault::Length => 1,
        Fault::Ended => 2,
        Fault::Misplaced => 3,
        Fault::Past => 4,
        Fault::Fixed => 5,
        Fault::Digits => 6,
        Fault::Text => 7,
        Fault::Blank => 8,
        Fault::Leading => 9,
        Fault::Date => 10,
        Fault::Value => 11,
        Fault::CheckDigit => 12,
        Fault::Bank => 13,
        Fault::Amount => 14,
        Fault::Side => 15,
        Fault::Trace => 16,
        Fault::BatchNumber => 17,
        Fault::Count => 18,
        Fault::Hash => 19,
        Fault::Limit => 20,
        Fault::Total => 21,
        Fault::Batch => 22,
        Fault::Room => 23,
        Fault::Shape => 24,
        Fault::NoEntry => 25,
        Fault::LineEnd => 26,
        Fault::NoneLeft => 27,
        Fault::Remittance => 28,
        Fault::Comma => 29,
        Fault::Cents => 30,
        Fault::Long => 32,
        Fault::Rows => 34,
    }
}

// The bytes of a record together with what follows it.
pub fn record_bytes(way: Way) -> usize
    ensures { result ≡ record_bytes way }
{
    match way {
        Way::Plain => 94,
        Way::Lined => 96,
    }
}
