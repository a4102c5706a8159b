// The shape of a pay table: its counts, its length, and whether its sections fit each other.
ghost use Rattle.std.specs.Prelude.{◌+◌, ◌*◌, ◌≤◌, ◌<◌, ◌≡◌, ◌≢◌, ◌&&◌, length, take, drop, MatchOption};
ghost use Rattle.text.specs.Decimal.{digits};
ghost use Rattle.text.specs.Rows.{rows};
ghost use Rattle.view.specs.View.{sum_over};
ghost use Rattle.view.specs.Table.{every_row, entries_due, addenda_due, shaped};
ghost use Rattle.table_form.specs.WorkSections.{count_at, size_by, Counted};

use crate::Sections;

// The number in the six digits at a byte.
pub fn count(table: &[u8], at: usize) -> usize
    requires { at + 6 ≤ length table.now }
    ensures { (result ≡ count_at table.now at) × (result < 1000000) }
{
    text::number(&table[at..at + 6]) as usize
}

// The same, where the table has as many bytes.
fn count_within(table: &[u8], at: usize) -> Option<usize>
    requires { at < 1000000000 }
    ensures { MatchOption result (length table.now < at + 6) (λ n. (n ≡ count_at table.now at) × (n < 1000000) × (at + 6 ≤ length table.now)) }
{
    (at + 6 <= table.len()).then(|| count(table, at))
}

// The counts of a table that is as long as they say, and where its rows begin.
fn sized(table: &[u8]) -> Option<Sections>
    ensures { MatchOption result (length table.now ≢ size_by table.now) (λ s. (length table.now ≡ size_by table.now) × Counted table.now s) }
{
    let batches = count_within(table, 91)?;
    let entries = count_within(table, 97 + 95 * batches)?;
    let addenda = count_within(table, 103 + 95 * batches + 93 * entries)?;
    let s = Sections {
        batches,
        entries,
        addenda,
        entryrows: 103 + 95 * batches,
        textrows: 109 + 95 * batches + 93 * entries,
    };
    (table.len() == s.textrows + 80 * addenda).then_some(s)
}

// The counts of a table of the right length, and where its rows begin.
pub fn sections(table: &[u8]) -> Sections
    requires { length table.now ≡ size_by table.now }
    ensures { Counted table.now result }
{
    sized(table).unwrap()
}

// As many rows of N bytes, from a byte on.
pub fn rows<const N: usize>(table: &[u8], from: usize, count: usize) -> &[[u8; N]]
    requires { (0 < N) × (from + N * count ≤ length table.now) }
    ensures { result.now ≡ rows N count (drop from table.now) }
{
    table[from..from + N * count].as_chunks().0
}

// Whether the six bytes at a byte are digits.
fn plain(table: &[u8], at: usize) -> bool
    requires { at + 6 ≤ length table.now }
    ensures { result ≡ digits (take 6 (drop at table.now)) }
{
    text::digits(&table[at..at + 6])
}

// Whether the batches' numbers of entries are digits.
fn numbered(batches: &[[u8; 95]]) -> bool
    ensures { result ≡ every_row (λ row. digits (drop 89 row)) batches.now }
{
    batches.iter().all(|row| plain(row, 89))
}

// How many entries the batches take together.
fn taken(batches: &[[u8; 95]]) -> usize
    requires { length batches.now < 1000000 }
    ensures { result ≡ sum_over entries_due batches.now }
{
    batches.iter().map(|row| count(row, 89)).sum()
}

// How many of the entry rows have '1' for column 79.
fn due(entries: &[[u8; 93]]) -> usize
    ensures { result ≡ sum_over addenda_due entries.now }
{
    entries.iter().filter(|row| row[77] == b'1').count()
}

// Whether each of the four counts is digits.
fn counted(table: &[u8], s: Sections) -> bool
    requires { (length table.now ≡ size_by table.now) × Counted table.now s }
    ensures { result ≡ (digits (take 6 table.now) && digits (take 6 (drop 91 table.now)) && digits (take 6 (drop (97 + 95 * s.batches) table.now)) && digits (take 6 (drop (103 + 95 * s.batches + 93 * s.entries) table.now))) }
{
    plain(table, 0)
        && plain(table, 91)
        && plain(table, s.entryrows - 6)
        && plain(table, s.textrows - 6)
}

// Whether a table has the right shape.
pub fn shaped(table: &[u8]) -> bool
    ensures { result ≡ shaped table.now }
{
    let Some(s) = sized(table) else {
        return false;
    };
    let batches = rows(table, 97, s.batches);
    let entries = rows(table, s.entryrows, s.entries);
    counted(table, s)
        && numbered(batches)
        && count(table, 0) == 1
        && taken(batches) == s.entries
        && due(entries) == s.addenda
}
