// Exporting: the entries of a pay table as comma lines. The table is judged and the room is asked for before the first byte is
// written.
#![tactic(auto)]

ghost use Rattle.std.specs.Prelude.{◌≡◌};
ghost use Rattle.layout.specs.Answers.{made_as};
ghost use Rattle.csv_export.specs.Export.{export_of};

use layout::{Answer, Fault, Refusal};
use table_form::shape;

pub mod lining;
pub mod quoting;

// The lines of a table that would be written; the bytes past them stay. A refusal leaves the lent bytes as they are.
pub fn export(table: &[u8], lines: &mut [u8]) -> Answer<u64>
    ensures { (made_as result ≡ (export_of table.now lines.old).gives) × (lines.new ≡ (export_of table.now lines.old).leaves) }
{
    table_write::judge(table)?;
    let s = shape::sections(table);
    let size = lining::lines_size(table, s.entryrows, s.entries);
    if lines.len() < size {
        return Err(Refusal::whole(Fault::Room));
    }
    lining::put_lines(table, s.entryrows, s.entries, lines);
    Ok(size as u64)
}
