// Whether every field of a record is right, where the quick test knows its type; false says nothing.
ghost use Rattle.std.specs.Prelude.{◌+◌, ◌≡◌, true, ◌≤◌, length, drop};
ghost use Rattle.layout.specs.Fields.{rows_of, first_field};
ghost use Rattle.check_across.specs.Across.{said_of};
ghost use Rattle.check_record.specs.Record.{fields_from};

use check_across::{Numbers, Sums};
use check_digit::GroupSums;
use layout::Line;

pub fn passes(
    groups: &GroupSums,
    line: Line,
    sums: Sums,
    header: &[u8; 94],
    said: Numbers,
    rec: &[u8; 94],
) -> bool
    requires { said ≡ said_of rec.now }
    ensures { result ≡ true → fields_from (first_field line) (rows_of line) sums header.now rec.now ≡ Ok tt }
{
    match line {
        Line::Entry => {
            check_quick::entry_front(groups, header, said, rec)
                && check_quick::entry_back(sums, header, said, rec)
        }
        Line::Addendum => check_quick::addendum_all(sums, rec),
        _ => false,
    }
}

// Where the walk along the table starts: behind its last row where the quick test passes.
pub fn walk_from(
    groups: &GroupSums,
    line: Line,
    sums: Sums,
    header: &[u8; 94],
    said: Numbers,
    rec: &[u8; 94],
) -> usize
    requires { said ≡ said_of rec.now }
    ensures inside { result ≤ length (rows_of line) }
    ensures skips { fields_from (first_field line) (drop result (rows_of line)) sums header.now rec.now ≡ fields_from (first_field line) (rows_of line) sums header.now rec.now }
    ensures numbered { fields_from (first_field line + result) (drop result (rows_of line)) sums header.now rec.now ≡ fields_from (first_field line) (rows_of line) sums header.now rec.now }
{
    if passes(groups, line, sums, header, said, rec) {
        layout::rows_in(line)
    } else {
        0
    }
}
