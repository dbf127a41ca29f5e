//! The rows of a type, and which of them takes a field.
ghost use Rattle.std.specs.Prelude.{◌≡◌, ◌+◌, ◌&&◌, if◌then◌else◌, Some, None, ◌==◌, nat_lt};
ghost use Rattle.std.specs.List.{find, list_all};
ghost use Rattle.std.specs.Option.{option_map};
ghost use Rattle.reader.specs.Meaning.{same_tag};
ghost use Rattle.reader.specs.Rows.{seek, filled, format_for};
ghost use Rattle.reader.specs.Steps.{moved, sought};

use crate::interface::Row;
use fields::{Field, Tag};
use mt_text::Fault;

// The rows from the current one on, and how many fields the current one has.
#[derive(Clone, Copy)]
pub(crate) struct Walk<'r, F> {
    pub rows: &'r [Row<F>],
    pub count: usize,
}

// How many fields the row has with one more, if it has this tag and is free.
fn count_in<F: Copy>(row: &Row<F>, tag: Tag, have: usize) -> Option<usize>
    ensures { result ≡ (if same_tag tag row.now.tag && nat_lt have row.now.most then Some (have + 1) else None) }
{
    if tag == row.tag && have < row.most {
        Some(have + 1)
    } else {
        None
    }
}

// Whether none of the rows must have a field.
fn need_none<F: Copy>(rows: &[Row<F>]) -> bool
    ensures { result ≡ list_all (λ r. r.least == 0) rows.now }
{
    rows.iter().all(|row| row.least == 0)
}

impl<'r, F: Copy> Walk<'r, F> {
    // Goes on to the row that takes the field, and answers its format: 7 where no free row has the
    // field's tag, 8 where a row that is passed over falls short.
    pub(crate) fn take(self, field: Field) -> Result<(F, Walk<'r, F>), Fault>
        ensures { moved result ≡ sought field (seek field.tag self.entry.count self.entry.rows.now) }
    {
        let mut rows = self.rows;
        let mut count = self.count;
        let mut enough = true;
        while let Some((row, behind)) = rows.split_first() {
            if let Some(count) = count_in(row, field.tag, count) {
                if !enough {
                    return Err(Fault::Missing { at: field.at });
                }
                return Ok((row.format, Walk { rows, count }));
            }
            // a row that is passed over may fall short
            enough = enough && count >= row.least;
            count = 0;
            rows = behind;
        }
        Err(Fault::Tag { at: field.at })
    }

    // Whether no row falls short, from the current one on.
    pub(crate) fn is_filled(self) -> bool
        ensures { result ≡ filled self.entry.count self.entry.rows.now }
    {
        match self.rows.split_first() {
            Some((row, behind)) => self.count >= row.least && need_none(behind),
            None => true,
        }
    }
}

// The first row that has the tag.
fn row_for<F: Copy>(rows: &[Row<F>], tag: Tag) -> Option<&Row<F>>
    ensures { option_map (λ r. r.now) result ≡ find (λ r. same_tag tag r.tag) rows.now }
{
    rows.iter().find(|row| tag == row.tag)
}

// The format of the row that has the tag.
pub fn format_for<F: Copy>(rows: &[Row<F>], tag: Tag) -> Option<F>
    ensures { result ≡ format_for tag rows.now }
{
    row_for(rows, tag).map(|row| row.format)
}
