//! Reading a whole text by a module.
ghost use Rattle.std.specs.Prelude.{◌≡◌, ◌≤◌, length, Ok};
ghost use Rattle.layout.specs.Walk.{heed};
ghost use Rattle.reader.specs.Rows.{seek, assigned};
ghost use Rattle.reader.specs.Texts.{fields_in, sum_of, reading_of, answered};
ghost use Rattle.reader.specs.Steps.{forward, stepped, gathered};

use crate::gathered::Gathered;
use crate::interface::{Module, Row};
use crate::laid::LaidOut;
use crate::rows::Walk;
use crate::values::{UNTOLD, Values};
use fields::Field;
use layout::Layout;
use mt_text::Fault;

// What a sound text is made of, and what it tells.
#[derive(Clone, Copy)]
pub struct Reading<'a> {
    pub layout: Layout,
    pub values: Values<'a>,
}

// Takes one field into its row, and reads what it tells: 7 where no free row has its tag, 8 where a
// row before falls short, 9 where the row's format does not accept the content.
fn take_field<'a, 'r, M: Module>(
    module: &M,
    text: &'a [u8],
    walk: Walk<'r, M::Format>,
    field: Field,
) -> Result<(Walk<'r, M::Format>, Values<'a>), Fault>
    ensures { stepped result ≡ forward M.Module.meaning text.now field (seek field.tag walk.entry.count walk.entry.rows.now) }
{
    let (format, walk) = walk.take(field)?;
    let values = module
        .read(format, field.content(text))
        .ok_or(Fault::Content {
            at: field.content_at,
        })?;
    Ok((walk, values))
}

// Walks over the rows field by field, and gathers what the fields tell.
fn gather<'a, M: Module>(
    module: &M,
    laid: LaidOut<'a>,
    rows: &[Row<M::Format>],
) -> Result<Gathered<'a>, Fault>
    requires { length (fields_in laid.text.now laid.layout) ≤ 43 }
    ensures { gathered result ≡ heed (assigned M.Module.meaning laid.entry.text.now laid.entry.layout.hyphen 0 rows.now (fields_in laid.entry.text.now laid.entry.layout)) (λ ts. Ok (sum_of M.Module.meaning laid.entry.text.now ts)) }
{
    let mut walk = Walk { rows, count: 0 };
    let mut values = UNTOLD;
    let mut closing_at = None;
    for field in laid.fields() {
        let (next, told) = take_field(module, laid.text, walk, field)?;
        walk = next;
        closing_at = closing_at.or(told.closing.is_some().then_some(field.at));
        values = values.then(told);
    }
    if walk.is_filled() {
        Ok(Gathered { values, closing_at })
    } else {
        Err(Fault::Missing {
            at: laid.layout.hyphen,
        })
    }
}

// Reads a text by a module: what it is made of and what it tells, if it is sound, or else the first
// of the causes 1 to 10, where it stands.
pub fn read_text<'a, M: Module>(module: &M, text: &'a [u8]) -> Result<Reading<'a>, Fault>
    ensures { answered result ≡ reading_of M.Module.meaning text.now }
{
    let laid = LaidOut::read(text)?;
    let layout = laid.layout;
    let Some(rows) = module.rows(layout.message_type) else {
        return Err(Fault::UnknownType { at: 33 });
    };
    laid.check_count()?;
    let gathered = gather(module, laid, rows)?;
    gathered.check_balance(layout.message_type)?;
    Ok(Reading {
        layout,
        values: gathered.values,
    })
}
