//! Field i of a text.
ghost use Rattle.std.specs.Prelude.{◌≡◌};
ghost use Rattle.content_party.specs.Parties.{parts_of};
ghost use Rattle.reader.specs.Views.{offset, sort_of, sort_told, view, views_told};

use crate::interface::Module;
use crate::laid::LaidOut;
use crate::rows::format_for;
use crate::texts::read_text;
use content_party::{Part, Party};
use fields::Tag;
use mt_text::Fault;

// What kind of field it is. A rule of the project: the cases of a party borrow its parts of the text,
// each with its offset there.
#[derive(Clone, Copy)]
pub enum Kind<'a> {
    Plain,
    BankCode(Part<'a>),
    AccountAndCode { account: Part<'a>, code: Part<'a> },
}

// A field: its tag, its offset, and its content as a part of the text.
#[derive(Clone, Copy)]
pub struct FieldView<'a> {
    pub tag: Tag,
    pub at: usize,
    pub content: &'a [u8],
    pub content_at: usize,
    pub kind: Kind<'a>,
}

// The part by its offset in the text, where the content begins at an offset.
fn moved(part: Part<'_>, from: usize) -> Part<'_>
    ensures bytes { result.bytes ≡ part.entry.bytes }
    ensures at { result.at ≡ offset from part.entry.at }
{
    Part {
        bytes: part.bytes,
        at: from.saturating_add(part.at),
    }
}

// The kind of a field whose content begins at an offset, from its parts as a party.
fn kind_of(party: Option<Party<'_>>, from: usize) -> Kind<'_>
    ensures { sort_told result ≡ sort_of from (parts_of party.entry) }
{
    let Some(Party { account, code }) = party else {
        return Kind::Plain;
    };
    let code = moved(code, from);
    match account {
        None => Kind::BankCode(code),
        Some(account) => Kind::AccountAndCode {
            account: moved(account, from),
            code,
        },
    }
}

// The field at a place of a sound text, counted from 0: none past the last, and the fault of a text
// that is not sound.
pub fn view_field<'a, M: Module>(
    module: &M,
    text: &'a [u8],
    index: usize,
) -> Result<Option<FieldView<'a>>, Fault>
    ensures { views_told result ≡ view M.Module.meaning text.now index }
{
    let reading = read_text(module, text)?;
    let layout = reading.layout;
    let laid = LaidOut { text, layout };
    let Some(field) = laid.nth_field(index) else {
        return Ok(None);
    };
    let Some(rows) = module.rows(layout.message_type) else {
        return Ok(None);
    };
    let Some(format) = format_for(rows, field.tag) else {
        return Ok(None);
    };
    let content = field.content(text);
    let kind = kind_of(module.party(format, content), field.content_at);
    Ok(Some(FieldView {
        tag: field.tag,
        at: field.at,
        content,
        content_at: field.content_at,
        kind,
    }))
}
