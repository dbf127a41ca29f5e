//! A text that is laid out, and its fields.
ghost use Rattle.std.specs.Prelude.{◌≡◌, Ok, IfOk};
ghost use Rattle.std.specs.List.{slice_get};
ghost use Rattle.std.specs.Result.{result_map_both};
ghost use Rattle.mt_text.specs.Refusals.{told};
ghost use Rattle.layout.specs.Walk.{laid_out};
ghost use Rattle.reader.specs.Texts.{fields_in, few_enough};

use crate::iter::Fields;
use fields::Field;
use layout::{Layout, lay_out};
use mt_text::Fault;

// The most fields that a text may have.
const MAX_FIELDS: usize = 43;

// A text with its layout.
#[derive(Clone, Copy)]
pub(crate) struct LaidOut<'a> {
    pub text: &'a [u8],
    pub layout: Layout,
    ghost laid: { laid_out text.now ≡ Ok layout },
}

impl<'a> LaidOut<'a> {
    // Lays the text out, or refuses it by 1, 2, 3 or 5.
    pub(crate) fn read(text: &'a [u8]) -> Result<LaidOut<'a>, Fault>
        ensures layout { told (result_map_both (λ l. l.layout) (λ f. f) result) ≡ laid_out text.now }
        ensures text { IfOk result (λ l. l.text ≡ text.entry) }
    {
        let layout = lay_out(text)?;
        Ok(LaidOut { text, layout })
    }

    // The fields, from the first line on.
    pub(crate) fn fields(self) -> Fields<'a>
        ensures text { result.text ≡ self.entry.text }
        ensures from { result.from ≡ self.entry.layout.body }
    {
        Fields {
            text: self.text,
            from: self.layout.body,
        }
    }

    // The field at a place, counted from 0.
    pub(crate) fn nth_field(self, index: usize) -> Option<Field>
        ensures { result ≡ slice_get (fields_in self.entry.text.now self.entry.layout) index }
    {
        self.fields().nth(index)
    }

    // Refuses over 43 fields by 6, at the 44th.
    pub(crate) fn check_count(self) -> Result<(), Fault>
        ensures { told result ≡ few_enough (fields_in self.entry.text.now self.entry.layout) }
    {
        if self.layout.fields <= MAX_FIELDS {
            return Ok(());
        }
        match self.nth_field(MAX_FIELDS) {
            Some(field) => Err(Fault::FieldCount { at: field.at }),
            None => Ok(()),
        }
    }
}
