//! The fields of a text, one after the other.
ghost use Rattle.std.specs.Prelude.{◌≡◌, true, is_ok};
ghost use Rattle.std.specs.Iterator.{YieldsFirst, item_count};
ghost use Rattle.fields.specs.Fields.{body_at};
ghost use Rattle.reader.specs.Texts.{fields_found};

use fields::{Field, Next, next_field};

// The fields from an offset on, behind which all lines up to the closing hyphen are as they must be.
#[derive(Clone, Copy)]
pub(crate) struct Fields<'a> {
    pub text: &'a [u8],
    pub from: usize,
    ghost whole: { is_ok (body_at text.now from) ≡ true },
}

impl<'a> Iterator for Fields<'a> {
    type Item = Field;

    ghost next_gives = { YieldsFirst (λ s. fields_found (body_at s.text.now s.from)) };

    ghost remaining = { item_count (λ s. fields_found (body_at s.text.now s.from)) };

    fn next(&mut self) -> Option<Field> {
        let Ok(Next::More(field)) = next_field(self.text, self.from) else {
            return None;
        };
        self.from = field.behind();
        Some(field)
    }
}
