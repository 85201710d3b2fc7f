// The form of a call: its name and a word for each of its values, as in `map_file I OFFSET SIZE`. Relies on words.rt.
ghost use Rattle.std.specs.Prelude.{◌≡◌};
ghost use Rattle.script.specs.Forms.{is_left_open, has_form};

use crate::words::{count, word};

// Whether a line has a form: it begins with the form's first word and has no more words than the form. A form that ends
// with a dot allows any number of words.
pub fn has_form(line: &[u8], form: &[u8]) -> bool
    ensures { result ≡ has_form line.now form.now }
{
    lists::same(word(line, 0), word(form, 0)) && (is_open(form) || count(line) <= count(form))
}

// Whether a form ends with a dot.
fn is_open(form: &[u8]) -> bool
    ensures { result ≡ is_left_open form.now }
{
    form.last() == Some(&b'.')
}
