// A text behind a pointer.

ghost use Rattle.std.specs.Prelude.{◌≡◌, IfOk, IfErr};

use si_plain::Text;
use std::alloc::{AllocError, AllocFailed, Global};
use std::boxed::Box;
use std::marker::Model;

/// A text in 8 bytes, for what is moved often and has a text seldom. A contract sees the list of its characters.
#[derive(Drop)]
pub struct BoxedText {
    text: Box<Text>,
}

impl Model for BoxedText {
    ghost use Rattle.std.specs.Prelude.{ℕ, List};

    ghost Value = { List ℕ };

    ghost view = { λ b. b.text.value };
}

// A pointer.
const _: () = prove!(std::mem::size_of::<BoxedText>() <= 8);

impl BoxedText {
    /// This text. Where memory is refused, the text comes back.
    pub fn new(alloc: Global, text: Text) -> Result<BoxedText, AllocFailed<Text>>
        ensures text { IfOk result (λ b. b ≡ text) }
        ensures back { IfErr result (λ e. e.value ≡ text) }
    {
        let text = Box::new(alloc, text)?;
        Ok(BoxedText { text })
    }

    /// The text.
    pub fn as_text(&self) -> &Text
        ensures { result.now ≡ self.now }
    {
        &self.text
    }

    /// The text, given back.
    pub fn into_text(self) -> Text
        ensures { result ≡ self }
    {
        Box::into_inner(self.text)
    }
}

impl Clone for BoxedText {
    ghost is_clone = { λ text copy. copy ≡ text };

    fn clone(&self) -> Result<BoxedText, AllocError> {
        let text = self.text.clone()?;
        Ok(BoxedText { text })
    }
}

impl PartialEq for BoxedText {
    ghost use Rattle.std.specs.Prelude.{bytes_eq};
    ghost use Rattle.std.specs.Cmp.{partial_equiv_from_equiv};
    ghost use Rattle.std.specs.Cmp.Lexicographic.{nat_list_eq_equiv};

    ghost eq = { bytes_eq };

    ghost laws = { partial_equiv_from_equiv nat_list_eq_equiv };

    fn eq(&self, other: &BoxedText) -> bool {
        self.as_text() == other.as_text()
    }
}

impl Eq for BoxedText {
    ghost use Rattle.std.specs.Cmp.Lexicographic.{nat_list_eq_equiv};

    ghost laws = { nat_list_eq_equiv };
}
