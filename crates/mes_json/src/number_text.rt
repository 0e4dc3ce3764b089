//! The text of a number.
ghost use Rattle.std.specs.Prelude.{◌≡◌, string_bytes, IfOk, IfErr};
ghost use Rattle.mes_fixed.specs.Number.{IsNumber};

use crate::memory::NoMemory;
use crate::text::Text;
use mes_fixed::is_number;
use std::alloc::Global;
use std::marker::Model;

/// A number as written in a JSON text (RFC 8259 section 6), of any length. Owns its memory. In
/// contracts it is its bytes.
#[derive(Debug, Drop)]
pub struct NumText {
    text: Text,
}

impl Model for NumText {
    ghost use Rattle.std.specs.Prelude.{ℕ, List};
    ghost use Rattle.mes_fixed.specs.Number.{IsNumber};

    ghost Value = { List ℕ };

    ghost view = { λ number. number.text };

    ghost invariant = { λ number. ∥ IsNumber number.text ∥₁ };
}

impl NumText {
    /// Checks that `text` is a number, or returns `text` as the error. Does not allocate.
    pub fn new(text: String) -> Result<NumText, String>
        // On success: the text is a number, and the result has its bytes.
        ensures ok { IfOk result (λ number. (number ≡ string_bytes text)
            × IsNumber (string_bytes text)) }
        // On error: `text` is returned, and is not a number.
        ensures err { IfErr result (λ again. (again ≡ text) × (IsNumber (string_bytes text) → ⊥)) }
    {
        if is_number(text.as_bytes()) {
            Ok(NumText {
                text: Text::new(text),
            })
        } else {
            Err(text)
        }
    }

    /// Wraps the text of a number. Does not allocate.
    pub(crate) fn of_text(text: Text) -> NumText
        requires { IsNumber text }
        ensures { result ≡ text }
    {
        NumText { text }
    }

    /// Returns the number's text.
    pub fn as_str(&self) -> &str
        ensures text { result.now ≡ self.now }
        ensures number { IsNumber self.now }
    {
        self.text.as_str()
    }

    /// Copies the number into memory of its own.
    pub fn copy(&self, alloc: Global) -> Result<NumText, NoMemory>
        ensures { IfOk result (λ number. number ≡ self.now) }
    {
        Ok(NumText {
            text: self.text.copy(alloc)?,
        })
    }
}

impl PartialEq for NumText {
    ghost use Rattle.std.proofs.Common.{rules};
    ghost use Rattle.std.specs.Cmp.Rules.{comparing};
    ghost use Rattle.std.specs.Prelude.{bytes_eq};

    ghost eq = { bytes_eq };

    ghost laws = { Prim.search (comparing, rules) };

    fn eq(&self, other: &NumText) -> bool {
        self.text == other.text
    }
}

impl Eq for NumText {
    ghost use Rattle.std.proofs.Common.{rules};
    ghost use Rattle.std.specs.Cmp.Rules.{comparing};

    ghost laws = { Prim.search (comparing, rules) };
}
