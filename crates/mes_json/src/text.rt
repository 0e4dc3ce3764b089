//! Texts in well-formed UTF-8.
ghost use Rattle.std.specs.Prelude.{◌≡◌, ◌<◌, ◌≤◌, length, string_bytes, IfOk, IfErr, bytes_eq};

use crate::limits::MAX_INLINE_TEXT;
use crate::memory::NoMemory;
use arrayvec::ArrayString;
use std::alloc::Global;
use std::hash::{Hash, Hasher};
use std::marker::Model;

/// A text in well-formed UTF-8 (RFC 3629). A text of at most `MAX_INLINE_TEXT` bytes, as most names
/// and roles are, is read and copied without an allocation. In contracts a text is its bytes.
#[derive(Debug, Drop)]
pub struct Text {
    form: Form,
}

/// The storage of a text.
#[derive(Debug, Drop)]
enum Form {
    /// The text is stored inline.
    Short(ArrayString<MAX_INLINE_TEXT>),
    /// The text is stored in a `String`.
    Long(String),
}

impl Model for Text {
    ghost use Rattle.std.specs.Prelude.{ℕ, List};
    ghost use Rattle.std.specs.Str.{IsUtf8};
    ghost use Rattle.mes_json.specs.TextForm.{form_bytes};

    ghost Value = { List ℕ };

    ghost view = { λ text. form_bytes text.form };

    ghost invariant = { λ text. ∥ IsUtf8 (form_bytes text.form) ∥₁ };
}

impl Text {
    /// Wraps a string, in the string's memory. Does not allocate.
    pub fn new(string: String) -> Text
        ensures { result ≡ string_bytes string }
    {
        Text {
            form: Form::Long(string),
        }
    }

    /// Copies `text`. Allocates only above `MAX_INLINE_TEXT` bytes.
    pub fn of(alloc: Global, text: &str) -> Result<Text, NoMemory>
        ensures ok { IfOk result (λ same. same ≡ text.now) }
        ensures err { IfErr result (λ _. MAX_INLINE_TEXT < length text.now) }
    {
        let form = match ArrayString::from(text) {
            Ok(short) => Form::Short(short),
            Err(_) => Form::Long(String::from_str(alloc, text)?),
        };
        Ok(Text { form })
    }

    /// Borrows the text.
    pub fn as_str(&self) -> &str
        ensures { result.now ≡ self.now }
    {
        match &self.form {
            Form::Short(short) => short.as_str(),
            Form::Long(string) => string.as_str(),
        }
    }

    /// Converts the text to a string. Allocates only if the text is stored inline.
    pub fn into_string(self, alloc: Global) -> Result<String, NoMemory>
        ensures ok { IfOk result (λ string. string_bytes string ≡ self) }
        ensures err { IfErr result (λ _. length self ≤ MAX_INLINE_TEXT) }
    {
        let Text { form } = self;
        match form {
            Form::Short(short) => Ok(String::from_str(alloc, short.as_str())?),
            Form::Long(string) => Ok(string),
        }
    }

    /// Copies the text, as [`Text::of`] does.
    pub fn copy(&self, alloc: Global) -> Result<Text, NoMemory>
        ensures ok { IfOk result (λ text. text ≡ self.now) }
        ensures err { IfErr result (λ _. MAX_INLINE_TEXT < length self.now) }
    {
        Text::of(alloc, self.as_str())
    }
}

impl PartialEq for Text {
    ghost use Rattle.std.proofs.Common.{rules};
    ghost use Rattle.std.specs.Cmp.Rules.{comparing};

    ghost eq = { bytes_eq };

    ghost laws = { Prim.search (comparing, rules) };

    fn eq(&self, other: &Text) -> bool {
        self.as_str() == other.as_str()
    }
}

impl Eq for Text {
    ghost use Rattle.std.proofs.Common.{rules};
    ghost use Rattle.std.specs.Cmp.Rules.{comparing};

    ghost laws = { Prim.search (comparing, rules) };
}

impl Hash for Text {
    ghost use Rattle.std.proofs.Common.{rules};
    ghost use Rattle.std.specs.Cmp.Rules.{hashing};
    ghost use Rattle.std.specs.Hash as fed;

    ghost hash_input = { fed.str };

    ghost respects_eq = { Prim.search (hashing, rules) };

    fn hash<H: Hasher>(&self, state: &mut H) {
        self.as_str().hash(state);
    }
}
