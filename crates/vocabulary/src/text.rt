//! Texts: the names of holders and the words of resolutions.
ghost use Rattle.std.specs.Prelude.{◌≡◌, ℕ, List, ◌↔◌, IfOk, Err, IsTrue};
ghost use Rattle.std.specs.List.{list_all};
ghost use Rattle.vocabulary.specs.Names.{same_name};
ghost use Rattle.vocabulary.specs.PlainTexts.{is_plain, is_plain_text, IsText};
ghost use Rattle.vocabulary.specs.declared.text.TextFault.TheVariants.{Form, Memory};

use std::alloc::{AllocError, Global};
use std::marker::Model;
use std::sync::ArcStr;

/// The most bytes of a text.
pub const LONGEST_TEXT: usize = 200;

/// A text of 1 to `LONGEST_TEXT` bytes of UTF-8, with no byte below 32 and no byte 127. Its clones
/// share its letters, so a clone takes no memory of its own.
#[derive(Clone, Drop)]
pub struct Text {
    text: ArcStr,
}

impl Model for Text {
    ghost use Rattle.std.specs.Prelude.{ℕ, List};
    ghost use Rattle.std.specs.Arc.{arc_str_bytes};
    ghost use Rattle.vocabulary.specs.PlainTexts.{IsText};

    ghost Value = { List ℕ };

    ghost view = { λ t. arc_str_bytes t.text };

    ghost invariant = { λ t. IsText (arc_str_bytes t.text) };
}

/// Why no text was made.
#[derive(Clone, Copy, PartialEq, Eq)]
pub enum TextFault {
    /// The bytes have not the form of a text.
    Form,
    /// An allocation was refused.
    Memory,
}

impl From<AllocError> for TextFault {
    ghost from_gives = { λ _ e. e ≡ Memory };

    fn from(_refused: AllocError) -> TextFault {
        TextFault::Memory
    }
}

fn is_plain_byte(b: u8) -> bool
    ensures { result ≡ is_plain b }
{
    b >= 32 && b != 127
}

fn are_plain(bytes: &[u8]) -> bool
    ensures { result ≡ list_all is_plain bytes.now }
{
    bytes.iter().all(|b| is_plain_byte(*b))
}

fn has_form(bytes: &[u8]) -> bool
    ensures { result ≡ is_plain_text bytes.now }
{
    !bytes.is_empty() && bytes.len() <= LONGEST_TEXT && are_plain(bytes)
}

impl Text {
    /// The text that the bytes are. The fault is `Form` exactly where they have not the form of
    /// a text, and else `Memory`.
    pub fn new(alloc: Global, bytes: &[u8]) -> Result<Text, TextFault>
        ensures ok { IfOk result (λ t. (t ≡ bytes.now) × IsText t) }
        ensures form { (result ≡ Err Form) ↔ ¬ (IsText bytes.now) }
    {
        let Ok(text) = str::from_utf8(bytes) else {
            return Err(TextFault::Form);
        };
        if !has_form(bytes) {
            return Err(TextFault::Form);
        }
        Ok(Text {
            text: ArcStr::from_str(alloc, text)?,
        })
    }

    /// Whether both are the same text.
    pub fn is(&self, other: &Text) -> bool
        ensures test { result ≡ same_name self.now other.now }
        ensures same { IsTrue result ↔ (self.now ≡ other.now) }
    {
        self.text.as_str() == other.text.as_str()
    }

    /// Its letters.
    pub fn as_str(&self) -> &str
        ensures value { result.now ≡ self.now }
        ensures valid { IsText self.now }
    {
        self.text.as_str()
    }
}
