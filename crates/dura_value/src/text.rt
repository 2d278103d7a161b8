//! Texts: UTF-8 of a bounded length.

ghost use Rattle.std.specs.Prelude.{◌≡◌, IfOk, IfErr};
ghost use Rattle.dura_value.specs.Text.{IsText, Explains};

use crate::limits::TEXT_BYTES_LIMIT;
use std::alloc::Global;
use std::marker::Model;
use thiserror::Error;

/// A text, which a contract sees as its bytes.
#[derive(Clone, Drop)]
pub struct Text {
    bytes: Vec<u8>,
}

impl Model for Text {
    ghost use Rattle.std.specs.Prelude.{◌≡◌, ◌≤◌, ℕ, List, length, true};
    ghost use Rattle.std.specs.Str.{is_utf8};
    ghost use Rattle.dura_value.specs.Limits.{most_text_bytes};

    ghost Value = { List ℕ };

    ghost view = { λ t. t.bytes.items };

    ghost invariant = { λ t. (is_utf8 t.bytes.items ≡ true)
        × (length t.bytes.items ≤ most_text_bytes) };
}

/// Why bytes gave no text.
#[derive(Debug, Drop, Error)]
pub enum TextError {
    /// The length is looked at first, so it is given whatever the bytes are.
    #[error("{length} bytes are too many for a text")]
    TooLong { length: usize },
    /// The bytes before the offset are the longest front that is UTF-8.
    #[error("no UTF-8 from byte {offset} on")]
    NotUtf8 { offset: usize },
    /// Comes only for bytes that are a text.
    #[error("out of memory")]
    Memory,
}

impl Text {
    /// Copies the bytes, once they are known to be a text.
    #[tactic(auto, using(crate::proofs::Texts::utf8_passes))]
    pub fn read(alloc: Global, bytes: &[u8]) -> Result<Text, TextError>
        ensures text { IfOk result (λ t. (t ≡ bytes.now) × IsText bytes.now) }
        ensures fault { IfErr result (Explains bytes.now) }
    {
        if bytes.len() > TEXT_BYTES_LIMIT {
            return Err(TextError::TooLong {
                length: bytes.len(),
            });
        }
        match str::from_utf8(bytes) {
            Ok(_) => match Vec::from_slice(alloc, bytes) {
                Ok(bytes) => Ok(Text { bytes }),
                Err(_) => Err(TextError::Memory),
            },
            Err(error) => Err(TextError::NotUtf8 {
                offset: error.valid_up_to(),
            }),
        }
    }

    /// The bytes, where they lie.
    pub fn as_bytes(&self) -> &[u8]
        ensures same { result.now ≡ self.now }
        ensures text { IsText self.now }
    {
        self.bytes.as_slice()
    }

    /// The text, where it lies. The bytes aren't looked at again.
    #[tactic(auto, using(crate::proofs::Texts::utf8_where_passes))]
    pub fn as_str(&self) -> &str
        ensures { result.now ≡ self.now }
    {
        unsafe { str::from_utf8_unchecked(self.bytes.as_slice()) }
    }
}
