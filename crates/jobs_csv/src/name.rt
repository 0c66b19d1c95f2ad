// Names of held blocks.
ghost use Rattle.std.specs.Prelude.{◌≡◌, Some, None, true, if◌then◌else◌};
ghost use Rattle.std.specs.List.{list_all};
ghost use Rattle.jobs_csv.specs.Name.{is_name};
ghost use Rattle.jobs_csv.specs.Inner.Name.{is_name_byte};

use std::marker::Model;

// The most bytes that a name may have.
const MAX_NAME: usize = 16;

/// A name of a held block: 1 to 16 bytes, each of them `a` to `z` or a digit.
#[derive(Clone, Copy, Debug, PartialEq, Eq, Hash)]
pub struct Name {
    bytes: [u8; MAX_NAME],
    len: u8,
}

impl Model for Name {
    ghost use Rattle.std.specs.Prelude.{List, ℕ, ◌++◌, ◌-◌, length, take};
    ghost use Rattle.jobs_csv.specs.Inner.Name.{IsPadded, same_bytes, same_len, zeros};

    ghost Value = { List ℕ };

    ghost view = { λ n. take n.len n.bytes };

    ghost invariant = { λ n. IsPadded n.len n.bytes };

    ghost inverse = { λ text.
        record { bytes = text ++ zeros (16 - length text); len = length text } };

    ghost inverse_ok = { λ n h i.
        record { bytes = same_bytes n.len n.bytes h i; len = same_len n.len n.bytes h i } };
}

// Returns whether each byte is one that a name may have.
fn are_name_bytes(text: &[u8]) -> bool
    ensures { result ≡ list_all is_name_byte text.now }
{
    for byte in text {
        if !byte.is_ascii_lowercase() && !byte.is_ascii_digit() {
            return false;
        }
    }
    true
}

impl Name {
    /// Returns the name that has this text, if the text is a name.
    pub fn new(text: &[u8]) -> Option<Self>
        ensures { result ≡ (if is_name text.now then Some text.now else None) }
    {
        if text.is_empty() || text.len() > MAX_NAME || !are_name_bytes(text) {
            return None;
        }
        let mut bytes = [0; MAX_NAME];
        bytes[..text.len()].copy_from_slice(text);
        Some(Name {
            bytes,
            len: text.len() as u8,
        })
    }

    /// Returns the text of the name.
    pub fn text(&self) -> &[u8]
        ensures value { result.now ≡ self.now }
        ensures name { is_name self.now ≡ true }
    {
        &self.bytes[..usize::from(self.len)]
    }
}
