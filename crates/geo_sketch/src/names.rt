//! Names of elements.

ghost use Rattle.std.specs.Prelude.{◌≡◌, ℕ, true};
ghost use Rattle.std.specs.Str.{bytes_eq};
ghost use Rattle.geo_sketch.specs.Names.{is_name, name_of};
ghost use Rattle.std.specs.Char.{is_ascii_alphanumeric};
ghost use Rattle.std.specs.List.{list_all};

use std::marker::Model;

/// A letter followed by at most seven letters or digits, all of them ASCII.
#[derive(Clone, Copy, Debug)]
pub struct Name {
    bytes: [u8; 8],
    len: usize,
}

impl Model for Name {
    ghost use Rattle.std.specs.Prelude.{◌≡◌, ◌≤◌, ℕ, List, length, take, true};
    ghost use Rattle.geo_sketch.specs.Names.{is_name, padded};

    ghost Value = { List ℕ };

    ghost view = { λ n. take n.len n.bytes };

    ghost invariant = { λ n. (is_name (take n.len n.bytes) ≡ true) × (n.len ≤ 8) × (length n.bytes ≡ 8) × (n.bytes ≡ padded (take n.len n.bytes)) };

    ghost inverse = { λ v. record { bytes = padded v; len = length v } };

    ghost use Rattle.geo_sketch.specs.NameLaws.{padded_back};

    ghost inverse_ok = { padded_back };
}

impl Name {
    /// Reads a name; None where the bytes are no name.
    pub fn new(bytes: &[u8]) -> Option<Name>
        ensures { result ≡ name_of bytes.now }
    {
        if !is_name_text(bytes) {
            return None;
        }
        let mut padded = [0u8; 8];
        padded[..bytes.len()].copy_from_slice(bytes);
        Some(Name {
            bytes: padded,
            len: bytes.len(),
        })
    }

    /// The bytes of the name, from 1 to 8 of them.
    pub fn bytes(&self) -> &[u8]
        ensures value { result.now ≡ self.now }
        ensures name { is_name self.now ≡ true }
    {
        &self.bytes[..self.len]
    }

    /// Whether both are the same name.
    pub fn is(&self, other: &Name) -> bool
        ensures { result ≡ bytes_eq self.now other.now }
    {
        self.bytes() == other.bytes()
    }
}

fn is_name_text(bytes: &[u8]) -> bool
    ensures { result ≡ is_name bytes.now }
{
    match bytes {
        [] => false,
        [first, rest @ ..] => first.is_ascii_alphabetic()
            && rest.len() <= 7
            && are_alphanumeric(rest),
    }
}

/// Whether all bytes are ASCII letters or digits.
pub fn are_alphanumeric(bytes: &[u8]) -> bool
    ensures { result ≡ list_all is_ascii_alphanumeric bytes.now }
{
    match bytes {
        [] => true,
        [first, rest @ ..] => first.is_ascii_alphanumeric() && are_alphanumeric(rest),
    }
}
