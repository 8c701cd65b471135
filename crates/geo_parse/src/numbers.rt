//! Numbers as a script writes them.

ghost use Rattle.std.specs.Prelude.{◌≡◌};
ghost use Rattle.geo_parse.specs.Numbers.{natural_of, number_of};

use geo_sketch::COORDINATE_LIMIT;

/// Reads a number from -1000 to 1000; None where the word is none.
#[tactic(auto, unfolding(crate::specs::Numbers::number_of))]
pub fn read_number(word: &[u8]) -> Option<i64>
    ensures { result ≡ number_of word.now }
{
    match word {
        [] => None,
        [b'-', digits @ ..] => read_natural(digits).map(|n| -i64::from(n)),
        digits => read_natural(digits).map(|n| i64::from(n)),
    }
}

/// Reads one to four digits of a number up to 1000; None where the word is none.
#[tactic(auto, unfolding(crate::specs::Numbers::natural_of))]
pub fn read_natural(digits: &[u8]) -> Option<u16>
    ensures { result ≡ natural_of digits.now }
{
    if digits.is_empty() || digits.len() > 4 {
        return None;
    }
    let mut value: u16 = 0;
    for digit in digits {
        if !digit.is_ascii_digit() {
            return None;
        }
        value = value * 10 + u16::from(*digit - b'0');
    }
    if u64::from(value) <= COORDINATE_LIMIT {
        Some(value)
    } else {
        None
    }
}
