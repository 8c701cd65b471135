//! Draws from the words of a generator.

ghost use Rattle.std.specs.Prelude.{◌≡◌, ◌<◌, ◌≤◌};
ghost use Rattle.rand_pcg.specs.Lcg.{Lcg};
ghost use Rattle.geo_gen.specs.Draws.{Draw, centred, generator_of, pick as pick_below};

use rand_core::utils::NextWord;
use rand_pcg::Lcg64Xsh32;

/// The generator of a seed, on stream 1.
#[tactic(auto, unfolding(crate::specs::Draws::generator_of))]
pub(crate) fn generator(seed: u32) -> Lcg64Xsh32
    ensures { result ≡ generator_of seed }
{
    Lcg64Xsh32::new(u64::from(seed), 1)
}

/// The next word modulo m.
#[tactic(auto, unfolding(crate::specs::Draws::pick))]
pub(crate) fn pick(words: &mut Lcg64Xsh32, m: u32) -> u32
    requires { 0 < m }
    ensures number { result ≡ (pick_below m words.old).number }
    ensures rest { words.new ≡ (pick_below m words.old).rest }
    ensures below { result < m }
{
    words.next_word() % m
}

/// A number from -1000 to 1000.
#[tactic(auto, unfolding(crate::specs::Draws::centred))]
pub(crate) fn pick_number(words: &mut Lcg64Xsh32) -> i64
    ensures number { result ≡ centred (pick_below 2001 words.old).number }
    ensures rest { words.new ≡ (pick_below 2001 words.old).rest }
{
    i64::from(pick(words, 2001)) - 1000
}
