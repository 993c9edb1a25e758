ghost use Rattle.std.specs.Prelude.{◌≡◌};
ghost use Rattle.dn_machine.specs.Schedule.{generator_of, word_of, after_word};

use rand_core::SeedableRng;
use rand_core::utils::NextWord;
use rand_pcg::Pcg32;

/// The generator of a seed.
#[tactic(auto, unfolding(crate::specs::Schedule::generator_of))]
pub(crate) fn generator(seed: u64) -> Pcg32
    ensures { result ≡ generator_of seed }
{
    Pcg32::seed_from_u64(seed)
}

/// The next word of a generator, which moves on to the word after it.
#[tactic(auto, unfolding(crate::specs::Schedule::word_of, crate::specs::Schedule::after_word))]
pub fn draw(generator: &mut Pcg32) -> u32
    ensures word { result ≡ word_of generator.old }
    ensures rest { generator.new ≡ after_word generator.old }
{
    generator.next_word()
}
