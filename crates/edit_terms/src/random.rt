ghost use Rattle.std.specs.Prelude.{◌≡◌, ◌^◌, ◌<◌, ◌++◌, replicate};
ghost use Rattle.std.specs.Int.{w64, to_le_bytes};
ghost use Rattle.edit_terms.specs.Draw.{random_word};

use rand_chacha::ChaCha8Rng;
use rand_core::SeedableRng;
use rand_core::utils::NextWord;

/// The word of 32 bits at a place below 2 ^ 68 of a seed's stream, as the generator `ChaCha8Rng` gives
/// it. The generator's key is the seed's eight bytes, low first, and 24 zeros. Takes no memory.
pub fn random_word(seed: u64, stream: u64, place: u128) -> u32
    requires { place < 2 ^ 68 }
    ensures { result ≡ random_word seed stream place }
{
    let mut generator = ChaCha8Rng::from_seed(key_bytes(seed));
    generator.set_stream(stream);
    generator.set_word_pos(place);
    generator.next_word()
}

fn key_bytes(seed: u64) -> [u8; 32]
    ensures { result ≡ to_le_bytes w64 seed ++ replicate 24 0 }
{
    let mut key = [0; 32];
    key[..8].copy_from_slice(&seed.to_le_bytes());
    key
}
