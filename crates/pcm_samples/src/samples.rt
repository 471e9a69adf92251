//! The samples of I_PCM macroblocks (ITU-T H.264, 7.3.5), eight at a time.
ghost use Rattle.std.specs.Prelude.{◌≡◌, ◌+◌, ◌*◌, ◌<◌, ◌++◌, take, drop, option_map};
ghost use Rattle.bit_texts.specs.Bits.{binary, bits_of};
ghost use Rattle.bit_texts.specs.Texts.{Reads, Appends};
ghost use Rattle.pcm_samples.specs.Samples.{AreSamples};

use exp_golomb::{BitSink, BitSource};
use std::alloc::AllocError as Memory;

/// Reads the samples into those that are lent. None where fewer bits are left; what they then hold isn't said.
pub fn read_samples<B: BitSource>(bits: &mut B, samples: &mut [u8; 384]) -> Option<()>
    ensures reads { Reads AreSamples bits_of (B.left bits.old) (option_map (λ _. samples.new) result) (B.left bits.new) }
    ensures kept { B.taken bits.new ++ B.left bits.new ≡ B.taken bits.old ++ B.left bits.old }
{
    for i in 0..48 {
        let eight = bits.window().to_be_bytes();
        if !bits.skip(64) {
            return None;
        }
        samples[8 * i..8 * i + 8].copy_from_slice(&eight);
    }
    Some(())
}

/// Appends the samples.
pub fn write_samples<B: BitSink>(bits: &mut B, samples: &[u8; 384]) -> Result<(), Memory>
    ensures { Appends (B.bits bits.old) (B.bits bits.new) (bits_of samples.now) result }
{
    for i in 0..48 {
        bits.put_bits(eight_samples(samples, i), 64)?;
    }
    Ok(())
}

/// The eight samples from place 8 * i on, as one number.
fn eight_samples(samples: &[u8; 384], i: usize) -> u64
    requires { i < 48 }
    ensures { binary 64 result ≡ bits_of (take 8 (drop (8 * i) samples.now)) }
{
    let mut eight = [0; 8];
    eight.copy_from_slice(&samples[8 * i..8 * i + 8]);
    u64::from_be_bytes(eight)
}
