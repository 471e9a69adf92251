ghost use Rattle.std.specs.Prelude.{◌≡◌, ◌<◌, ◌++◌, true, length, option_map};
ghost use Rattle.bit_texts.specs.Texts.{Reads, Appends, when_text};
ghost use Rattle.cavlc_inter.specs.InterPrediction as inter;

use crate::parts::Parts;
use exp_golomb::{BitSink, BitSource, read_se, write_se};
use std::alloc::AllocError as Memory;

/// Reads a vector difference, x and then y.
fn read_vector<B: BitSource>(bits: &mut B) -> Option<[i32; 2]>
    ensures reads { Reads inter.IsVector inter.vector_text (B.left bits.old) result (B.left bits.new) }
    ensures kept { B.taken bits.new ++ B.left bits.new ≡ B.taken bits.old ++ B.left bits.old }
{
    let x = read_se(bits, -32767, 32767)?;
    let y = read_se(bits, -32767, 32767)?;
    Some([x, y])
}

/// Reads the vector difference of the block that follows those of `before`, where it is sent, and else repeats it.
fn read_mvd<B: BitSource>(
    bits: &mut B,
    parts: &Parts,
    list: u8,
    before: &[[i32; 2]],
) -> Option<[i32; 2]>
    requires { length before.now < 16 }
    ensures reads { Reads (inter.IsMvd parts.now list before.now) (inter.mvd_text parts.now list before.now) (B.left bits.old) result (B.left bits.new) }
    ensures kept { B.taken bits.new ++ B.left bits.new ≡ B.taken bits.old ++ B.left bits.old }
{
    let n = before.len() as u8;
    let first = parts.first_block(n);
    if first == n && parts.uses(list, n / 4) {
        return read_vector(bits);
    }
    Some(before.get(usize::from(first)).copied().unwrap_or([0, 0]))
}

/// Reads the vector differences of a list.
pub fn read_mvds<B: BitSource>(
    bits: &mut B,
    parts: &Parts,
    list: u8,
    vectors: &mut [[i32; 2]; 16],
) -> Option<()>
    ensures reads { Reads (inter.AreMvds parts.now list) (inter.mvds_text parts.now list) (B.left bits.old) (option_map (λ _. vectors.new) result) (B.left bits.new) }
    ensures kept { B.taken bits.new ++ B.left bits.new ≡ B.taken bits.old ++ B.left bits.old }
{
    for n in 0..16usize {
        vectors[n] = read_mvd(bits, parts, list, &vectors[..n])?;
    }
    Some(())
}

/// Appends a vector difference, x and then y.
fn write_vector<B: BitSink>(bits: &mut B, vector: &[i32; 2]) -> Result<(), Memory>
    requires { inter.IsVector vector.now }
    ensures { Appends (B.bits bits.old) (B.bits bits.new) (inter.vector_text vector.now) result }
{
    write_se(bits, vector[0])?;
    write_se(bits, vector[1])
}

/// Appends the vector difference of a block, where it is sent.
fn write_mvd<B: BitSink>(
    bits: &mut B,
    parts: &Parts,
    list: u8,
    n: u8,
    vector: &[i32; 2],
) -> Result<(), Memory>
    requires n { n < 16 }
    requires vector { inter.sends_mvd parts.now list n ≡ true → inter.IsVector vector.now }
    ensures { Appends (B.bits bits.old) (B.bits bits.new) (when_text (inter.sends_mvd parts.now list n) inter.vector_text vector.now) result }
{
    if parts.sends_mvd(list, n) {
        return write_vector(bits, vector);
    }
    Ok(())
}

/// Appends the vector differences of a list.
pub fn write_mvds<B: BitSink>(
    bits: &mut B,
    parts: &Parts,
    list: u8,
    vectors: &[[i32; 2]; 16],
) -> Result<(), Memory>
    requires { inter.AreMvds parts.now list vectors.now }
    ensures { Appends (B.bits bits.old) (B.bits bits.new) (inter.mvds_text parts.now list vectors.now) result }
{
    for n in 0..16u8 {
        write_mvd(bits, parts, list, n, &vectors[usize::from(n)])?;
    }
    Ok(())
}
