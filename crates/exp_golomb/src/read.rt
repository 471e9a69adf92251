ghost use Rattle.std.specs.Prelude.{◌≡◌, ◌≤◌, ◌<◌, ◌^◌, ◌≤ℤ◌, pos, negsuc, [], ◌∷◌, ◌++◌, length, MatchOption};
ghost use Rattle.bit_texts.specs.Bits.{binary};
ghost use Rattle.bit_texts.specs.Cursor.{cursor};
ghost use Rattle.bit_texts.specs.Readings.{Gives};
ghost use Rattle.bit_texts.specs.Texts.{Reads};
ghost use Rattle.exp_golomb.specs.Code.{Flag, U, Ue, Te, Se, ue, te, se};
ghost use Rattle.exp_golomb.specs.Element.{front, element_at, value_at};

use crate::source::BitSource;

/// A flag, u(1): the next bit, or None where no bit is left.
#[inline(always)]
pub fn read_flag<B: BitSource>(b: &mut B) -> Option<bool>
    ensures reads { MatchOption result (B.left b.old ≡ []) (λ flag. B.left b.old ≡ flag ∷ B.left b.new) }
    ensures front { Gives result (B.left b.new) (front Flag (B.left b.old)) }
    ensures element { Gives result (cursor (length (B.taken b.new)) (B.left b.new)) (element_at Flag (cursor (length (B.taken b.old)) (B.left b.old))) }
    ensures kept { B.taken b.new ++ B.left b.new ≡ B.taken b.old ++ B.left b.old }
{
    b.bit()
}

/// u(n) (7.2): the number that the next n bits write, the most significant first.
/// None where fewer than n bits are left.
#[inline(always)]
pub fn read_u<B: BitSource>(b: &mut B, n: u8) -> Option<u32>
    requires { n ≤ 32 }
    ensures reads { Reads (λ value. value < 2 ^ n) (binary n) (B.left b.old) result (B.left b.new) }
    ensures front { Gives result (B.left b.new) (front (U n) (B.left b.old)) }
    ensures element { Gives result (cursor (length (B.taken b.new)) (B.left b.new)) (element_at (U n) (cursor (length (B.taken b.old)) (B.left b.old))) }
    ensures kept { B.taken b.new ++ B.left b.new ≡ B.taken b.old ++ B.left b.old }
{
    number(b, n)
}

/// ue(v) (9.1): the value of at most `max` whose code begins the bits left.
/// None where they begin with no such code; what is left then isn't said.
pub fn read_ue<B: BitSource>(b: &mut B, max: u32) -> Option<u32>
    requires { max ≤ 4294967294 }
    ensures reads { Reads (λ value. value ≤ max) ue (B.left b.old) result (B.left b.new) }
    ensures front { Gives result (B.left b.new) (front (Ue max) (B.left b.old)) }
    ensures element { Gives result (cursor (length (B.taken b.new)) (B.left b.new)) (element_at (Ue max) (cursor (length (B.taken b.old)) (B.left b.old))) }
    ensures kept { B.taken b.new ++ B.left b.new ≡ B.taken b.old ++ B.left b.old }
{
    exp_golomb(b, max)
}

/// te(v) (9.1), of values from 0 to `max`: the value whose code begins the bits left.
/// None where they begin with no such code; what is left then isn't said.
pub fn read_te<B: BitSource>(b: &mut B, max: u32) -> Option<u32>
    requires least { 1 ≤ max }
    requires most { max ≤ 4294967294 }
    ensures reads { Reads (λ value. value ≤ max) (te max) (B.left b.old) result (B.left b.new) }
    ensures front { Gives result (B.left b.new) (front (Te max) (B.left b.old)) }
    ensures element { Gives result (cursor (length (B.taken b.new)) (B.left b.new)) (element_at (Te max) (cursor (length (B.taken b.old)) (B.left b.old))) }
    ensures kept { B.taken b.new ++ B.left b.new ≡ B.taken b.old ++ B.left b.old }
{
    truncated(b, max)
}

/// se(v) (9.1): the value from `min` to `max` whose code begins the bits left.
/// None where they begin with no such code; what is left then isn't said.
pub fn read_se<B: BitSource>(b: &mut B, min: i32, max: i32) -> Option<i32>
    requires least { negsuc 2147483646 ≤ℤ min }
    requires most { max ≤ℤ pos 2147483647 }
    ensures reads { Reads (λ value. (min ≤ℤ value) × (value ≤ℤ max)) se (B.left b.old) result (B.left b.new) }
    ensures front { Gives result (B.left b.new) (front (Se min max) (B.left b.old)) }
    ensures element { Gives result (cursor (length (B.taken b.new)) (B.left b.new)) (element_at (Se min max) (cursor (length (B.taken b.old)) (B.left b.old))) }
    ensures kept { B.taken b.new ++ B.left b.new ≡ B.taken b.old ++ B.left b.old }
{
    signed(b, min, max)
}

#[inline(always)]
fn number<B: BitSource>(b: &mut B, n: u8) -> Option<u32>
    requires { n ≤ 32 }
    ensures front { Gives result (B.left b.new) (front (U n) (B.left b.old)) }
    ensures kept { B.taken b.new ++ B.left b.new ≡ B.taken b.old ++ B.left b.old }
{
    let window = b.window();
    if !b.skip(n) {
        return None;
    }
    Some((window >> 32 >> (32 - n)) as u32)
}

/// The code is a number of 2 * zeros + 1 bits: that of the value, and one more.
fn exp_golomb<B: BitSource>(b: &mut B, max: u32) -> Option<u32>
    ensures front { Gives result (B.left b.new) (front (Ue max) (B.left b.old)) }
    ensures kept { B.taken b.new ++ B.left b.new ≡ B.taken b.old ++ B.left b.old }
{
    let window = b.window();
    let zeros = window.leading_zeros() as u8;
    if zeros > 31 {
        return None;
    }
    if !b.skip(2 * zeros + 1) {
        return None;
    }
    let value = (window >> (63 - 2 * zeros)) as u32 - 1;
    if value <= max { Some(value) } else { None }
}

fn truncated<B: BitSource>(b: &mut B, max: u32) -> Option<u32>
    requires { 1 ≤ max }
    ensures front { Gives result (B.left b.new) (front (Te max) (B.left b.old)) }
    ensures kept { B.taken b.new ++ B.left b.new ≡ B.taken b.old ++ B.left b.old }
{
    if max > 1 {
        return exp_golomb(b, max);
    }
    let bit = b.bit()?;
    Some(u32::from(!bit))
}

fn signed<B: BitSource>(b: &mut B, min: i32, max: i32) -> Option<i32>
    ensures front { Gives result (B.left b.new) (front (Se min max) (B.left b.old)) }
    ensures kept { B.taken b.new ++ B.left b.new ≡ B.taken b.old ++ B.left b.old }
{
    let place = exp_golomb(b, u32::MAX - 1)?;
    let value = signed_at(place);
    if min <= value && value <= max {
        Some(value)
    } else {
        None
    }
}

/// The signed value at a place of 0, 1, -1, 2, -2 .. (Table 9-3).
fn signed_at(place: u32) -> i32
    requires { place ≤ 4294967294 }
    ensures { result ≡ value_at place }
{
    let half = (place / 2) as i32;
    if place % 2 == 0 { -half } else { half + 1 }
}
