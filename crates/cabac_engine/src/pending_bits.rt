ghost use Rattle.std.specs.Prelude.{◌≡◌, ◌+◌, ◌^◌, ◌<◌, ◌≤◌, true, false, ◌++◌, replicate, sum, IfOk, OnOk};
ghost use Rattle.std.specs.Int.{from_bool};
ghost use Rattle.cabac_engine.specs.LowBits.{Adds, AreOnes};

use exp_golomb::BitSink;
use std::alloc::{AllocError as Memory, Global};
use std::marker::Model;

/// A sink, and the bits behind its own that a carry may still change: some that are held back, not all of them ones, and
/// then the outstanding bits, which are ones (bitsOutstanding, 9.3.4.3).
#[derive(Drop)]
pub(crate) struct PendingBits<B: BitSink> {
    sink: B,
    /// The bits that are held back, as a number.
    held: u64,
    /// How many they are: none where all bits are settled, since no carry can come any more.
    count: u8,
    /// How many bits are outstanding: the sum of these counts.
    outstanding: Vec<u64>,
}

impl<B: BitSink> Model for PendingBits<B> {
    ghost use Rattle.std.specs.Prelude.{◌≡◌, ◌+◌, ◌^◌, ◌<◌, ◌≤◌, ◌==◌, true, ◌++◌, replicate, sum};
    ghost use Rattle.bit_texts.specs.Bits.{binary};
    ghost use Rattle.cabac_engine.specs.LowBits.{Pending};

    ghost Value = { Pending };

    ghost view = { λ p. record {
      settled = p.count == 0;
      bits = B.bits p.sink ++ binary p.count p.held ++ replicate (sum p.outstanding.items) true;
    } };

    ghost invariant = { λ p. (p.count ≤ 40) × (p.held < 2 ^ p.count) × (0 < p.count → p.held + 1 < 2 ^ p.count)
        × (p.count ≡ 0 → sum p.outstanding.items ≡ 0) };
}

impl<B: BitSink> PendingBits<B> {
    /// None but the bits of the sink.
    pub(crate) fn new(alloc: Global, sink: B) -> PendingBits<B>
        ensures settled { result.settled ≡ true }
        ensures bits { result.bits ≡ B.bits sink }
    {
        PendingBits {
            sink,
            held: 0,
            count: 0,
            outstanding: Vec::new(alloc),
        }
    }

    /// Appends the lowest `count` bits of a number; the one above them is a carry.
    #[cold]
    pub(crate) fn append(&mut self, bits: u64, count: u8) -> Result<(), Memory>
        requires some { 0 < count }
        requires few { count ≤ 40 }
        requires carry { bits < 2 ^ (count + 1) }
        requires settled { self.old.settled ≡ true → bits < 2 ^ count }
        ensures bits { OnOk result (Adds count bits self.old.bits self.new.bits) }
        ensures settled { OnOk result (self.new.settled ≡ true → AreOnes self.old.settled count bits) }
    {
        let end = 1u64 << count;
        if bits < end {
            return self.extend(bits, count);
        }
        self.settle(true)?;
        self.extend(bits - end, count)
    }

    /// Appends the lowest `count` bits of a number.
    fn extend(&mut self, bits: u64, count: u8) -> Result<(), Memory>
        requires some { 0 < count }
        requires few { count ≤ 40 }
        requires fits { bits < 2 ^ count }
        ensures bits { OnOk result (Adds count bits self.old.bits self.new.bits) }
        ensures settled { OnOk result (self.new.settled ≡ true → (self.old.settled ≡ true) × (bits + 1 ≡ 2 ^ count)) }
    {
        if bits + 1 < 1 << count {
            self.settle(false)?;
            self.held = bits;
            self.count = count;
            return Ok(());
        }
        if self.count == 0 {
            self.sink.put_bits(bits, count)
        } else {
            count_more(&mut self.outstanding, count)
        }
    }

    /// Writes the pending bits, with a carry or without.
    fn settle(&mut self, carry: bool) -> Result<(), Memory>
        requires { carry ≡ true → self.old.settled ≡ false }
        ensures settled { OnOk result (self.new.settled ≡ true) }
        ensures bits { OnOk result (Adds 0 (from_bool carry) self.old.bits self.new.bits) }
    {
        if self.count == 0 {
            return Ok(());
        }
        self.sink
            .put_bits(self.held + u64::from(carry), self.count)?;
        release(&mut self.sink, &mut self.outstanding, !carry)?;
        self.held = 0;
        self.count = 0;
        Ok(())
    }

    /// Writes the pending bits, and hands the sink back.
    pub(crate) fn finish(self) -> Result<B, Memory>
        ensures { IfOk result (λ sink. B.bits sink ≡ self.bits) }
    {
        let mut pending = self;
        pending.settle(false)?;
        let PendingBits { sink, .. } = pending;
        Ok(sink)
    }
}

/// Puts the outstanding bits, all of them `bit`. After an `Err` some of them are put.
fn release<B: BitSink>(sink: &mut B, outstanding: &mut Vec<u64>, bit: bool) -> Result<(), Memory>
    ensures bits { OnOk result (B.bits sink.new ≡ B.bits sink.old ++ replicate (sum outstanding.old.items) bit) }
    ensures none { OnOk result (sum outstanding.new.items ≡ 0) }
{
    while let Some(count) = outstanding.pop() {
        put_times(sink, bit, count)?;
    }
    Ok(())
}

/// Puts equal bits. After an `Err` some of them are put.
fn put_times<B: BitSink>(sink: &mut B, bit: bool, count: u64) -> Result<(), Memory>
    ensures { OnOk result (B.bits sink.new ≡ B.bits sink.old ++ replicate count bit) }
{
    for _i in 0..count {
        sink.put(bit)?;
    }
    Ok(())
}

/// Counts more outstanding bits: the last count grows, and where it can't there is a new one.
fn count_more(outstanding: &mut Vec<u64>, more: u8) -> Result<(), Memory>
    ensures ok { OnOk result (sum outstanding.new.items ≡ sum outstanding.old.items + more) }
{
    if let Some(last) = outstanding.last_mut() {
        if *last <= u64::MAX - u64::from(more) {
            *last += u64::from(more);
            return Ok(());
        }
    }
    outstanding.push(u64::from(more))?;
    Ok(())
}
