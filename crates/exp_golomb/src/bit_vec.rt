use crate::sink::BitSink;
use std::alloc::{AllocError as Memory, Global};
use std::marker::Model;

/// Bits that are collected into bytes, the most significant of each byte first.
#[derive(Drop)]
pub struct BitVec {
    /// The bytes of the first bits.
    bytes: Vec<u8>,
    /// The bits after them, as a number, and how many they are. Where there are any, the bytes have room for eight more.
    last: u64,
    count: u8,
}

impl Model for BitVec {
    ghost use Rattle.std.specs.Prelude.{List, ℕ, Bool, ◌+◌, ◌<◌, ◌≤◌, ◌^◌, ◌++◌, vec_len, vec_capacity};
    ghost use Rattle.bit_texts.specs.Bits.{binary, bits_of};

    ghost Value = { List Bool };

    ghost view = { λ v. bits_of v.bytes.items ++ binary v.count v.last };

    ghost invariant = { λ v. (v.count < 64) × (v.last < 2 ^ v.count) × (0 < v.count → vec_len v.bytes + 8 ≤ vec_capacity v.bytes) };
}

impl BitVec {
    ghost use Rattle.std.specs.Prelude.{◌≡◌, ◌%◌, [], length};
    ghost use Rattle.bit_texts.specs.Bits.{bits_of};

    /// No bits.
    pub fn new(alloc: Global) -> Self
        ensures { result ≡ [] }
    {
        BitVec {
            bytes: Vec::new(alloc),
            last: 0,
            count: 0,
        }
    }

    /// The bytes that the bits are, which are whole bytes. It takes no memory.
    pub fn into_bytes(self) -> Vec<u8>
        requires { length self % 8 ≡ 0 }
        ensures { bits_of result.items ≡ self }
    {
        let BitVec {
            mut bytes,
            last,
            count,
        } = self;
        if count > 0 {
            let top = last << (64 - count);
            let whole = usize::from(count / 8);
            let _room = bytes.extend_from_slice(&top.to_be_bytes()[..whole]);
        }
        bytes
    }
}

impl BitVec {
    ghost use Rattle.std.specs.Prelude.{◌≡◌, ◌≤◌, ◌<◌, ◌^◌, OnOk, OnErr};
    ghost use Rattle.bit_texts.specs.Bits.{binary};
    ghost use Rattle.bit_texts.specs.Texts.{Appended};

    /// Appends n bits. Want of memory leaves the bits as they were.
    #[inline(always)]
    fn append(&mut self, value: u64, n: u8) -> Result<(), Memory>
        requires count { n ≤ 64 }
        requires fits { value < 2 ^ n }
        ensures ok { OnOk result (Appended self.old self.new (binary n value)) }
        ensures err { OnErr result (self.new ≡ self.old) }
    {
        let count = self.count + n;
        if self.count == 0 || count > 63 {
            return self.append_over(value, n);
        }
        self.last = (self.last << n) + value;
        self.count = count;
        Ok(())
    }

    /// The same where room is to be made first, or the bits fill eight bytes.
    #[cold]
    #[inline(never)]
    fn append_over(&mut self, value: u64, n: u8) -> Result<(), Memory>
        requires count { n ≤ 64 }
        requires fits { value < 2 ^ n }
        ensures ok { OnOk result (Appended self.old self.new (binary n value)) }
        ensures err { OnErr result (self.new ≡ self.old) }
    {
        self.bytes.reserve(16)?;
        let count = self.count + n;
        if count < 64 {
            self.last = (self.last << n) + value;
            self.count = count;
            return Ok(());
        }
        let over = count - 64;
        let word = (self.last << (63 - self.count) << 1) + (value >> over);
        self.bytes.extend_from_slice(&word.to_be_bytes())?;
        self.last = value % (1 << over);
        self.count = over;
        Ok(())
    }
}

impl BitSink for BitVec {
    ghost bits = { λ v. v };

    #[inline(always)]
    fn put(&mut self, bit: bool) -> Result<(), Memory> {
        self.append(u64::from(bit), 1)
    }

    #[inline(always)]
    fn put_bits(&mut self, value: u64, n: u8) -> Result<(), Memory> {
        self.append(value, n)
    }

    fn aligned(&self) -> bool {
        self.count % 8 == 0
    }
}
