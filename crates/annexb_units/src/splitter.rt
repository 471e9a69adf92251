// The splitter: bytes in, units out.
ghost use Rattle.std.specs.Prelude.{◌≡◌, ◌≢◌, ◌↔◌, ◌+◌, ◌-◌, ◌^◌, ◌<◌, ◌≤◌, All, List, [], ◌∷◌, ◌++◌, length, take, map, min, replicate, slice_index, vec_len, IsTrue, OnOk, OnErr, OnSome, IfOk, IfErr, IfSome, IfNone};
ghost use Rattle.std.specs.VecDeque.{deque_len, deque_capacity};
ghost use Rattle.annexb_units.specs.declared.splitter.State.TheVariants.{Inside};

use h264_types::Why;
use memchr::memchr;
use std::alloc::Global;
use std::collections::VecDeque;
use std::mem;
use thiserror::Error;

/// Why a splitter stopped.
#[derive(Clone, Copy, Debug, PartialEq, Eq, Error)]
pub enum SplitFault {
    /// The bytes are no byte stream (Annex B): `Why::NoStart` or `Why::Unit`, at the unit that has, or would have,
    /// this number. Numbers are counted from 0 and stand still at the greatest `u64`.
    #[error("no byte stream at unit {unit}")]
    Bad { unit: u64, why: Why },
    /// Memory ran out.
    #[error("out of memory")]
    Memory,
}

/// Where in the byte stream the next byte stands.
#[derive(Clone, Copy, Debug, PartialEq, Eq)]
enum State {
    /// Before a start code.
    Between,
    /// Behind a start code.
    Inside,
    /// Behind a fault.
    Bad(Why),
}

/// Takes the bytes of a stream in pieces of any size, and gives its units (Annex B): each without its start code and
/// without the zero bytes behind it. It holds the unit that is being read and those that wait, and nothing else.
#[derive(Drop)]
pub struct Splitter {
    alloc: Global,
    /// The units that ended and were not taken, with room for the one that is being read.
    ended: VecDeque<Vec<u8>>,
    /// The unit that is being read, without the zero bytes behind it.
    unit: Vec<u8>,
    /// The zero bytes since the last other byte, two for more.
    zeros: usize,
    state: State,
    /// The number of units that ended.
    count: u64,
    ghost few_zeros: { zeros ≤ 2 },
    ghost room: { state ≡ Inside → deque_len ended < deque_capacity ended },
}

impl Splitter {
    ghost use Rattle.annexb_units.specs.Parts.{Parts};
    ghost use Rattle.annexb_units.specs.Splitter.{parts, StandsFor, Feeds, ShowsNone, FeedStops, TakesFront, IsWithinUnit, Ends, EndShowsNone, EndStops, Takes, IsAllTaken, Keeps, IsBad, waiting_count};

    /// A splitter at the beginning of a stream. It takes no memory yet.
    pub fn new(alloc: Global) -> Splitter
        ensures { StandsFor result [] [] }
    {
        Splitter {
            alloc,
            ended: VecDeque::new(alloc),
            unit: Vec::new(alloc),
            zeros: 0,
            state: State::Between,
            count: 0,
        }
    }

    /// Takes the next piece of the stream. At a fault the units before it can still be taken; after `SplitFault::Bad` the
    /// same fault comes again, and after a want of memory some first bytes of the piece were taken. Zero bytes take no
    /// memory.
    pub fn feed(&mut self, piece: &[u8]) -> Result<(), SplitFault>
        ensures ok { OnOk result (Feeds self.old self.new piece.now × ShowsNone self.old piece.now) }
        ensures err { IfErr result (FeedStops self.old self.new piece.now) }
        ensures zeros { All (λ x. x ≡ 0) piece.now → IfErr result (λ fault. fault ≢ SplitFault.Memory) }
        ensures again { (fault : _) → IsBad self.old fault → (result ≡ Err fault) × (self.new ≡ self.old) }
    {
        if let State::Bad(why) = self.state {
            return Err(SplitFault::Bad {
                unit: self.count,
                why,
            });
        }
        let mut at = 0;
        while at < piece.len() {
            at += self.take_front(&piece[at..])?;
        }
        Ok(())
    }

    // Takes some first bytes: within a unit those before the next zero byte, and else one.
    fn take_front(&mut self, bytes: &[u8]) -> Result<usize, SplitFault>
        requires { 0 < length bytes.now }
        ensures ok { IfOk result (TakesFront self.old self.new bytes.now) }
        ensures err { IfErr result (FeedStops self.old self.new bytes.now) }
        ensures zero { slice_index bytes.now 0 ≡ 0 → IfErr result (λ fault. fault ≢ SplitFault.Memory) }
    {
        if self.is_within_unit() {
            let run = nonzero_count(bytes);
            if 0 < run {
                self.keep_run(&bytes[..run])?;
                return Ok(run);
            }
        }
        self.push(bytes[0])?;
        Ok(1)
    }

    // Whether the last byte belongs to a unit, whatever follows.
    fn is_within_unit(&self) -> bool
        ensures { IsTrue result → IsWithinUnit self.now }
    {
        match self.state {
            State::Inside => self.zeros == 0 && !self.unit.is_empty(),
            State::Between | State::Bad(_) => false,
        }
    }

    // Puts bytes other than zero behind the unit.
    fn keep_run(&mut self, run: &[u8]) -> Result<(), SplitFault>
        requires within { IsWithinUnit self.old }
        requires nonzero { All (λ x. x ≢ 0) run.now }
        ensures ok { OnOk result (Feeds self.old self.new run.now × ShowsNone self.old run.now) }
        ensures err { IfErr result (λ e. (e ≡ SplitFault.Memory) × Keeps self.old self.new) }
    {
        match self.unit.extend_from_slice(run) {
            Ok(()) => Ok(()),
            Err(_) => Err(SplitFault::Memory),
        }
    }

    // Takes one byte.
    fn push(&mut self, byte: u8) -> Result<(), SplitFault>
        ensures ok { OnOk result (Feeds self.old self.new (byte ∷ []) × ShowsNone self.old (byte ∷ [])) }
        ensures err { IfErr result (FeedStops self.old self.new (byte ∷ [])) }
        ensures zero { byte ≡ 0 → IfErr result (λ fault. fault ≢ SplitFault.Memory) }
    {
        match self.state {
            State::Between => self.push_between(byte),
            State::Inside => self.push_inside(byte),
            State::Bad(why) => Err(self.stop(why)),
        }
    }

    fn push_between(&mut self, byte: u8) -> Result<(), SplitFault>
        requires { self.old.state ≡ State.Between }
        ensures ok { OnOk result (Feeds self.old self.new (byte ∷ []) × ShowsNone self.old (byte ∷ [])) }
        ensures err { IfErr result (FeedStops self.old self.new (byte ∷ [])) }
        ensures zero { byte ≡ 0 → IfErr result (λ fault. fault ≢ SplitFault.Memory) }
    {
        if byte == 0 {
            if self.zeros < 2 {
                self.zeros += 1;
            }
            Ok(())
        } else if byte == 1 && self.zeros == 2 {
            self.make_room(1)?;
            self.zeros = 0;
            self.state = State::Inside;
            Ok(())
        } else {
            Err(self.stop(Why::NoStart))
        }
    }

    fn push_inside(&mut self, byte: u8) -> Result<(), SplitFault>
        requires { self.old.state ≡ State.Inside }
        ensures ok { OnOk result (Feeds self.old self.new (byte ∷ []) × ShowsNone self.old (byte ∷ [])) }
        ensures err { IfErr result (FeedStops self.old self.new (byte ∷ [])) }
        ensures zero { byte ≡ 0 → IfErr result (λ fault. fault ≢ SplitFault.Memory) }
    {
        if byte < 2 && self.zeros == 2 {
            if self.unit.is_empty() {
                return Err(self.stop(Why::Unit));
            }
            if byte == 0 {
                self.end_unit(State::Between);
            } else {
                self.make_room(2)?;
                self.end_unit(State::Inside);
                self.zeros = 0;
            }
            Ok(())
        } else if byte == 0 {
            self.zeros += 1;
            Ok(())
        } else if byte >= 128 && self.zeros == 0 && self.unit.is_empty() {
            Err(self.stop(Why::Unit))
        } else {
            self.keep(byte)
        }
    }

    // Stops at a fault.
    fn stop(&mut self, why: Why) -> SplitFault
        ensures fault { result ≡ SplitFault.Bad self.old.count why }
        ensures parts { parts self.new ≡ record (parts self.old) { state = State.Bad why } }
    {
        self.state = State::Bad(why);
        SplitFault::Bad {
            unit: self.count,
            why,
        }
    }

    // Makes room for so many units more.
    fn make_room(&mut self, units: usize) -> Result<(), SplitFault>
        ensures room { OnOk result (deque_len self.new.ended + units ≤ deque_capacity self.new.ended) }
        ensures parts { parts self.new ≡ parts self.old }
        ensures memory { IfErr result (λ fault. fault ≡ SplitFault.Memory) }
    {
        self.ended.reserve(units).map_err(|_| SplitFault::Memory)
    }

    // Puts the unit behind those that ended, where it has room.
    fn end_unit(&mut self, next: State)
        requires room { deque_len self.old.ended < deque_capacity self.old.ended }
        requires next { next ≡ State.Inside → deque_len self.old.ended + 1 < deque_capacity self.old.ended }
        ensures { parts self.new ≡ record (parts self.old) {
          waiting = (parts self.old).waiting ++ (parts self.old).unit ∷ [];
          unit = [];
          state = next;
          count = min (self.old.count + 1) (2 ^ 64 - 1);
        } }
    {
        let unit = mem::replace(&mut self.unit, Vec::new(self.alloc));
        self.ended.push_back_reserved(unit);
        self.state = next;
        self.count = self.count.saturating_add(1);
    }

    // Puts the zero bytes and one more behind the unit.
    fn keep(&mut self, byte: u8) -> Result<(), SplitFault>
        ensures ok { OnOk result (parts self.new ≡ record (parts self.old) {
          unit = (parts self.old).unit ++ (replicate self.old.zeros 0 ++ byte ∷ []);
          zeros = 0;
        }) }
        ensures err { OnErr result (parts self.new ≡ parts self.old) }
        ensures memory { IfErr result (λ e. e ≡ SplitFault.Memory) }
    {
        let bytes = [0, 0, byte];
        self.unit
            .extend_from_slice(&bytes[2 - self.zeros..])
            .map_err(|_| SplitFault::Memory)?;
        self.zeros = 0;
        Ok(())
    }

    /// Takes the end of the stream, which ends the last unit as three zero bytes do. It takes no memory.
    pub fn end(&mut self) -> Result<(), SplitFault>
        ensures ok { OnOk result (Ends self.old self.new × EndShowsNone self.old) }
        ensures err { IfErr result (EndStops self.old self.new) }
        ensures again { (fault : _) → IsBad self.old fault → (result ≡ Err fault) × (self.new ≡ self.old) }
    {
        self.feed(&[0, 0, 0])
    }

    /// Gives the next unit that ended and was not taken. It takes no memory.
    pub fn take_unit(&mut self) -> Option<Vec<u8>>
        ensures some { IfSome result (λ unit. Takes self.old self.new unit.items) }
        ensures none { IfNone result (IsAllTaken self.old × Keeps self.old self.new) }
        ensures bad { (fault : _) → IsBad self.old fault → IsBad self.new fault }
        ensures fewer { OnSome result (waiting_count self.new + 1 ≡ waiting_count self.old) }
    {
        self.ended.pop_front()
    }
}

// How many bytes stand before the first zero byte, or all where there is none.
fn nonzero_count(bytes: &[u8]) -> usize
    ensures within { result ≤ length bytes.now }
    ensures nonzero { All (λ x. x ≢ 0) (take result bytes.now) }
{
    memchr(0, bytes).unwrap_or(bytes.len())
}
