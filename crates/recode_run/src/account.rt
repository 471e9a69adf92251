// What a run has read and written.
ghost use Rattle.std.specs.Prelude.{◌≡◌, ◌+◌, ◌∷◌, ◌++◌, [], ℕ, List};
ghost use Rattle.stream_taps.specs.declared.event.Event.{Event};

use stream_taps::Event;

/// What a run has read and written. Each number stops at the greatest `u64`.
#[derive(Clone, Copy, Debug, Default, PartialEq, Eq)]
pub struct Account {
    pub units: u64,

    /// The units of `nal_unit_type` 1 or 5.
    pub slices: u64,

    /// The macroblocks of these slices, skipped ones counted.
    pub macroblocks: u64,

    /// All bytes that were read, start codes and zero bytes included.
    pub bytes_in: u64,

    /// All bytes that were written, start codes included.
    pub bytes_out: u64,
}

impl Account {
    ghost use Rattle.recode_run.specs.Account.{account_of};

    /// Nothing was read and nothing written.
    pub fn new() -> Account
        ensures { result ≡ account_of 0 [] }
    {
        Account::default()
    }

    /// Counts a unit that was written.
    pub fn note(&mut self, event: Event)
        ensures { (read : ℕ) (events : List Event) → self.old ≡ account_of read events
            → self.new ≡ account_of read (events ++ event ∷ []) }
    {
        let slices = u64::from(matches!(event.kind, 1 | 5));
        self.units = self.units.saturating_add(1);
        self.slices = self.slices.saturating_add(slices);
        self.macroblocks = self
            .macroblocks
            .saturating_add(u64::from(event.macroblocks));
        self.bytes_out = self.bytes_out.saturating_add(event.bytes_out);
    }

    /// Counts bytes that were read.
    pub fn read(&mut self, count: usize)
        ensures { (read : ℕ) (events : List Event) → self.old ≡ account_of read events
            → self.new ≡ account_of (read + count) events }
    {
        self.bytes_in = self.bytes_in.saturating_add(count as u64);
    }
}
