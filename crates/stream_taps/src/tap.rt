// What watches a run.
ghost use Rattle.std.specs.Prelude.{◌≡◌, ◌↔◌, ℕ, Option};
ghost use Rattle.stream_taps.specs.declared.tally.Tally.{Tally};
ghost use Rattle.stream_taps.specs.Tally.{tally_after, IsReached};

use crate::{Event, Tally};

/// Whether a tap goes on watching.
#[derive(Clone, Copy, Debug, PartialEq, Eq)]
pub enum Wish {
    Go,
    Done,
}

/// What watches a run: it keeps a tally of the events, and may have enough after some units.
pub trait Tap: Drop {
    /// The sums over the events that it was told.
    ghost tally: { Self → Tally };

    /// After how many units it has enough, if ever.
    ghost limit: { Self → Option ℕ };

    /// Adds the event to the tally. The answer is `Done` exactly where the tally then has as many units as the limit.
    fn note(&mut self, e: Event) -> Wish
        ensures tally { tally self.new ≡ tally_after (tally self.old) e }
        ensures limit { limit self.new ≡ limit self.old }
        ensures done { (result ≡ Wish.Done) ↔ IsReached (limit self.old) (tally self.new).units };

    /// The sums over the events that it was told.
    fn tally(&self) -> Tally
        ensures { result ≡ tally self.now };

    /// After how many units it has enough, if ever.
    fn limit(&self) -> Option<u64>
        ensures { result ≡ limit self.now };
}
