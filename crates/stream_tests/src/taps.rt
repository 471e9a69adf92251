// A tap of the tests, called through the trait.
ghost use Rattle.std.specs.Prelude.{◌≡◌};

use stream_taps::{Event, Tally, Tap, Wish};

#[derive(Drop)]
struct Watch {
    seen: Tally,
    enough: Option<u64>,
}

impl Tap for Watch {
    ghost tally = { λ w. w.seen };

    ghost limit = { λ w. w.enough };

    fn note(&mut self, e: Event) -> Wish {
        let slices = if e.kind == 1 || e.kind == 5 { 1 } else { 0 };
        self.seen.units = self.seen.units.saturating_add(1);
        self.seen.slices = self.seen.slices.saturating_add(slices);
        self.seen.macroblocks = self
            .seen
            .macroblocks
            .saturating_add(u64::from(e.macroblocks));
        self.seen.bytes_in = self.seen.bytes_in.saturating_add(e.bytes_in);
        self.seen.bytes_out = self.seen.bytes_out.saturating_add(e.bytes_out);
        match self.enough {
            Some(limit) if limit <= self.seen.units => Wish::Done,
            _ => Wish::Go,
        }
    }

    fn tally(&self) -> Tally {
        self.seen
    }

    fn limit(&self) -> Option<u64> {
        self.enough
    }
}

/// The kinds, macroblocks and bytes read of three events, and what is wished at each.
const EVENTS: [(u8, u32, u64, Wish); 3] = [
    (9, 0, 2, Wish::Go),
    (5, 99, 700, Wish::Go),
    (1, 1, u64::MAX, Wish::Done),
];

/// Their sums.
const SUMS: Tally = Tally {
    units: 3,
    slices: 2,
    macroblocks: 100,
    bytes_in: u64::MAX,
    bytes_out: 18,
};

fn has_enough_at_three(tap: &mut dyn Tap) -> bool {
    for (kind, macroblocks, bytes_in, wish) in &EVENTS {
        let event = Event {
            kind: *kind,
            macroblocks: *macroblocks,
            bytes_in: *bytes_in,
            bytes_out: 6,
        };
        if tap.note(event) != *wish {
            return false;
        }
    }
    tap.tally() == SUMS && tap.limit() == Some(3)
}

#[test]
fn a_tap_has_enough_at_its_limit(rt: HostRuntime) {
    let mut watch = Watch {
        seen: Tally::default(),
        enough: Some(3),
    };
    assert!(rt; has_enough_at_three(&mut watch));
}
