// The calls that are to fail, by their numbers.
ghost use Rattle.std.specs.Prelude.{◌≡◌, ◌+◌, ◌-◌, ◌^◌, ◌<◌, ◌≤◌, min, IsTrue, ◌↔◌};
ghost use Rattle.unit_io.specs.Failures.{failures, Fails};

/// Calls are counted from 0, and those whose numbers stand here fail. The count stops at the greatest `u64`, and
/// from there on no call fails.
#[derive(Drop)]
pub(crate) struct Failing {
    pub(crate) numbers: Vec<u64>,
    pub(crate) calls: u64,
}

impl Failing {
    /// Counts a call, and says whether it fails.
    pub(crate) fn next(&mut self) -> bool
        ensures later { failures self.old.numbers.items self.old.calls
            ≤ failures self.new.numbers.items self.new.calls }
        ensures fails { IsTrue result ↔
            (failures self.old.numbers.items self.old.calls < failures self.new.numbers.items self.new.calls) }
        ensures calls { self.new.calls ≡ min (self.old.calls + 1) (2 ^ 64 - 1) }
        ensures list { self.new.numbers.items ≡ self.old.numbers.items }
        ensures exact { IsTrue result ↔ Fails self.old.numbers.items self.old.calls }
    {
        let call = self.calls;
        if call == u64::MAX {
            return false;
        }
        self.calls = call + 1;
        self.numbers.contains(&call)
    }
}
