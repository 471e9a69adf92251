//! The recoder: the bytes of a stream in, written units out.
ghost use Rattle.std.specs.Prelude.{◌≡◌, ◌+◌, ◌∷◌, ◌++◌, [], ℕ, List, length, map, Some, OnOk, OnErr, OnSome, Err, IfErr, IfOk, IfSome, IfNone};
ghost use Rattle.slice_rewrite.specs.Items.{Item, unit_type};
ghost use Rattle.slice_rewrite.specs.Options.{options};
ghost use Rattle.stream_recoder.specs.Written.{Written};

use crate::periods::Periods;
use crate::unit_form::{UnitForm, unit_form};
use annexb_units::{SplitFault, Splitter};
use h264_types::{Place, Stopped};
use init_table::InitTable;
use param_sets::Sets;
use slice_rewrite::{InitPick, Plan, RewriteFault, unit_type};
use std::alloc::{AllocError as Memory, Global};
use std::collections::VecDeque;
use stream_taps::Event;

/// Takes the bytes of a stream in pieces of any size, and gives its units as they are written.
///
/// It holds the unit that is being read, the parameter sets that stand, how many IDR periods have begun, and what was written
/// and not drained yet.
#[derive(Drop)]
pub struct Recoder<P> {
    alloc: Global,
    plan: Plan,
    /// The table of initial pairs of CABAC (9.3.1.1).
    init: InitTable,
    /// Chooses cabac_init_idc.
    pick: P,
    splitter: Splitter,
    /// The parameter sets that stand behind the units that were read.
    sets: Sets,
    /// The IDR periods that have begun with them.
    periods: Periods,
    forms: VecDeque<(Vec<u8>, Event)>,
    /// The number of units that were read.
    units: u64,
    stopped: Option<Stopped>,
}

impl<P: InitPick> Recoder<P> {
    ghost use Rattle.stream_recoder.specs.Recoder.{waiting, waiting_count, options_of, IsStopped, StandsBehind, HasRecoded, RecodesMore, RecodingStops, Drains, IsKept, Adds, IsRefusedBy, PickStops, stopped_at, TakesAll, TakingStops};

    /// A recoder at the beginning of a stream.
    pub fn new(alloc: Global, plan: Plan, init: InitTable, pick: P) -> Result<Recoder<P>, Memory>
        ensures { IfOk result (λ recoder. HasRecoded P.tried P.step pick recoder [] [] × (options_of P.tried recoder ≡ options plan init (P.tried pick)) × (recoder.pick ≡ pick)) }
    {
        Ok(Recoder {
            alloc,
            plan,
            init,
            pick,
            splitter: Splitter::new(alloc),
            sets: Sets::new(alloc),
            periods: Periods::new(),
            forms: VecDeque::new(alloc),
            units: 0,
            stopped: None,
        })
    }

    /// Takes the next piece of the stream. What was written before a stop can still be drained, and the same stop comes
    /// again from then on.
    pub fn feed(&mut self, piece: &[u8]) -> Result<(), Stopped>
        ensures ok { OnOk result (RecodesMore P.tried P.step self.old self.new piece.now) }
        ensures err { IfErr result (RecodingStops P.tried P.step self.old self.new piece.now) }
        ensures again { (stopped : _) → IsStopped self.old stopped → (result ≡ Err stopped) × (self.new ≡ self.old) }
        ensures stops { IfErr result (IsStopped self.new) }
        ensures options { options_of P.tried self.new ≡ options_of P.tried self.old }
    {
        if let Some(stopped) = self.stopped {
            return Err(stopped);
        }
        match self.splitter.feed(piece) {
            Ok(()) => self.take_ended(),
            Err(SplitFault::Bad { unit, why }) => {
                self.take_ended()?;
                Err(self.stop(Stopped::Outside { unit, why }))
            }
            Err(SplitFault::Memory) => Err(self.stop(Stopped::Memory)),
        }
    }

    /// Takes the end of the stream, which is three more zero bytes: the last unit ends there.
    pub fn finish(&mut self) -> Result<(), Stopped>
        ensures ok { OnOk result (RecodesMore P.tried P.step self.old self.new (0 ∷ 0 ∷ 0 ∷ [])) }
        ensures err { IfErr result (RecodingStops P.tried P.step self.old self.new (0 ∷ 0 ∷ 0 ∷ [])) }
        ensures again { (stopped : _) → IsStopped self.old stopped → (result ≡ Err stopped) × (self.new ≡ self.old) }
        ensures stops { IfErr result (IsStopped self.new) }
        ensures options { options_of P.tried self.new ≡ options_of P.tried self.old }
    {
        self.feed(&[0, 0, 0])
    }

    /// Gives the bytes that are written for the next unit, start codes included, with the event of it. None comes where
    /// all were taken. It takes no memory.
    pub fn drain(&mut self) -> Option<(Vec<u8>, Event)>
        ensures some { IfSome result (λ written. Drains P.tried P.step self.old self.new record { form = written.0.items; event = written.1 }) }
        ensures none { IfNone result ((waiting self.old ≡ []) × IsKept P.tried P.step self.old self.new) }
        ensures fewer { OnSome result (waiting_count self.new + 1 ≡ waiting_count self.old) }
        ensures stopped { (stopped : _) → IsStopped self.old stopped → IsStopped self.new stopped }
        ensures options { options_of P.tried self.new ≡ options_of P.tried self.old }
        ensures pick { self.new.pick ≡ self.old.pick }
    {
        self.forms.pop_front()
    }

    // Takes the units that have ended, up to the first that is refused.
    fn take_ended(&mut self) -> Result<(), Stopped>
        ensures ok { OnOk result (TakesAll P.tried P.step self.old self.new) }
        ensures err { IfErr result (TakingStops P.tried P.step self.old self.new) }
        ensures stopped { OnOk result (self.new.stopped ≡ self.old.stopped) }
        ensures stops { IfErr result (λ e. self.new.stopped ≡ Some e) }
        ensures options { options_of P.tried self.new ≡ options_of P.tried self.old }
    {
        while let Some(unit) = self.splitter.take_unit() {
            self.recode(&unit)?;
        }
        Ok(())
    }

    // Reads a unit, and puts what is written for it behind what waits.
    fn recode(&mut self, unit: &[u8]) -> Result<(), Stopped>
        ensures ok { OnOk result (Adds P.tried P.step self.old self.new unit.now) }
        ensures err { (before : List Item) → StandsBehind before self.old → IfErr result (IsRefusedBy P.tried self.old before unit.now) }
        ensures waits { OnErr result (waiting self.new ≡ waiting self.old) }
        ensures splitter { self.new.splitter ≡ self.old.splitter }
        ensures stops { IfErr result (λ e. self.new.stopped ≡ Some e) }
        ensures options { options_of P.tried self.new ≡ options_of P.tried self.old }
        ensures pick { (before : List Item) → StandsBehind before self.old → IfErr result (λ e. PickStops P.tried P.step (options_of P.tried self.old) before unit.now e self.old.pick self.new.pick) }
    {
        let form = match unit_form(
            self.alloc,
            self.plan,
            &self.init,
            &mut self.pick,
            &mut self.sets,
            &mut self.periods,
            unit,
        ) {
            Ok(form) => form,
            Err(fault) => return Err(self.refuse(fault)),
        };
        let event = event_of(unit, &form);
        let Ok(()) = self.forms.push_back((form.bytes, event)) else {
            return Err(self.stop(Stopped::Memory));
        };
        self.units = self.units.saturating_add(1);
        Ok(())
    }

    // Stops at the next unit.
    fn refuse(&mut self, fault: RewriteFault) -> Stopped
        ensures value { result ≡ stopped_at self.old.units fault }
        ensures after { self.new ≡ record self.old { stopped = Some (stopped_at self.old.units fault) } }
    {
        let unit = self.units;
        match fault {
            RewriteFault::Outside(why) => self.stop(Stopped::Outside { unit, why }),
            RewriteFault::Stop(case, mb) => self.stop(Stopped::Stop {
                case,
                place: Place { unit, mb },
            }),
            RewriteFault::Memory => self.stop(Stopped::Memory),
        }
    }

    // Stops for good.
    fn stop(&mut self, stopped: Stopped) -> Stopped
        ensures value { result ≡ stopped }
        ensures after { self.new ≡ record self.old { stopped = Some stopped } }
    {
        self.stopped = Some(stopped);
        stopped
    }
}

// The event of a unit.
fn event_of(unit: &[u8], form: &UnitForm) -> Event
    ensures { result ≡ record { kind = unit_type unit.now; macroblocks = form.now.macroblocks; bytes_in = length unit.now; bytes_out = length form.now.bytes.items } }
{
    Event {
        kind: unit_type(unit),
        macroblocks: form.macroblocks,
        bytes_in: unit.len() as u64,
        bytes_out: form.bytes.len() as u64,
    }
}
