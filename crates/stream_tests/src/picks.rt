// What a recoder asks its pick.
use h264_types::{Case, Layer, Place, Stopped};
use init_table::InitTable;
use slice_rewrite::{InitPick, Plan, Tries};
use std::alloc::Global;
use std::cell::Cell;
use std::test::Fail;
use stream_recoder::Recoder;

/// High with the 8x8 transform, one macroblock: slices in P, in I, and twice in P.
const PIECES: [&[u8]; 7] = [
    &[0, 0, 1, 0x67, 0x64, 0, 0x0A, 0xAC, 0xB4, 0xF2],
    &[0, 0, 1, 0x68, 0xCE, 0x38, 0xB0],
    // a skipped macroblock
    &[0, 0, 1, 1, 0x9A, 0x25, 0x40],
    // an IDR slice of Intra_16x16
    &[0, 0, 1, 0x65, 0x88, 0x84, 0x93, 0xC0],
    // I_PCM, whose first three samples are 0, the others 128
    &[0, 0, 1, 1, 0x9A, 0x26, 0x1F, 0, 0, 3, 0],
    &[0x80; 382],
    // an mb_qp_delta that would go with a pattern that stands for no level
    &[0, 0, 1, 1, 0x9A, 0x27, 0xC6, 0x41, 0xAF, 0xFF, 0xFC],
];

/// The stop of the last slice.
const STOP: Stopped = Stopped::Stop {
    case: Case::Empty,
    place: Place { unit: 5, mb: 0 },
};

/// How often a pick was asked, and with which lengths at first.
#[derive(Clone, Copy)]
struct Asked {
    times: usize,
    lengths: [[u64; 3]; 2],
}

/// A pick that tries all numbers and chooses 2, and notes what it is asked.
#[derive(Drop)]
struct Noting<'a> {
    asked: &'a Cell<Asked>,
}

impl InitPick for Noting<'_> {
    ghost use Rattle.std.specs.Prelude.{◌≡◌};
    ghost use Rattle.slice_rewrite.specs.declared.pick.Tries.TheVariants.{All};

    ghost tried = { λ pick. All };

    ghost step = { λ old lengths answer new. (answer ≡ 2) × (new ≡ old) };

    fn tries(&self) -> Tries {
        Tries::All
    }

    fn choose(&mut self, lengths: &[u64; 3]) -> u8 {
        let mut asked = self.asked.get();
        let times = asked.times;
        if let Some(place) = asked.lengths.get_mut(times) {
            *place = *lengths;
        }
        asked.times = times.saturating_add(1);
        self.asked.set(asked);
        2
    }
}

/// A run to CABAC: its range, and what is due.
#[derive(Clone, Copy)]
struct Run {
    range: Option<(u32, u32)>,
    stops: bool,
    asked: Asked,
}

// Whether the pick of a run is asked so. At a second end of the stream it isn't asked again.
fn asks(alloc: Global, run: &Run) -> Result<bool, Fail> {
    let asked = Cell::new(Asked {
        times: 0,
        lengths: [[0; 3]; 2],
    });
    let plan = Plan {
        to: Layer::Cabac,
        range: run.range,
    };
    let pick = Noting { asked: &asked };
    let mut recoder = Recoder::new(alloc, plan, InitTable::of("flat")?, pick)?;
    for piece in &PIECES {
        if recoder.feed(piece).is_err() {
            return Ok(false);
        }
    }
    let due = if run.stops { Err(STOP) } else { Ok(()) };
    let ends = recoder.finish() == due && recoder.finish() == due;
    let asked = asked.get();
    Ok(ends && asked.times == run.asked.times && asked.lengths == run.asked.lengths)
}

// The lengths are those of the slice's units under 0, 1 and 2 as cabac_init_idc, each with its header byte and its emulation
// prevention byte; in a partial run the slices name the set of number 255.
#[test]
fn a_pick_is_asked_about_slices_that_are_written(rt: HostRuntime) -> Result<(), Fail> {
    let whole = Run {
        range: None,
        stops: true,
        asked: Asked {
            times: 2,
            lengths: [[5, 6, 6], [392, 393, 393]],
        },
    };
    let runs = [
        whole,
        Run {
            range: Some((0, 0)),
            stops: false,
            asked: Asked {
                times: 1,
                lengths: [[7, 8, 8], [0; 3]],
            },
        },
        Run {
            range: Some((1, 1)),
            asked: Asked {
                times: 1,
                lengths: [[394, 395, 395], [0; 3]],
            },
            ..whole
        },
    ];
    for run in &runs {
        let range = run.range;
        assert!(rt; asks(rt.alloc(), run)?, "{range:?}");
    }
    Ok(())
}
