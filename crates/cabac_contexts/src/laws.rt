//! What the steps of a coder with its contexts say of the bits of a segment, and what increments rest on.

ghost use Rattle.std.specs.List.{AllByRecursion};
ghost use Rattle.std.specs.Prelude.{◌≡◌, ◌<◌, ◌++◌, ◌∷◌, [], ℕ, Bool, true, false, List, Some};
ghost use Rattle.bit_texts.specs.Bits.{EndsInOne};
ghost use Rattle.cabac_engine.specs.Bins.{Slot, at_end, is_last, Gives, Promises, Puts};
ghost use Rattle.h264_types.specs.declared.macroblock.Mb.{Mb};
ghost use Rattle.h264_types.specs.declared.slice_shape.SliceShape.{SliceShape};
ghost use Rattle.mb_neighbours.specs.Place.{IsPlace, number_of};
ghost use Rattle.mb_neighbours.specs.declared.place.At.{At};
ghost use Rattle.cabac_contexts.specs.declared.term.Term.{Term};
ghost use Rattle.cabac_contexts.specs.Initial.{starting_states};
ghost use Rattle.cabac_contexts.specs.States.{state_of};
ghost use Rattle.init_table.specs.declared.table.InitTable.{InitTable};
ghost use Rattle.cabac_contexts.specs.Terms.{term_of, flag_a, flag_b, magnitude_of, magnitudes};
ghost use Rattle.cabac_contexts.specs.Coders.{InCoding, OutCoding, SegmentBits, HasGiven, GivesBin, HasTaken, TakesBin};

/// The bins of a run of steps are those that a decoder gave.
pub fn steps_give_their_bins()
    ensures { (all : List Bool) (start : ℕ → ℕ × Bool) (earlier bins : List (Slot × Bool)) (old new : InCoding)
        → HasGiven all start earlier old → Gives GivesBin old bins new → HasGiven all start (earlier ++ bins) new }
{}

/// A run of steps loses no bit of the source.
pub fn steps_keep_the_bits()
    ensures { (bins : List (Slot × Bool)) (old new : InCoding) → Gives GivesBin old bins new
        → new.decoder.taken ++ new.decoder.left ≡ old.decoder.taken ++ old.decoder.left }
{}

/// Where the bits are a code of a segment, and then others, a decoder that gave its first bins has the others ahead.
pub fn a_code_promises_its_bins()
    ensures { (all code rest : List Bool) (start : ℕ → ℕ × Bool) (earlier bins : List (Slot × Bool)) (d : InCoding)
        → HasGiven all start earlier d → SegmentBits start (earlier ++ bins) code → all ≡ code ++ rest → Promises GivesBin d bins }
{}

/// Once an end bin of 1 was given, the bits that were taken are a code of the bins.
pub fn an_ended_segment_took_its_code()
    ensures { (all : List Bool) (start : ℕ → ℕ × Bool) (earlier : List (Slot × Bool)) (d : InCoding)
        → HasGiven all start (earlier ++ (at_end, true) ∷ []) d
        → (code : List Bool) × SegmentBits start (earlier ++ (at_end, true) ∷ []) code × (all ≡ code ++ d.decoder.left) }
{}

/// Bins that go on, and then an end bin of 1, have a code whose last bit is 1, where the state of each context is at most 63.
pub fn each_segment_has_a_code()
    ensures { (start : ℕ → ℕ × Bool) (bins : List (Slot × Bool)) → ((ctx : ℕ) → (start ctx).0 < 64) → AllByRecursion (λ bin. is_last bin.0 (Some bin.1) ≡ false) bins
        → (code : List Bool) × SegmentBits start (bins ++ (at_end, true) ∷ []) code × EndsInOne code }
{}

/// The state of a context is at most 63, at the start of a slice and behind bins.
pub fn states_are_at_most_63()
    ensures first { (init : InitTable) (qp column ctx : ℕ) → (starting_states init qp column ctx).0 < 64 }
    ensures behind { (start : ℕ → ℕ × Bool) (bins : List (Slot × Bool)) → ((ctx : ℕ) → (start ctx).0 < 64) → (ctx : ℕ) → (state_of start bins ctx).0 < 64 }
{}

/// The bins of a run of steps are those that an encoder took.
pub fn steps_take_their_bins()
    ensures { (before : List Bool) (start : ℕ → ℕ × Bool) (earlier bins : List (Slot × Bool)) (old new : OutCoding)
        → HasTaken before start earlier old → Puts TakesBin old bins new → HasTaken before start (earlier ++ bins) new }
{}

/// The state of a context goes on over segments: from that after some bins, it is the one after those and the later bins.
pub fn states_go_on_over_segments()
    ensures { (start : ℕ → ℕ × Bool) (earlier later : List (Slot × Bool)) (ctx : ℕ)
        → state_of (state_of start earlier) later ctx ≡ state_of start (earlier ++ later) ctx }
{}

/// Of the current macroblock, condTermFlagA and condTermFlagB rest on the blocks before the place alone, and for a whole
/// macroblock on nothing: they are those of every macroblock whose blocks before it answer alike. So does absMvdComp.
pub fn the_blocks_before_are_enough()
    ensures a { (missing : Bool) (term : Term) (shape : SliceShape) (done : List Mb) (at : ℕ) (field : Bool) (mb other : Mb) (place : At) → IsPlace place
        → ((block : ℕ) → block < number_of place → term_of term mb block ≡ term_of term other block)
        → flag_a missing term shape done at field mb place ≡ flag_a missing term shape done at field other place }
    ensures b { (missing : Bool) (term : Term) (shape : SliceShape) (done : List Mb) (at : ℕ) (field : Bool) (mb other : Mb) (place : At) → 0 < shape.width → IsPlace place
        → ((block : ℕ) → block < number_of place → term_of term mb block ≡ term_of term other block)
        → flag_b missing term shape done at field mb place ≡ flag_b missing term shape done at field other place }
    ensures magnitudes { (shape : SliceShape) (done : List Mb) (at : ℕ) (field : Bool) (mb other : Mb) (list block axis : ℕ) → 0 < shape.width → block < 16
        → ((n : ℕ) → n < block → magnitude_of list axis field mb n ≡ magnitude_of list axis field other n)
        → magnitudes shape done at field mb list block axis ≡ magnitudes shape done at field other list block axis }
{}
