//! Laws of the byte stream format and of macroblocks: functions that do nothing, whose clauses are the laws.
ghost use Rattle.std.specs.Prelude.{◌≡◌, ◌↔◌, ◌⊎◌, ◌≤◌, ◌/◌, true, false, List, ℕ, [], ◌∷◌, ◌++◌, length, Option, Some, None, pos};
ghost use Rattle.h264_types.specs.declared.fault.Why.{Why};
ghost use Rattle.h264_types.specs.declared.macroblock.Mb.{Mb};
ghost use Rattle.h264_types.specs.declared.slice_shape.SliceShape.{SliceShape};
ghost use Rattle.h264_types.specs.LastRows.{LastRows, StandsAt, IsHeld};
ghost use Rattle.h264_types.specs.Qp.{qp_of};
ghost use Rattle.h264_types.specs.declared.fault.Why.TheVariants.{NoStart, Unit as BadUnit};
ghost use Rattle.h264_types.specs.Slice.{earlier, left_number, above_number};
ghost use Rattle.h264_types.specs.Units.{Splits, Stays, seen, seen_whole, no_more, faulty};

/// A whole input splits into units in one way, and each one does: what is seen of it.
pub fn input_splits_once()
    ensures { (b : List ℕ) (us : List (List ℕ)) (fault : Option Why) →
        Splits b us fault ↔ (seen_whole b ≡ record { units = us; fault = fault }) }
{}

/// The units and the fault that some bytes show stay whatever follows these bytes.
pub fn seen_stays()
    ensures { (b c : List ℕ) → Stays (seen b) (seen (b ++ c)) }
{}

/// There are no more units than bytes.
pub fn units_are_few()
    ensures { (b : List ℕ) → length (seen b).units ≤ length b }
{}

/// A few inputs, and what is seen of them as a whole.
pub fn short_inputs()
    // a delimiter
    ensures delimiter { seen_whole (0 ∷ 0 ∷ 1 ∷ 9 ∷ 16 ∷ [])
        ≡ record { units = (9 ∷ 16 ∷ []) ∷ []; fault = None } }

    // before the end of the input is known, no unit has ended
    ensures unended { seen (0 ∷ 0 ∷ 1 ∷ 9 ∷ 16 ∷ []) ≡ no_more }
    ensures zeros { seen_whole (0 ∷ 0 ∷ 0 ∷ 0 ∷ []) ≡ no_more }
    ensures no_start { seen_whole (5 ∷ 0 ∷ 0 ∷ 1 ∷ 9 ∷ 16 ∷ []) ≡ faulty NoStart }
    ensures top_bit { seen_whole (0 ∷ 0 ∷ 1 ∷ 134 ∷ 128 ∷ []) ≡ faulty BadUnit }
    ensures two_starts { seen_whole (0 ∷ 0 ∷ 1 ∷ 0 ∷ 0 ∷ 1 ∷ 9 ∷ 16 ∷ []) ≡ faulty BadUnit }

    // a byte behind three zero bytes
    ensures stray { seen_whole (0 ∷ 0 ∷ 1 ∷ 9 ∷ 16 ∷ 0 ∷ 0 ∷ 0 ∷ 2 ∷ [])
        ≡ record { units = (9 ∷ 16 ∷ []) ∷ []; fault = Some NoStart } }
{}

/// After SliceQPY 40, an mb_qp_delta of 25 gives 13: the quantiser goes round at 52.
pub fn quantiser_goes_round()
    ensures { (mb : Mb) → mb.qp_delta ≡ pos 25 → qp_of 40 (mb ∷ []) 0 ≡ pos 13 }
{}

/// The last two rows have what stands before, to the left of and above a macroblock; in MBAFF both macroblocks of the
/// pairs to the left of and above its pair.
pub fn earlier_macroblocks_are_held<K>()
    ensures rows { (of : Mb → K) (shape : SliceShape) (rows : LastRows K) (mbs : List Mb) (at number : ℕ) → shape.mbaff ≡ false → StandsAt of shape rows mbs at
        → (earlier at 1 ≡ Some number) ⊎ (left_number shape.width shape.first at ≡ Some number) ⊎ (above_number shape.width at ≡ Some number)
        → IsHeld rows number }
    ensures pairs { (of : Mb → K) (shape : SliceShape) (rows : LastRows K) (mbs : List Mb) (at number : ℕ) → shape.mbaff ≡ true → StandsAt of shape rows mbs at
        → (left_number shape.width (shape.first / 2) (at / 2) ≡ Some (number / 2)) ⊎ (above_number shape.width (at / 2) ≡ Some (number / 2))
        → IsHeld rows number }
{}
