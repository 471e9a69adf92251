ghost use Rattle.std.specs.Prelude.{◌≡◌, ◌≢◌, ℕ, List, ◌∷◌, Some};
ghost use Rattle.exp_golomb.specs.EmulationPrevention.{HasEscape, escaped, payload_of};
ghost use Rattle.h264_types.specs.Units.{IsClosed, EndsNonzero};

/// No unit ends inside the bytes that are written for a payload, whatever follows them, and they don't end in a zero byte.
pub fn written_units_are_closed()
    ensures closed { (header : ℕ) (payload : List ℕ) → header ≢ 0 → HasEscape payload → IsClosed (header ∷ escaped payload) }
    ensures nonzero { (header : ℕ) (payload : List ℕ) → header ≢ 0 → HasEscape payload → EndsNonzero (header ∷ escaped payload) }
{}

/// A payload that doesn't end in a zero byte is read from the bytes that are written for it.
pub fn payloads_are_read_again()
    ensures has { (payload : List ℕ) → EndsNonzero payload → HasEscape payload }
    ensures again { (payload : List ℕ) → EndsNonzero payload → payload_of (escaped payload) ≡ Some payload }
{}
