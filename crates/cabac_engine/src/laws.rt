//! What the bits that a decoder is started on say of the bins that it gives.

ghost use Rattle.std.specs.Prelude.{◌≡◌, ◌+◌, ◌<◌, ◌≤◌, ◌∷◌, ◌++◌, ℕ, Bool, List, [], Option, Some, length, take};
ghost use Rattle.bit_texts.specs.Bits.{number};
ghost use Rattle.cabac_interval.specs.Interval.{Kind, Bin, end_bin, interval, Begins, IsCode, with_bin};
ghost use Rattle.cabac_engine.specs.Decoding.{Decoding, HasDecoded, Decodes};

/// The bits that a decoder took for bins are as many as their interval has, and as a number they lie in it.
pub fn the_bits_taken_lie_in_the_interval()
    ensures { (all : List Bool) (bins : List Bin) (range offset : ℕ) (left : List Bool)
        → HasDecoded all bins range offset left
        → (all ≡ take (9 + (interval bins).doublings) all ++ left) × Begins all (interval bins) }
{}

/// Bits begin with a number of the interval after a further bin for at most one value of that bin.
pub fn one_next_bit()
    ensures { (bits : List Bool) (bins : List Bin) (kind : Kind) (bit other : Bool)
        → Begins bits (interval (with_bin bins kind bit))
        → Begins bits (interval (with_bin bins kind other))
        → bit ≡ other }
{}

/// Where the bits are a code of a segment, and then others, a decoder starts on them.
pub fn a_code_lets_a_decoder_start()
    ensures { (code rest : List Bool) (bins : List Bin) → IsCode bins code
        → (9 ≤ length (code ++ rest)) × (number (take 9 (code ++ rest)) < 510) }
{}

/// Where the bits are a code of a segment, and then others, a decoder that gave the segment's first bins gives its next one.
pub fn a_code_gives_its_next_bin()
    ensures { (all code rest : List Bool) (earlier later : List Bin) (bin : Bin) (old : Decoding) (answer : Option Bool) (new : Decoding)
        → HasDecoded all earlier old.range old.offset old.left
        → IsCode (earlier ++ bin ∷ later) code → all ≡ code ++ rest
        → Decodes bin.kind old answer new
        → (answer ≡ Some bin.bit) × HasDecoded all (earlier ++ bin ∷ []) new.range new.offset new.left }
{}

/// Once an end bin of 1 was given, the bits that were taken are a code of the bins, and the others are left.
pub fn an_ended_segment_took_its_code()
    ensures { (all : List Bool) (earlier : List Bin) (range offset : ℕ) (left : List Bool)
        → HasDecoded all (earlier ++ end_bin ∷ []) range offset left
        → (code : List Bool) × IsCode (earlier ++ end_bin ∷ []) code × (all ≡ code ++ left) }
{}
