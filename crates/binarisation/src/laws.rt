//! What the layers above rest on, whichever string of bins an element has.

ghost use Rattle.std.specs.Prelude.{◌≡◌, ◌≢◌, ◌≤◌, ◌≤ℤ◌, ◌++◌, ℕ, ℤ, pos, negsuc, unsigned_abs, Bool, List, Option, Some, None};
ghost use Rattle.cabac_engine.specs.Bins.{Slot, Promises};
ghost use Rattle.binarisation.specs.BinString.{BinString, Spells, Reads, Writes, IsPrefixFree, HasOneString, WasGiven, WasRefused, WasPut};
ghost use Rattle.binarisation.specs.MacroblockType.{type_i, type_p, type_b, sub_p, sub_b};
ghost use Rattle.binarisation.specs.Elements.{skip_p, skip_b, field, t8, end_of_slice, mode_flag, mode, chroma_mode, ref_idx, qp_delta, mvd, pattern_luma, pattern_chroma};

use cabac_engine::{BinSink, BinSource};

/// No bins are those of two values of an element, and none begin the bins of another value.
pub fn no_bins_begin_others()
    ensures numbers { (string : BinString ℕ) → IsPrefixFree string }
    ensures signed { (string : BinString ℤ) → IsPrefixFree string }
    ensures flags { (string : BinString Bool) → IsPrefixFree string }
{}

/// Each value of an element has one string of bins at most, so that a writer's contract says which bins it puts.
pub fn each_value_has_one_string()
    ensures skip_p { (inc : ℕ) → HasOneString (skip_p inc) }
    ensures skip_b { (inc : ℕ) → HasOneString (skip_b inc) }
    ensures field { (inc : ℕ) → HasOneString (field inc) }
    ensures t8 { (inc : ℕ) → HasOneString (t8 inc) }
    ensures end_of_slice { HasOneString end_of_slice }
    ensures type_i { (inc : ℕ) → HasOneString (type_i inc) }
    ensures type_p { HasOneString type_p }
    ensures type_b { (inc : ℕ) → HasOneString (type_b inc) }
    ensures sub_p { HasOneString sub_p }
    ensures sub_b { HasOneString sub_b }
    ensures mode_flag { HasOneString mode_flag }
    ensures mode { HasOneString mode }
    ensures chroma_mode { (inc : ℕ) → HasOneString (chroma_mode inc) }
    ensures ref_idx { (inc : ℕ) → HasOneString (ref_idx inc) }
    ensures qp_delta { (inc : ℕ) → HasOneString (qp_delta inc) }
    ensures mvd_x { (inc : ℕ) → HasOneString (mvd 40 inc) }
    ensures mvd_y { (inc : ℕ) → HasOneString (mvd 47 inc) }
    ensures pattern_luma { (inc : ℕ) → HasOneString (pattern_luma inc) }
    ensures pattern_chroma { (first second : ℕ) → HasOneString (pattern_chroma first second) }
{}

/// Each value in range has bins.
pub fn each_value_in_range_has_bins()
    ensures type_i { (inc number : ℕ) → number ≤ 25 → (bins : List (Slot × Bool)) × Spells (type_i inc) bins number }
    ensures type_p { (number : ℕ) → number ≤ 30 → number ≢ 4 → (bins : List (Slot × Bool)) × Spells type_p bins number }
    ensures type_b { (inc number : ℕ) → number ≤ 48 → (bins : List (Slot × Bool)) × Spells (type_b inc) bins number }
    ensures sub_p { (number : ℕ) → number ≤ 3 → (bins : List (Slot × Bool)) × Spells sub_p bins number }
    ensures sub_b { (number : ℕ) → number ≤ 12 → (bins : List (Slot × Bool)) × Spells sub_b bins number }
    ensures mode { (value : ℕ) → value ≤ 7 → (bins : List (Slot × Bool)) × Spells mode bins value }
    ensures chroma_mode { (inc value : ℕ) → value ≤ 3 → (bins : List (Slot × Bool)) × Spells (chroma_mode inc) bins value }
    ensures ref_idx { (inc value : ℕ) → value ≤ 31 → (bins : List (Slot × Bool)) × Spells (ref_idx inc) bins value }
    ensures qp_delta { (inc : ℕ) (value : ℤ) → negsuc 25 ≤ℤ value → value ≤ℤ pos 25 → (bins : List (Slot × Bool)) × Spells (qp_delta inc) bins value }
    ensures mvd_x { (inc : ℕ) (value : ℤ) → unsigned_abs value ≤ 32767 → (bins : List (Slot × Bool)) × Spells (mvd 40 inc) bins value }
    ensures mvd_y { (inc : ℕ) (value : ℤ) → unsigned_abs value ≤ 32767 → (bins : List (Slot × Bool)) × Spells (mvd 47 inc) bins value }
    ensures pattern_chroma { (first second value : ℕ) → value ≤ 2 → (bins : List (Slot × Bool)) × Spells (pattern_chroma first second) bins value }
{}

/// The bins of a number that was read were given by the source, one after another.
pub fn what_is_read_was_given<S: BinSource>()
    ensures numbers { (string : BinString ℕ) (value : ℕ) (s t : S) → Reads S.step string (Some value) s t → WasGiven S.step string value s t }
    ensures signed { (string : BinString ℤ) (value : ℤ) (s t : S) → Reads S.step string (Some value) s t → WasGiven S.step string value s t }
{}

/// Nothing is read only where the source gave bins of no value in range, or didn't have the next one.
pub fn what_is_not_read_was_refused<S: BinSource>()
    ensures numbers { (string : BinString ℕ) (s t : S) → Reads S.step string None s t → WasRefused S.step string s t }
    ensures signed { (string : BinString ℤ) (s t : S) → Reads S.step string None s t → WasRefused S.step string s t }
{}

/// Where the bins of a value are ahead, it is read, and what follows them is ahead.
pub fn what_is_ahead_is_read<S: BinSource>()
    ensures numbers { (string : BinString ℕ) (bins others : List (Slot × Bool)) (value : ℕ) (result : Option ℕ) (s t : S) → Spells string bins value → Promises S.step s (bins ++ others) → Reads S.step string result s t → (result ≡ Some value) × Promises S.step t others }
    ensures signed { (string : BinString ℤ) (bins others : List (Slot × Bool)) (value : ℤ) (result : Option ℤ) (s t : S) → Spells string bins value → Promises S.step s (bins ++ others) → Reads S.step string result s t → (result ≡ Some value) × Promises S.step t others }
{}

/// The bins of a value that was written were put into the sink, one after another.
pub fn what_is_written_was_put<S: BinSink>()
    ensures numbers { (string : BinString ℕ) (value : ℕ) (s t : S) → Writes S.step string value s t → WasPut S.step string value s t }
    ensures signed { (string : BinString ℤ) (value : ℤ) (s t : S) → Writes S.step string value s t → WasPut S.step string value s t }
{}
