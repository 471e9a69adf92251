//! Laws of streams that come in pieces: functions that do nothing, whose clauses are the laws.
ghost use Rattle.std.specs.Prelude.{◌≡◌, ◌++◌, List, ℕ, Option, Some};
ghost use Rattle.h264_types.specs.declared.fault.Stopped.{Stopped};
ghost use Rattle.h264_types.specs.Units.{seen};
ghost use Rattle.slice_rewrite.specs.Options.{Options};
ghost use Rattle.slice_rewrite.specs.Items.{Item};
ghost use Rattle.slice_rewrite.specs.Verdict.{Recodes};
ghost use Rattle.slice_rewrite.specs.Written.{IsOutput};

/// While bytes come in, what is written for the units before the verdict stays, and so does a verdict.
pub fn bytes_come_in()
    ensures output { (o : Options) (b c : List ℕ) (first second : List Item) (v w : Option Stopped) (late : List ℕ) →
        Recodes o (seen b) first v → Recodes o (seen (b ++ c)) second w → IsOutput o (seen (b ++ c)).units second late →
        (early : List ℕ) × (rest : List ℕ) × IsOutput o (seen b).units first early × (late ≡ early ++ rest) }
    ensures verdict { (o : Options) (b c : List ℕ) (items : List Item) (v : Stopped) →
        Recodes o (seen b) items (Some v) → Recodes o (seen (b ++ c)) items (Some v) }
{}
