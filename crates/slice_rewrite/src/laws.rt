//! Laws of slices and whole streams: functions that do nothing, whose clauses are the laws.
ghost use Rattle.std.specs.Prelude.{false, ◌≡◌, ◌<◌, ◌↔◌, List, [], Bool, length, map, ℕ, pos, true, Option, Some, None, option_map, slice_get};
ghost use Rattle.h264_types.specs.declared.fault.Why.{Why};
ghost use Rattle.h264_types.specs.declared.fault.Stopped.{Stopped};
ghost use Rattle.h264_types.specs.declared.macroblock.Mb.{Mb};
ghost use Rattle.init_table.specs.declared.table.InitTable.{InitTable};
ghost use Rattle.cavlc_syntax.specs.SliceText.{HasText};
ghost use Rattle.h264_types.specs.Valid.{IsSlice};
ghost use Rattle.h264_types.specs.declared.slice_shape.SliceShape.{SliceShape};
ghost use Rattle.h264_types.specs.Qp.{qp_of};
ghost use Rattle.pattern_fix.specs.NormalPattern.{IsEmptied, normal};
ghost use Rattle.h264_types.specs.Units.{seen, seen_whole};
ghost use Rattle.slice_header.specs.HeaderCodes.{Names};
ghost use Rattle.slice_header.specs.Shape.{shape_of};
ghost use Rattle.header_parts.specs.ActiveSets.{Active};
ghost use Rattle.header_parts.specs.declared.header.Header.{Header};
ghost use Rattle.slice_rewrite.specs.SliceForms.{IsSliceRead, IsUnderSets};
ghost use Rattle.slice_rewrite.specs.Options.{Options};
ghost use Rattle.h264_types.specs.declared.layer.Layer.{Layer};
ghost use Rattle.param_sets.specs.Sets.{SetMaps};
ghost use Rattle.slice_rewrite.specs.Items.{Slice, Item, IsItem, is_unbuilt};
ghost use Rattle.slice_rewrite.specs.Verdict.{Judges, Recodes, Refuses};
ghost use Rattle.slice_rewrite.specs.View.{Reads, CanBeWritten, SaysTheSame, with_qp};
ghost use Rattle.slice_rewrite.specs.Written.{slice_in, IsOutput};
ghost use Rattle.slice_data.specs.WrittenForm.{written_mb};
ghost use Rattle.slice_rewrite.specs.Stops.{is_emptied, least_stop};
ghost use Rattle.slice_rewrite.specs.declared.pick.Tries.TheVariants.{One};

/// A unit that is refused has no item, and is refused for one reason.
pub fn one_reason()
    ensures item { (to : Layer) (init : InitTable) (sets : SetMaps) (unit : List ℕ) (item : Item) (why : Why) → IsItem to init sets unit item → Refuses to init sets unit why → ⊥ }
    ensures reason { (to : Layer) (init : InitTable) (sets : SetMaps) (unit : List ℕ) (first second : Why) → Refuses to init sets unit first → Refuses to init sets unit second → first ≡ second }
{}

/// What is seen has one verdict at most, with the same items before it.
pub fn one_verdict()
    ensures { (o : Options) (before : List Item) (units : List (List ℕ)) (fault : Option Why) (first second : List Item) (v w : Option Stopped) →
        Judges o before units fault first v → Judges o before units fault second w → (first ≡ second) × (v ≡ w) }
{}

/// All that is seen has a verdict or is read to its end.
pub fn all_is_judged()
    ensures whole { (o : Options) (b : List ℕ) → (items : List Item) × (verdict : Option Stopped) × Recodes o (seen_whole b) items verdict }
    ensures so_far { (o : Options) (b : List ℕ) → (items : List Item) × (verdict : Option Stopped) × Recodes o (seen b) items verdict }
{}

/// A stream without a verdict is read as its items, each of which can be written behind those before it. Such a stream has no
/// verdict.
pub fn streams_that_are_read()
    ensures read { (o : Options) (b : List ℕ) (items : List Item) → Recodes o (seen_whole b) items None → Reads o.to o.init b items }
    ensures recoded { (o : Options) (b : List ℕ) (items : List Item) → Reads o.to o.init b items → CanBeWritten o [] items → Recodes o (seen_whole b) items None }
    ensures stopless { (o : Options) (b : List ℕ) (items : List Item) → Recodes o (seen_whole b) items None → CanBeWritten o [] items }
{}

/// A stream is read in one way at most, whichever layers it is read for.
pub fn one_reading()
    ensures { (to other : Layer) (init : InitTable) (b : List ℕ) (first second : List Item) → Reads to init b first → Reads other init b second → first ≡ second }
{}

/// What is written for a stream without a verdict has a reading, with each slice of the range in the wanted layer, and says the
/// same.
pub fn written_bytes_say_the_same()
    ensures { (o : Options) (b : List ℕ) (items : List Item) (bytes : List ℕ) → Recodes o (seen_whole b) items None → IsOutput o (seen_whole b).units items bytes → SaysTheSame o items bytes }
{}

/// In runs that aren't partial, what is written for a recoded stream may be written for the stream itself: by way of the other
/// layer and back, and recoded twice, a stream is as it is recoded once.
pub fn recoded_again()
    ensures { (o again : Options) (b : List ℕ) (items : List Item) (bytes : List ℕ) (back : List Item) (twice : List ℕ) → o.range ≡ None → again.range ≡ None → again.init ≡ o.init →
        Recodes o (seen_whole b) items None → IsOutput o (seen_whole b).units items bytes →
        Recodes again (seen_whole bytes) back None → IsOutput again (seen_whole bytes).units back twice → IsOutput again (seen_whole b).units items twice }
{}

/// The quantiser that two streams have in common at a macroblock is the slice's QP there.
pub fn quantisers_in_common()
    ensures { (qp : ℕ) (mbs : List Mb) (k : ℕ) → k < length mbs → option_map (λ entry. entry.0) (slice_get (with_qp (pos qp) (map normal mbs)) k) ≡ Some (qp_of qp mbs k) }
{}

/// The form of a slice in a layer is that of its form in any layer, and so is each macroblock's: recoded to the other layer and
/// back, a slice is as it is recoded once, and in its written form it stays as it is.
pub fn written_forms_stay()
    ensures slice { (to other : Layer) (idc before : ℕ) (s : Slice) → slice_in to idc (slice_in other before s) ≡ slice_in to idc s }
    ensures macroblock { (to other : Layer) (mb : Mb) → written_mb to (written_mb other mb) ≡ written_mb to mb }
{}

/// The test of a macroblock that would lose its mb_qp_delta.
pub fn a_test_of_emptied_macroblocks()
    ensures { (mb : Mb) → (is_emptied mb ≡ true) ↔ IsEmptied mb }
{}

/// A list of macroblocks that has a text in CAVLC stops at a macroblock that would lose its mb_qp_delta alone, in either layer:
/// what was read under the bound of level_prefix is written under it.
pub fn levels_that_are_read_are_written()
    ensures { (shape : SliceShape) (mbs : List Mb) → HasText shape mbs → least_stop Layer.Cavlc shape mbs ≡ least_stop Layer.Cabac shape mbs }
{}

/// A slice that was read may be written in each layer that it is built for, and so may one with the same header and other
/// macroblocks of a slice of its shape.
pub fn slices_that_are_read_may_be_written()
    ensures same { (to : Layer) (init : InitTable) (sets : SetMaps) (header : ℕ) (bits : List Bool) (h : Header) (mbs : List Mb) → IsSliceRead init sets header bits h mbs →
        ((active : Active) → Names sets h.pic_parameter_set_id active → is_unbuilt to active h ≡ false) → (active : Active) × IsUnderSets to sets active h mbs }
    ensures others { (to : Layer) (init : InitTable) (sets : SetMaps) (header : ℕ) (bits : List Bool) (h : Header) (mbs others : List Mb) → IsSliceRead init sets header bits h mbs →
        ((active : Active) → Names sets h.pic_parameter_set_id active → is_unbuilt to active h ≡ false) →
        ((active : Active) → Names sets h.pic_parameter_set_id active → IsSlice (shape_of active h) others) → (active : Active) × IsUnderSets to sets active h others }
{}

/// In a run that tries one number, one output at most is written for units and their items.
pub fn one_output()
    ensures { (o : Options) (idc : ℕ) (units : List (List ℕ)) (items : List Item) (first second : List ℕ) → o.tries ≡ One idc → IsOutput o units items first → IsOutput o units items second → first ≡ second }
{}
