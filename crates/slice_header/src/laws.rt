//! What the layers above rest on: the text of a header is its own, and stays a text under another layer and number.
ghost use Rattle.std.specs.Prelude.{◌≡◌, ◌≤◌, ◌<◌, ℕ, List, Bool, ◌++◌, slice_index};
ghost use Rattle.h264_types.specs.declared.layer.Layer.{Layer};
ghost use Rattle.h264_types.specs.SliceShape.{IsSliceShape, without_column};
ghost use Rattle.param_sets.specs.Sets.{SetMaps};
ghost use Rattle.param_sets.specs.SpsCodes.{IsSps};
ghost use Rattle.slice_header.specs.HeaderCodes.{HeaderFits, HeaderText, IsAllowed, IsRefusedHeader, Names, active_in, header_in, header_text, unconstrained};
ghost use Rattle.header_parts.specs.Refusal.{Refusal};
ghost use Rattle.slice_header.specs.Shape.{shape_of};
ghost use Rattle.header_parts.specs.ActiveSets.{Active};
ghost use Rattle.header_parts.specs.declared.header.Header.{Header};

/// No bits begin with the texts of two headers, whichever sets these name.
pub fn one_header_per_text()
    ensures { (sets : SetMaps) (nal : ℕ) (bits rest after : List Bool) (first second : Header) → HeaderText sets nal first bits rest → HeaderText sets nal second bits after → (first ≡ second) × (rest ≡ after) }
{}

/// Elements that are refused are no header.
pub fn refused_header_is_none()
    ensures { (sets : SetMaps) (nal : ℕ) (bits rest : List Bool) (cause : Refusal) (h : Header) → IsRefusedHeader sets nal cause bits → HeaderText sets nal h bits rest → ⊥ }
{}

/// What is written of a header is its text, whatever follows it.
pub fn header_is_read_from_its_text()
    ensures { (sets : SetMaps) (active : Active) (h : Header) (rest : List Bool) → Names sets h.pic_parameter_set_id active → IsAllowed active → HeaderFits active h → HeaderText sets h.nal h (header_text active h ++ rest) rest }
{}

/// The text of a header is the one that is written of it, under the sets that it names.
pub fn header_text_is_the_written_one()
    ensures { (sets : SetMaps) (nal : ℕ) (bits rest : List Bool) (h : Header) → HeaderText sets nal h bits rest → (active : Active) × Names sets h.pic_parameter_set_id active × IsAllowed active × HeaderFits active h × (h.nal ≡ nal) × (bits ≡ header_text active h ++ rest) }
{}

/// A header is in range in another layer and under another number, too.
pub fn header_in_another_layer()
    ensures { (active : Active) (h : Header) (layer : Layer) (number idc : ℕ) → number < 256 → idc < 3 → HeaderFits active h → HeaderFits (active_in layer number active) (header_in layer number idc h) }
{}

/// A header is in range and has the same text without the constraint flags 0 and 2 of its sequence parameter set, too.
pub fn header_without_constraints()
    ensures in_range { (active : Active) (h : Header) → HeaderFits active h → HeaderFits (unconstrained active) h }
    ensures text { (active : Active) (h : Header) → header_text (unconstrained active) h ≡ header_text active h }
{}

/// The shape of a slice stays in another layer, under another number and without the constraint flags, but for the
/// column of the table of initial pairs.
pub fn shape_in_another_layer()
    ensures { (active : Active) (h : Header) (layer : Layer) (number idc : ℕ) → without_column (shape_of (active_in layer number (unconstrained active)) (header_in layer number idc h)) ≡ without_column (shape_of active h) }
{}

/// The shape of a slice is within the limits, and so are its numbers of active references.
pub fn shape_is_in_range()
    ensures limits { (active : Active) (h : Header) → IsSps active.sps → HeaderFits active h → IsSliceShape (shape_of active h) }
    ensures refs { (active : Active) (h : Header) → HeaderFits active h → (slice_index (shape_of active h).refs 0 ≤ 32) × (slice_index (shape_of active h).refs 1 ≤ 32) }
{}
