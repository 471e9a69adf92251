//! What the layers above rest on: the text of a set is its own, and stays a text under another layer and number.
ghost use Rattle.std.specs.Prelude.{◌≡◌, ◌<◌, ◌%◌, ℕ, Bool, List, length, if◌then◌else◌, ◌==◌, Some};
ghost use Rattle.h264_types.specs.declared.layer.Layer.{Layer};
ghost use Rattle.param_sets.specs.PictureParameterSet.{IsRefusedPps, PpsText};
ghost use Rattle.param_sets.specs.PpsCodes.{IsPps, pps_in, pps_text};
ghost use Rattle.param_sets.specs.Refusal.{Refusal};
ghost use Rattle.param_sets.specs.SequenceParameterSet.{IsRefusedSps, SpsText};
ghost use Rattle.param_sets.specs.Sets.{SetMaps, find_pps, find_sps, pps_put, sps_put};
ghost use Rattle.param_sets.specs.SpsCodes.{IsSps, sps_text, without_constraints};
ghost use Rattle.param_sets.specs.TrailingBits.{IsPayload};
ghost use Rattle.param_sets.specs.declared.pps.Pps.{Pps};
ghost use Rattle.param_sets.specs.declared.sps.Sps.{Sps};

/// No payload is that of two sequence parameter sets.
pub fn one_sps_per_payload()
    ensures { (bits : List Bool) (first second : Sps) → SpsText first bits → SpsText second bits → first ≡ second }
{}

/// No payload is that of two picture parameter sets.
pub fn one_pps_per_payload()
    ensures { (bits : List Bool) (first second : Pps) → PpsText first bits → PpsText second bits → first ≡ second }
{}

/// Fields that are refused are no sequence parameter set.
pub fn refused_sps_is_none()
    ensures { (bits : List Bool) (cause : Refusal) (sps : Sps) → IsRefusedSps cause bits → SpsText sps bits → ⊥ }
{}

/// Fields that are refused are no picture parameter set.
pub fn refused_pps_is_none()
    ensures { (bits : List Bool) (cause : Refusal) (pps : Pps) → IsRefusedPps cause bits → PpsText pps bits → ⊥ }
{}

/// What is written of a sequence parameter set is its text.
pub fn sps_is_read_from_its_text()
    ensures { (sps : Sps) → IsSps sps → SpsText sps (sps_text sps) }
{}

/// What is written of a picture parameter set is its text.
pub fn pps_is_read_from_its_text()
    ensures { (pps : Pps) → IsPps pps → PpsText pps (pps_text pps) }
{}

/// Whole bytes that are the text of a sequence parameter set are those that are written of it.
pub fn sps_text_is_the_written_one()
    ensures { (sps : Sps) (bits : List Bool) → SpsText sps bits → IsSps sps × (length bits % 8 ≡ 0 → bits ≡ sps_text sps) }
{}

/// Whole bytes that are the text of a picture parameter set are those that are written of it.
pub fn pps_text_is_the_written_one()
    ensures { (pps : Pps) (bits : List Bool) → PpsText pps bits → IsPps pps × (length bits % 8 ≡ 0 → bits ≡ pps_text pps) }
{}

/// A sequence parameter set is one without its constraint flags 0 and 2, too.
pub fn sps_without_constraints()
    ensures { (sps : Sps) → IsSps sps → IsSps (without_constraints sps) }
{}

/// A picture parameter set is one in another layer and under another number, too.
pub fn pps_in_another_layer()
    ensures { (pps : Pps) (layer : Layer) (number : ℕ) → number < 256 → IsPps pps → IsPps (pps_in layer number pps) }
{}

/// The text of a sequence parameter set is whole bytes, of which the last is not 0.
pub fn sps_text_ends_in_one()
    ensures { (sps : Sps) → IsPayload (sps_text sps) }
{}

/// The text of a picture parameter set is whole bytes, of which the last is not 0.
pub fn pps_text_ends_in_one()
    ensures { (pps : Pps) → IsPayload (pps_text pps) }
{}

/// The set that is found is the last one of its number that was put.
pub fn last_sps_is_found()
    ensures { (number : ℕ) (sps : Sps) (sets : SetMaps) → find_sps number (sps_put sps sets) ≡ (if number == sps.seq_parameter_set_id then Some sps else find_sps number sets) }
{}

/// The set that is found is the last one of its number that was put.
pub fn last_pps_is_found()
    ensures { (number : ℕ) (pps : Pps) (sets : SetMaps) → find_pps number (pps_put pps sets) ≡ (if number == pps.pic_parameter_set_id then Some pps else find_pps number sets) }
{}
