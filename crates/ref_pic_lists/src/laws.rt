//! What the layers above rest on: the texts of a modification and of a table of weights are their own.
ghost use Rattle.std.specs.Prelude.{◌≡◌, ℕ, List, Bool, Option, ◌++◌};
ghost use Rattle.bit_texts.specs.Texts.{IsPrefixFree};
ghost use Rattle.ref_pic_lists.specs.PredWeightTable.{WeightsFit, WeightsText, weights_text};
ghost use Rattle.ref_pic_lists.specs.RefPicListModification.{ModificationFits, ModificationText, modification_text};
ghost use Rattle.ref_pic_lists.specs.declared.modification.ListModification.{ListModification};
ghost use Rattle.ref_pic_lists.specs.declared.weights.WeightTable.{WeightTable};

/// No bits begin with the texts of two modifications.
pub fn one_modification_per_text()
    ensures { (bits rest after : List Bool) (first second : ListModification) → ModificationText first bits rest → ModificationText second bits after → (first ≡ second) × (rest ≡ after) }
{}

/// What is written of a modification is its text, whatever follows it.
pub fn modification_is_read_from_its_text()
    ensures { (m : ListModification) (rest : List Bool) → ModificationFits m → ModificationText m (modification_text m ++ rest) rest }
{}

/// The text of a modification is the one that is written of it, and it is in range.
pub fn modification_text_is_the_written_one()
    ensures { (bits rest : List Bool) (m : ListModification) → ModificationText m bits rest → ModificationFits m × (bits ≡ modification_text m ++ rest) }
{}

/// No text of a modification begins another one's, and none is that of two.
pub fn no_modification_begins_another()
    ensures { IsPrefixFree ModificationFits modification_text }
{}

/// No bits begin with the texts of two tables of weights for the same numbers of references.
pub fn one_table_per_text()
    ensures { (l0 : ℕ) (l1 : Option ℕ) (bits rest after : List Bool) (first second : WeightTable) → WeightsText l0 l1 first bits rest → WeightsText l0 l1 second bits after → (first ≡ second) × (rest ≡ after) }
{}

/// What is written of a table is its text, whatever follows it.
pub fn table_is_read_from_its_text()
    ensures { (l0 : ℕ) (l1 : Option ℕ) (t : WeightTable) (rest : List Bool) → WeightsFit l0 l1 t → WeightsText l0 l1 t (weights_text t ++ rest) rest }
{}

/// The text of a table is the one that is written of it, and it is in range and has an entry for each reference.
pub fn table_text_is_the_written_one()
    ensures { (l0 : ℕ) (l1 : Option ℕ) (bits rest : List Bool) (t : WeightTable) → WeightsText l0 l1 t bits rest → WeightsFit l0 l1 t × (bits ≡ weights_text t ++ rest) }
{}

/// No text of a table begins that of another one for the same numbers of references, and none is that of two.
pub fn no_table_begins_another()
    ensures { (l0 : ℕ) (l1 : Option ℕ) → IsPrefixFree (WeightsFit l0 l1) weights_text }
{}
