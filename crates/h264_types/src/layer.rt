// The entropy layers.

/// The entropy coding of a slice's data, as entropy_coding_mode_flag of its picture parameter set says (7.4.2.2).
#[derive(Clone, Copy, Debug, PartialEq, Eq)]
pub enum Layer {
    /// entropy_coding_mode_flag 0: Exp-Golomb codes and context-adaptive variable-length codes (9.1, 9.2).
    Cavlc,
    /// entropy_coding_mode_flag 1: context-adaptive binary arithmetic coding (9.3).
    Cabac,
}
