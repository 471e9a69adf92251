ghost use Rattle.std.specs.Prelude.{◌≡◌, ◌↔◌, ℕ, Bool, List, ◌++◌, Some};
ghost use Rattle.bit_texts.specs.Texts.{IsPrefixFree};
ghost use Rattle.exp_golomb.specs.Code.{Kind, IsIn, code};
ghost use Rattle.exp_golomb.specs.EmulationPrevention.{IsEscape, payload_of};
ghost use Rattle.exp_golomb.specs.Syntax.{Syntax, Outcome, Spells};

/// No code of a kind begins another one of that kind.
pub fn no_code_begins_another()
    ensures { (kind : Kind) → IsPrefixFree (IsIn kind) (code kind) }
{}

/// No bits spell two outcomes of a syntax.
pub fn bits_spell_one_outcome<E, A>()
    ensures { (syntax : Syntax E A) (bits : List Bool) (first second : Outcome E A) → Spells syntax bits first → Spells syntax bits second → first ≡ second }
{}

/// Escaped bytes are those of one payload.
pub fn escaped_bytes_have_one_payload()
    ensures { (bytes first second : List ℕ) → IsEscape first bytes → IsEscape second bytes → first ≡ second }
{}

/// Bytes in which `00 00` is followed by a byte above 3, or by 03 that is followed by 00 to 03 or by the end,
/// and whose last byte isn't 0, are the escaped form of a payload, and other bytes are that of none.
pub fn payload_is_that_of_its_escape()
    ensures { (bytes payload : List ℕ) → (payload_of bytes ≡ Some payload) ↔ IsEscape payload bytes }
{}
