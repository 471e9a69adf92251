ghost use Rattle.std.specs.Prelude.{◌≡◌, [], ◌∷◌, not, position, MatchOption};
ghost use Rattle.init_table.specs.TableText.{is_blank, words};

/// Space, tab, line feed or carriage return.
fn stands_between_words(byte: u8) -> bool
    ensures { result ≡ is_blank byte }
{
    byte == b' ' || byte == b'\t' || byte == b'\n' || byte == b'\r'
}

/// The place of the first blank of a text.
fn first_blank(text: &[u8]) -> Option<usize>
    ensures { result ≡ position is_blank text.now }
{
    text.iter().position(|byte| stands_between_words(*byte))
}

/// The place of the first byte of a text that is no blank.
fn first_other(text: &[u8]) -> Option<usize>
    ensures { result ≡ position (λ byte. not (is_blank byte)) text.now }
{
    text.iter().position(|byte| !stands_between_words(*byte))
}

/// The first word of a text, and the text behind it. None where there is no word.
pub(crate) fn first_word(text: &[u8]) -> Option<(&[u8], &[u8])>
    ensures { MatchOption result (words text.now ≡ []) (λ parts. words text.now ≡ parts.0.now ∷ words parts.1.now) }
{
    let start = first_other(text)?;
    let text = &text[start..];
    match first_blank(text) {
        Some(end) => Some(text.split_at(end)),
        None => Some((text, &[])),
    }
}
