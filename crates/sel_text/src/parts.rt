ghost use Rattle.std.specs.Prelude.{◌≡◌, ◌==◌, option_map, position};
ghost use Rattle.sel_text.specs.Parts.{cut, halves_now};

// The word for every value.
pub const ANY: &[u8] = b"any";

/// What stands before the first separator and after it, if there is one. Takes no memory, and time
/// in proportion to the text.
pub fn split_once(text: &[u8], separator: u8) -> Option<(&[u8], &[u8])>
    ensures { option_map halves_now result ≡ cut separator text.now }
{
    let at = place_of(text, separator)?;
    Some((&text[..at], &text[at + 1..]))
}

/// The index of the first such byte, if there is one.
pub fn place_of(text: &[u8], byte: u8) -> Option<usize>
    ensures { result ≡ position (λ one. one == byte) text.now }
{
    text.iter().position(|one| *one == byte)
}
