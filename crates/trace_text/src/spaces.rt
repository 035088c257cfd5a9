ghost use Rattle.std.specs.Prelude.{◌≡◌};
ghost use Rattle.trace_text.specs.Words.{without_first_spaces, without_last_spaces};
ghost use Rattle.trace_text.specs.inner.Reading.{word_len};

use sel_text::place_of;

// How many bytes stand before the first space.
pub fn word_len(text: &[u8]) -> usize
    ensures { result ≡ word_len text.now }
{
    place_of(text, b' ').unwrap_or(text.len())
}

// The text without the spaces that it begins with.
pub fn without_first_spaces(text: &[u8]) -> &[u8]
    ensures { result.now ≡ without_first_spaces text.now }
{
    let mut rest = text;
    while let [b' ', more @ ..] = rest {
        rest = more;
    }
    rest
}

// The text without the spaces that it ends with.
pub fn without_last_spaces(text: &[u8]) -> &[u8]
    ensures { result.now ≡ without_last_spaces text.now }
{
    let mut rest = text;
    while let [more @ .., b' '] = rest {
        rest = more;
    }
    rest
}
