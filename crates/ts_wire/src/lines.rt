ghost use Rattle.std.specs.Prelude.{◌≡◌, ◌≢◌, ◌∷◌, [], length, MatchOption};
ghost use Rattle.ts_wire.specs.Proposal.{texts_of};

use sel_text::split_once;

// The two lines of a text without their LF, if it has two.
pub fn two_lines(text: &[u8]) -> Option<(&[u8], &[u8])>
    ensures { MatchOption result (length (texts_of text.now) ≢ 2)
        (λ lines. texts_of text.now ≡ lines.0.now ∷ lines.1.now ∷ []) }
{
    let (first, rest) = split_once(text, b'\n')?;
    Some((first, one_line(rest)?))
}

// The one line of a text without its LF, if it has one.
fn one_line(text: &[u8]) -> Option<&[u8]>
    ensures { MatchOption result (length (texts_of text.now) ≢ 1)
        (λ line. texts_of text.now ≡ line.now ∷ []) }
{
    if text.is_empty() {
        return None;
    }
    match split_once(text, b'\n') {
        Some((line, [])) => Some(line),
        Some(_) => None,
        None => Some(text),
    }
}
