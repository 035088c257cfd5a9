ghost use Rattle.std.specs.Prelude.{◌≡◌, option_map};
ghost use Rattle.sel_text.specs.Number.{number_meaning};
ghost use Rattle.sel_text.specs.inner.Reading.{four_meaning};
ghost use Rattle.sel_text.specs.inner.Reading.{quarters, quarters_now};

use crate::fault::{TextFault, both};
use crate::number::read_byte;
use crate::parts::split_once;

// Four parts of a text, in two pairs.
type Quarters<'a> = ((&'a [u8], &'a [u8]), (&'a [u8], &'a [u8]));

// Reads an IPv4 address: four numbers of at most 255 with dots between them.
#[tactic(auto, using(crate::proofs::Dotted::four_meaning_by_quarters))]
pub fn read_four(text: &[u8]) -> Result<u32, TextFault>
    ensures { result ≡ four_meaning text.now }
{
    let Some(((first, second), (third, fourth))) = quarters(text) else {
        return Err(TextFault::NotInGrammar);
    };
    let high = both(read_octet(first), read_octet(second));
    let low = both(read_octet(third), read_octet(fourth));
    let ((a, b), (c, d)) = both(high, low)?;
    Ok(u32::from_be_bytes([a, b, c, d]))
}

// A text by its first three dots.
fn quarters(text: &[u8]) -> Option<Quarters<'_>>
    ensures { option_map quarters_now result ≡ quarters text.now }
{
    let (first, rest) = split_once(text, b'.')?;
    let (second, rest) = split_once(rest, b'.')?;
    let last_two = split_once(rest, b'.')?;
    Some(((first, second), last_two))
}

fn read_octet(text: &[u8]) -> Result<u8, TextFault>
    ensures { result ≡ number_meaning 255 text.now }
{
    read_byte(text, u8::MAX)
}
