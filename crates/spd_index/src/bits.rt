ghost use Rattle.std.specs.Prelude.{◌≡◌, ◌+◌, ◌/◌, ◌<◌, length};
ghost use Rattle.spd_index.specs.inner.Bits.{HasBit, KeepsBits};

// How many words have a bit for each of so many lines.
#[inline]
pub fn word_count(lines: u32) -> usize
    ensures { result ≡ (lines + 63) / 64 }
{
    lines.div_ceil(64) as usize
}

// Sets a bit of a word, counted from the lowest.
#[inline]
pub fn set_bit(words: &mut [u64], at: usize, bit: usize)
    requires at { at < length words.old }
    requires bit { bit < 64 }
    ensures set { HasBit words.new at bit }
    ensures kept { KeepsBits words.old words.new }
{
    words[at] |= 1 << bit;
}
