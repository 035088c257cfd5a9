ghost use Rattle.std.specs.Prelude.{◌≡◌, ◌≤◌, IfSome};
ghost use Rattle.audit_frame.specs.Words.{count_in, most_limit};

use sel_text::read_number;

/// The most entries and pieces that a word LIMIT may allow in a direction.
pub const MOST_LIMIT: u32 = 200_000;

/// The number that a word writes: decimal digits without a leading zero, from 1 to `most`. Takes no
/// memory, and time in proportion to the word.
#[tactic(auto, unfolding(crate::specs::Words::count_in))]
pub fn read_count(word: &str, most: u32) -> Option<u32>
    ensures count { result ≡ count_in most word.now }
    ensures some { IfSome result (λ count. 1 ≤ count) }
    ensures few { IfSome result (λ count. count ≤ most) }
{
    match read_number(word.as_bytes(), u128::from(most)) {
        Ok(0) | Err(_) => None,
        Ok(number) => Some(number as u32),
    }
}
