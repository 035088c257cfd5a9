ghost use Rattle.std.specs.Prelude.{◌≡◌, ◌≤◌, ◌++◌, ℕ, drop, take, vec_len, OnErr, OnOk};
ghost use Rattle.std.specs.List.{position};
ghost use Rattle.std.specs.Option.{is_some};
ghost use Rattle.sel_region.specs.Cutting.{cut_all, cut_each};

use crate::region::Region;
use lists::NoMemory;

/// Leaves of each piece what is left of it without the region, in the order of the pieces.
///
/// The pieces before the first that meets the region stay where they are, and those from there on
/// are made anew in `spare`, whose items don't matter, and put back. This takes memory for those
/// alone, in both lists. Where there is none, the pieces are unchanged.
pub fn cut_each<R: Region>(
    pieces: &mut Vec<R>,
    region: &R,
    spare: &mut Vec<R>,
) -> Result<(), NoMemory>
    ensures ok { OnOk result (pieces.new.items ≡ cut_each R.minus pieces.old.items region.now) }
    ensures err { OnErr result (pieces.new.items ≡ pieces.old.items) }
{
    match first_met(pieces, region) {
        Some(first) => cut_from(pieces, first, region, spare),
        None => Ok(()),
    }
}

/// Leaves of the pieces what is left of them without the regions, each region taken out of all
/// pieces before the next.
///
/// This takes time in proportion to the sum, over the regions, of the pieces that each finds.
/// `spare` serves as in `cut_each`. Where there is no memory, some first regions are taken out, and
/// the others aren't.
pub fn cut_all<R: Region>(
    pieces: &mut Vec<R>,
    regions: &[R],
    spare: &mut Vec<R>,
) -> Result<(), NoMemory>
    ensures ok { OnOk result (pieces.new.items ≡ cut_all R.minus pieces.old.items regions.now) }
    ensures err { OnErr result ((count : ℕ)
        × (pieces.new.items ≡ cut_all R.minus pieces.old.items (take count regions.now))) }
{
    for region in regions {
        cut_each(pieces, region, spare)?;
    }
    Ok(())
}

// The index of the first piece that has a point in common with the region.
fn first_met<R: Region>(pieces: &[R], region: &R) -> Option<usize>
    ensures { result ≡ position (λ piece. is_some (R.meet piece region.now)) pieces.now }
{
    pieces.iter().position(|piece| piece.meets(region))
}

// Cuts the pieces from an index on.
fn cut_from<R: Region>(
    pieces: &mut Vec<R>,
    first: usize,
    region: &R,
    spare: &mut Vec<R>,
) -> Result<(), NoMemory>
    requires { first ≤ vec_len pieces.old }
    ensures ok { OnOk result (pieces.new.items ≡ take first pieces.old.items
        ++ cut_each R.minus (drop first pieces.old.items) region.now) }
    ensures err { OnErr result (pieces.new.items ≡ pieces.old.items) }
{
    spare.clear();
    append_cut(&pieces[first..], region, spare)?;
    replace_from(pieces, first, spare)
}

// Appends what is left of each piece without the region.
fn append_cut<R: Region>(pieces: &[R], region: &R, left: &mut Vec<R>) -> Result<(), NoMemory>
    ensures { OnOk result (left.new.items
        ≡ left.old.items ++ cut_each R.minus pieces.now region.now) }
{
    for piece in pieces {
        piece.minus(region, left)?;
    }
    Ok(())
}

// Puts other items in the place of those from an index on. There is room for them before any item
// goes, so that the list is unchanged where there is none.
fn replace_from<T: Copy>(list: &mut Vec<T>, first: usize, items: &[T]) -> Result<(), NoMemory>
    requires { first ≤ vec_len list.old }
    ensures ok { OnOk result (list.new.items ≡ take first list.old.items ++ items.now) }
    ensures err { OnErr result (list.new.items ≡ list.old.items) }
{
    let replaced = list.len() - first;
    list.reserve(items.len().saturating_sub(replaced))?;
    list.truncate(first);
    list.extend_from_slice(items)?;
    Ok(())
}
