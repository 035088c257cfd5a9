ghost use Rattle.std.specs.Prelude.{◌≡◌, ◌≤◌, ◌++◌, ◌∷◌, [], false, filter, length, map};
ghost use Rattle.std.specs.Prelude.{IfErr, OnOk};
ghost use Rattle.sel_box.specs.SomePoint.{has_real_point};
ghost use Rattle.sel_region.specs.Cutting.{cut_all};
ghost use Rattle.spd_cut.specs.Entries.{piece_of};
ghost use Rattle.spd_cut.specs.Steps.{counts_of, passes};
ghost use Rattle.spd_cut.specs.inner.Cut.{IsLineFault};

use crate::cut::{Room, cut_out};
use crate::{CutFault, Entry, EntryList, NoMemory};
use sel_blocks::Blocks;
use sel_box::{OfFamily, has_real};
use sel_region::Hull;
use std::alloc::Global;
use std::marker::Model;

// The boxes of one family that were cut so far, with two lists that serve each box anew: its
// pieces, and those of the next cut. A contract sees the boxes.
#[derive(Drop)]
pub struct FamilyCutter<R: Hull> {
    earlier: Blocks<R>,
    pieces: Blocks<R>,
    spare: Vec<R>,
}

impl<R: Hull> Model for FamilyCutter<R> {
    ghost use Rattle.std.specs.Prelude.{List};

    ghost Value = { List R };

    ghost view = { λ c. c.earlier };
}

impl<R: OfFamily> FamilyCutter<R> {
    // Nothing is cut yet. Takes no memory.
    pub fn new(alloc: Global) -> Self
        ensures { result ≡ [] }
    {
        FamilyCutter {
            earlier: Blocks::new(alloc),
            pieces: Blocks::new(alloc),
            spare: Vec::new(alloc),
        }
    }

    // Cuts a box by all before it, and puts its entries behind those of the others.
    #[tactic(auto, using(crate::proofs::Loops::few_kept))]
    pub fn add(
        &mut self,
        region: R,
        uncut: &Entry,
        limit: u32,
        entries: &mut EntryList,
    ) -> Result<(), CutFault>
        requires { length entries.old ≤ limit }
        ensures earlier { OnOk result (self.new ≡ self.old ++ region ∷ []) }
        ensures put { OnOk result (entries.new ≡ entries.old
            ++ map (λ r. piece_of uncut.now (R.region r)) (filter (λ r. has_real_point (R.region r))
            (cut_all R.minus (region ∷ []) self.old))) }
        ensures few { OnOk result (length entries.new ≤ limit) }
        ensures within { OnOk result (passes limit
            (counts_of R.minus (length entries.old) (region ∷ []) self.old) ≡ false) }
        ensures fault { IfErr result (IsLineFault (passes limit
            (counts_of R.minus (length entries.old) (region ∷ []) self.old)) uncut.now.link) }
    {
        let room = Room {
            done: entries.len() as u32,
            limit,
            line: uncut.link,
        };
        begin(&mut self.pieces, region)?;
        cut_out(
            &self.earlier,
            &region,
            &mut self.pieces,
            &mut self.spare,
            room,
        )?;
        put_real(&self.pieces, uncut, entries)?;
        self.earlier.push(region)?;
        Ok(())
    }
}

// Makes a box its own only piece.
fn begin<R: Hull>(pieces: &mut Blocks<R>, region: R) -> Result<(), NoMemory>
    ensures { OnOk result (pieces.new ≡ region ∷ []) }
{
    pieces.clear();
    pieces.push(region)
}

// Puts an entry at the end for each piece of a box in which some packet can lie.
fn put_real<R: OfFamily>(
    pieces: &Blocks<R>,
    uncut: &Entry,
    entries: &mut EntryList,
) -> Result<(), NoMemory>
    ensures { OnOk result (entries.new ≡ entries.old
        ++ map (λ r. piece_of uncut.now (R.region r))
        (filter (λ r. has_real_point (R.region r)) pieces.now)) }
{
    for block in pieces.blocks() {
        put_real_of(block.as_slice(), uncut, entries)?;
    }
    Ok(())
}

// The same for some of the pieces.
fn put_real_of<R: OfFamily>(
    pieces: &[R],
    uncut: &Entry,
    entries: &mut EntryList,
) -> Result<(), NoMemory>
    ensures { OnOk result (entries.new ≡ entries.old
        ++ map (λ r. piece_of uncut.now (R.region r))
        (filter (λ r. has_real_point (R.region r)) pieces.now)) }
{
    for piece in pieces {
        let region = piece.region();
        if has_real(&region) {
            entries.push(Entry {
                region,
                judgement: uncut.judgement,
                link: uncut.link,
            })?;
        }
    }
    Ok(())
}
