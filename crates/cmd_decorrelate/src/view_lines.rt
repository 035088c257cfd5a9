ghost use Rattle.std.specs.Prelude.{◌≡◌, ◌+◌, ◌≤◌, ◌∷◌, ◌++◌, codes, length, map};
ghost use Rattle.std.specs.Prelude.{IfErr, IfOk, OnErr, OnOk};
ghost use Rattle.pair_io.specs.Gains.{Gains, GainsPrefix};
ghost use Rattle.audit_frame.specs.Answer.{text_of};
ghost use Rattle.audit_frame.specs.Ends.{WriteCauses};
ghost use Rattle.cmd_decorrelate.specs.Decorrelate.{entry_line, view_lines, views_lines};
ghost use Rattle.spd_cut.specs.StandsFor.{AreLinked};
ghost use Rattle.spd_views.specs.Listing.{listed, listing, view_text};

use audit_frame::{NoMemory, PrintedLines, WriteRefused, write_lines};
use pair_io::Sink;
use spd_cut::Entry;
use spd_line::{LineList, name_of};
use spd_views::{Listing, ListingList, View, list, print_entry};
use std::alloc::Global;

// Writes the three views of a policy's entries, one after another, each line made in one buffer.
#[tactic(auto, using(pair_io::proofs::Gains::gains))]
pub fn write_views<O: Sink>(
    alloc: Global,
    lines: &LineList,
    outbound: &[Entry],
    inbound: &[Entry],
    out: &mut O,
) -> Result<(), WriteRefused>
    requires few { length lines.now ≤ 4096 }
    requires outbound { AreLinked (length lines.now) outbound.now }
    requires inbound { AreLinked (length lines.now) inbound.now }
    ensures written { OnOk result (Gains (O.told out.old) (O.told out.new)
        (text_of (views_lines lines.now outbound.now inbound.now))) }
    ensures prefix { OnErr result (GainsPrefix (O.told out.old) (O.told out.new)
        (text_of (views_lines lines.now outbound.now inbound.now))) }
    ensures causes { IfErr result (WriteCauses (O.faults out.old) (O.faults out.new)) }
    ensures no_fault { OnOk result (O.faults out.new ≡ O.faults out.old) }
{
    let mut text = Vec::new(alloc);
    write_view(alloc, lines, outbound, inbound, View::SpdS, &mut text, out)?;
    write_view(alloc, lines, outbound, inbound, View::SpdO, &mut text, out)?;
    write_view(alloc, lines, outbound, inbound, View::SpdI, &mut text, out)?;
    Ok(())
}

// Writes one view of the entries, whose listings are made here and dropped at the end.
#[tactic(auto, using(pair_io::proofs::Gains::gains))]
fn write_view<O: Sink>(
    alloc: Global,
    lines: &LineList,
    outbound: &[Entry],
    inbound: &[Entry],
    view: View,
    text: &mut Vec<u8>,
    out: &mut O,
) -> Result<(), WriteRefused>
    requires few { length lines.now ≤ 4096 }
    requires outbound { AreLinked (length lines.now) outbound.now }
    requires inbound { AreLinked (length lines.now) inbound.now }
    ensures written { OnOk result (Gains (O.told out.old) (O.told out.new)
        (text_of (view_lines lines.now outbound.now inbound.now view))) }
    ensures prefix { OnErr result (GainsPrefix (O.told out.old) (O.told out.new)
        (text_of (view_lines lines.now outbound.now inbound.now view))) }
    ensures causes { IfErr result (WriteCauses (O.faults out.old) (O.faults out.new)) }
    ensures no_fault { OnOk result (O.faults out.new ≡ O.faults out.old) }
{
    let view = ViewLines::new(alloc, lines, view, outbound, inbound)?;
    write_lines(&view, text, out)
}

// A view of a policy's entries, with its name before them.
#[derive(Drop)]
struct ViewLines<'a> {
    lines: &'a LineList,
    view: View,
    listings: ListingList<'a>,
    ghost few: { length lines.now ≤ 4096 },
    ghost linked: { AreLinked (length lines.now) (map (λ l. l.entry.now) listings) },
}

impl<'a> ViewLines<'a> {
    // A view, with the entries of both directions that it lists.
    fn new(
        alloc: Global,
        lines: &'a LineList,
        view: View,
        outbound: &'a [Entry],
        inbound: &'a [Entry],
    ) -> Result<Self, NoMemory>
        requires few { length lines.now ≤ 4096 }
        requires outbound { AreLinked (length lines.now) outbound.now }
        requires inbound { AreLinked (length lines.now) inbound.now }
        ensures { IfOk result (λ made. ⟦<ViewLines<'a> as PrintedLines>⟧.lines made
            ≡ view_lines lines.now outbound.now inbound.now view) }
    {
        Ok(ViewLines {
            lines,
            view,
            listings: list(alloc, view, outbound, inbound)?,
        })
    }

    // Puts the line with the view's name at the end of a text.
    fn append_name(&self, text: &mut Vec<u8>) -> Result<(), NoMemory>
        ensures { OnOk result
            (text.new.items ≡ text.old.items ++ (view_text self.now.view ++ codes "\n")) }
    {
        text.extend_from_slice(self.view.name().as_bytes())?;
        text.extend_from_slice(b"\n")?;
        Ok(())
    }

    // Puts the line of an entry at the end of a text.
    fn append_entry(&self, listing: &Listing, text: &mut Vec<u8>) -> Result<(), NoMemory>
        requires first { 1 ≤ listing.now.entry.now.link }
        requires last { listing.now.entry.now.link ≤ length self.now.lines.now + 1 }
        ensures { OnOk result (text.new.items ≡ text.old.items
            ++ entry_line self.now.lines.now (listed listing.now)) }
    {
        let name = name_of(self.lines, listing.entry.link);
        print_entry(listing.direction, listing.entry, &name, text)?;
        text.extend_from_slice(b"\n")?;
        Ok(())
    }
}

impl PrintedLines for ViewLines<'_> {
    ghost lines = { λ view. (view_text view.view ++ codes "\n")
        ∷ map (entry_line view.lines.now) (map listed view.listings) };

    fn count(&self) -> usize {
        1 + self.listings.as_slice().len()
    }

    fn append(&self, index: usize, text: &mut Vec<u8>) -> Result<(), NoMemory> {
        match index {
            0 => self.append_name(text),
            _ => self.append_entry(&self.listings.as_slice()[index - 1], text),
        }
    }
}
