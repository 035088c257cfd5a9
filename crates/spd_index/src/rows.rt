ghost use Rattle.std.specs.Prelude.{◌≡◌, ◌+◌, ◌*◌, length};
ghost use Rattle.std.specs.List.Sorted.{IsNonDecreasing};
ghost use Rattle.spd_index.specs.inner.RowCount.{row_count};

use crate::NoMemory;
use crate::bits::{set_bit, word_count};
use crate::cuts::cuts;
use crate::ends::{Side, ends_of, items_of};
use sel_box::Family;
use spd_line::{AddressItem, Lines};
use std::alloc::Global;

// How many parts have a row together.
const BLOCK: usize = 64;

// Which lines may have an address, by the part of the axis in which it lies. A part begins at each
// start. It has a row of bits, one for each line, and so has each block of 64 parts, behind the
// rows of all parts: a line that has a whole block stands in the row of the block alone.
#[derive(Debug, Drop)]
pub struct Rows {
    starts: Vec<u128>,
    // How many words a row has.
    width: usize,
    words: Vec<u64>,
    ghost rising: { IsNonDecreasing starts.items },
    ghost filled: { length words.items ≡ row_count (length starts.items) * width },
}

impl Rows {
    ghost use Rattle.std.specs.Prelude.{◌<◌, ◌≤◌, ℕ, true, IfOk, OnOk};
    ghost use Rattle.std.specs.List.{list_any};
    ghost use Rattle.spd_line.specs.Policy.{most_lines};
    ghost use Rattle.spd_line.specs.Selects.{address_has};
    ghost use Rattle.spd_index.specs.inner.Held.{Holds};
    ghost use Rattle.spd_index.specs.inner.Rows.{IsPart, IsSet, Keeps, StandsIn, StandsWhere};
    ghost use Rattle.spd_index.specs.inner.Rows.{block_row, word_of};

    // The rows of the lines by a side's addresses of a family.
    pub fn new<L: Lines>(
        alloc: Global,
        lines: &L,
        family: Family,
        side: Side,
    ) -> Result<Rows, NoMemory>
        requires { length (L.lines lines.now) ≤ most_lines }
        ensures { IfOk result (λ rows. Holds family side rows (L.lines lines.now)) }
    {
        let width = word_count(lines.count());
        let mut rows = Rows::blank(alloc, cuts(alloc, lines, family, side, width)?, width)?;
        for place in 1..lines.count() + 1 {
            let items = items_of(side, lines.line(place).parts());
            rows.mark_items(family, items, place as usize - 1);
        }
        Ok(rows)
    }

    // Rows of so many words, with no line in them.
    fn blank(alloc: Global, starts: Vec<u128>, width: usize) -> Result<Rows, NoMemory>
        requires rising { IsNonDecreasing starts.items }
        requires few { length starts.items ≤ 65536 }
        requires narrow { width ≤ 64 }
        ensures { IfOk result (λ rows. rows.width ≡ width) }
    {
        let count = starts.len() + 1 + (starts.len() / BLOCK + 1);
        let words = vec![in alloc; 0; count * width]?;
        Ok(Rows {
            starts,
            width,
            words,
        })
    }

    // The part in which the address lies.
    #[inline]
    pub fn part_of(&self, address: u128) -> usize
        ensures { IsPart self.now.starts.items address result }
    {
        self.starts.partition_point(|start| *start <= address)
    }

    // A word of the lines that stand in a part: of those from 64 times its number on.
    #[inline]
    pub fn word(&self, part: usize, word: usize) -> u64
        requires part { part ≤ length self.now.starts.items }
        requires word { word < self.now.width }
        ensures { result ≡ word_of self.now part word }
    {
        let block = self.block_row(part);
        self.words[part * self.width + word] | self.words[block * self.width + word]
    }

    // The row of the block that has the part.
    #[inline]
    fn block_row(&self, part: usize) -> usize
        requires { part ≤ length self.now.starts.items }
        ensures { result ≡ block_row self.now part }
    {
        self.starts.len() + 1 + part / BLOCK
    }

    // Puts the line, counted from 0, into each part in which an address of the items lies.
    fn mark_items(&mut self, family: Family, items: &[AddressItem], line: usize)
        requires { line < 64 * self.old.width }
        ensures kept { Keeps self.old self.new }
        ensures marked { StandsWhere (λ a. list_any (address_has family a) items.now)
            self.new line }
    {
        for item in items {
            self.mark_item(family, item, line);
        }
    }

    // Puts the line into each part in which an address of the item lies.
    fn mark_item(&mut self, family: Family, item: &AddressItem, line: usize)
        requires { line < 64 * self.old.width }
        ensures kept { Keeps self.old self.new }
        ensures marked { StandsWhere (λ a. address_has family a item.now) self.new line }
    {
        match item {
            AddressItem::Any => {
                let last = self.starts.len();
                self.mark(0, last, line);
            }
            AddressItem::Range { .. } => {
                if let Some((first, last)) = ends_of(family, item) {
                    let first = self.part_of(first);
                    let last = self.part_of(last);
                    self.mark(first, last, line);
                }
            }
        }
    }

    // Puts the line into each part from the first to the last.
    fn mark(&mut self, first: usize, last: usize, line: usize)
        requires last { last ≤ length self.old.starts.items }
        requires line { line < 64 * self.old.width }
        ensures kept { Keeps self.old self.new }
        ensures marked { (part : ℕ) → first ≤ part → part ≤ last → StandsIn self.new part line }
    {
        let mut part = first;
        while part <= last {
            part = self.mark_next(part, last, line);
        }
    }

    // Puts the line into the part or, where none of the block is behind the last, into its block,
    // and gives the part to go on with.
    fn mark_next(&mut self, part: usize, last: usize, line: usize) -> usize
        requires part { part ≤ last }
        requires last { last ≤ length self.old.starts.items }
        requires line { line < 64 * self.old.width }
        ensures kept { Keeps self.old self.new }
        ensures onward { part < result }
        ensures marked { (next : ℕ) → part ≤ next → next < result → StandsIn self.new next line }
    {
        if part % BLOCK == 0 && BLOCK <= last - part {
            let block = self.block_row(part);
            self.set(block, line);
            part + BLOCK
        } else {
            self.set(part, line);
            part + 1
        }
    }

    // Puts the line into a row.
    #[inline]
    fn set(&mut self, row: usize, line: usize)
        requires row { row < row_count (length self.old.starts.items) }
        requires line { line < 64 * self.old.width }
        ensures kept { Keeps self.old self.new }
        ensures set { IsSet self.new row line }
    {
        let at = row * self.width + line / 64;
        set_bit(&mut self.words, at, line % 64);
    }
}
