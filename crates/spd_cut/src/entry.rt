use sel_box::AnyBox;
use spd_line::Judgement;

/// One entry of a policy without overlaps (RFC 4301 section 4.4.1 and Appendix B).
#[derive(Clone, Copy, Debug, PartialEq, Eq)]
pub struct Entry {
    /// The points that the entry decides.
    pub region: AnyBox,
    /// What happens to packets at these points.
    pub judgement: Judgement,
    /// The place of the line that the entry came from, the count of the lines plus 1 for `final`.
    /// Entries of one line are linked: they are put into a cache together.
    pub link: u32,
}

const _: () = prove!(size_of::<Entry>() <= 224);

/// Entries in the order of their lines.
pub type EntryList = lists::List<Entry>;
