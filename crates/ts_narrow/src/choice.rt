use sel_box::AnyBox;

/// Which part of a proposal is answered.
#[derive(Clone, Copy, Debug, PartialEq, Eq)]
pub struct Choice {
    /// The region that the answer is cut to, or the box of the first pair.
    pub region: AnyBox,
    /// The place of the line.
    pub link: u32,
    /// How the answer is made.
    pub form: Form,
}

/// How the selectors of an answer are made of those of the proposal.
#[derive(Clone, Copy, Debug, PartialEq, Eq)]
pub enum Form {
    /// Every selector is cut to the region.
    Cut,
    /// The first selector of the initiator and the first of the responder, alone.
    FirstPair,
}
