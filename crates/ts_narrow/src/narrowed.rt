use ts_wire::TsList;

/// The answer of a responder to a proposal (RFC 7296 section 2.9).
#[derive(Debug, Drop)]
pub enum Narrowed {
    /// TS_UNACCEPTABLE: no line protects any of the proposed traffic.
    Unacceptable,
    /// The traffic that the responder accepts.
    Pair {
        /// The selectors of the initiator, which is the remote side.
        tsi: TsList,
        /// The selectors of the responder, which is the local side.
        tsr: TsList,
        /// The place of the line that protects the traffic, counted from 1.
        link: u32,
        /// ADDITIONAL_TS_POSSIBLE: proposed traffic that some line protects was left out.
        additional: bool,
    },
}
