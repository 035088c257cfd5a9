//! What the definition of an answer comes to, the law the contract of a function that does nothing.

ghost use Rattle.std.specs.Prelude.{◌≡◌, List};
ghost use Rattle.spd_cut.specs.declared.entry.Entry.{Entry};
ghost use Rattle.spd_line.specs.declared.line.LineParts.{LineParts};
ghost use Rattle.ts_payload.specs.declared.selector.Ts.{Ts};
ghost use Rattle.ts_payload.specs.Selector.{AreSelectors};
ghost use Rattle.ts_narrow.specs.declared.meets.Meet.{Meet};
ghost use Rattle.ts_narrow.specs.declared.narrowed.Narrowed.{Narrowed};
ghost use Rattle.ts_narrow.specs.Allowed.{StandForBoth};
ghost use Rattle.ts_narrow.specs.Answered.{IsRightAnswer};
ghost use Rattle.ts_narrow.specs.IsNarrowing.{IsNarrowing};
ghost use Rattle.ts_narrow.specs.Meets as listed;
ghost use Rattle.ts_narrow.specs.Narrowing.{narrowing};

/// Where entries stand for a policy, the answer by them to selectors that payloads can have is
/// right, by points (RFC 7296 section 2.9).
pub fn narrowing_is_right()
    ensures { (lines : List LineParts) (outbound inbound : List Entry) (tsi tsr : List Ts)
        → StandForBoth lines outbound inbound → AreSelectors tsi → AreSelectors tsr
        → IsRightAnswer lines tsi tsr (narrowing outbound inbound tsi tsr) }
{}

/// It is also the answer that the relation by points says, by the meets of the entries in order.
pub fn narrowing_is_by_points()
    ensures { (lines : List LineParts) (outbound inbound : List Entry) (tsi tsr : List Ts)
        → StandForBoth lines outbound inbound → AreSelectors tsi → AreSelectors tsr
        → IsNarrowing lines (listed.meets outbound inbound) tsi tsr
        (narrowing outbound inbound tsi tsr) }
{}

/// The relation by points gives a proposal one answer at most, whatever the meets are.
pub fn one_answer()
    ensures { (lines : List LineParts) (list : List Meet) (tsi tsr : List Ts)
        (one other : Narrowed) → IsNarrowing lines list tsi tsr one
        → IsNarrowing lines list tsi tsr other → one ≡ other }
{}
