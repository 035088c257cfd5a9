use super::*;
use std::test::Fail;

const ADDRESSES: (u128, u128) = (0, 4294967295);

const FIELDS: (u128, u128) = (0, 65536);

// The box of all addresses of IPv4 with these protocols, local and remote fields.
fn box4(selectors: [(u128, u128); 3]) -> Option<AnyBox> {
    let [protocols, local, remote] = selectors;
    AnyBox::new(
        Family::Four,
        [ADDRESSES, ADDRESSES, protocols, local, remote],
    )
}

#[test]
fn cuts_a_box_and_finds_the_least_packet(rt: HostRuntime) -> Result<(), Fail> {
    let all = box4([(1, 6), FIELDS, FIELDS]).expect(&rt, "a box");
    let opaque = box4([(6, 6), (65536, 65536), (0, 65535)]).expect(&rt, "a box");
    assert_eq!(rt; least_packet(&opaque), None);
    assert_eq!(rt;
        least_packet(&all),
        Packet::new(Family::Four, 0, 0, 1, 0, 65536)
    );
    let mut pieces = Vec::new(rt.alloc());
    all.minus(&opaque, &mut pieces)?;
    let expected = [
        box4([(1, 5), FIELDS, FIELDS]),
        box4([(6, 6), (0, 65535), FIELDS]),
        box4([(6, 6), (65536, 65536), (65536, 65536)]),
    ];
    assert_eq!(rt; pieces.len(), expected.len());
    for (piece, expected) in pieces.iter().zip(expected) {
        assert_eq!(rt; Some(*piece), expected);
    }
    Ok(())
}
