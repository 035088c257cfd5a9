use super::*;
use std::alloc::Global;
use std::fmt::Debug;
use std::process::Abort;
use std::test::Fail;

fn interval<A: Axis>(rt: &impl Abort, low: u128, high: u128) -> Interval<A> {
    Interval::new(low, high).expect(rt, "an interval of the axis")
}

fn ports(
    rt: &impl Abort,
    local: (u128, u128),
    remote: (u128, u128),
) -> Pair<Interval<Field>, Interval<Field>> {
    Pair {
        first: interval(rt, local.0, local.1),
        second: interval(rt, remote.0, remote.1),
    }
}

// Without the others, taken out in order, these pieces are left of the region.
fn check<R: Region + PartialEq + Debug>(
    rt: &impl Abort,
    alloc: Global,
    region: &R,
    others: &[R],
    left: &[R],
) -> Result<(), Fail> {
    let mut pieces = Vec::new(alloc);
    pieces.push(*region)?;
    let mut spare = Vec::new(alloc);
    cut_all(&mut pieces, others, &mut spare)?;
    assert_eq!(rt; pieces.as_slice(), left);
    Ok(())
}

#[test]
fn pieces_come_axis_by_axis(rt: HostRuntime) -> Result<(), Fail> {
    let alloc = rt.alloc();
    let square = [ports(&rt, (0, 9), (0, 9))];
    let left = [
        ports(&rt, (0, 2), (0, 9)),
        ports(&rt, (6, 9), (0, 9)),
        ports(&rt, (3, 5), (0, 3)),
        ports(&rt, (3, 5), (5, 9)),
    ];
    let left = left.as_slice();
    let others = [ports(&rt, (3, 5), (4, 4)), left[0]];
    let others = others.as_slice();
    check(&rt, alloc, &square[0], &others[..1], left)?;
    check(&rt, alloc, &square[0], others, &left[1..])?;
    let apart = [ports(&rt, (3, 5), (20, 30))];
    check(&rt, alloc, &square[0], &apart, &square)?;

    let fields = interval::<Field>(&rt, 0, Field::LAST);
    let opaque = [interval(&rt, 65536, 65536)];
    check(
        &rt,
        alloc,
        &fields,
        &opaque,
        [interval(&rt, 0, 65535)].as_slice(),
    )?;
    let whole = interval::<V6>(&rt, 0, V6::LAST);
    let same = [interval(&rt, 0, V6::LAST)];
    check(&rt, alloc, &whole, same.as_slice(), &[])
}
