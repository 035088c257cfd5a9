use super::*;
use crate::TextFault::{NotInGrammar, OutOfRange};
use std::test::Fail;

fn four(first: u32, last: u32) -> AddressItem {
    AddressItem::Range {
        first: Address::Four(first),
        last: Address::Four(last),
    }
}

fn six(first: u128, last: u128) -> AddressItem {
    AddressItem::Range {
        first: Address::Six(first),
        last: Address::Six(last),
    }
}

#[test]
fn reads_the_grammar_of_addresses(rt: HostRuntime) {
    let sevenths = 0x1_0002_0003_0004_0005_0006_0007_0000;
    let mixed_case = 0x2001_0db8_0001_0000_0000_0000_0000_abcd;
    let accepted = [
        ("any", AddressItem::Any),
        ("10.1.2.3/8", four(0x0a00_0000, 0x0aff_ffff)),
        ("1.2.3.4/0", four(0, u32::MAX)),
        ("10.0.0.1-10.0.0.9", four(0x0a00_0001, 0x0a00_0009)),
        ("1:2:3:4:5:6:7::", six(sevenths, sevenths)),
        ("2001:DB8:1::abCD", six(mixed_case, mixed_case)),
        ("::1/127", six(0, 1)),
        ("::-ffff::", six(0, 0xffff << 112)),
    ];
    for (text, item) in accepted {
        assert_eq!(rt; read_addresses(text.as_bytes()), Ok(item), "at {text}");
    }
    let refused = [
        ("10.0.0.300", OutOfRange),
        ("1.2.3.1000000000000000000000000000000000000000", OutOfRange),
        ("10.0.0.300/8", OutOfRange),
        ("10.0.0.0/33", OutOfRange),
        ("10.0.0.9-10.0.0.1", OutOfRange),
        ("10.0.0.300-::1", NotInGrammar),
        ("10.0.0.300/08", NotInGrammar),
        ("300.2.3.4.5", NotInGrammar),
        ("1.2.3.04", NotInGrammar),
        (" 1.2.3.4", NotInGrammar),
        ("1::2:3:4:5:6:7:8", NotInGrammar),
        ("1::2::3", NotInGrammar),
        (":1::2", NotInGrammar),
        ("::12345", NotInGrammar),
        ("::ffff:1.2.3.4", NotInGrammar),
        ("fe80::1%eth0", NotInGrammar),
        ("any-any", NotInGrammar),
        ("", NotInGrammar),
    ];
    for (text, fault) in refused {
        assert_eq!(rt; read_addresses(text.as_bytes()), Err(fault), "at {text}");
    }
}

#[test]
fn reads_the_grammar_of_ports_and_names(rt: HostRuntime) -> Result<(), Fail> {
    let accepted = [
        ("any", PortItem::Any),
        ("opaque", PortItem::Opaque),
        (
            "0-65535",
            PortItem::Number {
                first: 0,
                last: 65535,
            },
        ),
        (
            "8/any",
            PortItem::TypeCode {
                first: 2048,
                last: 2303,
            },
        ),
        (
            "3/255-4/0",
            PortItem::TypeCode {
                first: 1023,
                last: 1024,
            },
        ),
    ];
    for (text, item) in accepted {
        assert_eq!(rt; read_port(text.as_bytes()), Ok(item), "at {text}");
    }
    let refused = [
        ("65536", OutOfRange),
        ("99999999999999999999-1", OutOfRange),
        ("8/1-8/0", OutOfRange),
        ("65536-080", NotInGrammar),
        ("300-8/0", NotInGrammar),
        ("8/any-9/any", NotInGrammar),
        ("8/0/0", NotInGrammar),
        ("1 - 2", NotInGrammar),
    ];
    for (text, fault) in refused {
        assert_eq!(rt; read_port(text.as_bytes()), Err(fault), "at {text}");
    }
    let longest = "abcdefghijklmnopqrstuvwxyzABCDEFGHIJKLMNOPQRSTUVWXYZ0123456789_-";
    assert_eq!(rt;
        read_name(longest.as_bytes())?.as_bytes(),
        longest.as_bytes()
    );
    assert!(rt; read_name(b"lan")? < read_name(b"lan2")?);
    assert_eq!(rt; read_name(b"a.b"), Err(NotInGrammar));
    Ok(())
}

#[test]
fn prints_addresses(rt: HostRuntime) -> Result<(), Fail> {
    let mut text = Vec::new(rt.alloc());
    print_address(&Address::Four(0x0aff_0001), &mut text)?;
    assert_eq!(rt; text.as_slice(), b"10.255.0.1".as_slice());
    let six = Address::Six(0x2001_0db8_0000_0000_0000_0000_00ff_0001);
    let printed = format!(in rt.alloc(); "{six}")?;
    assert_eq!(rt; printed.as_str(), "2001:0db8:0000:0000:0000:0000:00ff:0001");
    Ok(())
}
