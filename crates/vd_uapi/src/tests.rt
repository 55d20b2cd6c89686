ghost use Rattle.std.specs.Prelude.{◌≡◌, ◌≤◌};

use super::*;
use std::test::*;

// A caller learns from the two contracts that what was written is read again.
fn state_again(state: VringState) -> Result<VringState, UapiFault>
    ensures { result ≡ Ok state }
{
    VringState::read(&state.write())
}

fn addr_again(addr: VringAddr) -> Result<VringAddr, UapiFault>
    ensures { result ≡ Ok addr }
{
    VringAddr::read(&addr.write())
}

fn message_again(message: Msg) -> Result<Msg, UapiFault>
    requires kind { (1 ≤ message.kind) × (message.kind ≤ 6) }
    requires update { message.kind ≡ 2 → (1 ≤ message.perm) × (message.perm ≤ 3) }
    ensures { result ≡ Ok message }
{
    Msg::read(&message.write())
}

/// An update that maps 8,192 bytes from 0x1000 to 0x10000, for reading and writing, without the zeros behind its fields.
const UPDATE: [u8; 34] = [
    2, 0, 0, 0, 1, 0, 0, 0, 0, 0x10, 0, 0, 0, 0, 0, 0, 0, 0x20, 0, 0, 0, 0, 0, 0, 0, 0, 1, 0, 0, 0,
    0, 0, 3, 2,
];

fn update() -> Msg {
    Msg {
        asid: 1,
        iova: 0x1000,
        size: 0x2000,
        uaddr: 0x1_0000,
        perm: 3,
        kind: 2,
    }
}

/// The bytes of the update with another version, permission and kind, and ones behind the fields.
fn message(version: u8, perm: u8, kind: u8) -> [u8; 72] {
    let mut bytes = [1; 72];
    bytes[..34].copy_from_slice(&UPDATE);
    bytes[0] = version;
    bytes[32] = perm;
    bytes[33] = kind;
    bytes
}

#[test]
fn a_ring_number_is_eight_bytes(rt: HostRuntime) -> Result<(), Fail> {
    let state = VringState {
        index: 1,
        num: 65537,
    };
    let bytes = [1, 0, 0, 0, 1, 0, 1, 0, 9];
    assert_eq!(rt; state.write().as_slice(), &bytes[..8]);
    assert_eq!(rt; VringState::read(&bytes[..8])?, state);
    assert_eq!(rt; VringState::read(&bytes)?, state, "nine bytes");
    assert_eq!(rt; state_again(state)?, state);
    for have in 0..8u32 {
        let short = VringState::read(&bytes[..have as usize]);
        assert_eq!(rt; short, Err(UapiFault::Short { have, need: 8 }));
    }
    Ok(())
}

#[test]
fn ring_addresses_are_forty_bytes(rt: HostRuntime) -> Result<(), Fail> {
    let addr = VringAddr {
        index: 3,
        flags: 1,
        desc: 0x1122_3344_5566_7788,
        used: 2,
        avail: 0x0100,
        log: 0xff00_0000_0000_0000,
    };
    let bytes = [
        3, 0, 0, 0, 1, 0, 0, 0, 0x88, 0x77, 0x66, 0x55, 0x44, 0x33, 0x22, 0x11, 2, 0, 0, 0, 0, 0,
        0, 0, 0, 1, 0, 0, 0, 0, 0, 0, 0, 0, 0, 0, 0, 0, 0, 0xff,
    ];
    assert_eq!(rt; addr.write().as_slice(), bytes.as_slice());
    assert_eq!(rt; VringAddr::read(&bytes)?, addr);
    assert_eq!(rt; addr_again(addr)?, addr);
    assert_eq!(rt;
        VringAddr::read(&bytes[..39]),
        Err(UapiFault::Short { have: 39, need: 40 })
    );
    Ok(())
}

#[test]
fn a_message_is_its_fields_and_zeros(rt: HostRuntime) -> Result<(), Fail> {
    let mut bytes = [0; 72];
    bytes[..34].copy_from_slice(&UPDATE);
    assert_eq!(rt; update().write().as_slice(), bytes.as_slice());
    assert_eq!(rt; Msg::read(&bytes)?, update());
    assert_eq!(rt;
        Msg::read(&message(2, 3, 2))?,
        update(),
        "ones behind the fields"
    );
    Ok(())
}

#[test]
fn a_message_without_permission_is_read_again(rt: HostRuntime) -> Result<(), Fail> {
    let invalidate = Msg {
        asid: 0,
        iova: u64::MAX,
        size: 0,
        uaddr: 0,
        perm: 0,
        kind: 3,
    };
    assert_eq!(rt; message_again(invalidate)?, invalidate);
    Ok(())
}

#[test]
fn messages_are_read_or_refused_in_order(rt: HostRuntime) -> Result<(), Fail> {
    let cases = [
        (72, 2, 3, 2, None),
        (71, 1, 0, 0, Some(UapiFault::Short { have: 71, need: 72 })),
        (72, 1, 0, 0, Some(UapiFault::BadVersion(1))),
        (72, 3, 1, 2, Some(UapiFault::BadVersion(3))),
        (72, 2, 0, 0, Some(UapiFault::BadType(0))),
        (72, 2, 0, 1, None),
        (72, 2, 0, 6, None),
        (72, 2, 0, 7, Some(UapiFault::BadType(7))),
        (72, 2, 0, 2, Some(UapiFault::BadPerm(0))),
        (72, 2, 1, 2, None),
        (72, 2, 2, 2, None),
        (72, 2, 4, 2, Some(UapiFault::BadPerm(4))),
        (72, 2, 255, 2, Some(UapiFault::BadPerm(255))),
        (72, 2, 0, 3, None),
        (72, 2, 1, 3, None),
        (72, 2, 4, 3, None),
    ];
    for (len, version, perm, kind, fault) in cases {
        let bytes = message(version, perm, kind);
        assert!(rt; len <= bytes.len());
        let got = Msg::read(&bytes[..len]);
        let fields = Msg {
            perm,
            kind,
            ..update()
        };
        let want = match fault {
            Some(fault) => Err(fault),
            None => Ok(fields),
        };
        assert_eq!(rt; got, want, "{version} {perm} {kind}");
    }
    Ok(())
}

#[test]
fn a_fault_says_what_it_met(rt: HostRuntime) -> Result<(), Fail> {
    let cases = [
        (
            UapiFault::Short { have: 7, need: 8 },
            "7 bytes where 8 are needed",
        ),
        (
            UapiFault::BadVersion(1),
            "message type 1, where only 2 is known",
        ),
        (
            UapiFault::BadType(7),
            "address message type 7, where 1 to 6 are known",
        ),
        (
            UapiFault::BadPerm(0),
            "an update with the permission 0, where 1 to 3 are known",
        ),
    ];
    for (fault, want) in cases {
        let text = format!(in rt.alloc(); "{fault}")?;
        assert_eq!(rt; text.as_str(), want);
    }
    Ok(())
}
