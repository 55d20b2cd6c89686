use super::*;
use crate::reading::read_piece;
use std::test::*;
use vd_model::Piece;

#[test]
fn reads_pieces_and_nothing_else(rt: HostRuntime) -> Result<(), Fail> {
    let piece = |addr, len, write| Some(Piece { addr, len, write });
    for (text, want) in [
        ("r4096+10", piece(4096, 10, false)),
        ("w8192+64", piece(8192, 64, true)),
        (
            "r9223372036854775807+4294967295",
            piece(9223372036854775807, 4294967295, false),
        ),
        (
            "w00000000000000000000+00000000000000000001",
            piece(0, 1, true),
        ),
        ("r9223372036854775808+1", None),
        ("r18446744073709551617+1", None),
        ("r4096+4294967296", None),
        ("r4096+0", None),
        ("r000000000000000000000+1", None),
        ("", None),
        ("r", None),
        ("r+1", None),
        ("r1+", None),
        ("r1", None),
        ("x1+1", None),
        ("4096+10", None),
        ("r-1+1", None),
        ("r1+1 ", None),
        (" r1+1", None),
        ("r1+1+1", None),
        ("1*r1+1", None),
        ("r1+1 w1+1", None),
    ] {
        assert!(rt; read_piece(text.as_bytes()) == want, "at {text}");
    }
    Ok(())
}

const SIXTEEN: &str =
    "r1+1 r2+1 r3+1 r4+1 r5+1 r6+1 r7+1 r8+1 r9+1 r10+1 r11+1 r12+1 r13+1 r14+1 w15+1 w16+1";

const SEVENTEEN: &str =
    "r1+1 r2+1 r3+1 r4+1 r5+1 r6+1 r7+1 r8+1 r9+1 r10+1 r11+1 r12+1 r13+1 r14+1 w15+1 w16+1 w17+1";

const MOST_BYTES: &str = "r4096+4294967294 w8192+1";

const TOO_MANY_BYTES: &str = "r4096+4294967294 w8192+2";

#[test]
fn tells_meaning_from_bounds(rt: HostRuntime) -> Result<(), Fail> {
    // the text, whether it writes a chain, and of a run of at most 4 and of at most 16 pieces the count
    for (text, chain, of_four, of_sixteen) in [
        ("r4096+10", true, Some(1), Some(1)),
        ("r4096+10 w8192+64", true, Some(1), Some(1)),
        ("1*r4096+10", true, Some(1), Some(1)),
        ("4294967295*w1+1", true, Some(4294967295), Some(4294967295)),
        ("00000000000000000007*r1+1", true, Some(7), Some(7)),
        ("r1+1 r1+1 w1+1 w1+1", true, Some(1), Some(1)),
        ("r1+1 r1+1 r1+1 w1+1 w1+1", true, None, Some(1)),
        (SIXTEEN, true, None, Some(1)),
        (SEVENTEEN, true, None, None),
        (MOST_BYTES, true, Some(1), Some(1)),
        (TOO_MANY_BYTES, true, None, None),
        ("w8192+64 r4096+10", false, None, None),
        ("r1+1 w1+1 r1+1", false, None, None),
        ("", false, None, None),
        ("2*", false, None, None),
        ("*r1+1", false, None, None),
        ("0*r1+1", false, None, None),
        ("4294967296*r1+1", false, None, None),
        ("000000000000000000007*r1+1", false, None, None),
        ("2*2*r1+1", false, None, None),
        ("2 *r1+1", false, None, None),
        (" r1+1", false, None, None),
        ("r1+1 ", false, None, None),
        ("r1+1  w1+1", false, None, None),
        ("r1+1\tw1+1", false, None, None),
    ] {
        assert!(rt; is_chain(text.as_bytes()) == chain, "at {text}");
        assert!(rt;
            read_run(text.as_bytes(), 4).map(|run| run.count) == of_four,
            "four at {text}"
        );
        assert!(rt;
            read_run(text.as_bytes(), 16).map(|run| run.count) == of_sixteen,
            "sixteen at {text}"
        );
    }
    let run = read_run(b"3*r4096+10 w8192+64", 2).ok_or("no run")?;
    let want = [
        Piece {
            addr: 4096,
            len: 10,
            write: false,
        },
        Piece {
            addr: 8192,
            len: 64,
            write: true,
        },
    ];
    assert!(rt; run.count == 3 && run.chain.pieces() == want.as_slice());
    Ok(())
}

#[test]
fn reads_commands_and_nothing_else(rt: HostRuntime) -> Result<(), Fail> {
    let alloc = rt.alloc();
    // the text, and the canonical text of what it means
    for (text, want) in [
        ("010152540012abcd", Some("010152540012abcd")),
        ("010152540012ABCD", Some("010152540012abcd")),
        ("010152540012aBcD", Some("010152540012abcd")),
        ("000001", Some("000001")),
        ("0500ffffffffffffffff", Some("0500ffffffffffffffff")),
        ("0500FFFFFFFFFFFFFFFF", Some("0500ffffffffffffffff")),
        ("", None),
        ("0101", None),
        ("01010", None),
        ("0000012", None),
        ("0500fffffffffffffff", None),
        ("0500fffffffffffffffff", None),
        ("0500ffffffffffffffffff", None),
        ("00000g", None),
        ("00000G", None),
        ("00000/", None),
        ("00000:", None),
        ("00000@", None),
        ("00000`", None),
        ("0x0001", None),
        ("00 001", None),
        (" 00001", None),
        ("00000é", None),
    ] {
        let mut out = Vec::new(alloc);
        let found = match read_command(text.as_bytes()) {
            None => false,
            Some(command) => {
                print_command(command.as_slice(), &mut out)?;
                true
            }
        };
        assert!(rt; found == want.is_some(), "at {text}");
        assert!(rt;
            out.as_slice() == want.unwrap_or("").as_bytes(),
            "text at {text}"
        );
    }
    let command = read_command(b"02000fF0").ok_or("no command")?;
    assert!(rt; command.as_slice() == [2, 0, 15, 240].as_slice());
    Ok(())
}
