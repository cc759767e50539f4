//! Stored trees: packed, unpacked, refused, and over a reader and a writer that fail.

use super::{Feed, Terminal, expect_written};
use crate::program::{Mode, mode, pack, unpack};
use crate::stored::{Fault, refuse};
use std::alloc::{AllocError, Global};
use std::cell::Cell;
use std::io::{Cursor, ErrorKind, Read, Write};
use std::process::Abort;
use std::test::Fail;

/// The stored bytes of no point.
pub const EMPTY: [u8; 13] = [82, 83, 84, 49, 0, 0, 0, 0, 0, 0, 0, 0, 0];

/// The stored bytes of the point 1 2.
pub const ONE: [u8; 69] = [
    82, 83, 84, 49, 1, 0, 0, 0, 0, 0, 0, 0, 1, 1, 0, 0, 0, 0, 0, 0, 0, 1, 0, 0, 0, 0, 0, 0, 0, 2,
    0, 0, 0, 0, 0, 0, 0, 1, 0, 0, 0, 0, 0, 0, 0, 2, 0, 0, 0, 0, 0, 0, 0, 1, 0, 0, 0, 0, 0, 0, 0, 2,
    0, 0, 0, 0, 0, 0, 0,
];

fn list_of(alloc: Global, words: &[&str]) -> Result<Vec<String>, AllocError> {
    let mut list = Vec::new(alloc);
    for word in words {
        list.push(String::from_str(alloc, word)?)?;
    }
    Ok(list)
}

#[test]
fn reads_its_mode(rt: HostRuntime) -> Result<(), Fail> {
    let rows: [(&[&str], Option<Mode>); 10] = [
        (&[], Some(Mode::Run)),
        (&["pack"], Some(Mode::Pack)),
        (&["unpack"], Some(Mode::Unpack)),
        (&["list"], None),
        (&["run"], None),
        (&[""], None),
        (&["Pack"], None),
        (&["packs"], None),
        (&["pack", "x"], None),
        (&["unpack", "pack"], None),
    ];
    for (words, want) in rows {
        let list = list_of(rt.alloc(), words)?;
        assert_eq!(rt; mode(&list), want, "at {words:?}");
    }
    // What the program says where its words ask for nothing.
    let mut taken = Cursor::new([0u8; 256]);
    assert_eq!(rt; refuse(Fault::Usage, &mut taken), 2);
    expect_written(&rt, &taken, "error: usage\n", b"");
    Ok(())
}

/// Packs or unpacks.
pub fn answer<R: Read + Drop, W: Write>(
    alloc: Global,
    packs: bool,
    input: R,
    output: &mut W,
) -> u8 {
    if packs {
        pack(alloc, input, output)
    } else {
        unpack(alloc, input, output)
    }
}

fn expect_answer(
    rt: &(impl AllocGlobal + Abort),
    packs: bool,
    input: &[u8],
    want: &[u8],
    status: u8,
) {
    let mut taken = Cursor::new([0u8; 256]);
    assert_eq!(rt;
        answer(rt.alloc(), packs, input, &mut taken),
        status,
        "at {input:?}"
    );
    let length = usize::try_from(taken.position()).unwrap_or(0);
    let written = taken.get_ref().get(..length).unwrap_or(&[]);
    assert_eq!(rt; written, want, "at {input:?}");
}

#[test]
fn packs_lines(rt: HostRuntime) {
    let rows: [(&[u8], &[u8], u8); 16] = [
        (b"", &EMPTY, 0),
        (b"\n \r\n", &EMPTY, 0),
        (b"1 2\n", &ONE, 0),
        (b"\n  01   2 \r\n\n", &ONE, 0),
        (b"1 2", &ONE, 0),
        (b"1\n", b"error: line 1\n", 2),
        (b"1 2\n\n3\n", b"error: line 3\n", 2),
        (b"1 2 3\n", b"error: line 1\n", 2),
        (b"1 2 3 4 5 6 7 8 9\n", b"error: line 1\n", 2),
        (b"1 x\n", b"error: line 1\n", 2),
        (b"1 +2\n", b"error: line 1\n", 2),
        (b"-\n", b"error: line 1\n", 2),
        (b"1 9223372036854775808\n", b"error: line 1\n", 2),
        (b"1 2\r", b"error: line 1\n", 2),
        (b"\xff 2\n", b"error: line 1\n", 2),
        (b"insert 1 0 0 2 2\n", b"error: line 1\n", 2),
    ];
    for (input, want, status) in rows {
        expect_answer(&rt, true, input, want, status);
    }
}

#[test]
fn unpacks_bytes(rt: HostRuntime) -> Result<(), Fail> {
    expect_answer(&rt, false, &EMPTY, b"", 0);
    expect_answer(&rt, false, &ONE, b"1 2\n", 0);
    expect_answer(&rt, false, b"", b"error: Truncated\n", 2);
    expect_answer(&rt, false, &ONE[..68], b"error: Truncated\n", 2);
    let mut longer = Vec::from_slice(rt.alloc(), &ONE)?;
    longer.push(0)?;
    expect_answer(&rt, false, &longer, b"error: Trailing\n", 2);
    // One byte is another.
    let rows: [(usize, u8, &[u8]); 6] = [
        (0, 0x53, b"error: BadMagic\n"),
        (4, 2, b"error: BadCount\n"),
        (12, 65, b"error: BadLevel\n"),
        (12, 2, b"error: Truncated\n"),
        (13, 0, b"error: BadLevel\n"),
        (37, 3, b"error: BadBox\n"),
    ];
    for (place, byte, want) in rows {
        let mut bytes = ONE;
        bytes[place] = byte;
        expect_answer(&rt, false, &bytes, want, 2);
    }
    Ok(())
}

/// Packs lines, and unpacks what was packed.
fn expect_sorted(rt: &(impl AllocGlobal + Abort), input: &[u8], want: &[u8]) {
    let mut packed = Vec::new(rt.alloc());
    assert_eq!(rt;
        answer(rt.alloc(), true, input, &mut packed),
        0,
        "at {input:?}"
    );
    let mut unpacked = Vec::new(rt.alloc());
    assert_eq!(rt;
        answer(rt.alloc(), false, packed.as_slice(), &mut unpacked),
        0,
        "at {input:?}"
    );
    assert_eq!(rt; unpacked.as_slice(), want, "at {input:?}");
}

#[test]
fn unpacks_what_was_packed(rt: HostRuntime) -> Result<(), Fail> {
    expect_sorted(&rt, b"2 1\n1 2\n1 2\n", b"1 2\n1 2\n2 1\n");
    expect_sorted(
        &rt,
        b"9223372036854775807 0\n0 -1\n-0 00\n10 0\n9 0\n-9223372036854775808 9223372036854775807\n0 -10\n",
        b"-9223372036854775808 9223372036854775807\n0 -10\n0 -1\n0 0\n9 0\n10 0\n9223372036854775807 0\n",
    );
    // Three levels: each x from 0 to 100 once, in another order.
    let mut input = Vec::new(rt.alloc());
    let mut want = Vec::new(rt.alloc());
    for k in 0..101u64 {
        writeln!(input, "{} {}", k * 37 % 101, k * 53 % 103)?;
        // 71 times 37 is 1 more than a multiple of 101.
        writeln!(want, "{} {}", k, k * 71 % 101 * 53 % 103)?;
    }
    expect_sorted(&rt, &input, &want);
    Ok(())
}

/// A reader that fails behind these bytes.
fn expect_failed_read(rt: &(impl AllocGlobal + Abort), packs: bool, bytes: &[u8], kind: ErrorKind) {
    let given = Cell::new(0);
    let input = Feed {
        bytes,
        most: 7,
        fails: Some(kind),
        given: &given,
    };
    let mut taken = Cursor::new([0u8; 256]);
    assert_eq!(rt; answer(rt.alloc(), packs, input, &mut taken), 4);
    expect_written(rt, &taken, "error: input\n", bytes);
}

#[test]
fn answers_no_failed_read(rt: HostRuntime) {
    // A failed read is no refused memory, whatever the reader says.
    for kind in [ErrorKind::ConnectionReset, ErrorKind::OutOfMemory] {
        expect_failed_read(&rt, true, b"1 2\n1", kind);
        expect_failed_read(&rt, false, &ONE, kind);
    }
}

#[test]
fn tells_of_a_failed_write(rt: HostRuntime) {
    // An answer, and an error.
    for (packs, bytes) in [
        (true, b"1 2\n".as_slice()),
        (true, b"1\n"),
        (false, &ONE),
        (false, b""),
    ] {
        let (calls, shown) = (Cell::new(0), Cell::new(0));
        let mut output = Terminal {
            good: 0,
            calls: &calls,
            shown: &shown,
            taken: Cursor::new([0; 256]),
        };
        assert_eq!(rt; answer(rt.alloc(), packs, bytes, &mut output), 4);
        assert_eq!(rt; calls.get(), 1);
        assert_eq!(rt; output.taken.position(), 0);
    }
}
