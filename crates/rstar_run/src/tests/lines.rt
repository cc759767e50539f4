//! Whole runs: over texts, over a reader that fails or waits, and over a writer that fails.

ghost use Rattle.std.specs.Prelude.{Some};
ghost use Rattle.rstar_run.specs.Runs.{Ran};

use super::{Feed, Terminal, expect_written, mark};
use crate::program::run;
use std::alloc::{AllocError, Global};
use std::cell::Cell;
use std::io;
use std::io::{Cursor, Error, ErrorKind, Read};
use std::process::Abort;
use std::test::Fail;

/// What the contract of a run says of bytes in memory.
fn run_on_bytes(alloc: Global, input: &[u8], output: &mut Vec<u8>) -> u8
    ensures { Ran (Some input.now) (Some output.old.items) (Some output.new.items) result }
{
    run(alloc, input, output)
}

fn expect_run(rt: &(impl AllocGlobal + Abort), input: &[u8], want: &str, status: u8) {
    let mut output = Vec::new(rt.alloc());
    assert_eq!(rt;
        run_on_bytes(rt.alloc(), input, &mut output),
        status,
        "at {input:?}"
    );
    assert_eq!(rt; output.as_slice(), want.as_bytes(), "at {input:?}");
}

#[test]
fn answers_lines(rt: HostRuntime) {
    let rows: [(&[u8], &str); 38] = [
        (b"", ""),
        (b"insert 7 0 0 2 2\nin 0 0 2 2\nsize\n", "ok\n7\n1\n"),
        // Equal rectangles and IDs count as often as they were inserted.
        (
            b"insert 7 0 0 2 2\ninsert 7 0 0 2 2\nin 0 0 2 2\nsize\n",
            "ok\nok\n7 7\n2\n",
        ),
        (b"in 5 5 4 4\n", "-\n"),
        // IDs ascend; what lies partly or wholly outside is left out.
        (
            b"insert 9 0 0 1 1\ninsert 10 1 1 2 2\ninsert 2 2 2 3 3\ninsert 1 5 5 5 5\nin 0 0 2 2\nin 0 0 9 9\n",
            "ok\nok\nok\nok\n9 10\n1 2 9 10\n",
        ),
        // Corners come in any order.
        (b"insert 7 2 0 0 2\nin 2 2 0 0\nin 1 0 2 2\n", "ok\n7\n-\n"),
        (b"size\r\nsize\r\n", "0\n0\n"),
        (b"size\nsize", "0\n0\n"),
        (b"\n\r\n   \nsize\n\n", "0\n"),
        (b"  size  \n   insert  7   0 0  2 2 \n", "0\nok\n"),
        (b"insert 7 -0 -0 -0 -0\nin 0 0 0 0\n", "ok\n7\n"),
        (b"insert 007 00 0 -002 2\nin -2 0 0 2\n", "ok\n7\n"),
        (
            b"insert 18446744073709551615 -9223372036854775808 -9223372036854775808 9223372036854775807 9223372036854775807\nsize",
            "ok\n1\n",
        ),
        (
            b"insert 18446744073709551615 9223372036854775807 0 9223372036854775807 0\nin 9223372036854775807 0 -9223372036854775808 0",
            "ok\n18446744073709551615\n",
        ),
        (
            b"insert 00000000000000000000000000018446744073709551615 0 0 0 0\nin 0 0 0 0",
            "ok\n18446744073709551615\n",
        ),
        (
            b"insert 9 0 0 0 0\ninsert 10 0 0 0 0\ninsert 100 0 0 0 0\ninsert 8 0 0 0 0\ninsert 10 0 0 0 0\nin 0 0 0 0\nsize\n",
            "ok\nok\nok\nok\nok\n8 9 10 10 100\n5\n",
        ),
        // A point meets and contains what it does not hold.
        (
            b"insert 0 0 0 2 2\nin 1 1 1 1\nhit 1 1 1 1\nat 1 1\n",
            "ok\n-\n0\n0\n",
        ),
        // Touching is enough, at a corner too; borders belong to a rectangle.
        (
            b"insert 7 0 0 2 2\ninsert 8 2 2 4 4\nhit 2 2 2 2\nhit 2 3 0 9\nhit 5 5 9 9\nat 2 2\nat 4 3\nat 5 5\n",
            "ok\nok\n7 8\n8\n-\n7 8\n8\n-\n",
        ),
        (
            b"insert 1 0 0 40 100\ninsert 2 60 0 100 100\ninsert 3 25 0 75 100\nhit 0 0 40 100\nhit 25 0 75 100\n",
            "ok\nok\nok\n1 3\n1 2 3\n",
        ),
        // Limits are squared distances; a distance never lies below 0.
        (
            b"insert 7 1 1 2 4\nwithin 0 0 2\nwithin 0 0 1\nwithin 0 1 1\nwithin 2 6 3\nwithin 2 6 4\nwithin 2 2 -0\nwithin 2 2 -1\n",
            "ok\n7\n-\n7\n-\n7\n7\n-\n",
        ),
        // Distances beyond a signed number of 64 bits are held at the greatest one.
        (
            b"insert 7 -9223372036854775808 0 -9223372036854775808 0\nwithin 9223372036854775807 0 9223372036854775807\nwithin 9223372036854775807 0 9223372036854775806\n",
            "ok\n7\n-\n",
        ),
        (b"hit 0 0 1 1\nat 0 0\nwithin 0 0 9\n", "-\n-\n-\n"),
        (
            b"insert 7 0 0 2 2\ninsert 8 2 2 4 4\nhit 2 2 2 2\nin 0 0 2 2\nat 5 5\nnear 0 0 5\nsize\ndrain hit 3 3 9 9 5\npop 9 9\npop 9 9\nsize\n",
            "ok\nok\n7 8\n7\n-\n7:0 8:8\n2\n8\n7\n-\n0\n",
        ),
        (
            b"insert 1 0 0 1 1\ninsert 2 0 0 1 1\nremove 2 0 0 1 1\nremove 2 0 0 1 1\ndrain in 0 0 9 9 0\nremoveat 1 1\nremoveat 1 1\n",
            "ok\nok\n2\n-\n-\n1\n-\n",
        ),
        // A removal asks for the very box and ID; of equal rectangles one leaves.
        (
            b"insert 7 0 0 2 2\nremove 8 0 0 2 2\nremove 7 0 0 2 3\nremove 7 0 0 1 2\nsize\nremove 7 2 0 0 2\nsize\n",
            "ok\n-\n-\n-\n1\n7\n0\n",
        ),
        (
            b"insert 7 0 0 2 2\ninsert 7 0 0 2 2\nremove 7 0 0 2 2\nsize\nin 0 0 2 2\n",
            "ok\nok\n7\n1\n7\n",
        ),
        (
            b"insert 7 0 0 2 2\nremoveat 3 2\nremoveat 2 0\ninsert 7 0 0 2 2\nsize\n",
            "ok\n-\n7\nok\n1\n",
        ),
        // A drain takes no more than there are, and its IDs ascend.
        (
            b"insert 3 0 0 1 1\ninsert 1 0 0 1 1\ninsert 2 5 5 6 6\ndrain in 0 0 4 4 9\nsize\ndrain hit 6 6 6 6 18446744073709551615\ndrain hit 0 0 9 9 1\nsize\n",
            "ok\nok\nok\n1 3\n1\n2\n-\n0\n",
        ),
        (
            b"near 0 0 3\ninsert 1 3 4 3 4\ninsert 2 0 1 9 1\ninsert 3 -2 0 -2 0\nnear 0 0 0\nnear 0 0 2\nnear 0 0 18446744073709551615\nsize\n",
            "-\nok\nok\nok\n-\n2:1 3:4\n2:1 3:4 1:25\n3\n",
        ),
        // At equal distance the lesser corners come first, and at equal corners the lesser ID.
        (
            b"insert 9 0 0 1 1\ninsert 4 0 0 1 1\ninsert 5 -3 0 -1 0\nnear 0 0 3\npop 0 0\npop 5 5\n",
            "ok\nok\nok\n4:0 9:0 5:1\n4\n9\n",
        ),
        (
            b"insert 1 3 0 3 0\ninsert 2 -3 0 -3 0\nnear 0 0 2\n",
            "ok\nok\n2:9 1:9\n",
        ),
        (
            b"pop 0 0\ninsert 1 3 4 3 4\ninsert 2 0 1 9 1\npop 0 0\npop 0 0\npop 0 0\n",
            "-\nok\nok\n2\n1\n-\n",
        ),
        // A load takes the place of all that was there, and its blank lines are none of its lines.
        (b"load 0\nsize\n", "ok\n0\n"),
        (b"insert 7 0 0 2 2\nload 0\nin 0 0 9 9\n", "ok\nok\n-\n"),
        (
            b"insert 7 0 0 2 2\nload 3\n9 0 0 1 1\n\n10 1 1 0 0\r\n  \n2   2 2 3 3\n\nin 0 0 9 9\nsize\nin 0 0 1 1\n",
            "ok\nok\n2 9 10\n3\n9 10\n",
        ),
        (
            b"load 1\n5 0 0 1 1\ninsert 4 0 0 1 1\nload 2\n7 0 0 1 1\n7 0 0 1 1\nremove 7 1 1 0 0\nhit 1 1 1 1\nremove 5 0 0 1 1\n",
            "ok\nok\nok\n7\n7\n-\n",
        ),
        (
            b"load 7\n7 0 0 0 0\n6 1 0 1 0\n5 2 0 2 0\n4 100 0 100 0\n3 101 0 101 0\n2 102 0 102 0\n1 103 0 103 0\nhit 0 0 200 0\nnear 0 0 4\ndrain in 0 0 2 2 9\nsize",
            "ok\n1 2 3 4 5 6 7\n7:0 6:1 5:4 4:10000\n5 6 7\n4\n",
        ),
        // Numbers at their limits, and more digits than those have.
        (
            b"load 2\n18446744073709551615 -9223372036854775808 -0 9223372036854775807 00\n  00000000000000000000000000000000010  -000000000000000000000000000000000009223372036854775808 0   0 0 \nin -9223372036854775808 0 9223372036854775807 0\n",
            "ok\n10 18446744073709551615\n",
        ),
    ];
    for (input, want) in rows {
        expect_run(&rt, input, want, 0);
    }
}

#[test]
fn stops_at_a_bad_line(rt: HostRuntime) {
    let rows: [&[u8]; 72] = [
        b"insert 7 0 0 2\n",
        b"insert 7 0 0 2 2 2\n",
        b"insert 7 0 0 2 2 2 2 2 2 2\n",
        b"insert\n",
        b"in 1 2 3\n",
        b"in 1 2 3 4 5\n",
        b"hit 1 2 3\n",
        b"hit 1 2 3 4 5\n",
        b"at 1\n",
        b"at 1 2 3\n",
        b"within 1 2\n",
        b"within 1 2 3 4\n",
        b"within 1 2 9223372036854775808\n",
        b"remove 7 0 0 2\n",
        b"remove 7 0 0 2 2 2\n",
        b"remove -7 0 0 2 2\n",
        b"removeat 1\n",
        b"removeat 1 2 3\n",
        b"pop 1\n",
        b"pop 1 2 3\n",
        b"drain\n",
        b"drain 0 0 2 2 1\n",
        b"drain in 0 0 2 2\n",
        b"drain in 0 0 2 2 -1\n",
        b"drain in 0 0 2 2 18446744073709551616\n",
        b"drain at 0 0 2 2 1\n",
        b"drain hits 0 0 2 2 1\n",
        b"drain \xff 0 0 2 2 1\n",
        b"drain hit 0 0 2 2 1 1\n",
        b"near 1 2\n",
        b"near 1 2 -3\n",
        b"near 1 2 3 4\n",
        b"size 1\n",
        b"Size\n",
        b"siz\n",
        b"sizes\n",
        b"hits 0 0 2 2\n",
        b"7 0 0 2 2\n",
        b"insert +1 0 0 2 2\n",
        b"insert 1 0 0 2 +2\n",
        b"insert 1 0 0 2 2.0\n",
        b"insert 1.0 0 0 2 2\n",
        b"insert -0 0 0 2 2\n",
        b"insert -1 0 0 2 2\n",
        b"insert - 0 0 2 2\n",
        b"insert 1 - 0 2 2\n",
        b"insert 1 0 0 2 --2\n",
        b"insert 1 0 0 2 2-\n",
        b"insert 1 0 0 2 x\n",
        b"insert 18446744073709551616 0 0 2 2\n",
        b"insert 99999999999999999999 0 0 2 2\n",
        b"insert 1 0 0 2 9223372036854775808\n",
        b"insert 1 0 0 2 -9223372036854775809\n",
        b"insert 1 0 0 2 18446744073709551616\n",
        b"in 0 0 2 0x2\n",
        b"size\t\n",
        b"\tsize\n",
        b"\t\n",
        b"in\t0 0 2 2\n",
        // A CR counts as an end only right before an LF.
        b"size\r",
        b"size\r\r\n",
        b"\rsize\n",
        b"size \xff\n",
        b"\xff\n",
        b"siz\xc3\xa9\n",
        b"load\n",
        b"load x\n",
        b"load -1\n",
        b"load 18446744073709551616\n",
        b"load 1 1\n",
        b"loads 1\n",
        // A line of a load alone.
        b"1 0 0 1 1\n",
    ];
    for bad in rows {
        expect_run(&rt, bad, "error: line 1\n", 2);
    }
    for (input, want) in [
        (b"size\nin 1 2 3\n".as_slice(), "0\nerror: line 2\n"),
        (b"size\nin 1 2 3", "0\nerror: line 2\n"),
        // Blank lines are counted, and no line after a bad one runs.
        (b"\n\r\n \nsize\n\nbad\nsize\n", "0\nerror: line 6\n"),
        // A bad line inside a load has its own number, and the end of the input the next one.
        (b"load 2\n1 0 0 1 1\nsize\n2 0 0 1 1\n", "error: line 3\n"),
        (
            b"size\nload 2\n1 0 0 1 1\n\n2 0 0 1\nsize\n",
            "0\nerror: line 5\n",
        ),
        (b"load 1\n1 0 0 1 1 1\n", "error: line 2\n"),
        (b"load 1\ninsert 1 0 0 1 1\n", "error: line 2\n"),
        (b"load 1\n1 0 0 1 1 1 1 1 1\n", "error: line 2\n"),
        (b"load 1\n-1 0 0 1 1\n", "error: line 2\n"),
        (b"load 1\n1\n", "error: line 2\n"),
        (b"load 1\n- 0 0 1 1\n", "error: line 2\n"),
        (b"load 1\n+1 0 0 1 1\n", "error: line 2\n"),
        (b"load 1\n1x 0 0 1 1\n", "error: line 2\n"),
        (b"load 1\n1 - 0 1 1\n", "error: line 2\n"),
        (b"load 1\n1 0 0 1 --1\n", "error: line 2\n"),
        (b"load 1\n1 0 0 1 1-\n", "error: line 2\n"),
        (b"load 1\n18446744073709551616 0 0 1 1\n", "error: line 2\n"),
        (b"load 1\n99999999999999999999 0 0 1 1\n", "error: line 2\n"),
        (b"load 1\n1 9223372036854775808 0 1 1\n", "error: line 2\n"),
        (b"load 1\n1 0 0 1 -9223372036854775809\n", "error: line 2\n"),
        (b"load 1\n1\t0 0 1 1\n", "error: line 2\n"),
        (b"load 1\n1 0 0 1 1\r\r\n", "error: line 2\n"),
        (b"load 2\n1 0 0 1 1", "error: line 3\n"),
        (b"load 2\n1 0 0 1 1\n\n \n", "error: line 5\n"),
        (b"load 1", "error: line 2\n"),
        (b"load 18446744073709551615\n1 0 0 1 1\n", "error: line 3\n"),
    ] {
        expect_run(&rt, input, want, 2);
    }
}

/// Lines, each with its answer; the last one is bad.
const LINES: [(&'static [u8], &'static str); 12] = [
    (b"insert 7 0 0 2 2\n", "ok\n"),
    (b"insert 8 2 2 4 4\n", "ok\n"),
    (b"hit 2 2 2 2\n", "7 8\n"),
    (b"in 0 0 2 2\n", "7\n"),
    (b"at 5 5\n", "-\n"),
    (b"near 0 0 5\n", "7:0 8:8\n"),
    (b"size\n", "2\n"),
    (b"drain hit 3 3 9 9 5\n", "8\n"),
    (b"pop 9 9\n", "7\n"),
    (b"pop 9 9\n", "-\n"),
    (b"size\n", "0\n"),
    (b"bad\n", "error: line 12\n"),
];

/// The first so many lines, and of the next one its first bytes.
fn first_lines(alloc: Global, count: usize, bytes: usize) -> Result<Vec<u8>, AllocError> {
    let mut input = Vec::new(alloc);
    for k in 0..LINES.len() {
        let line = LINES[k].0;
        if k < count {
            input.extend_from_slice(line)?;
        } else if k == count {
            input.extend_from_slice(&line[..bytes.min(line.len())])?;
        }
    }
    Ok(input)
}

/// What is printed of the first so many lines, and an end.
fn first_answers(alloc: Global, count: usize, end: &str) -> Result<String, AllocError> {
    let mut want = String::new(alloc);
    for k in 0..LINES.len() {
        if k < count {
            want.push_str(LINES[k].1)?;
        }
    }
    want.push_str(end)?;
    Ok(want)
}

// A reader that fails after k whole lines, given whole or byte by byte: the answers to these, and no part of a line runs. A
// failed read is no refused memory, whatever the reader says.
#[test]
fn a_read_that_fails_leaves_the_answers_so_far(rt: HostRuntime) -> Result<(), Fail> {
    for count in 0..LINES.len() {
        for (most, kind) in [
            (1, ErrorKind::ConnectionReset),
            (usize::MAX, ErrorKind::OutOfMemory),
        ] {
            let bytes = first_lines(rt.alloc(), count, 3)?;
            let want = first_answers(rt.alloc(), count, "error: input\n")?;
            let given = Cell::new(0);
            let input = Feed {
                bytes: &bytes,
                most,
                fails: Some(kind),
                given: &given,
            };
            let mut taken = Cursor::new([0u8; 256]);
            assert_eq!(rt; run(rt.alloc(), input, &mut taken), 4);
            expect_written(&rt, &taken, &want, &bytes);
        }
    }
    Ok(())
}

// All lines but the bad one, from a slice and into a fixed array, which take no memory. Where memory is refused, what is
// printed are the answers to some of the first lines, and why there are no more.
#[test]
fn a_refused_line_is_the_last(rt: HostRuntime) -> Result<(), Fail> {
    let lines = LINES.len() - 1;
    let input = first_lines(rt.alloc(), lines, 0)?;
    let mut taken = Cursor::new([0u8; 256]);
    mark(rt.alloc());
    let status = run(rt.alloc(), input.as_slice(), &mut taken);
    mark(rt.alloc());
    let length = usize::try_from(taken.position()).unwrap_or(0);
    let written = taken.get_ref().get(..length).unwrap_or(&[]);
    let mut is_so = false;
    for count in 0..lines {
        let want = first_answers(rt.alloc(), count, "error: memory\n")?;
        is_so = is_so || status == 3 && written == want.as_bytes();
    }
    let want = first_answers(rt.alloc(), lines, "")?;
    assert!(rt; is_so || status == 0 && written == want.as_bytes());
    Ok(())
}

/// Gives a piece at each read, and fails where less was shown before than the piece waits for.
#[derive(Drop)]
struct Typist<'a> {
    pieces: &'a [(&'a [u8], u64)],
    next: usize,
    shown: &'a Cell<u64>,
}

impl Read for Typist<'_> {
    fn read(&mut self, buf: &mut [u8]) -> io::Result<usize> {
        let Some((piece, due)) = self.pieces.get(self.next) else {
            return Ok(0);
        };
        if self.shown.get() < *due {
            return Err(Error::from(ErrorKind::WouldBlock));
        }
        self.next = self.next.saturating_add(1);
        let mut bytes: &[u8] = piece;
        bytes.read(buf)
    }
}

#[test]
fn flushes_before_it_waits(rt: HostRuntime) {
    let calls = Cell::new(0);
    let shown = Cell::new(0);
    // The second read comes in the middle of a line.
    let pieces: [(&[u8], u64); 4] = [
        (b"size\nsi", 0),
        (b"ze\n", 2),
        (b"insert 7 0 0 2 2\nin 0 0 2 2\nbad", 4),
        (b"\nsize\n", 9),
    ];
    let input = Typist {
        pieces: &pieces,
        next: 0,
        shown: &shown,
    };
    let mut output = Terminal {
        good: 9,
        calls: &calls,
        shown: &shown,
        taken: Cursor::new([0; 256]),
    };
    assert_eq!(rt; run(rt.alloc(), input, &mut output), 2);
    expect_written(
        &rt,
        &output.taken,
        "0\n0\nok\n7\nerror: line 5\n",
        b"pieces",
    );
}

// A writer that fails at its n-th call, the last of which tells of the bad line: the answers before it, and no line is
// read after the one that it was to answer.
#[test]
fn stops_at_a_failed_write(rt: HostRuntime) -> Result<(), Fail> {
    let bytes = first_lines(rt.alloc(), LINES.len(), 0)?;
    for good in 0..LINES.len() + 1 {
        for most in [1, usize::MAX] {
            let want = first_answers(rt.alloc(), good, "")?;
            let (calls, shown, given) = (Cell::new(0), Cell::new(0), Cell::new(0));
            let input = Feed {
                bytes: &bytes,
                most,
                fails: None,
                given: &given,
            };
            let mut output = Terminal {
                good,
                calls: &calls,
                shown: &shown,
                taken: Cursor::new([0; 256]),
            };
            let status = run(rt.alloc(), input, &mut output);
            expect_written(&rt, &output.taken, &want, &bytes);
            let is_cut = good < LINES.len();
            assert_eq!(rt; status, if is_cut { 4 } else { 2 });
            assert_eq!(rt; calls.get(), if is_cut { good + 1 } else { good });
            let read = first_lines(rt.alloc(), good + 1, 0)?;
            assert_eq!(rt; given.get(), read.len());
        }
    }
    Ok(())
}
