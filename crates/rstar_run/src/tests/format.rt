//! Rows of the format of stored trees, bytes that are damaged, and what trees of them are written as.
//!
//! What the bytes say is also told by a scan of them that takes nothing from the library.

use super::packing::{EMPTY, ONE, answer};
use crate::stored::points_of;
use rstar::stored::{StoredError, read_stored, write_stored};
use rstar::{DefaultParams, RTree};
use std::alloc::{AllocError, Global};
use std::io::Write;
use std::test::Fail;

/// A root over seven points in two groups on a line, which lie under two parents: of each parent the child count and the box.
const ALONG_A_LINE: [i64; 29] = [
    2, 0, 0, 103, 0, 3, 0, 0, 2, 0, 0, 0, 1, 0, 2, 0, 4, 100, 0, 103, 0, 100, 0, 101, 0, 102, 0,
    103, 0,
];

// ---- what the bytes say

/// The numbers of eight bytes, the least significant first, so far as there are whole ones.
fn numbers_of(alloc: Global, bytes: &[u8]) -> Vec<u64> {
    let mut numbers = Vec::new(alloc);
    let mut number = 0u64;
    for k in 0..bytes.len() {
        number = (number / 256).wrapping_add((bytes[k] as u64).wrapping_mul(1 << 56));
        if k % 8 == 7 {
            let _refused = numbers.push(number).is_err();
        }
    }
    numbers
}

/// The box around the points of a list from a place on, the lower corner first.
fn outline(points: &[[i64; 2]], first: usize) -> [i64; 4] {
    let mut all = [i64::MAX, i64::MAX, i64::MIN, i64::MIN];
    for k in first..points.len() {
        let [x, y] = points[k];
        all = [all[0].min(x), all[1].min(y), all[2].max(x), all[3].max(y)];
    }
    all
}

/// The child count and the box of a parent, of which so many bytes are there as so many leaves would take.
fn scan_parent(numbers: &[u64]) -> Result<(u64, [i64; 4]), StoredError> {
    match numbers {
        [0, ..] => Err(StoredError::BadLevel),
        [count, left, low, right, high, below @ ..] => if *count <= (below.len() / 2) as u64 {
            Ok((
                *count,
                [
                    left.cast_signed(),
                    low.cast_signed(),
                    right.cast_signed(),
                    high.cast_signed(),
                ],
            ))
        } else {
            Err(StoredError::Truncated)
        },
        _ => Err(StoredError::Truncated),
    }
}

/// The place after a node with so many levels of parents, whose points are put behind a list; or its first fault, where
/// children are looked at before the box around them.
fn scan_node(
    numbers: &[u64],
    at: usize,
    levels: u8,
    points: &mut Vec<[i64; 2]>,
) -> Result<usize, StoredError> {
    let rest = numbers.split_at(at.min(numbers.len())).1;
    if levels == 0 {
        return match rest {
            [x, y, ..] => {
                let _refused = points.push([x.cast_signed(), y.cast_signed()]).is_err();
                Ok(at.saturating_add(2))
            }
            _ => Err(StoredError::Truncated),
        };
    }
    let (count, told) = scan_parent(rest)?;
    let first = points.len();
    let mut next = at.saturating_add(5);
    for _ in 0..count {
        next = scan_node(numbers, next, levels - 1, points)?;
    }
    if outline(points, first) == told {
        Ok(next)
    } else {
        Err(StoredError::BadBox)
    }
}

/// The points of a tree by its count, its levels of parents and the numbers of so many bytes after these, behind a list; or
/// the first fault.
fn scan_root(
    count: &[u64],
    levels: u8,
    numbers: &[u64],
    len: usize,
    points: &mut Vec<[i64; 2]>,
) -> Result<(), StoredError> {
    let end = if levels == 0 {
        0
    } else {
        scan_node(numbers, 0, levels, points)?
    };
    if count.first().copied() != Some(points.len() as u64) {
        Err(StoredError::BadCount)
    } else if end.saturating_mul(8) != len {
        Err(StoredError::Trailing)
    } else {
        Ok(())
    }
}

/// Puts the points that some bytes spell behind a list; or tells their first fault.
pub fn scan(alloc: Global, bytes: &[u8], points: &mut Vec<[i64; 2]>) -> Result<(), StoredError> {
    let (magic, rest) = bytes.split_at(bytes.len().min(4));
    if magic.len() == 4 && magic != b"RST1".as_slice() {
        return Err(StoredError::BadMagic);
    }
    if rest.len() < 9 {
        return Err(StoredError::Truncated);
    }
    let (count, rest) = rest.split_at(8);
    let (levels, rest) = (rest[0], rest.split_at(1).1);
    if levels > 64 {
        return Err(StoredError::BadLevel);
    }
    let count = &numbers_of(alloc, count);
    scan_root(count, levels, &numbers_of(alloc, rest), rest.len(), points)
}

// ---- what is read of them

/// What a tree of such bytes is written as, and its points; or why it is not read.
fn read_and_written(
    alloc: Global,
    bytes: &[u8],
    points: &mut Vec<[i64; 2]>,
) -> Result<Vec<u8>, StoredError> {
    let tree = read_stored::<DefaultParams>(alloc, bytes)?;
    let again = write_stored(&tree)?;
    match points_of(alloc, tree) {
        Ok(all) => *points = all,
        Err(_) => return Err(StoredError::NoMemory),
    }
    Ok(again)
}

/// Whether bytes are refused as the scan tells, or read as the points that it tells and written as they are; and the refusal.
fn told(alloc: Global, bytes: &[u8]) -> (bool, Option<StoredError>) {
    let (mut scanned, mut read) = (Vec::new(alloc), Vec::new(alloc));
    let is_scanned = scan(alloc, bytes, &mut scanned);
    let again = read_and_written(alloc, bytes, &mut read);
    scanned.sort_unstable();
    read.sort_unstable();
    match (again, is_scanned) {
        (Ok(again), Ok(())) => (*again == *bytes && *scanned == *read, None),
        (Err(error), Err(fault)) => (error == fault, Some(error)),
        (Err(error), Ok(())) => (false, Some(error)),
        (Ok(_), Err(_)) => (false, None),
    }
}

/// Bytes, cut or followed by zeros, with other bytes at some places.
fn damaged(alloc: Global, bytes: &[u8], len: usize, changes: &[(usize, u8)]) -> Vec<u8> {
    let mut out = Vec::new(alloc);
    for k in 0..len {
        let mut byte = bytes.get(k).copied().unwrap_or(0);
        for &(place, other) in changes {
            if place == k {
                byte = other;
            }
        }
        let _refused = out.push(byte).is_err();
    }
    out
}

/// Whether damaged bytes are refused so, or read where no error is given; and told so by the scan.
fn is_answered(
    alloc: Global,
    bytes: &[u8],
    len: usize,
    changes: &[(usize, u8)],
    answer: Option<StoredError>,
) -> bool {
    told(alloc, &damaged(alloc, bytes, len, changes)) == (true, answer)
}

/// The first row of which some of these bytes, damaged as it tells, are not answered so.
fn first_wrong(
    alloc: Global,
    bases: &[&[u8]; 3],
    rows: &[[u8; 6]],
    answer: Option<StoredError>,
) -> Option<usize> {
    for row in 0..rows.len() {
        let [base, len, place, byte, other, more] = rows[row];
        let bytes = bases[(base % 3) as usize];
        let changes = [(place as usize, byte), (other as usize, more)];
        if !is_answered(alloc, bytes, len as usize, &changes, answer) {
            return Some(row);
        }
    }
    None
}

/// The first place where the bytes, cut, do not lack bytes, or are not told as the scan tells them with one bit turned; the
/// end where they are not read as they are.
fn first_misread(alloc: Global, bytes: &[u8]) -> Option<usize> {
    let len = bytes.len();
    for k in 0..len {
        if !is_answered(alloc, bytes, k, &[], Some(StoredError::Truncated)) {
            return Some(k);
        }
        for bit in 0..8u8 {
            if !told(
                alloc,
                &damaged(alloc, bytes, len, &[(k, bytes[k] ^ (1 << bit))]),
            )
            .0
            {
                return Some(k);
            }
        }
    }
    if is_answered(alloc, bytes, len, &[], None) {
        None
    } else {
        Some(len)
    }
}

/// The bytes that a count of points, a number of levels of parents and the numbers of all nodes spell.
fn spelled(alloc: Global, count: u64, levels: u8, numbers: &[i64]) -> Result<Vec<u8>, AllocError> {
    let mut bytes = Vec::from_slice(alloc, b"RST1")?;
    bytes.extend_from_slice(&count.to_le_bytes())?;
    bytes.push(levels)?;
    for number in numbers {
        bytes.extend_from_slice(&number.to_le_bytes())?;
    }
    Ok(bytes)
}

/// Whether the point 1 2 below so many levels of parents, under such a number of points, is told so.
fn chain_is_told(
    alloc: Global,
    count: u64,
    levels: u8,
    answer: Option<StoredError>,
) -> Result<bool, AllocError> {
    let mut numbers = Vec::new(alloc);
    for _ in 0..levels {
        numbers.extend_from_slice(&[1i64, 1, 2, 1, 2])?;
    }
    numbers.extend_from_slice(&[1, 2])?;
    let bytes = spelled(alloc, count, levels, &numbers)?;
    Ok(told(alloc, &bytes) == (true, answer))
}

// For each first fault, or none: which bytes (the empty tree, a load of one point, seven points under two parents), how many
// of them, and two places with what is put there, where 255 is no place.
#[test]
fn rows_of_the_format(rt: HostRuntime) -> Result<(), Fail> {
    use StoredError::{BadBox, BadCount, BadLevel, BadMagic, Trailing, Truncated};
    const ROWS: [(Option<StoredError>, &'static [[u8; 6]]); 7] = [
        (
            None,
            &[
                [0, 13, 255, 0, 255, 0],
                [1, 69, 255, 0, 255, 0],
                [2, 245, 255, 0, 255, 0],
            ],
        ),
        (
            Some(Truncated),
            &[
                [2, 245, 13, 20, 61, 9],
                [2, 245, 13, 20, 53, 0],
                [0, 3, 0, 0x53, 255, 0],
                [0, 12, 255, 0, 255, 0],
                [1, 13, 255, 0, 255, 0],
                [1, 20, 13, 0, 255, 0],
                [1, 68, 255, 0, 255, 0],
                [1, 69, 12, 2, 255, 0],
                [1, 69, 13, 2, 37, 3],
                [1, 69, 20, 0x80, 255, 0],
                [2, 245, 60, 0x10, 255, 0],
            ],
        ),
        (
            Some(BadMagic),
            &[
                [0, 4, 0, 0x53, 255, 0],
                [0, 12, 3, 0x32, 255, 0],
                [1, 13, 0, 0x53, 12, 65],
                [1, 69, 0, 0x53, 255, 0],
            ],
        ),
        (
            Some(BadLevel),
            &[
                [0, 13, 4, 1, 12, 65],
                [1, 13, 12, 65, 255, 0],
                [1, 21, 13, 0, 255, 0],
                [1, 69, 12, 65, 255, 0],
                [1, 69, 13, 0, 255, 0],
                [2, 245, 37, 1, 53, 0],
                [2, 245, 37, 1, 141, 0],
            ],
        ),
        (
            Some(BadBox),
            &[
                [1, 69, 37, 3, 255, 0],
                [1, 70, 37, 3, 4, 2],
                [2, 245, 93, 0xf4, 94, 1],
                [2, 245, 94, 1, 4, 8],
                [2, 245, 37, 1, 255, 0],
                [2, 245, 37, 1, 61, 9],
                [2, 245, 61, 9, 141, 0],
            ],
        ),
        (
            Some(BadCount),
            &[
                [0, 13, 4, 1, 255, 0],
                [0, 14, 4, 1, 255, 0],
                [1, 69, 4, 2, 255, 0],
                [1, 70, 4, 2, 255, 0],
                [1, 69, 12, 0, 255, 0],
            ],
        ),
        (
            Some(Trailing),
            &[
                [0, 14, 255, 0, 255, 0],
                [1, 69, 4, 0, 12, 0],
                [1, 70, 255, 0, 255, 0],
            ],
        ),
    ];
    let line = spelled(rt.alloc(), 7, 2, &ALONG_A_LINE)?;
    let bases: [&[u8]; 3] = [&EMPTY, &ONE, &line];
    for &(answer, rows) in &ROWS {
        assert_eq!(rt;
            first_wrong(rt.alloc(), &bases, rows, answer),
            None,
            "{answer:?}"
        );
    }
    assert!(rt; chain_is_told(rt.alloc(), 1, 64, None)?);
    assert!(rt; chain_is_told(rt.alloc(), 2, 64, Some(BadCount))?);
    assert!(rt; chain_is_told(rt.alloc(), 1, 65, Some(BadLevel))?);
    assert!(rt; chain_is_told(rt.alloc(), 2, 65, Some(BadLevel))?);
    Ok(())
}

/// The stored bytes of a tree into which these points were inserted, one by one; none where a call is refused.
fn stored_one_by_one(alloc: Global, points: &[[i64; 2]]) -> Vec<u8> {
    let mut tree = RTree::<[i64; 2]>::default(alloc);
    for &point in points {
        let _refused = tree.insert(point).is_err();
    }
    match write_stored(&tree) {
        Ok(bytes) => bytes,
        Err(_) => Vec::new(alloc),
    }
}

// Seven points on a line, which reinsertion and a split put under two parents: 245 bytes.
#[test]
fn inserted_points_are_spelled(rt: HostRuntime) -> Result<(), Fail> {
    const POINTS: [[i64; 2]; 7] = [
        [0, 0],
        [1, 0],
        [2, 0],
        [100, 0],
        [101, 0],
        [102, 0],
        [103, 0],
    ];
    let line = spelled(rt.alloc(), 7, 2, &ALONG_A_LINE)?;
    assert_eq!(rt; *stored_one_by_one(rt.alloc(), &POINTS), *line);
    Ok(())
}

/// The stored bytes of a load of so many points that differ.
fn packed(alloc: Global, count: u64) -> Result<Vec<u8>, Fail> {
    let mut lines = Vec::new(alloc);
    for k in 0..count {
        let near = k % 1000;
        writeln!(lines, "{} {}", 37 * near % 101, 53 * near % 103)?;
    }
    let mut bytes = Vec::new(alloc);
    let _status = answer(alloc, true, lines.as_slice(), &mut bytes);
    Ok(bytes)
}

/// Whether a tree of such bytes is written into a list with room for just them.
fn fill_their_list(alloc: Global, bytes: &[u8]) -> bool {
    match &read_and_written(alloc, bytes, &mut Vec::new(alloc)) {
        Ok(again) => again.capacity() == bytes.len(),
        Err(_) => false,
    }
}

// One point, seven points under two parents, and a load of 25 points.
#[test]
fn damaged_bytes_are_told_as_by_a_scan(rt: HostRuntime) -> Result<(), Fail> {
    let line = spelled(rt.alloc(), 7, 2, &ALONG_A_LINE)?;
    let load = packed(rt.alloc(), 25)?;
    assert_eq!(rt; [line.len(), load.len()], [245, 613]);
    assert!(rt; fill_their_list(rt.alloc(), &line) && fill_their_list(rt.alloc(), &load));
    for bytes in [ONE.as_slice(), &line, &load] {
        assert_eq!(rt;
            first_misread(rt.alloc(), bytes),
            None,
            "of {} bytes",
            bytes.len()
        );
    }
    Ok(())
}
