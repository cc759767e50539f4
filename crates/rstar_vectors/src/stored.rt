//! Stored trees that were read: each shows what was written, and takes and loses elements as any tree. Rows of the format and
//! bytes that are damaged stand beside the program that packs and unpacks.

ghost use Rattle.std.specs.Prelude.{◌≡◌, IfOk};
ghost use Rattle.rstar.specs.Shown.{shown_root};
ghost use Rattle.rstar.specs.Stored.{boxes, places};
ghost use Rattle.rstar.specs.Trees.{root_of, IsWholeTree};

use crate::node_sizes::{Small, Wide};
use crate::scenarios::{let_go, loaded, stands_within};
use crate::trials::{ALL, By, Drained, Order, State, Step, go_on};
use rstar::stored::{StoredError, read_stored, write_stored};
use rstar::{AABB, DefaultParams, RTree, RTreeParams};
use std::alloc::Global;

/// Seven points in two groups on a line, which lie under two parents.
pub(crate) const ALONG_A_LINE: [[i64; 2]; 7] = [
    [0, 0],
    [1, 0],
    [2, 0],
    [100, 0],
    [101, 0],
    [102, 0],
    [103, 0],
];

/// Points that differ, on a line that wraps around in both coordinates.
fn points(alloc: Global, count: usize) -> Vec<[i64; 2]> {
    let mut points = Vec::new(alloc);
    for i in 0..count {
        let near = i % 1000;
        let _refused = points
            .push([((37 * near) % 101) as i64, ((53 * near) % 103) as i64])
            .is_err();
    }
    points
}

/// What a load of these points is written as; nothing where that is refused.
fn written<Params: RTreeParams>(alloc: Global, points: &[[i64; 2]]) -> Vec<u8> {
    let tree = loaded::<_, Params>(alloc, points);
    let bytes = match write_stored(&tree) {
        Ok(bytes) => bytes,
        Err(_) => Vec::new(alloc),
    };
    let_go(tree);
    bytes
}

/// The tree that is read of what a tree is written as, which shows the same.
#[tactic(auto)]
pub fn read_back<Params: RTreeParams, Others: RTreeParams>(
    alloc: Global,
    tree: &RTree<[i64; 2], Params>,
) -> Result<RTree<[i64; 2], Others>, StoredError>
    requires { IsWholeTree boxes places Params.MAX_SIZE tree.now }
    ensures same { IfOk result (λ read. shown_root (root_of read) ≡ shown_root (root_of tree.now)) }
    ensures whole { IfOk result (IsWholeTree boxes places Others.MAX_SIZE) }
{
    let bytes = write_stored(tree)?;
    read_stored(alloc, &bytes)
}

/// Reads bytes as a tree of the first so many points, in nodes no wider than told, which takes the others and stays so;
/// then the first ones leave it, and a drain gives the others. 0 where it is not read, or does not stand.
fn read_and_go_on<Params: RTreeParams>(
    alloc: Global,
    bytes: &[u8],
    points: &[[i64; 2]],
    count: usize,
    widest: usize,
) -> Result<(), usize> {
    let rest = points.len().saturating_sub(count);
    let steps = [
        Step::Left(count),
        Step::InSized(count, ALL, 1, widest),
        Step::Out(0, count, Order::Backward, By::Equality),
        Step::Drain(Drained::All, ALL, rest),
        Step::Are(State::Given, count, ALL, rest),
        Step::Left(0),
    ];
    let none = (AABB::from_point([0, 0]), [0, 0], 0);
    match read_stored::<Params>(alloc, bytes) {
        Ok(tree) => {
            let is_so = stands_within(&tree, 1, widest);
            let gone = go_on(alloc, tree, points, &none, &steps);
            if is_so { gone } else { Err(0) }
        }
        Err(_) => Err(0),
    }
}

// How many points are loaded, how many go in then, and the most children that a node may have: in nodes of the sizes that were
// written, or in small ones after wide ones.
#[test]
fn trees_that_were_read_take_and_lose_elements(rt: HostRuntime) {
    const ROWS: [(usize, usize, usize, bool); 8] = [
        (0, 30, 6, false),
        (7, 30, 6, false),
        (25, 40, 7, false),
        (300, 200, 9, false),
        (0, 30, 4, true),
        (3, 30, 4, true),
        (25, 40, 25, true),
        (300, 200, 75, true),
    ];
    for &(count, taken, widest, is_small) in &ROWS {
        let all = points(rt.alloc(), count + taken);
        let some = all.split_at(all.len().min(count)).0;
        let gone = if is_small {
            let bytes = written::<Wide>(rt.alloc(), some);
            read_and_go_on::<Small>(rt.alloc(), &bytes, &all, count, widest)
        } else {
            let bytes = written::<DefaultParams>(rt.alloc(), some);
            read_and_go_on::<DefaultParams>(rt.alloc(), &bytes, &all, count, widest)
        };
        assert_eq!(rt; gone, Ok(()), "of {count}");
    }
}
