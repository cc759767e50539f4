//! Marks among the allocations of a test.

use std::alloc::Global;

/// How many bytes a mark asks for. `scripts/refuse_memory.sh` counts the allocations after one such, up to the next.
const MARK: usize = 10007;

/// Asks for a list that nothing but a mark asks for, and whether it was had.
pub(crate) fn is_marked(alloc: Global) -> bool {
    match &Vec::<u8>::with_capacity(alloc, MARK) {
        Ok(list) => MARK <= list.capacity(),
        Err(_) => false,
    }
}
