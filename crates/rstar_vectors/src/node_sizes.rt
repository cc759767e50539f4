//! Node sizes, from the smallest that are lawful to the largest.

use rstar::RTreeParams;

/// Small nodes, with one child reinserted.
pub(crate) struct Small;

impl RTreeParams for Small {
    ghost use Rattle.std.proofs.Common.{arith};

    ghost MIN_SIZE = { 2 };

    ghost MAX_SIZE = { 4 };

    ghost REINSERTION_COUNT = { 1 };

    const MIN_SIZE: usize = 2;

    const MAX_SIZE: usize = 4;

    const REINSERTION_COUNT: usize = 1;

    ghost max_at_least_four = { Prim.omega arith };

    ghost max_fits = { Prim.omega arith };

    ghost min_positive = { Prim.omega arith };

    ghost min_at_most_half = { Prim.omega arith };

    ghost reinsertion_leaves = { Prim.omega arith };
}

/// Small nodes without reinsertion.
pub(crate) struct Splitting;

impl RTreeParams for Splitting {
    ghost use Rattle.std.proofs.Common.{arith};

    ghost MIN_SIZE = { 2 };

    ghost MAX_SIZE = { 4 };

    ghost REINSERTION_COUNT = { 0 };

    const MIN_SIZE: usize = 2;

    const MAX_SIZE: usize = 4;

    const REINSERTION_COUNT: usize = 0;

    ghost max_at_least_four = { Prim.omega arith };

    ghost max_fits = { Prim.omega arith };

    ghost min_positive = { Prim.omega arith };

    ghost min_at_most_half = { Prim.omega arith };

    ghost reinsertion_leaves = { Prim.omega arith };
}

/// Nodes with nearly all children reinserted.
pub(crate) struct Emptying;

impl RTreeParams for Emptying {
    ghost use Rattle.std.proofs.Common.{arith};

    ghost MIN_SIZE = { 1 };

    ghost MAX_SIZE = { 10 };

    ghost REINSERTION_COUNT = { 8 };

    const MIN_SIZE: usize = 1;

    const MAX_SIZE: usize = 10;

    const REINSERTION_COUNT: usize = 8;

    ghost max_at_least_four = { Prim.omega arith };

    ghost max_fits = { Prim.omega arith };

    ghost min_positive = { Prim.omega arith };

    ghost min_at_most_half = { Prim.omega arith };

    ghost reinsertion_leaves = { Prim.omega arith };
}

/// Large nodes, with one child reinserted.
pub(crate) struct Large;

impl RTreeParams for Large {
    ghost use Rattle.std.proofs.Common.{arith};

    ghost MIN_SIZE = { 10 };

    ghost MAX_SIZE = { 20 };

    ghost REINSERTION_COUNT = { 1 };

    const MIN_SIZE: usize = 10;

    const MAX_SIZE: usize = 20;

    const REINSERTION_COUNT: usize = 1;

    ghost max_at_least_four = { Prim.omega arith };

    ghost max_fits = { Prim.omega arith };

    ghost min_positive = { Prim.omega arith };

    ghost min_at_most_half = { Prim.omega arith };

    ghost reinsertion_leaves = { Prim.omega arith };
}

/// Nodes of ten to forty children.
pub(crate) struct Tens;

impl RTreeParams for Tens {
    ghost use Rattle.std.proofs.Common.{arith};

    ghost MIN_SIZE = { 10 };

    ghost MAX_SIZE = { 40 };

    ghost REINSERTION_COUNT = { 5 };

    const MIN_SIZE: usize = 10;

    const MAX_SIZE: usize = 40;

    const REINSERTION_COUNT: usize = 5;

    ghost max_at_least_four = { Prim.omega arith };

    ghost max_fits = { Prim.omega arith };

    ghost min_positive = { Prim.omega arith };

    ghost min_at_most_half = { Prim.omega arith };

    ghost reinsertion_leaves = { Prim.omega arith };
}

/// Wide nodes.
pub(crate) struct Wide;

impl RTreeParams for Wide {
    ghost use Rattle.std.proofs.Common.{arith};

    ghost MIN_SIZE = { 20 };

    ghost MAX_SIZE = { 100 };

    ghost REINSERTION_COUNT = { 1 };

    const MIN_SIZE: usize = 20;

    const MAX_SIZE: usize = 100;

    const REINSERTION_COUNT: usize = 1;

    ghost max_at_least_four = { Prim.omega arith };

    ghost max_fits = { Prim.omega arith };

    ghost min_positive = { Prim.omega arith };

    ghost min_at_most_half = { Prim.omega arith };

    ghost reinsertion_leaves = { Prim.omega arith };
}

/// The largest lawful numbers.
pub(crate) struct Huge;

impl RTreeParams for Huge {
    ghost use Rattle.std.proofs.Common.{arith};

    ghost MIN_SIZE = { 1 };

    ghost MAX_SIZE = { 18446744073709551614 };

    ghost REINSERTION_COUNT = { 18446744073709551612 };

    const MIN_SIZE: usize = 1;

    const MAX_SIZE: usize = 18446744073709551614;

    const REINSERTION_COUNT: usize = 18446744073709551612;

    ghost max_at_least_four = { Prim.omega arith };

    ghost max_fits = { Prim.omega arith };

    ghost min_positive = { Prim.omega arith };

    ghost min_at_most_half = { Prim.omega arith };

    ghost reinsertion_leaves = { Prim.omega arith };
}
