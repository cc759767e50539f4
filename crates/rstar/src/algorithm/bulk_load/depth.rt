//! The depth of a bulk load.

ghost use Rattle.std.specs.Prelude.{◌≡◌, ℕ, ◌<◌, ◌≤◌, ◌+◌, ◌-◌, ◌*◌};
ghost use Rattle.rstar.specs.Loaded.{IsPartSize, IsLoadDepth, GoesDeep, EndsAt};
ghost use Rattle.rstar.specs.inside.Loads.{part_bound};

use crate::bounds::InSlabs;
use rstar_base::RTreeParams;

/// The number of levels of parents below the root, for a load of `n` elements.
#[cycle(depth)]
pub(crate) fn load_depth<T: InSlabs, Params: RTreeParams>(n: usize) -> usize
    requires axes { 2 ≤ T.axes }
    ensures bound { result ≤ n }
    ensures depth { IsLoadDepth Params.MAX_SIZE T.axes n result }
{
    if n <= Params::MAX_SIZE {
        return 0;
    }
    let clusters = T::slabs_on_axis::<Params>(n);
    let axes = T::axes();
    1 + least_depth_of_parts::<T, Params>(n, clusters, axes)
}

/// The least depth of the parts of `n` elements, cut into slabs along each of the first axes.
#[cycle(depth)]
fn least_depth_of_parts<T: InSlabs, Params: RTreeParams>(
    n: usize,
    clusters: usize,
    axes: usize,
) -> usize
    requires dimensions { 2 ≤ T.axes }
    requires some { 0 < n }
    requires clusters { 2 ≤ clusters }
    ensures bound { result ≤ part_bound axes clusters n }
    ensures deep { (m : ℕ) → IsPartSize clusters axes n m
        → GoesDeep Params.MAX_SIZE T.axes result m }
    ensures ends { (m : ℕ) × IsPartSize clusters axes n m
        × EndsAt Params.MAX_SIZE T.axes result m }
{
    if axes == 0 {
        return load_depth::<T, Params>(n);
    }
    let slab = n.div_ceil(clusters);
    let rest = last_slab(n, slab);
    let depth = least_depth_of_parts::<T, Params>(slab, clusters, axes - 1);
    depth.min(least_depth_of_parts::<T, Params>(rest, clusters, axes - 1))
}

/// The length of the last slab, where the other slabs have length `slab`.
fn last_slab(n: usize, slab: usize) -> usize
    requires some { 0 < n }
    requires size { 0 < slab }
    ensures some { 0 < result }
    ensures within { result ≤ slab }
    ensures only { (j : ℕ) → j * slab < n → n ≤ j * slab + slab → result ≡ n - j * slab }
    ensures last { (j : ℕ) × (j * slab < n) × (result ≡ n - j * slab) }
{
    (n - 1) % slab + 1
}
