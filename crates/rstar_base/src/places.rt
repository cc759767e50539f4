//! A mutable borrow of one item of an array.

ghost use Rattle.std.specs.Prelude.{◌≡◌, ◌<◌, slice_index_or, slice_set, length};
ghost use Rattle.std.specs.Borrow.{sem, Lends, Array};

// The place of an item of a slice.
fn place_at<'a, S>(list: &'a mut [S], index: usize) -> &'a mut S
    requires { index < length list.old }
    ensures* writes_back { sem 𝓛 (Lends (Array S.row 0) S.row list.entry result (slice_set list.old index)) }
    ensures value { result.now ≡ slice_index_or list.old index result.now }
{
    &mut list[index]
}

// An array as a slice.
fn as_list<'a, S, const N: usize>(array: &'a mut [S; N]) -> &'a mut [S]
    ensures* writes_back { sem 𝓛 (Lends (Array S.row N) (Array S.row 0) array.entry result (λ w. w)) }
    ensures value { result.now ≡ array.old }
{
    array.as_mut_slice()
}

/// A mutable borrow of the item at `index`.
pub(crate) fn place_in<'a, S, const N: usize>(array: &'a mut [S; N], index: usize) -> &'a mut S
    requires { index < length array.old }
    ensures* writes_back { sem 𝓛 (Lends (Array S.row N) S.row array.entry result (slice_set array.old index)) }
    ensures value { result.now ≡ slice_index_or array.old index result.now }
{
    place_at(as_list(array), index)
}
