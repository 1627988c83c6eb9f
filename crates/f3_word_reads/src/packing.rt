//! Values of array type, with their elements one behind another.

ghost use Rattle.std.specs.Prelude.{◌≡◌, ◌≤◌, ◌*◌, ◌-◌, ◌^◌, length, min};
ghost use Rattle.f3_desc.specs.Laws.{size_of};
ghost use Rattle.f3_word_reads.specs.Packed.{packed_dim, packed_from};

use arrayvec::ArrayVec;
use f3_desc::descriptor::Dim;

/// The dimensions of a value, and how many words it has.
#[derive(Drop)]
pub(crate) struct Packed {
    pub(crate) dims: ArrayVec<Dim, 7>,
    pub(crate) words: usize,
}

/// The dimension of a value, whose elements are so many words apart: its lower bound is 1 where it has no subscripts, as LBOUND tells
/// (ISO/IEC 1539-1:2004, 13.7.60).
fn packed_dim(dim: &Dim, distance: usize) -> Dim
    ensures { result ≡ packed_dim dim.now distance }
{
    Dim {
        lower: if dim.extent == 0 { 1 } else { dim.lower },
        extent: dim.extent,
        stride: i64::try_from(distance).unwrap_or(0),
    }
}

/// The dimensions of a value with the bounds of an array, of elements of so many words, and how many words it has, `usize::MAX` where
/// these are more.
pub(crate) fn pack(dims: &[Dim], words: usize) -> Packed
    requires { length dims.now ≤ 7 }
    ensures dims { result.dims.items ≡ packed_from words dims.now }
    ensures words { result.words ≡ min (size_of dims.now * words) (2 ^ 64 - 1) }
{
    let mut distance = words;
    let mut packed = ArrayVec::new();
    for dim in dims {
        packed.push(packed_dim(dim, distance));
        distance = distance.saturating_mul(dim.extent);
    }
    Packed {
        dims: packed,
        words: distance,
    }
}
