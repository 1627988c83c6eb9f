//! Bounds of arrays, and how far their elements lie apart.

ghost use Rattle.std.specs.Prelude.{◌≡◌, ◌≤◌, ◌<◌, ◌*◌, ◌^◌, length, pos};
ghost use Rattle.f3_meaning_whole.specs.Shape.{spans_declared};
ghost use Rattle.f3_meaning_whole.specs.Value.{count, from_one, shown};
ghost use Rattle.f3_word_cells.specs.Areas.{spans_of};
ghost use Rattle.f3_word_areas.specs.Dims.{AreApart, dims_from_one};

use arrayvec::ArrayVec;
use f3_desc::descriptor::Dim;
use f3_program::declarations::Dimension;

/// The dimensions of an array whose elements, each of so many words, follow on one another (ISO/IEC 1539-1:2004, 5.1.2.5).
pub fn dims_of(dimensions: &[Dimension], words: usize) -> ArrayVec<Dim, 7>
    requires { length dimensions.now ≤ 7 }
    ensures spans { spans_of result.items ≡ spans_declared dimensions.now }
    ensures apart { count (spans_declared dimensions.now) * words < 2 ^ 63 → AreApart words result.items }
{
    let mut dims = ArrayVec::new();
    let mut stride = words;
    for dimension in dimensions {
        dims.push(Dim {
            lower: dimension.lower,
            extent: dimension.extent as usize,
            stride: (stride as u64).cast_signed(),
        });
        stride = stride.wrapping_mul(dimension.extent as usize);
    }
    dims
}

/// The same elements, with bounds from 1 on.
pub fn from_one(dims: &ArrayVec<Dim, 7>) -> ArrayVec<Dim, 7>
    ensures { result.items ≡ dims_from_one dims.now.items }
{
    let mut others = ArrayVec::new();
    for dim in dims.as_slice() {
        others.push(Dim {
            lower: 1,
            extent: dim.extent,
            stride: dim.stride,
        });
    }
    others
}

/// The bounds that LBOUND and UBOUND tell: from 1 on in a dimension without subscripts (13.7.60).
pub fn shown(dims: &ArrayVec<Dim, 7>) -> ArrayVec<Dim, 7>
    ensures { spans_of result.items ≡ shown (spans_of dims.now.items) }
{
    let mut others = ArrayVec::new();
    for dim in dims.as_slice() {
        let lower = if dim.extent == 0 { 1 } else { dim.lower };
        others.push(Dim {
            lower,
            extent: dim.extent,
            stride: dim.stride,
        });
    }
    others
}
