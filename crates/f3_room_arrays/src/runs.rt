//! The elements of an array, by runs along its first dimension.

ghost use Rattle.std.specs.Prelude.{◌≡◌, ◌<◌, ◌*◌, ◌^◌, ℤ, pos, ◌+ℤ◌};
ghost use Rattle.std.specs.List.{flat_map};
ghost use Rattle.f3_desc.specs.Inner.Congruent.{IsCongruent};
ghost use Rattle.f3_desc.specs.Descriptor.{progression};
ghost use Rattle.f3_desc.specs.Laws.{size_of};
ghost use Rattle.f3_room_arrays.specs.Words.{places_from};
ghost use Rattle.f3_room_arrays.specs.Inner.Numbers.{away};

use crate::words::behind;
use f3_desc::descriptor::Dim;

/// The first dimension of an array, or one of a single element, and the others.
pub(crate) fn first_and_others(dims: &[Dim]) -> (Dim, &[Dim])
    ensures places { (at : ℤ) → places_from at dims.now ≡ flat_map (λ p. progression p result.0.stride result.0.extent) (places_from at result.1.now) }
    ensures size { size_of dims.now ≡ result.0.extent * size_of result.1.now }
{
    match dims.split_first() {
        Some((first, others)) => (*first, others),
        None => (
            Dim {
                lower: 1,
                extent: 1,
                stride: 0,
            },
            dims,
        ),
    }
}

/// How many elements an array has.
pub(crate) fn size(dims: &[Dim]) -> usize
    requires { size_of dims.now < 2 ^ 64 }
    ensures { result ≡ size_of dims.now }
{
    let Some((first, others)) = dims.split_first() else {
        return 1;
    };
    if first.extent == 0 {
        return 0;
    }
    first.extent * size(others)
}

/// How far the element of a number, in array element order, lies behind a place, up to a multiple of 2 ^ 64.
pub(crate) fn further(dims: &[Dim], at: usize, number: usize) -> usize
    requires { number < size_of dims.now }
    ensures { IsCongruent (pos result) (pos at +ℤ away dims.now number) }
{
    let Some((first, others)) = dims.split_first() else {
        return at;
    };
    let next = behind(at, number % first.extent, first.stride);
    further(others, next, number / first.extent)
}
