//! Descriptors of arrays in blocks, their elements and their sections.

ghost use Rattle.std.specs.Prelude.{◌≡◌, ◌≢◌, ◌↔◌, pos, ◌+ℤ◌, ◌-ℤ◌, ◌*ℤ◌, length, All, Any, IsTrue, IsOk, IfOk, IfSome, IfNone};
ghost use Rattle.std.specs.Option.{option_to_list};
ghost use Rattle.arrayvec.specs.ArrayVec.{array_vec_len};
ghost use Rattle.f3_desc.specs.Inner.Congruent.{IsCongruent};
ghost use Rattle.f3_desc.specs.Descriptor.{HasElement, HasPlaces, IsWithin, place};
ghost use Rattle.f3_desc.specs.Inner.Cuts.{EndsAt, cut_of, first_of};
ghost use Rattle.f3_desc.specs.Section.{IsSection, IsStepZero, SelectsWithin, count, selected};

use arrayvec::ArrayVec;
use f3_heap::BlockId;
use thiserror::Error;

/// One dimension of an array: its lower bound, how many subscripts it has, and how many words the
/// elements of two neighbouring subscripts are apart.
#[derive(Clone, Copy, Debug, Default, PartialEq, Eq)]
pub struct Dim {
    pub lower: i64,
    pub extent: usize,
    pub stride: i64,
}

/// An array of at most seven dimensions in a block.
///
/// The element with the subscripts `s` lies at `offset` and the sum of `(s - lower) * stride` over
/// the dimensions; that of an array of no dimension at `offset`.
#[derive(Drop, Debug)]
pub struct Descriptor {
    pub block: BlockId,
    pub offset: usize,
    pub dims: ArrayVec<Dim, 7>,
}

/// What is selected of one dimension (ISO/IEC 1539-1:2004, 6.2.2.3): a single subscript, or the
/// subscripts from the first number on, in steps of the third, to the last that is not past the
/// second.
#[derive(Clone, Copy, Debug, PartialEq, Eq)]
pub enum Triplet {
    At(i64),
    Range(i64, i64, i64),
}

/// A subscript is out of bounds.
#[derive(Clone, Copy, Debug, PartialEq, Eq, Error)]
#[error("subscript out of bounds")]
pub struct Bounds;

/// Why there is no such section.
#[derive(Clone, Copy, Debug, PartialEq, Eq, Error)]
pub enum SectionFault {
    /// A subscript, or one that a triplet selects, is out of bounds.
    #[error("subscript out of bounds")]
    Bounds,
    /// The step of a triplet is zero.
    #[error("step is zero")]
    StepZero,
}

impl Triplet {
    /// Whether the step is zero.
    fn has_step_zero(&self) -> bool
        ensures { IsTrue result ↔ IsStepZero self.now }
    {
        matches!(self, Triplet::Range(_, _, 0))
    }

    /// The first subscript that is selected, if one is.
    fn first(&self) -> i64
        ensures { result ≡ first_of self.now }
    {
        match *self {
            Triplet::At(subscript) => subscript,
            Triplet::Range(from, _, _) => from,
        }
    }
}

/// Whether a step is zero.
fn some_step_zero(triplets: &[Triplet]) -> bool
    ensures { IsTrue result ↔ Any IsStepZero triplets.now }
{
    triplets.iter().any(|triplet| triplet.has_step_zero())
}

/// The last subscript that `from:to:step` selects, or `None` where it selects nothing.
fn last(from: i64, to: i64, step: i64) -> Option<i64>
    requires { step ≢ pos 0 }
    ensures none { IfNone result (count from to step ≡ 0) }
    ensures some { IfSome result (λ s. EndsAt from to step s) }
{
    let over = from.abs_diff(to) % step.unsigned_abs();
    if step > 0 && from <= to {
        Some(to - over as i64)
    } else if step < 0 && to <= from {
        Some(to + over as i64)
    } else {
        None
    }
}

impl Dim {
    /// Whether the subscript is within bounds.
    fn holds(&self, subscript: i64) -> bool
        ensures { IsTrue result ↔ IsWithin self.now subscript }
    {
        self.lower <= subscript && subscript.abs_diff(self.lower) < self.extent as u64
    }

    /// From the place of the element with the lower bound the one with the subscript, up to a
    /// multiple of 2 ^ 64: what lies outside of 64 bits on the way is never read.
    fn moved(&self, place: usize, subscript: i64) -> usize
        ensures { let distance = (subscript -ℤ self.now.lower) *ℤ self.now.stride in
            IsCongruent (pos result) (pos place +ℤ distance) }
    {
        let distance = subscript.wrapping_sub(self.lower).wrapping_mul(self.stride);
        place.wrapping_add(distance.cast_unsigned() as usize)
    }

    /// How many subscripts `from:to:step` selects.
    ///
    /// # Errors
    ///
    /// `Bounds` exactly where one of them is out of bounds.
    fn count(&self, from: i64, to: i64, step: i64) -> Result<usize, Bounds>
        requires { step ≢ pos 0 }
        ensures ok { IsOk result ↔ All (IsWithin self.now) (selected (Triplet.Range from to step)) }
        ensures value { IfOk result (λ n. n ≡ count from to step) }
    {
        let Some(last) = last(from, to, step) else {
            return Ok(0);
        };
        if !self.holds(from) || !self.holds(last) {
            return Err(Bounds);
        }
        Ok((from.abs_diff(last) / step.unsigned_abs()) as usize + 1)
    }

    /// The dimension that is left where the triplet selects of this one, from 1 on.
    ///
    /// # Errors
    ///
    /// `Bounds` exactly where a selected subscript is out of bounds.
    fn cut(&self, triplet: Triplet) -> Result<Option<Dim>, Bounds>
        requires { ¬ (IsStepZero triplet) }
        ensures ok { IsOk result ↔ All (IsWithin self.now) (selected triplet) }
        ensures value { IfOk result (λ d. option_to_list d ≡ cut_of self.now triplet) }
    {
        match triplet {
            Triplet::At(subscript) if self.holds(subscript) => Ok(None),
            Triplet::At(_) => Err(Bounds),
            Triplet::Range(from, to, step) => {
                let extent = self.count(from, to, step)?;
                let stride = self.stride.wrapping_mul(step);
                Ok(Some(Dim {
                    lower: 1,
                    extent,
                    stride,
                }))
            }
        }
    }
}

impl Descriptor {
    /// The block and the place in it of the element with these subscripts, one for each dimension.
    ///
    /// # Errors
    ///
    /// `Bounds` exactly where a subscript is out of bounds.
    pub fn element(&self, subscripts: &[i64]) -> Result<(BlockId, usize), Bounds>
        requires rank { length subscripts.now ≡ array_vec_len self.now.dims }
        requires places { HasPlaces self.now }
        ensures ok { IsOk result ↔ HasElement self.now subscripts.now }
        ensures block { IfOk result (λ p. p.0 ≡ self.now.block) }
        ensures place { IfOk result (λ p. pos p.1 ≡ place self.now subscripts.now) }
    {
        let mut at = self.offset;
        for (dim, subscript) in self.dims.iter().zip(subscripts) {
            if !dim.holds(*subscript) {
                return Err(Bounds);
            }
            at = dim.moved(at, *subscript);
        }
        Ok((self.block, at))
    }

    /// The section that the triplets select, one for each dimension: its elements are those with
    /// the selected subscripts, in order; its lower bounds are 1; a single subscript leaves no
    /// dimension (ISO/IEC 1539-1:2004, 6.2.2.3).
    ///
    /// # Errors
    ///
    /// `StepZero` exactly where a step is zero; else `Bounds` exactly where a subscript, or one
    /// that a triplet selects, is out of bounds. A triplet that selects nothing has none.
    pub fn section(&self, triplets: &[Triplet]) -> Result<Descriptor, SectionFault>
        requires rank { length triplets.now ≡ array_vec_len self.now.dims }
        requires places { HasPlaces self.now }
        ensures step_zero { (result ≡ Err SectionFault.StepZero) ↔ Any IsStepZero triplets.now }
        ensures bounds { (result ≡ Err SectionFault.Bounds)
            ↔ (¬ (Any IsStepZero triplets.now) × ¬ (SelectsWithin self.now triplets.now)) }
        ensures within { IfOk result (λ _. SelectsWithin self.now triplets.now) }
        ensures section { IfOk result (λ s. IsSection self.now triplets.now s) }
    {
        if some_step_zero(triplets) {
            return Err(SectionFault::StepZero);
        }
        let mut offset = self.offset;
        let mut dims = ArrayVec::new();
        for (dim, triplet) in self.dims.iter().zip(triplets) {
            let Ok(left) = dim.cut(*triplet) else {
                return Err(SectionFault::Bounds);
            };
            offset = dim.moved(offset, triplet.first());
            if let Some(dim) = left {
                dims.push(dim);
            }
        }
        Ok(Descriptor {
            block: self.block,
            offset,
            dims,
        })
    }
}
