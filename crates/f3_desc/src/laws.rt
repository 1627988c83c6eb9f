//! Laws of arrays and their sections.

ghost use Rattle.f3_desc.specs.Laws.{ContiguousArrays, ContiguousArraysFit, CountsSteps, PlacesAreOrdered, SectionsLieWithin};

/// The subscripts that `from:to:step` selects are `from`, `from + step` and so on, up to the last
/// that is not past `to` (ISO/IEC 1539-1:2004, 6.2.2.3.1).
pub fn counts_steps()
    ensures { CountsSteps }
{}

/// The places of an array's elements stand in array element order (ISO/IEC 1539-1:2004, 6.2.2.2).
pub fn places_are_ordered()
    ensures { PlacesAreOrdered }
{}

/// In an array whose strides are the words of an element, and of each dimension before, element n
/// in array element order lies n times the words of an element behind the offset.
pub fn contiguous_arrays()
    ensures { ContiguousArrays }
{}

/// Where the words of such an array end below 2 ^ 63, it is one that `element` and `section` take.
pub fn contiguous_arrays_fit()
    ensures { ContiguousArraysFit }
{}

/// Each element of a section is an element of the whole.
pub fn sections_lie_within()
    ensures { SectionsLieWithin }
{}
