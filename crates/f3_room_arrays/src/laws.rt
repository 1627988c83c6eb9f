//! Laws of what descriptors tell of.

ghost use Rattle.f3_room_arrays.specs.Laws.{ObjectsLieWithin, ArraysAreTold, SectionsAreTold, NumbersArePlaces, ElementsAreCounted, SectionsAreNoLonger, ComponentsAreTold};
ghost use Rattle.f3_room_arrays.specs.Laws.{ElementsAreAside, SectionsStayAside};

/// The words of objects that a descriptor tells of lie in its block.
pub fn objects_lie_within()
    ensures { ObjectsLieWithin }
{}

/// A descriptor of a whole array tells of all its elements.
pub fn arrays_are_told()
    ensures { ArraysAreTold }
{}

/// A section tells of the elements that are selected, which are those that the meaning selects (ISO/IEC 1539-1:2004, 6.2.2.3).
pub fn sections_are_told()
    ensures told { SectionsAreTold }
    ensures numbers { NumbersArePlaces }
{}

/// How many elements a descriptor tells of, and that a section has no more than the whole.
pub fn elements_are_counted()
    ensures elements { ElementsAreCounted }
    ensures sections { SectionsAreNoLonger }
{}

/// A descriptor that begins as many words further on as a component tells of this component of each element (6.1.2).
pub fn components_are_told()
    ensures { ComponentsAreTold }
{}

/// The elements of an array or of a section are different objects.
pub fn elements_are_aside()
    ensures whole { ElementsAreAside }
    ensures sections { SectionsStayAside }
{}
