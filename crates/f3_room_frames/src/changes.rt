//! Laws of what changes where allocatables get objects, and where these are gone.

ghost use Rattle.f3_room_frames.specs.Changes.{RoomsChange, ChangesAreSound, ObjectsAreAllocated, ObjectsAreFreed, ObjectsMove};

/// Where something else is held in a part of a variable, what is active stands in the rooms with that held there; it is sound, and has the
/// new value there, where these are sound and have it.
pub fn changes_are_sound()
    ensures rooms { RoomsChange }
    ensures sound { ChangesAreSound }
{}

/// An allocatable that holds nothing gets a block of zeros (ISO/IEC 1539-1:2004, 6.3.1).
pub fn objects_are_allocated()
    ensures { ObjectsAreAllocated }
{}

/// What an allocatable holds is given back with all beneath (6.3.3).
pub fn objects_are_freed()
    ensures { ObjectsAreFreed }
{}

/// What an allocatable holds goes over to another (13.7.82).
pub fn objects_move()
    ensures { ObjectsMove }
{}
