//! Laws of parts of variables as trees.

ghost use Rattle.f3_room_objects.specs.Laws.{PartsAreApart, PartsHoldTrees, TreesHaveTheirBlocks, TreesReplaceParts};

/// A part of a variable holds a tree of its layout.
pub fn parts_hold_trees()
    ensures apart { PartsAreApart }
    ensures holds { PartsHoldTrees }
{}

/// The blocks that are held in a part are those of its tree.
pub fn trees_have_their_blocks()
    ensures { TreesHaveTheirBlocks }
{}

/// Where another tree of its layout takes the place of a part's, the part has become another.
pub fn trees_replace_parts()
    ensures { TreesReplaceParts }
{}
