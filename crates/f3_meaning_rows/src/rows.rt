//! Programs and what they print, change and go through, computed from the meaning: nothing here is
//! called by f3. The expected answers were worked out by hand from the language's rules, or are those of
//! a compiler written apart from these definitions.

ghost use Rattle.f3_meaning_rows.specs.Rows0.{Rows0Show};
ghost use Rattle.f3_meaning_rows.specs.Rows1.{Rows1Show};
ghost use Rattle.f3_meaning_rows.specs.Rows2.{Rows2Show};
ghost use Rattle.f3_meaning_rows.specs.Rows3.{Rows3Show};
ghost use Rattle.f3_meaning_rows.specs.Rows4.{Rows4Show};
ghost use Rattle.f3_meaning_rows.specs.Rows5.{Rows5Show};
ghost use Rattle.f3_meaning_rows.specs.Rows6.{Rows6Show};
ghost use Rattle.f3_meaning_rows.specs.Rows7.{Rows7Show};
ghost use Rattle.f3_meaning_rows.specs.Rows8.{Rows8Show};
ghost use Rattle.f3_meaning_rows.specs.Rows9.{Rows9Show};
ghost use Rattle.f3_meaning_rows.specs.Others.{OthersShow};
ghost use Rattle.f3_meaning_rows.specs.Corners.{CornersShow};
ghost use Rattle.f3_meaning_rows.specs.Formed.{AreWellFormed};
ghost use Rattle.f3_meaning_rows.specs.More.{MoreShow};
ghost use Rattle.f3_meaning_rows.specs.Stages.{StagesStand};
ghost use Rattle.f3_meaning_rows.specs.Told.{
  ChangesStand,
  DestroyedLent,
  ForgedAreNot,
  FormsStand,
  PryingShows,
  ReadsShow,
  StoresStand,
};

/// These programs print this and end so.
pub fn rows0_show()
    ensures { Rows0Show }
{}

/// These programs print this and end so.
pub fn rows1_show()
    ensures { Rows1Show }
{}

/// These programs print this and end so.
pub fn rows2_show()
    ensures { Rows2Show }
{}

/// These programs print this and end so.
pub fn rows3_show()
    ensures { Rows3Show }
{}

/// These programs print this and end so.
pub fn rows4_show()
    ensures { Rows4Show }
{}

/// These programs print this and end so.
pub fn rows5_show()
    ensures { Rows5Show }
{}

/// These programs print this and end so.
pub fn rows6_show()
    ensures { Rows6Show }
{}

/// These programs print this and end so.
pub fn rows7_show()
    ensures { Rows7Show }
{}

/// These programs print this and end so.
pub fn rows8_show()
    ensures { Rows8Show }
{}

/// These programs print this and end so.
pub fn rows9_show()
    ensures { Rows9Show }
{}

/// These runs show this, and these programs are not lawful.
pub fn others_show()
    ensures { OthersShow }
{}

/// These programs are lawful, print this and end so.
pub fn corners_show()
    ensures { CornersShow }
{}

/// A run has these stages.
pub fn stages_stand()
    ensures { StagesStand }
{}

/// These programs show in which order work is done, and where the heap is asked for storage.
pub fn more_show()
    ensures { MoreShow }
{}

/// This run makes these changes, and no others.
pub fn changes_stand()
    ensures { ChangesStand }
{}

/// This run goes through these stores, with this lent.
pub fn stores_stand()
    ensures { StoresStand }
{}

/// What is destroyed is lent, the parts and the whole.
pub fn destroyed_lent()
    ensures { DestroyedLent }
{}

/// These statements begin a stage, and no others.
pub fn forms_stand()
    ensures { FormsStand }
{}

/// These changes are not permitted: they are by the right to read.
pub fn reads_show()
    ensures { ReadsShow }
{}

/// This change is not permitted: another unit selected a private component.
pub fn prying_shows()
    ensures { PryingShows }
{}

/// These changes, which no run makes, are not permitted.
pub fn forged_are_not()
    ensures { ForgedAreNot }
{}

/// All programs of these rows make sense.
pub fn are_well_formed()
    ensures { AreWellFormed }
{}
