//! Trees of programs, their elaborated programs, and what the runs of these show, computed from the definitions: nothing here is
//! called by f3. The expected answers were worked out by hand from the language's rules.

ghost use Rattle.f3_elaboration_rows.specs.Forms.{FormsShow};
ghost use Rattle.f3_elaboration_rows.specs.Meant0.{Meant0Show};
ghost use Rattle.f3_elaboration_rows.specs.Meant1.{Meant1Show};
ghost use Rattle.f3_elaboration_rows.specs.Meant2.{Meant2Show};
ghost use Rattle.f3_elaboration_rows.specs.Meant3.{Meant3Show};
ghost use Rattle.f3_elaboration_rows.specs.Meant4.{Meant4Show};
ghost use Rattle.f3_elaboration_rows.specs.Meant5.{Meant5Show};
ghost use Rattle.f3_elaboration_rows.specs.Meant6.{Meant6Show};
ghost use Rattle.f3_elaboration_rows.specs.Meant7.{Meant7Show};
ghost use Rattle.f3_elaboration_rows.specs.Meant8.{Meant8Show};
ghost use Rattle.f3_elaboration_rows.specs.Meant9.{Meant9Show};
ghost use Rattle.f3_elaboration_rows.specs.Meant10.{Meant10Show};
ghost use Rattle.f3_elaboration_rows.specs.Meant11.{Meant11Show};
ghost use Rattle.f3_elaboration_rows.specs.Plain.{PlainsStand};
ghost use Rattle.f3_elaboration_rows.specs.Programs.{ProgramsLawful, ProgramsShow};
ghost use Rattle.f3_elaboration_rows.specs.Written.{AreWritten};

/// The elaborated programs of these trees print this and end so.
pub fn programs_show()
    ensures { ProgramsShow }
{}

/// They make no changes but permitted ones.
pub fn programs_lawful()
    ensures { ProgramsLawful }
{}

/// The elaborated programs of these trees make sense, print this and end so.
pub fn meant0_show()
    ensures { Meant0Show }
{}

/// The elaborated programs of these trees make sense, print this and end so.
pub fn meant1_show()
    ensures { Meant1Show }
{}

/// The elaborated programs of these trees make sense, print this and end so.
pub fn meant2_show()
    ensures { Meant2Show }
{}

/// The elaborated programs of these trees make sense, print this and end so.
pub fn meant3_show()
    ensures { Meant3Show }
{}

/// The elaborated programs of these trees make sense, print this and end so.
pub fn meant4_show()
    ensures { Meant4Show }
{}

/// The elaborated programs of these trees make sense, print this and end so.
pub fn meant5_show()
    ensures { Meant5Show }
{}

/// The elaborated programs of these trees make sense, print this and end so.
pub fn meant6_show()
    ensures { Meant6Show }
{}

/// The elaborated programs of these trees make sense, print this and end so.
pub fn meant7_show()
    ensures { Meant7Show }
{}

/// The elaborated programs of these trees make sense, print this and end so.
pub fn meant8_show()
    ensures { Meant8Show }
{}

/// The elaborated programs of these trees make sense, print this and end so.
pub fn meant9_show()
    ensures { Meant9Show }
{}

/// The elaborated programs of these trees make sense, print this and end so.
pub fn meant10_show()
    ensures { Meant10Show }
{}

/// The elaborated programs of these trees make sense, print this and end so.
pub fn meant11_show()
    ensures { Meant11Show }
{}

/// These are the elaborated programs of trees, node by node.
pub fn plains_stand()
    ensures { PlainsStand }
{}

/// The elaborated programs of these trees make sense, print this and end so.
pub fn forms_show()
    ensures { FormsShow }
{}

/// These elaborated programs, written apart, are those of the trees of their sources, but for the numbers of units.
pub fn are_written()
    ensures { AreWritten }
{}
