//! What dummies and associate names are for their objects.

ghost use Rattle.std.specs.Prelude.{◌≡◌};
ghost use Rattle.f3_program.specs.declared.program.Program.{Program};
ghost use Rattle.f3_meaning_whole.specs.Exec.{associated, bound};
ghost use Rattle.f3_meaning_whole.specs.Reference.{Reference};
ghost use Rattle.f3_rooms.specs.Rooms.{Rooms};
ghost use Rattle.f3_word_cells.specs.Areas.{IsObject};
ghost use Rattle.f3_word_calls.specs.Bounds.{based_dims, shown_dims};

use f3_desc::descriptor::Dim;
use f3_program::program::Dummy;
use f3_word_cells::cell::Object;

/// The first dimensions get these lower bounds (ISO/IEC 1539-1:2004, 5.1.2.5.2).
fn base(dims: &mut [Dim], lowers: &[i64])
    ensures { dims.new ≡ based_dims lowers.now dims.old }
{
    let Some((lower, behind)) = lowers.split_first() else {
        return;
    };
    if let Some((dim, others)) = dims.split_first_mut() {
        dim.lower = *lower;
        base(others, behind);
    }
}

/// Dimensions get the lower bounds that LBOUND tells (13.7.60).
fn show(dims: &mut [Dim])
    ensures { dims.new ≡ shown_dims dims.old }
{
    if let Some((dim, others)) = dims.split_first_mut() {
        if dim.extent == 0 {
            dim.lower = 1;
        }
        show(others);
    }
}

/// An object becomes what a dummy is for it as an actual argument (12.4.1.2).
pub fn bind(object: &mut Object, dummy: &Dummy)
    ensures { (p : Program) (x : Rooms) (r : Reference) → IsObject p x object.old r → IsObject p x object.new (bound dummy.now r) }
{
    if let Object::Stands(area) = object {
        base(area.elements.dims.as_mut_slice(), &dummy.lowers);
    }
}

/// An object becomes what an associate name is for it: its lower bounds are the LBOUND of its selector (own rule for 8.1.4.3).
pub fn associate(object: &mut Object)
    ensures { (p : Program) (x : Rooms) (r : Reference) → IsObject p x object.old r → IsObject p x object.new (associated r) }
{
    if let Object::Stands(area) = object {
        show(area.elements.dims.as_mut_slice());
    }
}
