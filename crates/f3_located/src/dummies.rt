//! What dummies and associate names are for their objects.

ghost use Rattle.std.specs.Prelude.{◌≡◌};
ghost use Rattle.f3_meaning_whole.specs.Exec as x;
ghost use Rattle.f3_meaning_whole.specs.Exec.{based, bound, associated};
ghost use Rattle.f3_data.specs.Values.{spans_of};
ghost use Rattle.f3_data.specs.References.{right_of, reference_of};

use crate::reaches::show;
use f3_data::reference::{Reach, Reference, Right};
use f3_data::value::Span;
use f3_program::program::{Dummy, Intent};

/// The first dimensions have these lower bounds (ISO/IEC 1539-1:2004, 5.1.2.5.2).
fn base(spans: &mut [Span], lowers: &[i64])
    ensures { spans_of spans.new ≡ based lowers.now (spans_of spans.old) }
{
    let Some((lower, behind)) = lowers.split_first() else {
        return;
    };
    if let Some((span, others)) = spans.split_first_mut() {
        span.lower = *lower;
        base(others, behind);
    }
}

/// An INTENT(IN) dummy may only be read (5.1.2.7).
fn right_to(intent: Intent, right: Right) -> Right
    ensures { right_of result ≡ x.right_of intent (right_of right) }
{
    match intent {
        Intent::In => Right::Read,
        Intent::Out => right,
        Intent::InOut => right,
    }
}

/// The object becomes what a dummy is for it as an actual argument (12.4.1.2).
pub fn bind(reference: &mut Reference, dummy: &Dummy)
    ensures { reference_of reference.new ≡ bound dummy.now (reference_of reference.old) }
{
    reference.right = right_to(dummy.intent, reference.right);
    if let Reach::Many(section) = &mut reference.reach {
        base(&mut section.spans, &dummy.lowers);
    }
}

/// The object becomes what an associate name is for it: its lower bounds are the LBOUND of its selector (own rule for 8.1.4.3).
pub fn associate(reference: &mut Reference)
    ensures { reference_of reference.new ≡ associated (reference_of reference.old) }
{
    if let Reach::Many(section) = &mut reference.reach {
        show(&mut section.spans);
    }
}
