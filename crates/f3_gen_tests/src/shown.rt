//! The text that shows code.

use f3_code::instruction::{Instruction, Way};
use f3_gen_values::line::Line;
use f3_listing::listing;
use f3_program::declarations::{Base, Constant};
use f3_program::expression::BinaryOperator;
use std::test::Fail;

/// A line that takes no initial value.
fn plain(act: Instruction) -> Line {
    Line {
        place: None,
        initial: None,
        act,
    }
}

#[test]
fn a_name_and_operands_in_decimal(rt: HostRuntime) -> Result<(), Fail> {
    let lines = [
        plain(Instruction::Push(Constant::Number(-5))),
        plain(Instruction::Binary(BinaryOperator::Add, Base::Long)),
        plain(Instruction::Leave(Way::Exit, 12)),
        Line {
            place: None,
            initial: Some(Base::Derived(2)),
            act: Instruction::New(1),
        },
    ];
    let text = listing(rt.alloc(), &lines)?;
    let expected = "0 push -5\n1 add_long\n2 leave_exit 12\n3 new_initial_derived 1 2\n";
    assert_eq!(rt; text.as_str(), expected);
    Ok(())
}
