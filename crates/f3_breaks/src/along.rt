//! The first of the breaks along a list.

ghost use Rattle.std.specs.Fn.{FnReturnsAt};
ghost use Rattle.f3_breaks.specs.Among.{IsFoundAlong};

use f3_rules::breaks::{Break, earlier};

/// The first of the breaks that are found at these items, if there is one.
///
/// Where what is found at each item is the least break of a rule there, it is the least of the rule at all of them.
pub fn first_among<T, F: Fn(&T) -> Option<Break>>(items: &[T], find: F) -> Option<Break>
    requires { F.IsAlwaysCallable find }
    ensures { IsFoundAlong (FnReturnsAt F.Fn find) items.now result }
{
    let mut first = None;
    let mut left = items;
    while let Some((item, others)) = left.split_first() {
        first = earlier(first, find(item));
        left = others;
    }
    first
}
