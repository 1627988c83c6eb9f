//! Laws on orders of the units.

ghost use Rattle.f3_order_laws.specs.Laws.{OrdersAreAlike, FirstsAreAlike, FirstsAreOne, ResolvedIsVisible};

/// Of the orders of a program's units in which used modules come first it is no matter which is taken: the same rules on
/// types, constants and definitions are broken at the same places (own rule).
pub fn orders_are_alike()
    ensures { OrdersAreAlike }
{}

/// The first break behind the rules on names is of one rule at one place, whichever order is taken; and it has one name
/// too, where no two units have a place in common.
pub fn first_break_is_one()
    ensures alike { FirstsAreAlike }
    ensures one { FirstsAreOne }
{}

/// What names are resolved to is visible, so these laws hold of each program whose names are resolved (16.2, 16.4.1.3).
pub fn resolved_is_visible()
    ensures { ResolvedIsVisible }
{}
