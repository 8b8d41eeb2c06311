//! The laws of the book: facts about the definitions alone, each on a function that does nothing.

ghost use Rattle.order_book.specs.Laws.{BestIsUnbeaten, BookStaysUncrossed, MatchesAreEven, QuantitiesAreKept, AcceptedIsNew, ReportsGoOn, BookInRange};

use order_desk::reports_in_range;

/// The order that one that comes in meets is better than each that came before it, and no worse than each that came behind it.
pub fn best_is_unbeaten()
    ensures { BestIsUnbeaten }
{}

/// Behind any list of orders no order that rests meets another, and no two rest under one identifier.
pub fn book_stays_uncrossed()
    ensures { BookStaysUncrossed }
{}

/// Both sides of a match are told, with the same quantity at the same price.
pub fn matches_are_even()
    ensures { MatchesAreEven }
{}

/// What was accepted of an order was filled, expired, or rests.
pub fn quantities_are_kept()
    ensures kept { QuantitiesAreKept }
    ensures anew { AcceptedIsNew }
{}

/// The reports of more orders go on behind those of the first ones.
pub fn reports_go_on()
    ensures { ReportsGoOn }
{}

/// What the book reports of a payload lies within its ranges, and so do the orders that rest behind it.
pub fn book_in_range()
    ensures { BookInRange }
{
    reports_in_range();
}
