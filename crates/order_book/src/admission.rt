//! Which orders the book takes.

ghost use Rattle.std.specs.Prelude.{◌≡◌};
ghost use Rattle.order_book.specs.Book.{on_side, unless_refused, admitted};

use crate::entries::BookOrder;
use crate::shelf::Shelf;
use order_desk::{NewOrder, RejectCode, refusal};

impl Shelf {
    /// An order as the book takes it, or the first rule that it breaks.
    pub fn admitted(&self, new: &NewOrder) -> Result<BookOrder, RejectCode>
        ensures { result ≡ admitted self.now new.now }
    {
        if let Some(why) = refusal(new) {
            return Err(why);
        }
        if self.order(new.cl_id).is_some() {
            return Err(RejectCode::Duplicate);
        }
        match new.side {
            None => Err(RejectCode::Side),
            Some(side) => Ok(BookOrder {
                cl_id: new.cl_id,
                side,
                symbol: new.symbol,
                quantity: new.quantity,
                price: new.price,
            }),
        }
    }
}
