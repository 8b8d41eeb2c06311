//! Orders of chance: prices that walk, three in ten of the orders cancels, and now and then one that is refused.

ghost use Rattle.std.specs.Prelude.{◌<◌};

use order_desk::{NewOrder, Order, OrderFault, Side, Symbol};

/// A stream of orders of chance, the same at each run.
#[derive(Clone, Copy, Drop)]
pub struct Chance {
    state: u64,
    price: i64,
    next: u64,
    width: u32,
}

/// From how many of the last orders one is picked that is to be cancelled.
const BACK: u32 = 400;

impl Chance {
    /// The stream whose orders stand at up to so many prices on either side of the walk.
    pub fn new(width: u32) -> Self {
        Chance {
            state: 1,
            price: 1_000_000,
            next: 1,
            width,
        }
    }

    /// A number below another.
    fn draw(&mut self, below: u32) -> u32
        requires { 0 < below }
        ensures { result < below }
    {
        self.state = self
            .state
            .wrapping_mul(6_364_136_223_846_793_005)
            .wrapping_add(1_442_695_040_888_963_407);
        (self.state >> 33) as u32 % below
    }

    fn side(&mut self) -> Option<Side> {
        match self.draw(64) {
            0 => None,
            drawn if drawn % 2 == 0 => Some(Side::Buy),
            _ => Some(Side::Sell),
        }
    }

    fn price(&mut self, side: Option<Side>) -> i64 {
        let step = i64::from(self.draw(21));
        self.price = self
            .price
            .saturating_add(step)
            .saturating_sub(10)
            .clamp(1, 1_000_000_000);
        let away = i64::from(self.draw(self.width.max(1)));
        let near = i64::from(self.draw(8));
        match side {
            Some(Side::Buy) => self.price.saturating_sub(away).saturating_add(near),
            _ => self.price.saturating_add(away).saturating_sub(near),
        }
    }

    /// The next order.
    pub fn order(&mut self) -> Result<Order, OrderFault> {
        let cl_id = self.next;
        self.next = cl_id.wrapping_add(1);
        let drawn = self.draw(100);
        if drawn == 0 {
            return Err(OrderFault::NotAnOrder);
        }
        if drawn <= 30 {
            let back = self.draw(BACK);
            return Ok(Order::Cancel {
                cl_id,
                orig: cl_id.saturating_sub(u64::from(back)),
            });
        }
        let again = if self.draw(50) == 0 {
            self.draw(BACK)
        } else {
            0
        };
        let side = self.side();
        let symbol = b'A' + self.draw(3) as u8;
        Ok(Order::New(NewOrder {
            cl_id: cl_id.saturating_sub(u64::from(again)),
            side,
            symbol: Symbol {
                text: [symbol, 0, 0, 0, 0, 0, 0, 0],
            },
            quantity: self.draw(100),
            price: self.price(side),
        }))
    }
}
