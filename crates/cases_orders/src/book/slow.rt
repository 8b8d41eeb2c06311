//! A book as plain as can be: one list of the orders that rest, gone through from end to end for each order.

use order_book::BookOrder;
use order_desk::{NewOrder, Order, OrderFault, RejectCode, Report, ReportKind, Side};
use std::alloc::{AllocError, Global};

/// The orders that rest, in the order in which they came.
#[derive(Drop)]
pub struct Slow {
    alloc: Global,
    resting: Vec<BookOrder>,
}

fn report(cl_id: u64, kind: ReportKind, quantity: u32, price: i64) -> Report {
    Report {
        cl_id,
        kind,
        desk: 1,
        quantity,
        price,
    }
}

fn rejected(cl_id: u64, why: RejectCode) -> Report {
    report(cl_id, ReportKind::Rejected(why), 0, 0)
}

impl Slow {
    pub fn new(alloc: Global) -> Self {
        Slow {
            alloc,
            resting: Vec::new(alloc),
        }
    }

    /// What is reported of an order.
    pub fn on_order(
        &mut self,
        order: &Result<Order, OrderFault>,
    ) -> Result<Vec<Report>, AllocError> {
        let mut told = Vec::new(self.alloc);
        match order {
            Err(_) => told.push(rejected(0, RejectCode::NotAnOrder))?,
            Ok(Order::Cancel { cl_id, orig }) => self.cancel(*cl_id, *orig, &mut told)?,
            Ok(Order::New(new)) => self.take(new, &mut told)?,
        }
        Ok(told)
    }

    fn with_id(&self, cl_id: u64) -> Option<BookOrder> {
        for order in &self.resting {
            if order.cl_id == cl_id {
                return Some(*order);
            }
        }
        None
    }

    fn cancel(&mut self, cl_id: u64, orig: u64, told: &mut Vec<Report>) -> Result<(), AllocError> {
        let Some(order) = self.with_id(orig) else {
            told.push(rejected(cl_id, RejectCode::NotResting))?;
            return Ok(());
        };
        self.reduce(orig, order.quantity);
        told.push(report(orig, ReportKind::Expired, order.quantity, order.price))?;
        Ok(())
    }

    fn reduce(&mut self, cl_id: u64, by: u32) {
        for order in self.resting.iter_mut() {
            if order.cl_id == cl_id {
                order.quantity = order.quantity.saturating_sub(by);
            }
        }
        self.resting.retain(|order| order.quantity > 0);
    }

    /// Of those that the order may trade with, the one of the best price, and of these the first.
    fn best(&self, incoming: &BookOrder) -> Option<BookOrder> {
        let mut best: Option<BookOrder> = None;
        for order in &self.resting {
            let crosses = match incoming.side {
                Side::Buy => order.price <= incoming.price,
                Side::Sell => order.price >= incoming.price,
            };
            if order.side == incoming.side || order.symbol != incoming.symbol || !crosses {
                continue;
            }
            let better = match best {
                None => true,
                Some(held) => match incoming.side {
                    Side::Buy => order.price < held.price,
                    Side::Sell => order.price > held.price,
                },
            };
            if better {
                best = Some(*order);
            }
        }
        best
    }

    /// The first rule that an order breaks.
    fn fault(&self, new: &NewOrder) -> Option<RejectCode> {
        if new.quantity == 0 || new.quantity > 1_000_000 {
            Some(RejectCode::Quantity)
        } else if new.price <= 0 {
            Some(RejectCode::Price)
        } else if new.side.is_none() {
            Some(RejectCode::Side)
        } else if self.with_id(new.cl_id).is_some() {
            Some(RejectCode::Duplicate)
        } else {
            None
        }
    }

    fn take(&mut self, new: &NewOrder, told: &mut Vec<Report>) -> Result<(), AllocError> {
        if let Some(why) = self.fault(new) {
            told.push(rejected(new.cl_id, why))?;
            return Ok(());
        }
        let order = BookOrder {
            cl_id: new.cl_id,
            side: new.side.unwrap_or(Side::Buy),
            symbol: new.symbol,
            quantity: new.quantity,
            price: new.price,
        };
        told.push(report(
            order.cl_id,
            ReportKind::Accepted,
            order.quantity,
            order.price,
        ))?;
        self.trade(order, told)
    }

    /// Trades with one order after another, and lets what is left rest.
    fn trade(&mut self, order: BookOrder, told: &mut Vec<Report>) -> Result<(), AllocError> {
        let mut order = order;
        for _ in 0..self.resting.len() {
            if order.quantity == 0 {
                break;
            }
            let Some(met) = self.best(&order) else {
                break;
            };
            let traded = order.quantity.min(met.quantity);
            told.push(report(order.cl_id, ReportKind::Filled, traded, met.price))?;
            told.push(report(met.cl_id, ReportKind::Filled, traded, met.price))?;
            order.quantity = order.quantity.saturating_sub(traded);
            self.reduce(met.cl_id, traded);
        }
        if order.quantity > 0 {
            self.resting.push(order)?;
        }
        Ok(())
    }
}
