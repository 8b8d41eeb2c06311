//! Cases of the book: reads `book.txt`, and prints what the book reports of each order, an order a line. A line is `new CL_ID SIDE SYMBOL
//! QUANTITY PRICE`, `cancel CL_ID ORIG`, `bytes PAYLOAD` in hexadecimal, or `resting CL_ID`, which shows how many are left; another line
//! stands as it is. Another section has orders of chance answered by the book and by a plain slow one.

pub mod bench;
mod chance;
mod slow;

use cases_words::{bytes, halves, number};
use chance::Chance;
use order_book::Book;
use order_desk::{NewOrder, Order, OrderFault, Report, Side, Symbol, order_plan, read_order};
use slow::Slow;
use std::alloc::{AllocError, Global};
use std::rt::Files;
use std::{fs, io};

/// The side that a word names.
fn side(word: &str) -> Option<Side> {
    match word {
        "buy" => Some(Side::Buy),
        "sell" => Some(Side::Sell),
        _ => None,
    }
}

/// A symbol of up to eight bytes.
fn symbol(word: &str) -> Symbol {
    let mut text = [0u8; 8];
    for (place, byte) in text.iter_mut().zip(word.bytes()) {
        *place = byte;
    }
    Symbol { text }
}

/// The order that the words behind `new` spell.
fn new_order(words: &str) -> Order {
    let (cl_id, rest) = halves(words);
    let (side_word, rest) = halves(rest);
    let (symbol_word, rest) = halves(rest);
    let (quantity, price) = halves(rest);
    Order::New(NewOrder {
        cl_id: number(cl_id),
        side: side(side_word),
        symbol: symbol(symbol_word),
        quantity: number(quantity).min(4_000_000_000) as u32,
        price: price.parse::<i64>().unwrap_or(0),
    })
}

/// The request that the words behind `cancel` spell.
fn cancel(words: &str) -> Order {
    let (cl_id, orig) = halves(words);
    Order::Cancel {
        cl_id: number(cl_id),
        orig: number(orig),
    }
}

/// What a payload is read as, by the schema's first version.
fn read(alloc: Global, words: &str) -> Result<Result<Order, OrderFault>, AllocError> {
    let plan = order_plan(alloc, 1)?;
    let payload = bytes(alloc, words)?;
    Ok(read_order(&plan, payload.as_slice()))
}

/// A line for each report: identifier, kind, quantity and price.
fn add_reports(reports: &[Report], told: &mut String) -> Result<(), AllocError> {
    for report in reports {
        let Report {
            cl_id,
            kind,
            desk,
            quantity,
            price,
        } = *report;
        write!(told, "{cl_id} {kind:?} {quantity} {price}\n")?;
        if desk != 1 {
            write!(told, "desk {desk}\n")?;
        }
    }
    Ok(())
}

/// What the book reports of an order.
fn add_order(
    book: &mut Book,
    order: &Result<Order, OrderFault>,
    told: &mut String,
) -> Result<(), AllocError> {
    let reports = book.on_order(order)?;
    add_reports(reports.as_slice(), told)
}

/// Of how many orders of chance the reports are compared, and how wide their prices stand.
const COMPARED: u64 = 100_000;

const WIDTH: u32 = 12;

/// Whether the reports of the book are those of the slow one, order by order.
fn is_equal(alloc: Global, count: u64) -> Result<bool, AllocError> {
    let mut book = Book::new(alloc);
    let mut slow = Slow::new(alloc);
    let mut chance = Chance::new(WIDTH);
    for _ in 0..count {
        let order = chance.order();
        let ours = book.on_order(&order)?;
        let theirs = slow.on_order(&order)?;
        if ours.as_slice() != theirs.as_slice() {
            return Ok(false);
        }
    }
    Ok(true)
}

/// What a line shows.
fn add_line(
    alloc: Global,
    book: &mut Book,
    kind: &str,
    words: &str,
    told: &mut String,
) -> Result<(), AllocError> {
    match kind {
        "new" => add_order(book, &Ok(new_order(words)), told),
        "cancel" => add_order(book, &Ok(cancel(words)), told),
        "bytes" => {
            let order = read(alloc, words)?;
            add_order(book, &order, told)
        }
        "resting" => {
            let left = book.resting(number(words));
            write!(told, "{left:?}\n")
        }
        _ => Ok(()),
    }
}

/// Prints what the section shows.
pub fn print<R: Files + Print + AllocGlobal>(rt: &R) -> io::Result<()> {
    let text = fs::read_to_string(rt, "book.txt")?;
    let mut book = Book::new(rt.alloc());
    for line in text.lines() {
        rt.println(line)?;
        let (kind, words) = halves(line);
        let mut told = String::new(rt.alloc());
        add_line(rt.alloc(), &mut book, kind, words, &mut told)?;
        rt.print(told)?;
    }
    Ok(())
}

/// Prints what the section of chance shows.
pub fn print_chance<R: Print + AllocGlobal>(rt: &R) -> io::Result<()> {
    let word = if is_equal(rt.alloc(), COMPARED)? {
        "equal"
    } else {
        "other"
    };
    println!(rt; "{COMPARED} {word}")
}
