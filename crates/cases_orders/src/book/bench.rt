//! A measurement: `COUNT WIDTH` has a book answer so many orders of chance whose prices stand so wide, and prints how many reports came of
//! it and a sum over them, so that no work can be left out.

use super::chance::Chance;
use cases_words::number;
use order_book::Book;
use order_desk::{Report, ReportKind};
use std::alloc::{AllocError, Global};
use std::rt::Env;
use std::{env, io};

/// The number of a kind in the sum.
fn kind_number(kind: ReportKind) -> u64 {
    match kind {
        ReportKind::Accepted => 1,
        ReportKind::Filled => 2,
        ReportKind::Expired => 3,
        ReportKind::Rejected(_) => 4,
    }
}

fn added(sum: u64, report: &Report) -> u64 {
    sum.wrapping_mul(31)
        .wrapping_add(report.cl_id)
        .wrapping_add(kind_number(report.kind))
        .wrapping_add(u64::from(report.quantity))
        .wrapping_add(report.price.cast_unsigned())
}

/// How many reports came of so many orders, and the sum over them.
fn answered(alloc: Global, count: u64, width: u32) -> Result<(u64, u64), AllocError> {
    let mut book = Book::new(alloc);
    let mut chance = Chance::new(width);
    let mut reports = 0u64;
    let mut sum = 0u64;
    for _ in 0..count {
        let order = chance.order();
        let told = book.on_order(&order)?;
        reports = reports.wrapping_add(told.len() as u64);
        for report in told.as_slice() {
            sum = added(sum, report);
        }
    }
    Ok((reports, sum))
}

/// Prints what the section shows: what it takes, where the words behind its name are not two.
pub fn print<R: Env + Print + AllocGlobal>(rt: &R) -> io::Result<()> {
    let mut words = env::args(rt)?;
    let _ = words.next();
    let _ = words.next();
    match (words.next(), words.next()) {
        (Some(count), Some(width)) => {
            let width = number(width.as_str()).min(1_000_000_000) as u32;
            let (reports, sum) = answered(rt.alloc(), number(count.as_str()), width)?;
            println!(rt; "{reports} {sum}")
        }
        _ => rt.println("COUNT WIDTH"),
    }
}
