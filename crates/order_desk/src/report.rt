//! Reports: what is told of an order to the one who sent it.

ghost use Rattle.std.specs.Prelude.{◌≡◌};

/// What became of an order, or of a part of it.
#[derive(Clone, Copy, Debug, PartialEq, Eq)]
pub struct Report {
    /// The identifier of the order or of the request that is reported on; 0 where there is none.
    pub cl_id: u64,
    /// What became of it.
    pub kind: ReportKind,
    /// The number of the desk that reports, from 1.
    pub desk: u8,
    /// How many it speaks of; 0 in a refusal.
    pub quantity: u32,
    /// The price of one, in ten-thousandths; 0 in a refusal.
    pub price: i64,
}

/// What became of an order.
#[derive(Clone, Copy, Debug, PartialEq, Eq)]
pub enum ReportKind {
    /// It was taken.
    Accepted,
    /// Some of it was traded.
    Filled,
    /// What was left of it was taken back.
    Expired,
    /// It was refused, for this reason.
    Rejected(RejectCode),
}

impl ReportKind {
    ghost use Rattle.order_desk.specs.Reports.{kind_number, code_number};

    /// The number that a message has for it, 1 to 4.
    pub fn number(self) -> u8
        ensures number { result ≡ kind_number self }
    {
        match self {
            ReportKind::Accepted => 1,
            ReportKind::Filled => 2,
            ReportKind::Expired => 3,
            ReportKind::Rejected(_) => 4,
        }
    }

    /// The number that a message has for the reason of a refusal; 0 where nothing is refused.
    pub fn code(self) -> u8
        ensures number { result ≡ code_number self }
    {
        match self {
            ReportKind::Accepted | ReportKind::Filled | ReportKind::Expired => 0,
            ReportKind::Rejected(why) => why.number(),
        }
    }
}

/// Why an order or a request is refused.
#[derive(Clone, Copy, Debug, PartialEq, Eq)]
pub enum RejectCode {
    /// Its quantity is 0 or above 1,000,000 (code 1).
    Quantity,
    /// Its price is not above 0 (code 2).
    Price,
    /// It is a cancel, and the desk keeps no order that could be cancelled (code 3).
    NothingKept,
    /// It is no order (code 4).
    NotAnOrder,
    /// Its side is neither of the two (code 5).
    Side,
    /// An order with its identifier rests already (code 6).
    Duplicate,
    /// The order that it would cancel does not rest (code 7).
    NotResting,
}

impl RejectCode {
    ghost use Rattle.order_desk.specs.Reports.{number_of_code};

    /// The number that a message has for it, 1 to 7.
    pub fn number(self) -> u8
        ensures number { result ≡ number_of_code self }
    {
        match self {
            RejectCode::Quantity => 1,
            RejectCode::Price => 2,
            RejectCode::NothingKept => 3,
            RejectCode::NotAnOrder => 4,
            RejectCode::Side => 5,
            RejectCode::Duplicate => 6,
            RejectCode::NotResting => 7,
        }
    }
}

/// The reports of one order, in order.
#[derive(Clone, Copy)]
pub struct ReportList {
    /// The first.
    pub first: Report,
    /// The one behind it.
    pub second: Option<Report>,
}
