// The programs of document 01 that would look finished: their answers must not come out.
use super::reporting;
use super::reporting::due;
use orders::Order;
use questions::code_names::{BUY, BUY_ONLY, LIMIT, SELL_ONLY};
use std::io;

// 24 times the spread at the reference; 5 percent to the nearest spread; rounding by the reference's spread.
pub(crate) fn steps_and_rounding(rt: &impl Print) -> io::Result<()> {
    reporting::price_and_not(rt, "0.50 plus 24 spreads", ladder::up(500, 24), 740, 620)?;
    reporting::price_and_not(
        rt,
        "19.91 less 5 percent",
        limits::five_percent_lower(19910),
        18920,
        18910,
    )?;
    reporting::price_and_not(
        rt,
        "20.20 less 5 percent",
        limits::five_percent_lower(20200),
        19190,
        19200,
    )
}

// A missing previous close taken as the least price would show 0.010 as the lowest. Low(3.00) is 2.76.
pub(crate) fn missing_close(rt: &impl Print) -> io::Result<()> {
    let order = Order::new(BUY, LIMIT, SELL_ONLY).quotes(0, 3000);
    reporting::order(rt, "no previous close", order, 2760, due(0, 2760, 3000))?;
    reporting::order(rt, "no previous close", order, 2750, due(8, 2760, 3000))
}

// A price of exactly nine times the nominal let through.
pub(crate) fn nine_fold(rt: &impl Print) -> io::Result<()> {
    let order = Order::new(BUY, LIMIT, BUY_ONLY)
        .quotes(1000, 0)
        .nominal(1000);
    reporting::order(
        rt,
        "nine times the nominal",
        order,
        9000,
        due(10, 760, 8990),
    )
}
