// Lines A to P of document 01, and both examples of source document 004.
//
// Each order of lines A to O is tried at the lowest and the highest price shown, and at the next prices outside.
use super::reporting;
use super::reporting::{due, outside};
use limits::{lower_limit, upper_limit};
use orders::Order;
use questions::code_names::{BOTH, BUY, BUY_ONLY, ENHANCED, LIMIT, NEITHER, SELL, SELL_ONLY};
use std::io;
use trades::judge_trade;

pub(crate) fn a_to_d(rt: &impl Print) -> io::Result<()> {
    let a = Order::new(BUY, LIMIT, BOTH).quotes(19890, 19900);
    reporting::range(
        rt,
        "A",
        a,
        due(0, 18900, 19900),
        outside(18890, 8),
        outside(19910, 9),
    )?;
    let b = Order::new(SELL, LIMIT, BOTH).quotes(495, 500);
    reporting::range(
        rt,
        "B",
        b,
        due(0, 495, 740),
        outside(490, 8),
        outside(750, 9),
    )?;
    let c = Order::new(BUY, ENHANCED, BOTH).quotes(495, 500);
    reporting::range(
        rt,
        "C",
        c,
        due(0, 375, 590),
        outside(370, 8),
        outside(600, 9),
    )?;
    let d = Order::new(SELL, ENHANCED, BOTH).quotes(495, 500);
    reporting::range(
        rt,
        "D",
        d,
        due(0, 450, 740),
        outside(445, 8),
        outside(750, 9),
    )
}

pub(crate) fn e_to_j(rt: &impl Print) -> io::Result<()> {
    reporting::price(rt, "E Low(0.51)", lower_limit(510), 385)?;
    reporting::price(rt, "F High(0.245)", upper_limit(245), 345)?;
    reporting::price(rt, "G Low(0.034)", lower_limit(34), 10)?;
    reporting::price(rt, "G Low(0.035)", lower_limit(35), 11)?;
    reporting::price(rt, "H Low(9,995)", lower_limit(9995000), 9500000)?;
    reporting::price(rt, "H High(9,880)", upper_limit(9880000), 9995000)?;
    reporting::price(rt, "I Low(50)", lower_limit(50000), 47500)?;
    reporting::price(rt, "I High(50)", upper_limit(50000), 52500)?;
    reporting::price(rt, "J Low(20.20)", lower_limit(20200), 19190)
}

pub(crate) fn k_and_l(rt: &impl Print) -> io::Result<()> {
    let k = Order::new(BUY, LIMIT, BUY_ONLY)
        .quotes(1000, 0)
        .nominal(1000);
    reporting::range(
        rt,
        "K",
        k,
        due(0, 760, 8990),
        outside(750, 8),
        outside(9000, 10),
    )?;
    let l = Order::new(SELL, LIMIT, SELL_ONLY)
        .quotes(0, 1000)
        .nominal(1000);
    reporting::range(
        rt,
        "L",
        l,
        due(0, 112, 1240),
        outside(111, 10),
        outside(1250, 9),
    )
}

// Close 10, bids 9.60 to 10.30, asks 9.80 to 10.60.
fn trade_m(rt: &impl Print, price: u32, number: u32) -> io::Result<()> {
    let answer = judge_trade(price, 10000, 9600, 9800, 10300, 10600);
    reporting::answer(rt, "M", price, answer, due(number, 9500, 10600))
}

pub(crate) fn m(rt: &impl Print) -> io::Result<()> {
    trade_m(rt, 9500, 0)?;
    trade_m(rt, 10600, 0)?;
    trade_m(rt, 9503, 0)?;
    trade_m(rt, 9499, 8)?;
    trade_m(rt, 10610, 9)
}

pub(crate) fn n_to_p(rt: &impl Print) -> io::Result<()> {
    let n = Order::new(BUY, LIMIT, SELL_ONLY)
        .quotes(0, 3000)
        .close(2500)
        .day(2800, 2800);
    reporting::range(
        rt,
        "N",
        n,
        due(0, 2260, 3000),
        outside(2250, 8),
        outside(3010, 9),
    )?;
    let o = Order::new(BUY, LIMIT, NEITHER).last_quotes(0, 3000);
    reporting::range(
        rt,
        "O",
        o,
        due(0, 10, 9995000),
        outside(9, 6),
        outside(9995001, 6),
    )?;
    let p = Order::new(BUY, LIMIT, BOTH)
        .quotes(5000, 5010)
        .nominal(500000);
    reporting::order(rt, "P", p, 5000, due(10, 0, 0))?;
    reporting::order(rt, "P", p, 60000, due(9, 0, 0))
}

// As an order price 20.06 is a ladder price; 20.05 gets 7.
pub(crate) fn ladder_prices(rt: &impl Print) -> io::Result<()> {
    let order = Order::new(BUY, LIMIT, NEITHER);
    reporting::order(rt, "a ladder price", order, 20060, due(0, 10, 9995000))?;
    reporting::order(
        rt,
        "between two ladder prices",
        order,
        20050,
        due(7, 10, 9995000),
    )
}

// Example 1: the lower limit of a limit buy order. 24 spreads give 19.65, 5 percent 18.8955, rounded up 18.90.
// Example 2: the upper limit of a limit sell order. 24 spreads give 0.74, 5 percent 0.525, rounded down 0.52.
pub(crate) fn source_document_004(rt: &impl Print) -> io::Result<()> {
    reporting::price(
        rt,
        "004, example 1, 19.89 less 24 spreads",
        ladder::down(19890, 24),
        19650,
    )?;
    reporting::price(
        rt,
        "004, example 1, 5 percent",
        limits::five_percent_lower(19890),
        18900,
    )?;
    reporting::price(rt, "004, example 1, lower limit", lower_limit(19890), 18900)?;
    reporting::price(
        rt,
        "004, example 2, 0.50 plus 24 spreads",
        ladder::up(500, 24),
        740,
    )?;
    reporting::price(
        rt,
        "004, example 2, 5 percent",
        limits::five_percent_upper(500),
        520,
    )?;
    reporting::price(rt, "004, example 2, upper limit", upper_limit(500), 740)
}
