// Closes and nominal prices between two ladder prices, document 02, b: 20.05 lies between 20.04 and 20.06, and 0.252 between 0.250 and 0.255.
use super::reporting;
use super::reporting::{due, outside};
use ladder::{down, up};
use limits::{five_percent_lower, lower_limit, upper_limit};
use orders::Order;
use questions::code_names::{BUY, BUY_ONLY, LIMIT, OPENING};
use std::io;
use trades::judge_trade;

// The first spread goes to the nearest ladder price, and is one of the n: below 0.252 are 0.250 and 23 spreads of 0.001.
pub(crate) fn steps(rt: &impl Print) -> io::Result<()> {
    for (asked, found, due) in [
        ("20.05 less 1 spread", down(20050, 1), 20040),
        ("20.05 plus 1 spread", up(20050, 1), 20060),
        ("20.05 less 24 spreads", down(20050, 24), 19790),
        ("20.05 plus 24 spreads", up(20050, 24), 20520),
        ("20.05 less 0 spreads", down(20050, 0), 20050),
        ("20.05 plus 0 spreads", up(20050, 0), 20050),
        ("9,995.001 less 1 spread, none", down(9995001, 1), 0),
        ("0.009 plus 1 spread, none", up(9, 1), 0),
    ] {
        reporting::price(rt, asked, found, due)?;
    }
    reporting::price_and_not(rt, "0.252 less 24 spreads", down(252, 24), 227, 226)
}

// 5 percent is of the close as it is: taken off 20.04 it would give 19.04, off 20.06 19.06.
pub(crate) fn limits_of_closes(rt: &impl Print) -> io::Result<()> {
    for (asked, found, due) in [
        ("Low(20.05)", lower_limit(20050), 19050),
        ("High(20.05)", upper_limit(20050), 21040),
        ("Low(0.252)", lower_limit(252), 227),
        ("20.05 less 5 percent", five_percent_lower(20050), 19050),
        ("Low(9,995.001), none", lower_limit(9995001), 0),
        ("High(0.009), none", upper_limit(9), 0),
    ] {
        reporting::price(rt, asked, found, due)?;
    }
    Ok(())
}

// Under nine times 20.05, 180.45, is 180.40, as close and as nominal price. Low(20.04) is 19.04.
pub(crate) fn questions(rt: &impl Print) -> io::Result<()> {
    let opening = Order::new(BUY, LIMIT, OPENING).close(20050);
    reporting::range(
        rt,
        "opening, close 20.05",
        opening,
        due(0, 19050, 180400),
        outside(19040, 8),
        outside(180500, 10),
    )?;
    let nominal = Order::new(BUY, LIMIT, BUY_ONLY)
        .quotes(20040, 0)
        .nominal(20050);
    reporting::range(
        rt,
        "bid 20.04, nominal 20.05",
        nominal,
        due(0, 19040, 180400),
        outside(19030, 8),
        outside(180500, 10),
    )
}

// Number 3 stays: for a bid between two ladder prices, and for a close or a nominal price outside the ends.
pub(crate) fn refused(rt: &impl Print) -> io::Result<()> {
    let opening = Order::new(BUY, LIMIT, OPENING);
    for (asked, tried) in [
        (
            "bid 20.05",
            Order::new(BUY, LIMIT, BUY_ONLY).quotes(20050, 0),
        ),
        ("close 9,995.001", opening.close(9995001)),
        ("close 0.009", opening.close(9)),
        ("opening, nominal 9,995.001", opening.nominal(9995001)),
    ] {
        reporting::order(rt, asked, tried, 20040, due(3, 0, 0))?;
    }
    Ok(())
}

pub(crate) fn trades(rt: &impl Print) -> io::Result<()> {
    for (asked, close, price, due) in [
        ("trade, close 20.05", 20050, 19050, due(0, 19050, 21040)),
        ("trade, close 20.05", 20050, 19049, due(8, 19050, 21040)),
        ("trade, close 20.05", 20050, 21041, due(9, 19050, 21040)),
        ("trade, close 9,995.001", 9995001, 9995000, due(3, 0, 0)),
        ("trade, close 0.009", 9, 10, due(3, 0, 0)),
    ] {
        let answer = judge_trade(price, close, 0, 0, 0, 0);
        reporting::answer(rt, asked, price, answer, due)?;
    }
    Ok(())
}
