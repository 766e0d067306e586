// Lines that tell the three tables apart: the same call on each, by its number, and on a number that names none.
use super::reporting;
use super::reporting::due;
use judging::judge_on;
use ladder::{down_on, place_of_on, price_at_on, up_on};
use limits::{five_percent_lower_on, lower_limit, lower_limit_on, upper_limit_on};
use orders::{Order, question};
use questions::code_names::{BOTH, BUY, LIMIT};
use std::io;
use trades::judge_trade_on;

// The tables are told apart by their spreads over 0.50 to 10, 10 to 20 and 20 to 50. Number 4 names none.
pub(crate) fn steps(rt: &impl Print) -> io::Result<()> {
    for (asked, found, due) in [
        ("0.50 plus 1 spread, table 1", up_on(1, 500, 1), 510),
        ("0.50 plus 1 spread, table 2", up_on(2, 500, 1), 510),
        ("0.50 plus 1 spread, table 3", up_on(3, 500, 1), 505),
        ("10.00 plus 1 spread, table 1", up_on(1, 10000, 1), 10020),
        ("10.00 plus 1 spread, table 2", up_on(2, 10000, 1), 10010),
        ("10.00 plus 1 spread, table 3", up_on(3, 10000, 1), 10010),
        ("20.00 plus 1 spread, table 1", up_on(1, 20000, 1), 20050),
        ("20.00 plus 1 spread, table 2", up_on(2, 20000, 1), 20020),
        ("20.00 plus 1 spread, table 3", up_on(3, 20000, 1), 20020),
        (
            "20.20 less 24 spreads, table 1",
            down_on(1, 20200, 24),
            19600,
        ),
        (
            "20.20 less 24 spreads, table 2",
            down_on(2, 20200, 24),
            19860,
        ),
        (
            "20.20 less 24 spreads, table 3",
            down_on(3, 20200, 24),
            19860,
        ),
        ("50.00 less 1 spread, table 1", down_on(1, 50000, 1), 49950),
        ("50.00 less 1 spread, table 2", down_on(2, 50000, 1), 49980),
        ("50.00 less 1 spread, table 3", down_on(3, 50000, 1), 49980),
        ("0.50 plus 1 spread, table 4, none", up_on(4, 500, 1), 0),
    ] {
        reporting::price(rt, asked, found, due)?;
    }
    Ok(())
}

// Table 1 has 10,340 prices, table 2 11,740, table 3 12,690.
pub(crate) fn places(rt: &impl Print) -> io::Result<()> {
    for (asked, found, due) in [
        (
            "place of 9,995.000, table 1",
            place_of_on(1, 9995000),
            10339,
        ),
        (
            "place of 9,995.000, table 2",
            place_of_on(2, 9995000),
            11739,
        ),
        (
            "place of 9,995.000, table 3",
            place_of_on(3, 9995000),
            12689,
        ),
        ("price at place 1,740, table 1", price_at_on(1, 1740), 20000),
        ("price at place 1,740, table 2", price_at_on(2, 1740), 15000),
        ("price at place 1,740, table 3", price_at_on(3, 1740), 7750),
        (
            "price at place 1,740, table 0, none",
            price_at_on(0, 1740),
            0,
        ),
    ] {
        reporting::price(rt, asked, found, due)?;
    }
    Ok(())
}

// Lines E and J on each table, and what a wrong table would give for the calls that name none.
pub(crate) fn limits(rt: &impl Print) -> io::Result<()> {
    for (asked, found, due) in [
        ("Low(0.51), table 1", lower_limit_on(1, 510), 385),
        ("Low(0.51), table 2", lower_limit_on(2, 510), 385),
        ("Low(0.51), table 3", lower_limit_on(3, 510), 390),
        ("Low(20.20), table 1", lower_limit_on(1, 20200), 19200),
        ("Low(20.20), table 2", lower_limit_on(2, 20200), 19190),
        ("Low(20.20), table 3", lower_limit_on(3, 20200), 19190),
        ("High(20.20), table 1", upper_limit_on(1, 20200), 21400),
        ("High(20.20), table 2", upper_limit_on(2, 20200), 21200),
        ("High(20.20), table 3", upper_limit_on(3, 20200), 21200),
        (
            "20.20 less 5 percent, table 1",
            five_percent_lower_on(1, 20200),
            19200,
        ),
        ("Low(20.20), table 4, none", lower_limit_on(4, 20200), 0),
    ] {
        reporting::price(rt, asked, found, due)?;
    }
    reporting::price_and_not(rt, "Low(20.20), no table", lower_limit(20200), 19190, 19200)?;
    reporting::price_and_not(rt, "Low(0.51), no table", lower_limit(510), 385, 390)
}

// Line A: 19.89 and 19.90 are no prices of table 1. 14 comes before all else but 1.
pub(crate) fn questions(rt: &impl Print) -> io::Result<()> {
    let line_a = question(Order::new(BUY, LIMIT, BOTH).quotes(19890, 19900), 18900);
    let unknown = question(Order::new(9, LIMIT, BOTH), 18900);
    for (asked, found, due) in [
        ("line A, table 1", judge_on(1, &line_a), due(3, 0, 0)),
        (
            "line A, table 2",
            judge_on(2, &line_a),
            due(0, 18900, 19900),
        ),
        (
            "line A, table 3",
            judge_on(3, &line_a),
            due(0, 18900, 19900),
        ),
        ("line A, table 4", judge_on(4, &line_a), due(14, 0, 0)),
        ("side 9, table 0", judge_on(0, &unknown), due(14, 0, 0)),
        ("no bytes, table 0", judge_on(0, &[]), due(1, 0, 0)),
    ] {
        reporting::answer(rt, asked, 18900, found, due)?;
    }
    Ok(())
}

// A close of 20.20, and one of 20.05, which is a price of table 1 alone.
pub(crate) fn trades(rt: &impl Print) -> io::Result<()> {
    for (asked, table, close, due) in [
        (
            "trade, close 20.20, table 1",
            1,
            20200,
            due(8, 19200, 21400),
        ),
        (
            "trade, close 20.20, table 2",
            2,
            20200,
            due(0, 19190, 21200),
        ),
        (
            "trade, close 20.05, table 1",
            1,
            20050,
            due(0, 19060, 21250),
        ),
        (
            "trade, close 20.05, table 2",
            2,
            20050,
            due(0, 19050, 21040),
        ),
        (
            "trade, close 20.05, table 3",
            3,
            20050,
            due(0, 19050, 21040),
        ),
        ("trade, close 20.05, table 4", 4, 20050, due(14, 0, 0)),
    ] {
        let answer = judge_trade_on(table, 19190, close, 0, 0, 0, 0);
        reporting::answer(rt, asked, 19190, answer, due)?;
    }
    Ok(())
}
