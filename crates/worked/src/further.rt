// Lines beyond those of document 01, worked out by hand from its rules. Low(R) and High(R) stand beside each.
use super::reporting;
use super::reporting::due;
use orders::Order;
use questions::code_names::{
    BOTH, BUY, BUY_ONLY, ENHANCED, LIMIT, NEITHER, OPENING, SELL, SELL_ONLY, SPECIAL,
};
use std::io;
use trades::judge_trade;

// By the previous close, also for the nine-fold rule: Low(1.00) is 0.76, High(1.00) 1.24. Without one the nominal does not step in.
pub(crate) fn opening(rt: &impl Print) -> io::Result<()> {
    let buy = Order::new(BUY, LIMIT, OPENING).close(1000);
    reporting::order(rt, "opening buy, close 1.00", buy, 760, due(0, 760, 8990))?;
    reporting::order(rt, "opening buy, close 1.00", buy, 9000, due(10, 760, 8990))?;
    let sell = Order::new(SELL, LIMIT, OPENING).close(1000);
    reporting::order(
        rt,
        "opening sell, close 1.00",
        sell,
        1240,
        due(0, 112, 1240),
    )?;
    reporting::order(
        rt,
        "opening sell, close 1.00",
        sell,
        111,
        due(10, 112, 1240),
    )?;
    let nominal = Order::new(BUY, LIMIT, OPENING).nominal(1000);
    reporting::order(
        rt,
        "opening buy, nominal 1.00",
        nominal,
        9000,
        due(0, 10, 9995000),
    )
}

// The last ask joins only where there is a close or a day low; the last bid never does for a buy. Low(2.50) is 2.26, Low(2.00) 1.76,
// Low(2.80) 2.56, High(2.80) 3.04.
pub(crate) fn neither(rt: &impl Print) -> io::Result<()> {
    let buy = Order::new(BUY, LIMIT, NEITHER).close(2500);
    reporting::order(
        rt,
        "neither, buy, close 2.50",
        buy,
        2260,
        due(0, 2260, 9995000),
    )?;
    reporting::order(
        rt,
        "and last ask 2.00",
        buy.last_quotes(0, 2000),
        1760,
        due(0, 1760, 9995000),
    )?;
    reporting::order(
        rt,
        "and last bid 0.010",
        buy.last_quotes(10, 0),
        2260,
        due(0, 2260, 9995000),
    )?;
    let day = Order::new(BUY, LIMIT, NEITHER).day(2800, 2800);
    reporting::order(
        rt,
        "neither, buy, day 2.80",
        day,
        2560,
        due(0, 2560, 9995000),
    )?;
    let sell = Order::new(SELL, LIMIT, NEITHER).last_quotes(2800, 0);
    reporting::order(
        rt,
        "neither, sell, last bid 2.80",
        sell,
        9995000,
        due(0, 10, 9995000),
    )?;
    reporting::order(
        rt,
        "and close 2.50",
        sell.close(2500),
        3040,
        due(0, 10, 3040),
    )
}

// The greatest of bid, close and day high, 1.20: High is 1.44; nine spreads below 1.00 are 0.91. The least of ask, close and day low,
// 0.90: Low is 0.66; nine spreads above 1.00 are 1.09.
pub(crate) fn one_queue(rt: &impl Print) -> io::Result<()> {
    let sell = Order::new(SELL, ENHANCED, BUY_ONLY)
        .quotes(1000, 0)
        .close(1100)
        .day(900, 1200);
    reporting::order(rt, "buy only, enhanced sell", sell, 910, due(0, 910, 1440))?;
    reporting::order(rt, "buy only, enhanced sell", sell, 1450, due(9, 910, 1440))?;
    let buy = Order::new(BUY, ENHANCED, SELL_ONLY)
        .quotes(0, 1000)
        .close(1100)
        .day(900, 1200);
    reporting::order(rt, "sell only, enhanced buy", buy, 660, due(0, 660, 1090))?;
    reporting::order(rt, "sell only, enhanced buy", buy, 1100, due(9, 660, 1090))
}

// From the opposite quote to the end of the ladder.
pub(crate) fn special(rt: &impl Print) -> io::Result<()> {
    let buy = Order::new(BUY, SPECIAL, BOTH).quotes(19890, 19900);
    reporting::order(rt, "special buy", buy, 19900, due(0, 19900, 9995000))?;
    reporting::order(rt, "special buy", buy, 19890, due(8, 19900, 9995000))?;
    let sell = Order::new(SELL, SPECIAL, BOTH).quotes(19890, 19900);
    reporting::order(rt, "special sell", sell, 19890, due(0, 10, 19890))?;
    reporting::order(rt, "special sell", sell, 19900, due(9, 10, 19890))
}

// Under nine times 19.90, which is 179.10: 179.00. Over a ninth of 0.90, which is 0.100: 0.101.
pub(crate) fn nine_fold(rt: &impl Print) -> io::Result<()> {
    let special = Order::new(BUY, SPECIAL, SELL_ONLY)
        .quotes(0, 19900)
        .nominal(19900);
    reporting::order(
        rt,
        "special buy, nominal 19.90",
        special,
        179000,
        due(0, 19900, 179000),
    )?;
    reporting::order(
        rt,
        "special buy, nominal 19.90",
        special,
        179100,
        due(10, 19900, 179000),
    )?;
    let sell = Order::new(SELL, LIMIT, SELL_ONLY)
        .quotes(0, 1000)
        .nominal(900);
    reporting::order(rt, "sell only, nominal 0.90", sell, 101, due(0, 101, 1240))?;
    reporting::order(rt, "sell only, nominal 0.90", sell, 100, due(10, 101, 1240))
}

// Numbers 2 to 5, which show no range.
pub(crate) fn refused(rt: &impl Print) -> io::Result<()> {
    reporting::order(
        rt,
        "side 3",
        Order::new(3, LIMIT, NEITHER),
        1000,
        due(2, 0, 0),
    )?;
    reporting::order(
        rt,
        "day low 0.251",
        Order::new(BUY, LIMIT, OPENING).day(251, 255),
        1000,
        due(3, 0, 0),
    )?;
    reporting::order(
        rt,
        "opening, a last bid",
        Order::new(BUY, LIMIT, OPENING).last_quotes(1000, 0),
        1000,
        due(4, 0, 0),
    )?;
    reporting::order(
        rt,
        "bid and ask the same",
        Order::new(BUY, LIMIT, BOTH).quotes(1000, 1000),
        1000,
        due(4, 0, 0),
    )?;
    reporting::order(
        rt,
        "special buy, no ask",
        Order::new(BUY, SPECIAL, BUY_ONLY).quotes(1000, 0),
        1000,
        due(5, 0, 0),
    )
}

// The first and the last security code alter nothing of line A; the numbers beside them get 15, after 2 and before 3.
pub(crate) fn security_codes(rt: &impl Print) -> io::Result<()> {
    let line_a = Order::new(BUY, LIMIT, BOTH).quotes(19890, 19900);
    reporting::order(
        rt,
        "line A, security code 99999",
        line_a.security(99999),
        18900,
        due(0, 18900, 19900),
    )?;
    reporting::order(
        rt,
        "security code 0",
        line_a.security(0),
        18900,
        due(15, 0, 0),
    )?;
    reporting::order(
        rt,
        "security code 100000",
        line_a.security(100000),
        18900,
        due(15, 0, 0),
    )?;
    reporting::order(
        rt,
        "side 3, security code 0",
        Order::new(3, LIMIT, NEITHER).security(0),
        1000,
        due(2, 0, 0),
    )?;
    reporting::order(
        rt,
        "day low 0.251, security code 0",
        Order::new(BUY, LIMIT, OPENING).day(251, 255).security(0),
        1000,
        due(15, 0, 0),
    )
}

// High(0.034) is 0.058. Where all are missing the range is the whole ladder.
pub(crate) fn trades(rt: &impl Print) -> io::Result<()> {
    reporting::answer(
        rt,
        "trade, bids 9.60 to 10.30",
        9601,
        judge_trade(9601, 0, 9600, 0, 10300, 0),
        due(0, 9600, 10300),
    )?;
    reporting::answer(
        rt,
        "trade, close 0.034",
        59,
        judge_trade(59, 34, 0, 0, 0, 0),
        due(9, 10, 58),
    )?;
    reporting::answer(
        rt,
        "trade, all missing",
        0,
        judge_trade(0, 0, 0, 0, 0, 0),
        due(6, 10, 9995000),
    )
}
