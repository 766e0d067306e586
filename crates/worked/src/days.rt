// A day book, event by event, and orders that are filled from it, worked out by hand. Low(R) and High(R) stand beside each order.
ghost use Rattle.std.specs.Prelude.{◌≡◌, IfOk};
ghost use Rattle.questions.specs.declared.code_names.TheConstants.{LIMIT};

use super::reporting;
use super::reporting::due;
use daybook::{Day, Entered};
use dayquestion::Order;
use judging::Answer;
use questions::code_names::{BUY, LIMIT, SELL};
use questions::{Reference, encoding};
use std::io;

// The number that an event got, and the one that is due. The day goes on.
fn told(rt: &impl Print, event: &str, entered: Entered, due: u32) -> io::Result<Day>
    ensures { IfOk result (λ day. day ≡ entered.day) }
{
    reporting::number(rt, event, entered.number, due)?;
    Ok(entered.day)
}

// An order, filled from the day and judged.
fn order(rt: &impl Print, asked: &str, day: Day, order: Order, due: Answer) -> io::Result<()> {
    let bytes = encoding::encode(dayquestion::question(day, order));
    reporting::answer(rt, asked, order.price, judging::judge(&bytes), due)
}

// A limit order with this nominal price, 0 is none, and security code 1.
fn limit(side: u8, price: u32, nominal: u32) -> Order
    ensures { result ≡ record { side = side; order_type = LIMIT; price = price; nominal = nominal; security_code = 1 } }
{
    Order {
        side,
        order_type: LIMIT,
        price,
        nominal,
        security_code: 1,
    }
}

// Until there is a bid or an ask, the previous close: Low(20.05) is 19.05, and under nine times it is 180.40; for 20.40 they are 19.38 and
// 183.50.
pub(crate) fn opening(rt: &impl Print) -> io::Result<()> {
    let none = Day::fresh(Reference::Price(9995001));
    told(rt, "close 9,995.001", none, 12)?;
    let old = told(rt, "close 20.05", Day::fresh(Reference::Price(20050)), 0)?;
    order(
        rt,
        "opening, buy",
        old,
        limit(BUY, 20040, 0),
        due(0, 19050, 180400),
    )?;
    let day = told(rt, "close 20.40", Day::fresh(Reference::Price(20400)), 0)?;
    order(
        rt,
        "opening, buy",
        day,
        limit(BUY, 20400, 0),
        due(0, 19380, 183500),
    )?;
    let traded = told(
        rt,
        "trade 20.00 before any quote",
        day.system_trade(20000),
        0,
    )?;
    order(
        rt,
        "opening still",
        traded,
        limit(BUY, 20400, 0),
        due(0, 19380, 183500),
    )
}

// Bid and ask come and go, and a refused event changes nothing. Low(19.90) is 18.91; High(20.40) is 21.42, High(20.50) 21.52.
pub(crate) fn quotes(rt: &impl Print) -> io::Result<()> {
    let fresh = told(rt, "close 20.40", Day::fresh(Reference::Price(20400)), 0)?;
    let bid = told(rt, "bid 19.90", fresh.best_bid(19900), 0)?;
    let both = told(rt, "ask 20.00", bid.best_ask(20000), 0)?;
    let same = told(rt, "bid 20.00", both.best_bid(20000), 13)?;
    order(
        rt,
        "bid 19.90, ask 20.00, buy",
        same,
        limit(BUY, 18910, 0),
        due(0, 18910, 20000),
    )?;
    told(rt, "kind 6", same.enter(6, 0), 11)?;
    told(rt, "buy queue empty at 19.90", same.enter(3, 19900), 11)?;
    told(rt, "trade 20.01", same.enter(5, 20010), 12)?;
    let bid_only = told(rt, "sell queue empty", same.sell_queue_empty(), 0)?;
    order(
        rt,
        "bid 19.90, sell",
        bid_only,
        limit(SELL, 21500, 20000),
        due(9, 19900, 21420),
    )?;
    let over = told(
        rt,
        "bid 20.50, over the last ask",
        bid_only.best_bid(20500),
        0,
    )?;
    let neither = told(rt, "buy queue empty", over.buy_queue_empty(), 0)?;
    order(
        rt,
        "neither, sell",
        neither,
        limit(SELL, 21500, 20000),
        due(0, 2230, 21520),
    )
}
