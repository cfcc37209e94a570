// A whole life over terms of one's own: the product of one month that crate `single_month` shows, on the weekday calendar.
use crate::days::{OLD, end_day, payment};
use crate::tests::{line, number};
use book::Book;
use calendars::Weekdays;
use ledger::Fault;
use single_month::SingleMonth;
use std::test::Fail;

// The classes: that of the next month, which trades, and that of the current one, which settles.
const NEXT: u32 = 0;

const CURRENT: u32 = 1;

type SingleBook = Book<SingleMonth<Weekdays>>;

// So many days, each marked at one price. Nothing is settled.
fn end_days(book: &mut SingleBook, days: u32, price: i32) -> Result<(), Fault> {
    for _ in 0..days {
        end_day(book, price)?;
    }
    Ok(())
}

// What account 0 holds of the next month and of the current one, and the cash of both accounts.
fn figures(book: &SingleBook) -> (i32, i32, i64, i64) {
    (
        book.holding(0, NEXT).unwrap_or(7),
        book.holding(0, CURRENT).unwrap_or(7),
        book.cash(0).unwrap_or(7),
        book.cash(1).unwrap_or(7),
    )
}

// From 3 March 2008 on account 0 buys two lots of April at 500 cents, sells one of them at 530, and buys three lots of May
// at 600. April, of 30 days, is finally settled at 515 and May, of 31 days, at 605. So its cash must end at
//
//     30 × (530 − 500) + 30 × (515 − 500) + 31 × 3 × (605 − 600) = 900 + 450 + 465 = 1815 cents,
//
// whatever was marked on the way:
//
//     3 March    2 lots bought at 500, marked at 510        30 × 2 × 10 = 600                      600
//     31 March   1 lot sold at 530, both marked at 520      30 × (2 × 10 + 1 × (530 − 520)) = 900  1500
//     1 April    3 lots bought at 600, marked at 610        31 × 3 × 10 = 930                      2430
//     30 April   1 lot of April settled at 515, from 520    30 × 1 × (−5) = −150                   2280
//     30 April   3 lots of May marked at 620, from 610      31 × 3 × 10 = 930                      3210
//     1 May      3 lots of May settled at 605, from 620     31 × 3 × (−15) = −1395                 1815
#[test]
fn lives_through_its_months(rt: HostRuntime) -> Result<(), Fail> {
    let terms = SingleMonth { calendar: Weekdays };
    let lines = [line(NEXT), line(CURRENT)];
    let mut book = Book::make(terms, 98, 2, &lines).map_err(|_| "no book")?;
    assert_eq!(rt; (book.day(), book.month(), book.accounts()), (2984, 98, 2));
    // 3 March: only the next month trades.
    assert_eq!(rt; number(book.trade(0, 1, CURRENT, 1, 500)), 9);
    assert_eq!(rt; number(book.trade(0, 1, NEXT, 2, 500)), 0);
    assert_eq!(rt; number(end_day(&mut book, 510)), 0);
    assert_eq!(rt; figures(&book), (2, 0, 600, -600));
    // The 19 open days from 4 March to 28 March.
    assert_eq!(rt; number(end_days(&mut book, 19, 510)), 0);
    // 31 March: April becomes the current month.
    assert_eq!(rt; book.day(), 3012);
    assert_eq!(rt; number(book.trade(1, 0, NEXT, 1, 530)), 0);
    assert_eq!(rt; number(end_day(&mut book, 520)), 0);
    assert_eq!(rt; figures(&book), (0, 1, 1500, -1500));
    assert_eq!(rt; book.last_price(NEXT), None);
    assert_eq!(rt; book.last_price(CURRENT), Some(520));
    // 1 April.
    assert_eq!(rt; number(book.trade(0, 1, NEXT, 3, 600)), 0);
    assert_eq!(rt; number(book.reprice(CURRENT, 400)), 0);
    assert_eq!(rt; number(end_day(&mut book, 610)), 0);
    assert_eq!(rt; figures(&book), (3, 1, 2430, -2430));
    // The 20 open days from 2 April to 29 April, and 30 April: April is settled before May follows it.
    assert_eq!(rt; number(end_days(&mut book, 20, 610)), 0);
    assert_eq!(rt; book.day(), 3042);
    assert_eq!(rt; number(end_day(&mut book, 620)), 19);
    let mut list = [OLD; 3];
    assert_eq!(rt; number(book.settle(515, &mut list)), 0);
    assert_eq!(rt; list, [payment(0, -150), payment(1, 150), OLD]);
    assert_eq!(rt; figures(&book), (3, 0, 2280, -2280));
    assert_eq!(rt; number(book.close(&mut list)), 0);
    assert_eq!(rt; list, [payment(0, 930), payment(1, -930), OLD]);
    // 1 May: the last month is settled, and nothing is held.
    assert_eq!(rt; book.day(), 3043);
    assert_eq!(rt; figures(&book), (0, 3, 3210, -3210));
    assert_eq!(rt; number(book.settle(605, &mut list)), 0);
    assert_eq!(rt; list, [payment(0, -1395), payment(1, 1395), OLD]);
    assert_eq!(rt; figures(&book), (0, 0, 1815, -1815));
    assert_eq!(rt; number(book.settle(605, &mut list)), 16);
    Ok(())
}
