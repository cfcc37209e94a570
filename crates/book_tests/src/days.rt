// Runs of days over power and wheat: what closes and settlements pay, and where lots go.
use crate::tests::{PowerBook, lines, number, terms};
use book::Book;
use calendars::Weekdays;
use ledger::{Call, Entry, Fault, Payment};
use std::test::Fail;
use terms::Terms;
use wheat::Wheat;

// A line of a payment list as a caller may have left it.
pub(crate) const OLD: Payment = Payment {
    account: 9,
    cents: 5,
};

// A book of two accounts from 3 March 2008, over power.
fn power_book() -> Result<PowerBook, Fault> {
    PowerBook::make(terms(), 98, 2, &lines()).map_err(|refused| refused.fault)
}

// Every tradable class is marked at one price.
fn mark_each<T: Terms>(book: &mut Book<T>, price: i32) -> Result<(), Fault> {
    for class in 0..12 {
        let told = book.terms().class_on(book.day(), class);
        if told.is_some_and(|class| class.tradable) {
            book.mark(class, price)?;
        }
    }
    Ok(())
}

pub(crate) fn end_day<T: Terms>(book: &mut Book<T>, price: i32) -> Result<(), Fault> {
    mark_each(book, price)?;
    book.close(&mut [OLD; 2])
}

// So many days, each marked at one price; what delivers is settled at it.
fn pass_days<T: Terms>(book: &mut Book<T>, days: u32, price: i32) -> Result<(), Fault> {
    for _ in 0..days {
        if book.last_price(book.terms().settling()).is_some() {
            book.settle(price, &mut [OLD; 2])?;
        }
        end_day(book, price)?;
    }
    Ok(())
}

pub(crate) fn payment(account: u32, cents: i128) -> Payment {
    Payment { account, cents }
}

// One lot of the second quarter of 2008, bought at 7,000 and marked at 7,050.
#[test]
fn pays_for_a_quarter(rt: HostRuntime) -> Result<(), Fail> {
    let mut book = power_book().map_err(|_| "no book")?;
    assert_eq!(rt; number(book.trade(0, 1, 3, 1, 7000)), 0);
    assert_eq!(rt; number(mark_each(&mut book, 7050)), 0);
    let mut list = [OLD; 3];
    assert_eq!(rt; number(book.close(&mut list[..1])), 15);
    assert_eq!(rt; list, [OLD; 3]);
    assert_eq!(rt; number(book.close(&mut list)), 0);
    assert_eq!(rt; list, [payment(0, 109_200), payment(1, -109_200), OLD]);
    assert_eq!(rt; book.cash(0).unwrap_or(7), 109_200);
    assert_eq!(rt; number(end_day(&mut book, 7050)), 0);
    assert_eq!(rt; book.cash(0).unwrap_or(7), 109_200);
    Ok(())
}

// On 26 March 2008 the second quarter becomes April, May and June.
#[test]
fn refuses_parts_past_the_limit(rt: HostRuntime) -> Result<(), Fail> {
    let mut book = power_book().map_err(|_| "no book")?;
    assert_eq!(rt; number(pass_days(&mut book, 17, 7000)), 0);
    assert_eq!(rt; number(book.trade(0, 1, 0, 600, 7000)), 0);
    assert_eq!(rt; number(book.trade(0, 1, 3, 500, 7000)), 0);
    assert_eq!(rt; number(end_day(&mut book, 7000)), 20);
    assert_eq!(rt; book.day(), 3007);
    assert_eq!(rt; number(book.trade(1, 0, 0, 100, 7000)), 0);
    assert_eq!(rt; number(end_day(&mut book, 7000)), 0);
    assert_eq!(rt;
        [0, 1, 2, 3].map(|class| book.holding(0, class).unwrap_or(7)),
        [1000, 500, 500, 0]
    );
    Ok(())
}

// 30 May 2008: April is in the settling class, and May is to follow.
#[test]
fn settles_before_the_months_move(rt: HostRuntime) -> Result<(), Fail> {
    let mut book = power_book().map_err(|_| "no book")?;
    assert_eq!(rt; number(book.settle(100_001, &mut [])), 15);
    assert_eq!(rt; number(book.settle(100_001, &mut [OLD; 2])), 16);
    for _ in 0..64 {
        assert_eq!(rt; number(end_day(&mut book, 7000)), 0);
    }
    assert_eq!(rt; number(book.close(&mut [])), 15);
    assert_eq!(rt; number(book.close(&mut [OLD; 2])), 18);
    assert_eq!(rt; number(end_day(&mut book, 7000)), 19);
    assert_eq!(rt; number(book.settle(100_001, &mut [OLD; 2])), 11);
    assert_eq!(rt; number(book.settle(-100_000, &mut [OLD; 2])), 0);
    assert_eq!(rt; number(book.close(&mut [OLD; 2])), 0);
    assert_eq!(rt; book.day(), 3075);
    Ok(())
}

// The year 2009, bought in March 2008, is six classes on 29 December. January delivers and is settled on 2 February.
#[test]
fn follows_a_year(rt: HostRuntime) -> Result<(), Fail> {
    let mut book = power_book().map_err(|_| "no book")?;
    assert_eq!(rt; number(book.trade(0, 1, 7, 1, 7000)), 0);
    assert_eq!(rt; number(book.margins(2)), 7);
    assert_eq!(rt; number(book.margins(0)), 22);
    assert_eq!(rt; number(pass_days(&mut book, 215, 7050)), 0);
    assert_eq!(rt; book.day(), 3285);
    assert_eq!(rt; book.cash(0).unwrap_or(7), 438_000);
    assert_eq!(rt;
        [0, 1, 2, 3, 4, 5, 6, 7, 8, 9, 10].map(|class| book.holding(0, class).unwrap_or(7)),
        [1, 1, 1, 1, 1, 1, 0, 0, 0, 0, 0]
    );
    assert_eq!(rt; number(pass_days(&mut book, 4, 7050)), 0);
    assert_eq!(rt; number(book.reprice(9, 100_001)), 11);
    assert_eq!(rt; number(book.reprice(9, 7200)), 0);
    assert_eq!(rt; number(pass_days(&mut book, 21, 7050)), 0);
    assert_eq!(rt; book.day(), 3320);
    let mut list = [OLD; 2];
    assert_eq!(rt; number(book.settle(7100, &mut list)), 0);
    assert_eq!(rt; list, [payment(0, 37_200), payment(1, -37_200)]);
    assert_eq!(rt;
        [0, 1, 2, 3, 4, 5, 6, 7, 8, 9, 10].map(|class| book.holding(0, class).unwrap_or(7)),
        [1, 0, 0, 1, 1, 1, 0, 0, 0, 1, 0]
    );
    Ok(())
}

// The settling class of wheat is empty until March 2008 expires on the tenth.
#[test]
fn follows_an_expiry(rt: HostRuntime) -> Result<(), Fail> {
    let terms = Wheat { calendar: Weekdays };
    let mut book = Book::make(terms, 98, 2, &lines()[..6]).map_err(|_| "no book")?;
    assert_eq!(rt; number(book.trade(0, 1, 0, 1, 30_000)), 0);
    assert_eq!(rt; number(pass_days(&mut book, 5, 30_000)), 0);
    assert_eq!(rt; book.holding(0, 0).unwrap_or(7), 1);
    assert_eq!(rt; number(pass_days(&mut book, 1, 30_000)), 0);
    assert_eq!(rt; book.day(), 2992);
    assert_eq!(rt; book.holding(0, 0).unwrap_or(7), 0);
    assert_eq!(rt; book.holding(0, 5).unwrap_or(7), 1);
    let mut list = [OLD; 2];
    assert_eq!(rt; number(book.settle(30_100, &mut list)), 0);
    assert_eq!(rt; list, [payment(0, 5000), payment(1, -5000)]);
    assert_eq!(rt; number(book.settle(30_100, &mut list)), 16);
    Ok(())
}

// 31 December 2096 is the last day.
#[test]
fn ends_with_2096(rt: HostRuntime) -> Result<(), Fail> {
    let mut book = PowerBook::make(terms(), 1163, 2, &lines()).map_err(|_| "no book")?;
    assert_eq!(rt; book.day(), 35_401);
    assert_eq!(rt; number(pass_days(&mut book, 20, 7000)), 0);
    assert_eq!(rt; number(end_day(&mut book, 7000)), 21);
    assert_eq!(rt; book.day(), 35_429);
    Ok(())
}

// Two trades that cancel each other.
fn trade_back_and_forth(book: &mut PowerBook) -> Result<(), Fault> {
    book.trade(0, 1, 3, 1, 7000)?;
    book.trade(1, 0, 3, 1, 7000)
}

#[test]
fn accepts_a_hundred_thousand_trades(rt: HostRuntime) -> Result<(), Fail> {
    let mut book = power_book().map_err(|_| "no book")?;
    for _ in 0..49_999 {
        assert_eq!(rt; number(trade_back_and_forth(&mut book)), 0);
    }
    assert_eq!(rt; number(book.trade(0, 1, 3, 1000, 7000)), 0);
    assert_eq!(rt; number(book.trade(0, 1, 3, 1, 7000)), 13);
    assert_eq!(rt; number(book.trade(0, 1, 4, 1, 7000)), 0);
    assert_eq!(rt; number(book.trade(0, 1, 3, 1, 7000)), 12);
    assert_eq!(rt; number(book.trade(0, 1, 3, 1, 100_001)), 11);
    Ok(())
}

const TRADE: Call = Call::Trade {
    buyer: 0,
    seller: 1,
    class: 3,
    lots: 1,
    price: 7000,
};

const MARK: Call = Call::Mark {
    class: 3,
    price: 7050,
};

const REPLAYED: [Entry; 5] = [
    Entry {
        call: TRADE,
        answer: None,
    },
    Entry {
        call: MARK,
        answer: None,
    },
    Entry {
        call: Call::Close { room: 1 },
        answer: Some(Fault::ListTooShort),
    },
    Entry {
        call: Call::Close { room: 2 },
        answer: Some(Fault::ClassUnpriced),
    },
    Entry {
        call: Call::Settle { price: 0, room: 2 },
        answer: Some(Fault::NothingToSettle),
    },
];

#[test]
fn replays_a_list(rt: HostRuntime) -> Result<(), Fail> {
    let mut entries = REPLAYED.map(|entry| Entry {
        answer: None,
        ..entry
    });
    let book = PowerBook::replay(terms(), 98, 2, &lines(), &mut entries).map_err(|_| "no book")?;
    assert_eq!(rt; entries, REPLAYED);
    assert_eq!(rt; book.holding(0, 3).unwrap_or(7), 1);
    Ok(())
}
