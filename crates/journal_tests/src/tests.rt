// One lot of the second quarter of 2008, bought on 3 March at 7,000 cents, on a book over Baseload and the weekday
// calendar.
use calendars::Weekdays;
use coded::ClassLine;
use journal::{Journal, cash_sum, lots_sum};
use ledger::{Call, Fault, Payment};
use power::{Baseload, Power};
use std::alloc::{AllocError, Global};
use std::array;
use std::test::Fail;

type PowerJournal = Journal<Power<Weekdays, Baseload>>;

type List = [Payment; 32];

const OLD: Payment = Payment {
    account: 9,
    cents: 5,
};

fn payment(account: u32, cents: i128) -> Payment {
    Payment { account, cents }
}

const CLOSE: Call = Call::Close { room: 2 };

fn line(class: u32) -> ClassLine {
    ClassLine {
        class,
        interval: 1000,
    }
}

fn terms() -> Power<Weekdays, Baseload> {
    Power {
        calendar: Weekdays,
        profile: Baseload,
    }
}

// A book of two accounts from 3 March 2008.
fn open(heap: Global) -> Option<PowerJournal> {
    let lines: [ClassLine; 11] = array::from_fn(|class| line(class as u32));
    Journal::open(heap, terms(), 98, 2, &lines).ok()
}

fn number<T: Drop>(answer: Result<T, Fault>) -> u8 {
    answer.err().map_or(0, |fault| fault.number())
}

// Account 0 buys one lot of the quarter from account 1.
fn buy(
    journal: &mut PowerJournal,
    list: &mut List,
    lots: i32,
    price: i32,
) -> Result<u8, AllocError> {
    let trade = Call::Trade {
        buyer: 0,
        seller: 1,
        class: 3,
        lots,
        price,
    };
    Ok(number(journal.call(trade, list)?))
}

// Every tradable class is marked at 7,050, and the day is closed.
fn end_day(journal: &mut PowerJournal, list: &mut List) -> Result<u8, AllocError> {
    for class in 0..9 {
        let _ = journal.call(Call::Mark { class, price: 7050 }, list)?;
    }
    Ok(number(journal.call(CLOSE, list)?))
}

#[test]
fn sums(rt: HostRuntime) -> Result<(), Fail> {
    let mut journal = open(rt.alloc()).ok_or("no book")?;
    let mut list = [OLD; 32];
    assert_eq!(rt; journal.entries().len(), 0);
    assert_eq!(rt; number(journal.call(CLOSE, &mut list)?), 18);
    assert_eq!(rt; buy(&mut journal, &mut list, 1, 7000)?, 0);
    assert_eq!(rt; end_day(&mut journal, &mut list)?, 0);
    let paid = [payment(0, 109_200), payment(1, -109_200), OLD];
    assert_eq!(rt; [list[0], list[1], list[2]], paid);
    assert_eq!(rt; journal.entries().len(), 12);
    assert_eq!(rt; journal.book().cash(0), Ok(109_200));
    for class in 0..11 {
        assert_eq!(rt; lots_sum(journal.book(), class), Ok(0));
    }
    assert_eq!(rt; number(lots_sum(journal.book(), 11)), 23);
    assert_eq!(rt; cash_sum(journal.book()), 0);
    Ok(())
}

#[test]
fn holds_months(rt: HostRuntime) -> Result<(), Fail> {
    let mut journal = open(rt.alloc()).ok_or("no book")?;
    let mut list = [OLD; 32];
    assert_eq!(rt; buy(&mut journal, &mut list, 1, 7000)?, 0);
    for (account, month, lots) in [
        (0, 98, 0),
        (0, 99, 1),
        (1, 101, -1),
        (1, 102, 0),
        (0, 1200, 0),
    ] {
        assert_eq!(rt;
            journal.held(account, month),
            Ok(lots),
            "{account} in {month}"
        );
    }
    assert_eq!(rt; number(journal.held(2, 99)), 7);
    assert_eq!(rt; number(journal.statement(2)), 7);
    Ok(())
}

// The quarter closes at 7,050, and two more lots of it are bought after the close.
#[test]
fn states_an_account(rt: HostRuntime) -> Result<(), Fail> {
    let mut journal = open(rt.alloc()).ok_or("no book")?;
    let mut list = [OLD; 32];
    assert_eq!(rt; buy(&mut journal, &mut list, 1, 7000)?, 0);
    assert_eq!(rt; end_day(&mut journal, &mut list)?, 0);
    assert_eq!(rt; buy(&mut journal, &mut list, 2, 7100)?, 0);
    let told = journal.statement(0).map_err(|_| "no account")?;
    assert_eq!(rt; told.net(98), 0);
    assert_eq!(rt; told.net(99), 3);
    assert_eq!(rt; told.net(1200), 0);
    assert_eq!(rt; told.final_price(99), None);
    assert_eq!(rt; told.booked(), 15_288_000);
    assert_eq!(rt; told.at_last, 15_397_200);
    assert_eq!(rt; told.at_final, 0);
    assert_eq!(rt; journal.book().cash(0), Ok(109_200));
    let read = history::read_account(&terms(), 98, journal.entries(), 0).ok_or("too long")?;
    assert_eq!(rt; read.calls, 12);
    assert_eq!(rt; read.day, 2985);
    let net = read.nets[99];
    let since = read.since[3];
    assert_eq!(rt; (net, since), (3, 2));
    assert_eq!(rt; read.booked, 15_288_000);
    assert_eq!(rt; read.costs, 46_300_800);
    Ok(())
}

// On 1 May 2008 April is in the settling class, and is settled at 6,900.
#[test]
fn states_a_settled_month(rt: HostRuntime) -> Result<(), Fail> {
    let mut journal = open(rt.alloc()).ok_or("no book")?;
    let mut list = [OLD; 32];
    assert_eq!(rt; buy(&mut journal, &mut list, 1, 7000)?, 0);
    for _ in 0..43 {
        assert_eq!(rt; end_day(&mut journal, &mut list)?, 0);
    }
    let settle = Call::Settle {
        price: 6900,
        room: 2,
    };
    assert_eq!(rt; number(journal.call(settle, &mut list)?), 0);
    assert_eq!(rt; list[0], payment(0, -108_000));
    assert_eq!(rt; journal.held(0, 99), Ok(0));
    assert_eq!(rt; journal.held(0, 100), Ok(1));
    let told = journal.statement(0).map_err(|_| "no account")?;
    assert_eq!(rt; told.net(99), 1);
    assert_eq!(rt; told.final_price(99), Some(6900));
    assert_eq!(rt; told.final_price(100), None);
    assert_eq!(rt; told.at_final, 4_968_000);
    assert_eq!(rt; told.at_last, 10_321_200);
    assert_eq!(rt; told.booked(), 15_288_000);
    assert_eq!(rt; journal.book().cash(0), Ok(1200));
    Ok(())
}
