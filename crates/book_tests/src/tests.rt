// Calls in their order on one book over Baseload and the weekday calendar, from March 2008.
use book::Book;
use calendars::Weekdays;
use coded::ClassLine;
use ledger::Fault;
use power::{Baseload, Power};
use std::array;
use std::test::Fail;

pub(crate) type PowerBook = Book<Power<Weekdays, Baseload>>;

pub(crate) fn line(class: u32) -> ClassLine {
    ClassLine {
        class,
        interval: 1000,
    }
}

// The lines of the eleven classes of power.
pub(crate) fn lines() -> [ClassLine; 11] {
    array::from_fn(|class| line(class as u32))
}

pub(crate) fn terms() -> Power<Weekdays, Baseload> {
    Power {
        calendar: Weekdays,
        profile: Baseload,
    }
}

pub(crate) fn number<T: Drop>(answer: Result<T, Fault>) -> u8 {
    answer.err().map_or(0, |fault| fault.number())
}

fn make_number(month: u32, accounts: u32, lines: &[ClassLine]) -> u8 {
    PowerBook::make(terms(), month, accounts, lines)
        .err()
        .map_or(0, |refused| refused.fault.number())
}

#[test]
fn makes(rt: HostRuntime) {
    let all = lines();
    assert_eq!(rt; make_number(98, 2, &all), 0);
    assert_eq!(rt; make_number(98, 32, &all), 0);
    assert_eq!(rt; make_number(98, 1, &all), 1);
    assert_eq!(rt; make_number(98, 33, &all), 1);
    assert_eq!(rt; make_number(11, 33, &all), 1);
    assert_eq!(rt; make_number(11, 2, &all), 2);
    assert_eq!(rt; make_number(1164, 2, &all), 2);
    assert_eq!(rt; make_number(1163, 2, &all), 0);
    assert_eq!(rt; make_number(98, 2, &all[0..10]), 3);
    assert_eq!(rt; make_number(98, 2, &[]), 3);
}

const TRADES: [(u32, u32, u32, i32, i32, u8); 12] = [
    (0, 1, 3, 1, 7000, 0),
    (0, 2, 3, 1, 7000, 7),
    (2, 2, 3, 1, 7000, 7),
    (0, 0, 3, 0, 7000, 8),
    (0, 1, 9, 0, 7000, 9),
    (0, 1, 11, 1, 7000, 9),
    (0, 1, 3, 0, 100_001, 10),
    (0, 1, 3, 1001, 7000, 10),
    (0, 1, 3, 1, 100_001, 11),
    (0, 1, 3, 999, -100_000, 0),
    (0, 1, 3, 1, 7000, 13),
    (1, 0, 3, 1000, 7000, 0),
];

#[test]
fn trades(rt: HostRuntime) -> Result<(), Fail> {
    let all = lines();
    match PowerBook::make(terms(), 98, 2, &all) {
        Ok(mut book) => {
            for (buyer, seller, class, lots, price, expected) in TRADES {
                assert_eq!(rt;
                    number(book.trade(buyer, seller, class, lots, price)),
                    expected
                );
            }
            assert_eq!(rt; book.holding(0, 3).unwrap_or(7), 0);
            assert_eq!(rt; book.holding(1, 3).unwrap_or(7), 0);
            assert_eq!(rt; book.day(), 2984);
            Ok(())
        }
        Err(_) => Err(Fail::new("no book")),
    }
}

#[test]
fn asks(rt: HostRuntime) -> Result<(), Fail> {
    let all = lines();
    match PowerBook::make(terms(), 98, 2, &all) {
        Ok(mut book) => {
            assert_eq!(rt; number(book.mark(3, 7050)), 0);
            assert_eq!(rt; number(book.mark(9, 100_001)), 9);
            assert_eq!(rt; number(book.mark(3, 100_001)), 11);
            assert_eq!(rt; number(book.reprice(3, 7050)), 14);
            assert_eq!(rt; number(book.reprice(10, 7050)), 14);
            assert_eq!(rt; number(book.holding(2, 11)), 7);
            assert_eq!(rt; number(book.holding(1, 11)), 23);
            assert_eq!(rt; number(book.cash(2)), 7);
            assert_eq!(rt; book.cash(1).unwrap_or(7), 0);
            Ok(())
        }
        Err(_) => Err(Fail::new("no book")),
    }
}
