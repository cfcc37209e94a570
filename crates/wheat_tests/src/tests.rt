use calendars::Weekdays;
use terms::Terms;
use wheat::{Wheat, class_name, last_trading_day};

const WHEAT: Wheat<Weekdays> = Wheat { calendar: Weekdays };

fn month(day: u32, class: u32) -> Option<u32> {
    Some(WHEAT.class_on(day, class)?.months.first)
}

fn successor(day: u32, class: u32) -> Option<u32> {
    WHEAT.class_on(day, class)?.successor
}

fn interval_class(day: u32, class: u32) -> Option<u32> {
    Some(WHEAT.class_on(day, class)?.interval_class)
}

fn tradable(day: u32, class: u32) -> Option<bool> {
    Some(WHEAT.class_on(day, class)?.tradable)
}

// 10 March 2008 is a Monday, and 10 May 2008 a Saturday.
#[test]
fn trades_to_the_tenth_or_the_next_open_day(rt: HostRuntime) {
    assert_eq!(rt;
        [
            last_trading_day(&Weekdays, 32),
            last_trading_day(&Weekdays, 33),
            last_trading_day(&Weekdays, 399),
            last_trading_day(&Weekdays, 400),
        ],
        [Some(2991), Some(3054), Some(36_503), None]
    );
}

// The last trading day of May 2008, and the day after.
#[test]
fn moves_up_after_12_may_2008(rt: HostRuntime) {
    assert_eq!(rt;
        [
            month(3054, 0),
            month(3054, 5),
            month(3055, 0),
            month(3055, 5),
        ],
        [Some(100), Some(98), Some(104), Some(100)]
    );
    assert_eq!(rt;
        [successor(3054, 0), successor(3054, 1), successor(3054, 5)],
        [Some(5), Some(0), None]
    );
    assert_eq!(rt;
        [successor(3055, 0), successor(3055, 1), successor(3055, 5)],
        [Some(0), Some(1), Some(5)]
    );
}

// All six classes on 12 May 2008, from May 2008 to May 2009 and the March before; none on the Saturday before.
#[test]
fn all_classes_of_a_day(rt: HostRuntime) {
    let told = WHEAT.classes_on(3054);
    assert_eq!(rt;
        told.map(|class| Some(class?.months.first)),
        [
            Some(100),
            Some(104),
            Some(107),
            Some(110),
            Some(112),
            Some(98),
            None,
            None,
            None,
            None,
            None,
            None,
        ]
    );
    assert_eq!(rt; WHEAT.classes_on(3052), [None; 12]);
}

// The last trading days of March, September and December 2008, and the days after: T01, T05 and DEL.
#[test]
fn moves_up_at_each_expiry(rt: HostRuntime) {
    let months = |day| [month(day, 0), month(day, 4), month(day, 5)];
    assert_eq!(rt; months(2991), [Some(98), Some(110), Some(95)]);
    assert_eq!(rt; months(2992), [Some(100), Some(112), Some(98)]);
    assert_eq!(rt; months(3175), [Some(104), Some(116), Some(100)]);
    assert_eq!(rt; months(3176), [Some(107), Some(119), Some(104)]);
    assert_eq!(rt; months(3266), [Some(107), Some(119), Some(104)]);
    assert_eq!(rt; months(3267), [Some(110), Some(122), Some(107)]);
    assert_eq!(rt;
        [2991, 3175, 3266].map(|day| successor(day, 0)),
        [Some(5), Some(5), Some(5)]
    );
}

// From 1 January 2001 to 31 December 2096.
#[test]
fn answers_for_96_years(rt: HostRuntime) {
    assert_eq!(rt;
        [
            month(366, 0),
            month(366, 5),
            month(35_429, 0),
            month(35_429, 4),
        ],
        [Some(14), Some(11), Some(1166), Some(1178)]
    );
    assert_eq!(rt;
        [month(365, 0), month(35_430, 0), month(366, 6)],
        [None, None, None]
    );
}

// On 1 May 2008 seven open days remain up to 12 May, and on 2 May six.
#[test]
fn takes_the_interval_of_delivery(rt: HostRuntime) {
    assert_eq!(rt;
        [
            interval_class(3043, 0),
            interval_class(3044, 0),
            interval_class(3054, 0),
            interval_class(3055, 0),
        ],
        [Some(0), Some(5), Some(5), Some(0)]
    );
    assert_eq!(rt; interval_class(3044, 1), Some(1));
}

#[test]
fn delivers_fifty_tons_untraded(rt: HostRuntime) {
    assert_eq!(rt;
        [tradable(3054, 4), tradable(3054, WHEAT.settling())],
        [Some(true), Some(false)]
    );
    assert_eq!(rt;
        [WHEAT.month_quantity(1199), WHEAT.month_quantity(1200)],
        [Some(50), None]
    );
    assert_eq!(rt;
        [class_name(0), class_name(5), class_name(6)],
        [Some("T01"), Some("DEL"), None]
    );
}
