use std::test::Fail;
use telling::{day_text, first_month, months_text};
use terms::Months;

#[test]
fn days(rt: HostRuntime) -> Result<(), Fail> {
    assert_eq!(rt;
        day_text(rt.alloc(), 3007)?.as_str(),
        "Wednesday 26 March 2008"
    );
    assert_eq!(rt; day_text(rt.alloc(), 36_525)?.as_str(), "day 36525");
    Ok(())
}

#[test]
fn months(rt: HostRuntime) -> Result<(), Fail> {
    let march = Months {
        first: 98,
        count: 1,
    };
    let second_quarter = Months {
        first: 99,
        count: 3,
    };
    assert_eq!(rt; months_text(rt.alloc(), march)?.as_str(), "March 2008");
    assert_eq!(rt;
        months_text(rt.alloc(), second_quarter)?.as_str(),
        "April 2008 to June 2008"
    );
    Ok(())
}

#[test]
fn first_months(rt: HostRuntime) -> Result<(), Fail> {
    assert_eq!(rt; first_month(rt.alloc(), &[])?, 96);
    assert_eq!(rt; first_month(rt.alloc(), &[0, 3007])?, 0);
    Ok(())
}
