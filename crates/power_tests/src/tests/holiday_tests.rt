// Classes over a calendar with holidays.
use calendars::ListCalendar;
use power::{Baseload, Power};
use std::test::Fail;
use terms::{Terms, quantity_of};

// Days, classes, whether they have parts, and their successors, where 21 and 24 March and 25 and 26 December 2008 are
// closed.
const CLASSES: [(u32, u32, bool, Option<u32>); 7] = [
    // The second quarter of 2008 still trades last on 26 March.
    (3006, 3, false, Some(3)),
    (3007, 3, true, None),
    // The year 2009 trades last on Wednesday 24 December 2008, since three open days are left then.
    (3279, 7, false, Some(7)),
    (3280, 7, true, None),
    (3280, 8, false, Some(7)),
    (3285, 7, false, Some(7)),
    (3287, 9, false, Some(10)),
];

#[test]
fn holidays(rt: HostRuntime) -> Result<(), Fail> {
    let Ok(calendar) = ListCalendar::new([3002, 3005, 3281, 3282].to_vec(rt.alloc())?) else {
        return Err(Fail::new("refused"));
    };
    let power = Power {
        calendar,
        profile: Baseload,
    };
    for (day, class, parts, successor) in CLASSES {
        let told = power.class_on(day, class).ok_or("no answer")?;
        assert_eq!(rt; told.parts[0], parts);
        assert_eq!(rt; told.successor, successor);
    }
    assert!(rt; power.class_on(3282, 7).is_none());
    // Hours do not know of holidays.
    assert_eq!(rt; quantity_of(&power, 3280, 0), 744);
    Ok(())
}
