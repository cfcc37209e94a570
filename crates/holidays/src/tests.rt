use crate::*;
use std::test::Fail;

#[test]
fn reads_one_date(rt: HostRuntime) {
    assert_eq!(rt; iso_day(b"2008-03-26"), Some(3007));
    assert_eq!(rt; iso_day(b"2008-02-30"), None);
    assert_eq!(rt; iso_day(b"2008-3-26"), None);
}

#[test]
fn reads_a_file(rt: HostRuntime) -> Result<(), Fail> {
    let days = read_days(rt.alloc(), b"2008-12-26\n2008-01-01")?;
    assert_eq!(rt; days.as_slice(), [3282, 2922].as_slice());
    match read_days(rt.alloc(), b"2008-12-26\n\n2008-01-01\n") {
        Ok(_) => Err(Fail::new("a blank line")),
        Err(fault) => {
            assert_eq!(rt; fault, ReadFault::NotADate { line: 2 });
            Ok(())
        },
    }
}

#[test]
fn lists_2008(rt: HostRuntime) -> Result<(), Fail> {
    let days = builtin_days(rt.alloc())?;
    assert_eq!(rt;
        days.as_slice(),
        [2922, 3002, 3005, 3037, 3043, 3075, 3149, 3264, 3281, 3282].as_slice()
    );
    Ok(())
}
