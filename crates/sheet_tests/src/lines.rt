// Lines of values on the book's first day, 3 March 2008.
use crate::heads::{NAMES, answers, headed};
use std::test::Fail;

// Lines that tell no amount: each is the second line of its own sheet, and is answered with this number.
const LINES: [(&str, u8); 45] = [
    ("", 31),
    ("close,,,,", 31),
    ("close,,,,,,", 31),
    ("\r", 31),
    (",,,,,", 32),
    ("Close,,,,,", 32),
    (" close,,,,,", 32),
    ("\"close\",,,,,", 32),
    ("clos\u{e9},,,,,", 32),
    ("close,,,,,\r", 33),
    ("margins,,,,,", 33),
    ("mark,,,M01,,", 33),
    ("settle,,,D02,,5", 33),
    ("trade,0,1,Q01,1000000000,7000", 34),
    ("trade,-0,1,Q01,1,7000", 34),
    ("trade,0,1,Q01,-1,7000", 34),
    ("trade,0,1,Q01,1,--1", 34),
    ("trade,0,1,T01,1,7000\r", 34),
    ("settle,,,,,+1", 34),
    ("settle,,,,,7000.0", 34),
    ("mark,,,T01,,5", 35),
    ("mark,,,m01,,5", 35),
    ("mark,,,M01 ,,5", 35),
    ("margins,2,,,,", 7),
    ("margins,999999999,,,,", 7),
    ("trade,2,2,D01,0,7000", 7),
    ("trade,0,999999999,Q01,1,7000", 7),
    ("trade,1,1,D01,0,7000", 8),
    ("trade,0,1,D01,0,7000", 9),
    ("mark,,,D02,,999999999", 9),
    ("trade,0,1,M01,0,100001", 10),
    ("trade,0,1,M01,1001,7000", 10),
    ("trade,0,1,M01,1000,-999999999", 11),
    ("trade,0,1,M01,1,100001", 11),
    ("mark,,,M01,,-999999999", 11),
    ("mark,,,M01,,-100001", 11),
    ("reprice,,,M01,,7000", 14),
    ("reprice,,,D01,,999999999", 14),
    ("reprice,,,D02,,7000", 14),
    ("settle,,,,,999999999", 16),
    ("close,,,,,", 18),
    ("trade,00,000000001,Y02,01000,-0", 0),
    ("trade,1,0,Q04,1,100000", 0),
    ("mark,,,Y02,,-100000", 0),
    ("mark,,,M03,,000000000", 0),
];

#[test]
fn lines(rt: HostRuntime) -> Result<(), Fail> {
    for (line, number) in LINES {
        let sheet = format!(in rt.alloc(); "{NAMES}{line}\n")?;
        let told = answers(rt.alloc(), sheet.as_str())?;
        let answer = format!(in rt.alloc(); "2,{number},,\n")?;
        let wanted = headed(rt.alloc(), answer.as_str())?;
        assert_eq!(rt; told.as_str(), wanted.as_str(), "of {line}");
    }
    Ok(())
}

// A refused line changes nothing, and the next one meets the book as it was.
const ROWS: &str = "trade,0,1,M01,1000,7000
trade,0,1,M01,1,7000
trade,0,1,M02,1,7000
margins,1,,,,
trade,1,0,M01,1000,7000
trade,1,0,M02,1,7000
margins,1,,,,
mark,,,M01,,7000
close,,,,,
margins,0,,,,";

const TOLD: &str = "2,0,,
3,13,,
4,0,,
5,22,,
6,0,,
7,0,,
8,0,1,0
9,0,,
10,18,,
11,0,0,0
";

#[test]
fn rows(rt: HostRuntime) -> Result<(), Fail> {
    let sheet = format!(in rt.alloc(); "{NAMES}{ROWS}")?;
    let told = answers(rt.alloc(), sheet.as_str())?;
    let wanted = headed(rt.alloc(), TOLD)?;
    assert_eq!(rt; told.as_str(), wanted.as_str());
    Ok(())
}
