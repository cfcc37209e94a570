// Whole sheets: their names lines and their lengths, and the answers to them.
use std::alloc::{AllocError, Global};
use std::test::Fail;

pub(crate) const NAMES: &str = "call,buyer,seller,class,lots,price\n";

const HEADER: &str = "line,refusal,account,amount\n";

// The answers to a sheet.
pub(crate) fn answers(heap: Global, sheet: &str) -> Result<String, AllocError> {
    let answered = day_sheet::answer(heap, sheet.as_bytes())?;
    Ok(answered.text)
}

// The header of the answers, and lines below it.
pub(crate) fn headed(heap: Global, lines: &str) -> Result<String, AllocError> {
    format!(in heap; "{HEADER}{lines}")
}

// Sheets, and the lines that answer them.
const SHEETS: [(&str, &str); 11] = [
    (
        "call,buyer,seller,class,lots,price\nmargins,0,,,,\ntrade,0,1,Q01,1,7000\ntrade,0,0,M01,0,7000\nmargins,0,,,,\n",
        "2,0,0,0\n3,0,,\n4,8,,\n5,22,,\n",
    ),
    (
        "price,lots,class,seller,buyer,call\n7000,1,Q01,1,0,trade\n,,,,1,margins",
        "2,0,,\n3,22,,\n",
    ),
    ("call,buyer,seller,class,lots,price", ""),
    ("", "1,30,,\n"),
    ("\n", "1,30,,\n"),
    (
        "call,buyer,seller,class,lots,lots\nmargins,0,,,,\n",
        "1,30,,\n",
    ),
    ("call,buyer,seller,class,lots\nclose,,,,\n", "1,30,,\n"),
    ("call,buyer,seller,class,lots,price,price\n", "1,30,,\n"),
    ("call,buyer,seller,class,lots,\"price\"\n", "1,30,,\n"),
    (
        "call,buyer,seller,class,lots,price\r\nmargins,0,,,,\r\n",
        "1,30,,\n",
    ),
    (
        "call,buyer,seller,class,lots,price\n\nmargins,0,,,,\n\n",
        "2,31,,\n3,0,0,0\n4,31,,\n",
    ),
];

#[test]
fn sheets(rt: HostRuntime) -> Result<(), Fail> {
    for (sheet, lines) in SHEETS {
        let told = answers(rt.alloc(), sheet)?;
        let wanted = headed(rt.alloc(), lines)?;
        assert_eq!(rt; told.as_str(), wanted.as_str(), "of {sheet}");
    }
    Ok(())
}

// A sheet of so many bytes is accepted, and its one line of one value refused; one byte more, and the sheet is.
#[test]
fn lengths(rt: HostRuntime) -> Result<(), Fail> {
    let mut sheet = String::from_str(rt.alloc(), NAMES)?;
    let value = "7".repeat(rt.alloc(), 65_501)?;
    sheet.push_str(value.as_str())?;
    assert_eq!(rt; sheet.len(), 65_536);
    let told = answers(rt.alloc(), sheet.as_str())?;
    let wanted = headed(rt.alloc(), "2,31,,\n")?;
    assert_eq!(rt; told.as_str(), wanted.as_str());
    sheet.push_str("\n")?;
    assert_eq!(rt; sheet.len() as u64, day_sheet::MOST_READ);
    let told = answers(rt.alloc(), sheet.as_str())?;
    let wanted = headed(rt.alloc(), "0,29,,\n")?;
    assert_eq!(rt; told.as_str(), wanted.as_str());
    Ok(())
}
