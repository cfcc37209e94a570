// Sheets of many days.
use crate::heads::{NAMES, answers};
use std::alloc::{AllocError, Global};
use std::test::Fail;

// Lines of values, and then so many days on which the month classes are marked at these prices and the others at 7,050.
// Each day has nine marks and a close.
type Step = (&'static str, usize, [i32; 3]);

fn push_mark(sheet: &mut String, class: &str, price: i32) -> Result<(), AllocError> {
    write!(sheet, "mark,,,{class},,{price}\n")
}

// One day.
fn push_day(sheet: &mut String, months: [i32; 3]) -> Result<(), AllocError> {
    for (class, price) in ["M01", "M02", "M03"].iter().zip(months) {
        push_mark(sheet, class, price)?;
    }
    for class in ["Q01", "Q02", "Q03", "Q04", "Y01", "Y02"] {
        push_mark(sheet, class, 7050)?;
    }
    sheet.push_str("close,,,,,\n")
}

fn push_step(sheet: &mut String, step: Step) -> Result<(), AllocError> {
    let (lines, days, months) = step;
    sheet.push_str(lines)?;
    for _ in 0..days {
        push_day(sheet, months)?;
    }
    Ok(())
}

// The answers to a sheet of such steps.
fn told(heap: Global, steps: &[Step]) -> Result<String, AllocError> {
    let mut sheet = String::from_str(heap, NAMES)?;
    for step in steps {
        push_step(&mut sheet, *step)?;
    }
    answers(heap, sheet.as_str())
}

// 26 March 2008: the quarter's lots would come to those of April.
const PARTS: [Step; 3] = [
    ("", 17, [7050; 3]),
    (
        "trade,0,1,M01,600,7050\ntrade,0,1,Q01,500,7050\n",
        1,
        [7050; 3],
    ),
    (
        "trade,1,0,M01,100,7050\nclose,,,,,\nclose,,,,,",
        0,
        [7050; 3],
    ),
];

// 30 May 2008: April is to be settled before May follows it.
const MONTH: [Step; 3] = [
    ("", 64, [7050; 3]),
    (
        "reprice,,,D02,,999999999\nsettle,,,,,-999999999\n",
        1,
        [7050; 3],
    ),
    ("settle,,,,,-100000\nclose,,,,,\n", 0, [7050; 3]),
];

// One lot of the second quarter of 2008, from its trade on 3 March to the settlement of April on 1 May.
const QUARTER: [Step; 6] = [
    ("trade,0,1,Q01,1,7000\n", 17, [7050; 3]),
    ("", 1, [7000, 7100, 7060]),
    ("", 3, [7000, 7110, 7060]),
    (
        "reprice,,,D01,,6500\nmargins,0,,,,\nmargins,1,,,,\n",
        22,
        [7120, 7060, 7060],
    ),
    (
        "margins,0,,,,\nsettle,,,,,6900\nmargins,0,,,,\nsettle,,,,,6900\nreprice,,,D02,,6900\n",
        1,
        [7060; 3],
    ),
    ("margins,0,,,,\n", 0, [7050; 3]),
];

// What stands in the answers to each.
const PARTS_TOLD: [&str; 1] = ["\n182,0,,\n183,20,,\n184,0,,\n185,0,0,0\n185,0,1,0\n186,18,,\n"];

const MONTH_TOLD: [&str; 2] = [
    "\n642,11,,\n643,11,,\n644,0,,\n",
    "\n652,0,,\n653,19,,\n654,0,0,0\n654,0,1,0\n655,0,0,0\n655,0,1,0\n",
];

const QUARTER_TOLD: [&str; 10] = [
    "\n2,0,,\n3,0,,\n",
    // 3 March: 2,184 hours at 50 cents.
    "\n12,0,0,109200\n12,0,1,-109200\n13,0,,\n",
    "\n22,0,0,0\n22,0,1,0\n23,0,,\n",
    // 26 March: the quarter's parts, 720 x -50, 744 x 50 and 720 x 10.
    "\n182,0,0,8400\n182,0,1,-8400\n183,0,,\n",
    // 27 March: 744 hours of May at 10 cents.
    "\n192,0,0,7440\n192,0,1,-7440\n193,0,,\n",
    // 1 April: April from 7,000 to 6,500, May at 7,110 and June at 7,060.
    "\n212,0,0,0\n212,0,1,0\n213,0,,\n214,0,0,-1865304\n215,0,1,-1145304\n216,0,,\n",
    // May is now in M01, and again 10 cents dearer.
    "\n225,0,0,7440\n225,0,1,-7440\n226,0,,\n",
    // 30 April and 1 May: 720 hours of April from 7,000 to 6,900.
    "\n435,0,0,0\n435,0,1,0\n436,0,0,-1866048\n437,0,0,-72000\n437,0,1,72000\n438,0,0,-1038048\n",
    "\n438,0,0,-1038048\n439,16,,\n440,14,,\n441,0,,\n",
    "\n450,0,0,0\n450,0,1,0\n451,0,0,-1038048\n",
];

const SHEETS: [(&[Step], &[&str]); 3] = [
    (&PARTS, &PARTS_TOLD),
    (&MONTH, &MONTH_TOLD),
    (&QUARTER, &QUARTER_TOLD),
];

#[test]
fn days(rt: HostRuntime) -> Result<(), Fail> {
    for (steps, parts) in SHEETS {
        let told = told(rt.alloc(), steps)?;
        for part in parts {
            assert!(rt; told.as_str().contains(*part), "no {part}");
        }
    }
    Ok(())
}
