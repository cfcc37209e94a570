// The margin intervals of the classes.
ghost use Rattle.std.specs.Prelude.{◌≡◌, Some, IfOk, MatchResult, ok_or};
ghost use Rattle.setup.specs.Setups.{interval_named, intervals_named, class_line, class_lines, Refuses};
ghost use Rattle.setup.specs.declared.fault.ArgumentFault.TheVariants.{Intervals};

use crate::fault::ArgumentFault;
use coded::ClassLine;
use std::alloc::{AllocError, Global};
use text::digits;

// An interval: a number that a class line has room for.
fn interval_of(field: &[u8]) -> Result<u16, ArgumentFault>
    ensures { result ≡ ok_or (interval_named field.now) Intervals }
{
    match digits(field) {
        Some(number) if number <= 65_535 => Ok(number as u16),
        _ => Err(ArgumentFault::Intervals),
    }
}

// The numbers between the commas.
pub(crate) fn intervals_in(heap: Global, word: &[u8]) -> Result<Vec<u16>, ArgumentFault>
    ensures { MatchResult result (λ v. intervals_named word.now ≡ Some v.items) (λ f. Refuses (ok_or (intervals_named word.now) Intervals) f) }
{
    let mut intervals = Vec::new(heap);
    let mut rest = word;
    while let Some((field, others)) = rows::cut(rest) {
        intervals.push(interval_of(field)?)?;
        rest = others;
    }
    intervals.push(interval_of(rest)?)?;
    Ok(intervals)
}

// The line of a class: the last interval serves every class for which none is listed.
fn class_line(intervals: &[u16], class: u32) -> ClassLine
    ensures { result ≡ class_line intervals.now class }
{
    let listed = intervals.get(class as usize).or(intervals.last());
    ClassLine {
        class,
        interval: listed.copied().unwrap_or(0),
    }
}

// A line for each class, and for each interval that is listed beyond them.
pub fn class_lines(
    heap: Global,
    classes: u32,
    intervals: &[u16],
) -> Result<Vec<ClassLine>, AllocError>
    ensures { IfOk result (λ v. v.items ≡ class_lines classes intervals.now) }
{
    let listed = u32::try_from(intervals.len()).unwrap_or(u32::MAX);
    (0..classes.max(listed))
        .map(|class| class_line(intervals, class))
        .collect(heap)
}
