// The answers to a line, written behind those before.
ghost use Rattle.std.specs.Prelude.{◌≡◌, ◌++◌, List, Ok, Some, Result, IfOk, string_bytes};
ghost use Rattle.ledger.specs.declared.payment.Payment.{Payment as Paid};
ghost use Rattle.sheet.specs.Answers.{answer_line, accepted};
ghost use Rattle.sheet.specs.Replies.{reply_text, Tells};
ghost use Rattle.sheet.specs.declared.cause.Cause.{Cause as Why};
ghost use Rattle.std.specs.List.{flat_map};

use crate::answer::Answer;
use crate::cause::Cause;
use ledger::Payment;
use std::alloc::AllocError;

pub(crate) fn write_answer(text: &mut String, answer: Answer) -> Result<(), AllocError>
    ensures { IfOk result (λ u. string_bytes text.new ≡ string_bytes text.old ++ answer_line answer) }
{
    writeln!(text, "{answer}")
}

// One line for each amount.
fn write_amounts(text: &mut String, line: usize, amounts: &[Payment]) -> Result<(), AllocError>
    ensures { IfOk result (λ u. string_bytes text.new ≡ string_bytes text.old ++ flat_map (λ p. answer_line (accepted line (Some p))) amounts.now) }
{
    for payment in amounts {
        write_answer(text, Answer::accepted(line, Some(*payment)))?;
    }
    Ok(())
}

// The amounts of an accepted line, or that there are none.
fn write_accepted(text: &mut String, line: usize, amounts: &[Payment]) -> Result<(), AllocError>
    ensures { IfOk result (λ u. string_bytes text.new ≡ string_bytes text.old ++ reply_text line (Ok amounts.now)) }
{
    if amounts.is_empty() {
        return write_answer(text, Answer::accepted(line, None));
    }
    write_amounts(text, line, amounts)
}

// A reply: a fault, or how many payments at the head of the list are told.
pub(crate) fn write_reply(
    text: &mut String,
    line: usize,
    reply: Result<usize, Cause>,
    list: &[Payment; 32],
) -> Result<(), AllocError>
    ensures { (told : Result (List Paid) Why) → Tells told reply list.now → IfOk result (λ u. string_bytes text.new ≡ string_bytes text.old ++ reply_text line told) }
{
    match reply {
        Ok(count) => write_accepted(text, line, &list[..count.min(32)]),
        Err(cause) => write_answer(text, Answer::refused(cause.at(line))),
    }
}
