// The arguments of a life.
ghost use Rattle.std.specs.Prelude.{◌≡◌, Ok, MatchResult, map, string_bytes, slice_get};
ghost use Rattle.setup.specs.Setups.{month_named, followed_named, setup_of, Refuses};

use crate::fault::ArgumentFault;
use crate::intervals::intervals_in;
use crate::traded::Traded;
use std::alloc::Global;
use text::digits;

// What the arguments ask for, but for the file of closed days.
#[derive(Drop)]
pub struct Setup {
    pub traded: Traded,
    pub month: u32,
    pub accounts: u32,
    pub intervals: Vec<u16>,
    pub followed: Option<u32>,
}

// The month of a word YYYY-MM, if it is one from 2000 to 2099.
fn month_named(word: &[u8]) -> Option<u32>
    ensures { result ≡ month_named word.now }
{
    if word.len() != 7 || word[4] != b'-' {
        return None;
    }
    let year = digits(&word[..4])?;
    let month = digits(&word[5..])?;
    if !(2000..2100).contains(&year) || !(1..=12).contains(&month) {
        return None;
    }
    Some(12 * (year - 2000) + (month - 1))
}

// The account that the sixth word names, if there is one. It must be one of so many.
fn followed_in(words: &[String], accounts: u32) -> Result<Option<u32>, ArgumentFault>
    ensures { result ≡ followed_named accounts (slice_get (map (λ w. string_bytes w) words.now) 5) }
{
    let Some(word) = words.get(5) else {
        return Ok(None);
    };
    match digits(word.as_bytes()) {
        Some(account) if account < accounts => Ok(Some(account)),
        _ => Err(ArgumentFault::Followed),
    }
}

impl Setup {
    // What the words after the program's name ask for. The fifth names the file of closed days, which is not read here.
    #[tactic(auto, unfolding(crate::specs::Setups::setup_of))]
    pub fn of(heap: Global, words: &[String]) -> Result<Setup, ArgumentFault>
        ensures { MatchResult result (λ s. setup_of (map (λ w. string_bytes w) words.now) ≡ Ok (record { traded = s.traded; month = s.month; accounts = s.accounts; intervals = s.intervals.items; followed = s.followed })) (Refuses (setup_of (map (λ w. string_bytes w) words.now))) }
    {
        if words.len() < 5 || words.len() > 6 {
            return Err(ArgumentFault::Count);
        }
        let traded = Traded::of(words[0].as_bytes()).ok_or(ArgumentFault::Product)?;
        let month = month_named(words[1].as_bytes()).ok_or(ArgumentFault::Month)?;
        let accounts = digits(words[2].as_bytes()).ok_or(ArgumentFault::Accounts)?;
        let intervals = intervals_in(heap, words[3].as_bytes())?;
        let followed = followed_in(words, accounts)?;
        Ok(Setup {
            traded,
            month,
            accounts,
            intervals,
            followed,
        })
    }
}
