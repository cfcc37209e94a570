// Writing into the rows of an account.
ghost use Rattle.std.specs.Prelude.{◌≡◌, ℕ, ◌<◌, ◌≤◌, ◌+ℤ◌, ◌==◌, unsigned_abs};
ghost use Rattle.amounts.specs.SumsOfWhole.{if_z};
ghost use Rattle.ledger.specs.Words.{at};

/// More lots of a class.
pub(crate) fn add_lots(row: &mut [i32; 12], class: u32, more: i32)
    requires known { class < 12 }
    requires room { unsigned_abs (at row.old class +ℤ more) ≤ 100000000 }
    ensures { (c : ℕ) → at row.new c ≡ at row.old c +ℤ if_z (c == class) more }
{
    row[class as usize] += more;
}

/// More cost of a class.
pub(crate) fn add_cost(row: &mut [i64; 12], class: u32, more: i64)
    requires known { class < 12 }
    requires room { unsigned_abs (at row.old class +ℤ more) ≤ 10000000000000 }
    ensures { (c : ℕ) → at row.new c ≡ at row.old c +ℤ if_z (c == class) more }
{
    row[class as usize] += more;
}
