// Numbers that digits write.
ghost use Rattle.std.specs.Prelude.{◌≡◌, ◌<◌, IfSome};
ghost use Rattle.text.specs.Numbers.{digits_value, signed_value};

// The number that 1 to 9 digits write.
pub fn digits(s: &[u8]) -> Option<u32>
    ensures value { result ≡ digits_value s.now }
    ensures bound { IfSome result (λ n. n < 1000000000) }
{
    if s.is_empty() || s.len() > 9 {
        return None;
    }
    let mut n = 0u32;
    for b in s {
        if !b.is_ascii_digit() {
            return None;
        }
        n = 10 * n + u32::from(*b - b'0');
    }
    Some(n)
}

// The number that 1 to 9 digits write, with at most one minus in front of them.
pub fn signed(s: &[u8]) -> Option<i32>
    ensures { result ≡ signed_value s.now }
{
    match s.strip_prefix(b"-") {
        Some(unsigned) => {
            let n = digits(unsigned)?;
            Some(-(n as i32))
        }
        None => {
            let n = digits(s)?;
            Some(n as i32)
        }
    }
}
