//! The numbers of a script.

ghost use Rattle.std.specs.Prelude.{◌≡◌, ◌≤◌, IfSome};
ghost use Rattle.doll_script.specs.Numbers as spec;
ghost use Rattle.doll_script.specs.declared.numbers.TheConstants.{MOST_SESSIONS};

/// The greatest number that may stand in a script, 2^64 - 1.
const GREATEST_NUMBER: u128 = 18_446_744_073_709_551_615;

/// The latest moment that a clock shows, 2^62 microseconds; what is told to be later counts as it.
const LATEST_NOW: u64 = 4_611_686_018_427_387_904;

/// The sessions of a script are numbered from 1 to this.
const MOST_SESSIONS: u64 = 1_000;

/// The digit that no number of several digits begins with.
const ZERO: u8 = b'0';

/// The number that decimal digits say: at most 2^64 - 1, without a zero before it.
pub fn number_in(digits: &[u8]) -> Option<u64>
    ensures { result ≡ spec.number_in digits.now }
{
    let [first, ..] = digits else {
        return None;
    };
    if *first == ZERO && digits.len() > 1 {
        return None;
    }
    let mut number: u128 = 0;
    for digit in digits {
        if !digit.is_ascii_digit() {
            return None;
        }
        number = 10 * number + u128::from(*digit - ZERO);
        if number > GREATEST_NUMBER {
            return None;
        }
    }
    Some(number as u64)
}

/// The number of a session: from 1 to 1,000.
pub fn session_in(digits: &[u8]) -> Option<u32>
    ensures exact { result ≡ spec.session_in digits.now }
    ensures within { IfSome result (λ session. (1 ≤ session) × (session ≤ MOST_SESSIONS)) }
{
    let number = number_in(digits)?;
    if 1 <= number && number <= MOST_SESSIONS {
        Some(number as u32)
    } else {
        None
    }
}

/// What a clock shows that is told a number of microseconds: 2^62 at most.
pub fn clock_in(digits: &[u8]) -> Option<u64>
    ensures { result ≡ spec.clock_in digits.now }
{
    let number = number_in(digits)?;
    Some(number.min(LATEST_NOW))
}
