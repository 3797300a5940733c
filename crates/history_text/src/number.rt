// Decimal numbers in text.
ghost use Rattle.std.specs.Prelude.{◌≡◌, ◌+◌, ◌-◌, ◌*◌, ◌<◌, ◌≤◌, leb, length, drop, IfSome};
ghost use Rattle.history_text.specs.ReadNumbers.{digit_of, digits_of, number_of, field_of, WithinField};

// A number and how many bytes it takes.
#[derive(Clone, Copy)]
pub struct Field {
    pub value: u64,
    pub used: usize,
}

// The value of a digit.
#[tactic(auto, unfolding(crate::specs::ReadNumbers::digit_of, area::specs::Area::pick))]
fn digit(c: u8) -> Option<u64>
    ensures { (result ≡ digit_of c) × IfSome result (λ d. d < 10) }
{
    match c {
        b'0'..=b'9' => Some(u64::from(c - b'0')),
        _ => None,
    }
}

// Whether value with the digit d after it is at most limit.
fn fits(value: u64, d: u64, limit: u64) -> bool
    requires { d < 10 }
    ensures { result ≡ leb (value * 10 + d) limit }
{
    let most = limit / 10;
    if value < most {
        return true;
    }
    if most < value {
        return false;
    }
    d <= limit % 10
}

// The number that the digits from index at on make.
fn read_digits(s: &[u8], at: usize, limit: u64) -> Option<Field>
    requires { at ≤ length s.now }
    ensures { (result ≡ digits_of limit 0 0 (drop at s.now)) × WithinField limit (length s.now - at) result }
{
    let mut value: u64 = 0;
    for used in 0..s.len() - at {
        let Some(d) = digit(s[at + used]) else {
            return Some(Field { value, used });
        };
        if fits(value, d, limit) {
            value = value * 10 + d;
        } else {
            return None;
        }
    }
    Some(Field {
        value,
        used: s.len() - at,
    })
}

// The number from index at on, without leading zeros.
fn read_number(s: &[u8], at: usize, limit: u64) -> Option<Field>
    requires { at ≤ length s.now }
    ensures { (result ≡ number_of limit (drop at s.now)) × WithinField limit (length s.now - at) result }
{
    if s.len() <= at {
        return None;
    }
    let c = s[at];
    if c == 48 {
        return Some(Field { value: 0, used: 1 });
    }
    if digit(c).is_none() {
        return None;
    }
    read_digits(s, at, limit)
}

// The number from index at on, with the byte end after it.
pub fn read_field(s: &[u8], at: usize, limit: u64, end: u8) -> Option<Field>
    requires { (at ≤ length s.now) × (0 < end) }
    ensures { (result ≡ field_of limit end (drop at s.now)) × WithinField limit (length s.now - at) result }
{
    let number = read_number(s, at, limit)?;
    if s.len() - at <= number.used {
        return None;
    }
    if s[at + number.used] == end {
        return Some(Field {
            used: number.used + 1,
            ..number
        });
    }
    None
}
