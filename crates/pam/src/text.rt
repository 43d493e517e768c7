// Bytes as text: which are white space, and the number that digits give.
ghost use Rattle.std.specs.Prelude.{◌≡◌, ◌+◌, ◌*◌, ◌-◌, not, position};
ghost use Rattle.std.specs.List.{list_all};
ghost use Rattle.pam.specs.Text.{is_newline, is_white, is_digit, is_number, value_of};
ghost use Rattle.pam.specs.Reading.{capped};

// Tab, vertical tab, form feed, carriage return or blank. Most bytes are above a blank, and known by one test.
#[tactic(auto, unfolding(crate::specs::Text::is_white))]
pub fn is_white(b: u8) -> bool
    ensures { result ≡ is_white b }
{
    b <= b' ' && matches!(b, b'\t' | 11 | 12 | b'\r' | b' ')
}

// Where the first white space is.
pub fn white_in(bytes: &[u8]) -> Option<usize>
    ensures { result ≡ position is_white bytes.now }
{
    bytes.iter().position(|b| is_white(*b))
}

// Where the first byte is that is no white space.
pub fn token_in(bytes: &[u8]) -> Option<usize>
    ensures { result ≡ position (λ b. not (is_white b)) bytes.now }
{
    bytes.iter().position(|b| !is_white(*b))
}

// Where the first newline is.
#[tactic(auto, unfolding(crate::specs::Text::is_newline))]
pub fn newline_in(bytes: &[u8]) -> Option<usize>
    ensures { result ≡ position is_newline bytes.now }
{
    bytes.iter().position(|b| *b == b'\n')
}

// Whether every byte is a digit.
#[tactic(auto, unfolding(crate::specs::Text::is_digit))]
fn all_digits(bytes: &[u8]) -> bool
    ensures { result ≡ list_all is_digit bytes.now }
{
    bytes.iter().all(|b| b.is_ascii_digit())
}

// Whether a token is a number: one or more digits.
#[tactic(auto, unfolding(crate::specs::Text::is_number))]
pub fn is_number(token: &[u8]) -> bool
    ensures { result ≡ is_number token.now }
{
    !token.is_empty() && all_digits(token)
}

// A digit more behind a number, up to a million. A byte below '0' counts as 0, one above '9' as what it is above '0'.
fn with_digit(n: u32, digit: u8) -> u32
    ensures { result ≡ capped (10 * n + (digit - 48)) }
{
    let worth = digit.saturating_sub(b'0');
    n.saturating_mul(10)
        .saturating_add(u32::from(worth))
        .min(1_000_000)
}

// The number that digits give, up to a million.
#[tactic(auto, using(crate::proofs::TextLaws::value_capped))]
pub fn value_of(digits: &[u8]) -> u32
    ensures { result ≡ capped (value_of digits.now) }
{
    digits.iter().fold(0, |n, d| with_digit(n, *d))
}
