// The numbers that words of digits spell.
ghost use Rattle.std.specs.Prelude.{◌≡◌, ◌^◌, ◌≤◌, MatchOption, true};
ghost use Rattle.std.specs.List.{list_all};
ghost use Rattle.xp_text.specs.Numbers.{is_digit, value_from, digits_of, Reads};

/// What a word says as a number.
#[derive(Clone, Copy)]
pub enum Digits {
    /// The word has other bytes than digits.
    Other,
    /// The word's number has more than 64 bits.
    TooGreat,
    Number(u64),
}

/// What a word says as a number. Leading zeros may stand.
#[tactic(auto, unfolding(crate::specs::Numbers::digits_of))]
pub fn read_digits(word: &[u8]) -> Digits
    ensures { Reads result (digits_of word.now) }
{
    if !are_digits(word) {
        return Digits::Other;
    }
    match value_of(word) {
        Some(number) => Digits::Number(number),
        None => Digits::TooGreat,
    }
}

fn are_digits(word: &[u8]) -> bool
    ensures { result ≡ list_all is_digit word.now }
{
    for byte in word {
        if !is_digit(*byte) {
            return false;
        }
    }
    true
}

fn is_digit(byte: u8) -> bool
    ensures { result ≡ is_digit byte }
{
    byte >= b'0' && byte <= b'9'
}

/// The number that digits spell. None: it has more than 64 bits.
fn value_of(word: &[u8]) -> Option<u64>
    requires { list_all is_digit word.now ≡ true }
    ensures { MatchOption result (2 ^ 64 ≤ value_from 0 word.now) (λ n. n ≡ value_from 0 word.now) }
{
    let mut value: u64 = 0;
    for byte in word {
        let digit = (*byte - b'0') as u64;
        if value > (u64::MAX - digit) / 10 {
            return None;
        }
        value = 10 * value + digit;
    }
    Some(value)
}
