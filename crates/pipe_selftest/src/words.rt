//! The words of a self-test.

ghost use Rattle.std.specs.Prelude.{◌≡◌, ◌≤◌, ◌^◌, true, IfSome, None};
ghost use Rattle.std.specs.Str.{all_ascii_digits};
ghost use Rattle.pipe_selftest.specs.Words.{is_number, number_in, number_within, rows_in, start_in};

/// Whether each byte is a decimal digit.
fn all_digits(word: &[u8]) -> bool
    ensures { result ≡ all_ascii_digits word.now }
{
    for byte in word {
        if !byte.is_ascii_digit() {
            return false;
        }
    }
    true
}

/// Whether a word is 1 to 20 decimal digits.
fn is_number(word: &str) -> bool
    ensures { result ≡ is_number word.now }
{
    1 <= word.len() && word.len() <= 20 && all_digits(word.as_bytes())
}

/// The number that decimal digits tell, where it is below 2^64.
#[tactic(auto, using(crate::proofs::Digits::number_read, crate::proofs::Digits::none_read))]
fn number_in(word: &str) -> Option<u64>
    requires { is_number word.now ≡ true }
    ensures some { IfSome result (λ n. n ≡ number_in word.now) }
    ensures none { result ≡ None → 2 ^ 64 ≤ number_in word.now }
{
    match u64::from_str_radix(word, 10) {
        Ok(number) => Some(number),
        Err(_) => None,
    }
}

/// The number that a word is, where it is 1 to 20 decimal digits and one from `least` to `most`.
#[tactic(auto, using(crate::proofs::Digits::within, crate::proofs::Digits::no_number, crate::proofs::Digits::too_small, crate::proofs::Digits::too_large))]
fn number_within(least: u64, most: u64, word: &str) -> Option<u64>
    ensures number { result ≡ number_within least most word.now }
    ensures least { IfSome result (λ n. least ≤ n) }
    ensures most { IfSome result (λ n. n ≤ most) }
{
    if !is_number(word) {
        return None;
    }
    let number = number_in(word)?;
    if number < least || most < number {
        return None;
    }
    Some(number)
}

/// The state that a word is: 1 to 20 decimal digits, without a sign, of a number below 2^64.
pub fn start_in(word: &str) -> Option<u64>
    ensures { result ≡ start_in word.now }
{
    number_within(0, u64::MAX, word)
}

/// The number of rows that a word is: 1 to 20 decimal digits, without a sign, of a number from 1 to 1,000,000.
pub fn rows_in(word: &str) -> Option<u32>
    ensures number { result ≡ rows_in word.now }
    ensures some { IfSome result (λ rows. 1 ≤ rows) }
    ensures few { IfSome result (λ rows. rows ≤ 1000000) }
{
    match number_within(1, 1_000_000, word) {
        Some(rows) => Some(rows as u32),
        None => None,
    }
}
