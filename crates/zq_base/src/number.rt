ghost use Rattle.std.specs.Prelude.{◌≡◌, ◌≤◌, IfSome};
ghost use Rattle.std.specs.Char.{is_ascii_digit};
ghost use Rattle.std.specs.List.{list_all};
ghost use Rattle.zq_base.specs.Number.{is_number, number_in};

fn all_digits(word: &[u8]) -> bool
    ensures { result ≡ list_all is_ascii_digit word.now }
{
    word.iter().all(|octet| octet.is_ascii_digit())
}

#[tactic(auto, unfolding(crate::specs::Number::is_number))]
fn is_number(word: &[u8]) -> bool
    ensures { result ≡ is_number word.now }
{
    1 <= word.len() && all_digits(word) && (word.len() == 1 || word[0] != b'0')
}

/// The number that the word is, in decimal digits without a sign or a leading zero, from `least` to
/// `most`.
#[tactic(auto, unfolding(crate::specs::Number::number_in))]
pub fn number_in(least: u64, most: u64, word: &[u8]) -> Option<u64>
    ensures value { result ≡ number_in least most word.now }
    ensures range { IfSome result (λ n. n ≤ most) }
{
    if !is_number(word) {
        return None;
    }
    let mut value: u128 = 0;
    for digit in word {
        value = value * 10 + u128::from(*digit - b'0');
        if u128::from(most) < value {
            return None;
        }
    }
    if value < u128::from(least) {
        return None;
    }
    Some(value as u64)
}
