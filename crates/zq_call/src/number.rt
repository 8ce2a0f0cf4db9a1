ghost use Rattle.std.specs.Prelude.{◌≡◌, ◌≤◌, IfSome, option_copied};
ghost use Rattle.zq_call.specs.Number.{number_or};

use zq_base::number_in;

/// The number that an option's value is, or its default where it isn't given.
pub(crate) fn number_or(default: u64, least: u64, most: u64, given: Option<&str>) -> Option<u64>
    requires { default ≤ most }
    ensures value { result ≡ number_or default least most (option_copied given.entry) }
    ensures range { IfSome result (λ n. n ≤ most) }
{
    match given {
        Some(word) => number_in(least, most, word.as_bytes()),
        None => Some(default),
    }
}
