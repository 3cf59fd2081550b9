//! Decimal numbers.

ghost use Rattle.std.specs.Prelude.{◌≡◌, ◌<◌, ◌^◌};
ghost use Rattle.std.specs.List.{list_all};
ghost use Rattle.vd_words.specs.Commands.{is_digit, leads_well, is_number, number_named};

/// The number from `least` to `most` that a text names, without a sign and without a leading zero.
pub(crate) fn number_named(text: &str, least: u32, most: u32) -> Option<u32>
    ensures { result ≡ number_named least most text.now }
{
    if !is_number(text.as_bytes()) {
        return None;
    }
    let Ok(n) = text.parse::<u32>() else {
        return None;
    };
    if least <= n && n <= most {
        Some(n)
    } else {
        None
    }
}

fn is_number(text: &[u8]) -> bool
    ensures { result ≡ is_number text.now }
{
    leads_well(text) && all_digits(text)
}

fn all_digits(text: &[u8]) -> bool
    ensures { result ≡ list_all is_digit text.now }
{
    text.iter().all(|b| is_digit(*b))
}

fn is_digit(b: u8) -> bool
    ensures { result ≡ is_digit b }
{
    48 <= b && b <= 57
}

fn leads_well(text: &[u8]) -> bool
    ensures { result ≡ leads_well text.now }
{
    match text {
        [] => false,
        [_] => true,
        [first, ..] => *first != b'0',
    }
}
