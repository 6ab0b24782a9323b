//! The numbers of options.

ghost use Rattle.std.specs.Prelude.{◌≡◌, option_map};
ghost use Rattle.command_line.specs.Command.{begins_with_plus_or_zero, number_in, number_or};

/// The number from `least` to `most` that the option was given, or `other` if it was not given.
pub fn number_or_other(text: Option<&str>, least: u32, most: u32, other: u32) -> Option<u32>
    ensures { result ≡ number_or least most other (option_map (λ s. s.now) text.entry) }
{
    match text {
        Some(text) => number(text, least, most),
        None => Some(other),
    }
}

/// The number from `least` to `most` that the text writes in decimal, without a sign and without leading zeros.
fn number(text: &str, least: u32, most: u32) -> Option<u32>
    ensures { result ≡ number_in least most text.now }
{
    if is_in_other_form(text) {
        return None;
    }
    match text.parse::<u32>() {
        Ok(n) => {
            if least <= n && n <= most {
                Some(n)
            } else {
                None
            }
        }
        Err(_) => None,
    }
}

/// Whether the text begins with a plus or a 0, which `parse` accepts too.
fn is_in_other_form(text: &str) -> bool
    ensures { result ≡ begins_with_plus_or_zero text.now }
{
    match text.as_bytes() {
        [first, ..] => *first == b'+' || *first == b'0',
        [] => false,
    }
}
