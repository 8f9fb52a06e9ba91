//! Double lines (RESP3, "Doubles").

ghost use Rattle.std.specs.Prelude.{◌≡◌, position};
ghost use Rattle.std.specs.Char.{is_ascii_digit};
ghost use Rattle.std.specs.List.{list_all};
ghost use Rattle.std.specs.Str.Parse.{without_leading_sign};
ghost use Rattle.resp_parse.specs.Number.{is_digits, is_decimal};
ghost use Rattle.resp_parse.specs.Double.{is_point, is_e, is_word, is_mantissa, is_scientific};
ghost use Rattle.resp_parse.specs.Double.{is_double};

/// The text without a sign at its start.
fn unsigned(text: &[u8]) -> &[u8]
    ensures rest { result.now ≡ without_leading_sign text.now }
{
    match text.first() {
        Some(b'+' | b'-') => &text[1..],
        _ => text,
    }
}

/// Whether each byte is a digit.
fn all_digits(text: &[u8]) -> bool
    ensures value { result ≡ list_all is_ascii_digit text.now }
{
    text.iter().all(|byte| byte.is_ascii_digit())
}

/// Whether the text is infinity or not a number, in any letter case.
fn is_named(text: &[u8]) -> bool
    ensures value { result ≡ is_word text.now }
{
    text.eq_ignore_ascii_case(b"inf")
        || text.eq_ignore_ascii_case(b"infinity")
        || text.eq_ignore_ascii_case(b"nan")
}

fn point_of(text: &[u8]) -> Option<usize>
    ensures value { result ≡ position is_point text.now }
{
    text.iter().position(|byte| *byte == b'.')
}

fn exponent_of(text: &[u8]) -> Option<usize>
    ensures value { result ≡ position is_e text.now }
{
    text.iter().position(|byte| *byte == b'e' || *byte == b'E')
}

/// Whether the text is digits, with at most one point before, among or after them.
fn is_pointed(text: &[u8]) -> bool
    ensures value { result ≡ is_mantissa text.now }
{
    match point_of(text) {
        Some(at) => text.len() > 1 && all_digits(&text[..at]) && all_digits(&text[at + 1..]),
        None => !text.is_empty() && all_digits(text),
    }
}

/// Whether the text is a number without a sign, with an exponent or without one.
fn is_exponential(text: &[u8]) -> bool
    ensures value { result ≡ is_scientific text.now }
{
    match exponent_of(text) {
        Some(at) => {
            let exponent = unsigned(&text[at + 1..]);
            is_pointed(&text[..at]) && !exponent.is_empty() && all_digits(exponent)
        }
        None => is_pointed(text),
    }
}

/// Whether a double may have this text (RESP3, "Doubles"), with no white space around it.
///
/// That is an optional sign, and then `inf`, `infinity` or `nan` in any letter case, or digits with
/// an optional point and an optional exponent.
pub fn is_double_text(text: &str) -> bool
    ensures value { result ≡ is_double text.now }
{
    let text = unsigned(text.as_bytes());
    is_named(text) || is_exponential(text)
}
