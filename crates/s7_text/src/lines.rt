//! The lines of a text, and the fields of a line.
ghost use Rattle.std.specs.Prelude.{◌≡◌, ◌≢◌, ◌==◌, ◌&&◌, nat_lt, nat_le, IfSome, IfNone, ◌<◌, ◌≤◌, ◌^◌, ◌∷◌, ℕ};
ghost use Rattle.std.specs.Prelude.{length, option_map, slice_index, true};
ghost use Rattle.std.specs.List.{list_all, position};
ghost use Rattle.std.specs.Char.{is_ascii_digit};
ghost use Rattle.std.specs.Str.Parse.{digits_value};
ghost use Rattle.s7_text.specs.Lines.{lines, without_return};
ghost use Rattle.s7_text.specs.Fields.{number_of, is_space, first_field, fields_after, parts_around};

/// The first line of a text that isn't empty, and the text after that line.
pub fn first_line(text: &[u8]) -> (&[u8], &[u8])
    requires { 0 < length text.now }
    ensures line { lines text.now ≡ result.0.now ∷ lines result.1.now }
    ensures shorter { length result.1.now < length text.now }
{
    match newline(text) {
        Some(end) => (cut_return(&text[..end]), &text[end + 1..]),
        None => (text, &text[text.len()..]),
    }
}

/// The index of the first LF, `None` if there is none.
fn newline(text: &[u8]) -> Option<usize>
    ensures within { IfSome result (λ n. n < length text.now) }
    ensures found { IfSome result (λ n. slice_index text.now n ≡ 10) }
    ensures first { IfSome result (λ n. (k : ℕ) → k < n → slice_index text.now k ≢ 10) }
    ensures none { IfNone result ((k : ℕ) → k < length text.now → slice_index text.now k ≢ 10) }
{
    for (i, b) in text.iter().enumerate() {
        if *b == b'\n' {
            return Some(i);
        }
    }
    None
}

/// A line without the CR at its end.
fn cut_return(line: &[u8]) -> &[u8]
    ensures { result.now ≡ without_return line.now }
{
    if line.is_empty() {
        return line;
    }
    let last = line.len() - 1;
    if line[last] == b'\r' {
        &line[..last]
    } else {
        line
    }
}

/// The first field of a line, and the fields after it; `None` if no further field follows. Fields are separated by one
/// space.
pub fn split_field(text: &[u8]) -> (&[u8], Option<&[u8]>)
    ensures first { result.0.now ≡ first_field text.now (position is_space text.now) }
    ensures rest { option_map (λ t. t.now) result.1 ≡ fields_after text.now (position is_space text.now) }
{
    match space(text) {
        Some(end) => (&text[..end], Some(&text[end + 1..])),
        None => (text, None),
    }
}

/// The index of the first space, `None` if there is none.
fn space(text: &[u8]) -> Option<usize>
    ensures { result ≡ position is_space text.now }
{
    text.iter().position(|b| *b == b' ')
}

/// The octets before and after the first octet of this value; `None` if there is none.
pub fn split_mark(text: &[u8], mark: u8) -> Option<(&[u8], &[u8])>
    ensures { option_map (λ p. (p.0.now, p.1.now)) result ≡ parts_around mark text.now }
{
    let place = mark_in(text, mark)?;
    Some((&text[..place], &text[place + 1..]))
}

/// The index of the first octet of this value, `None` if there is none.
fn mark_in(text: &[u8], mark: u8) -> Option<usize>
    ensures { result ≡ position (λ b. b == mark) text.now }
{
    text.iter().position(|b| *b == mark)
}

/// The number in a field of one to ten decimal digits; `None` if the field is anything else.
pub fn number(field: &[u8]) -> Option<u64>
    ensures { result ≡ number_of field.now }
{
    if is_number(field) {
        Some(value_of(field))
    } else {
        None
    }
}

/// Whether a field is one to ten decimal digits.
fn is_number(field: &[u8]) -> bool
    ensures { result ≡ ((nat_lt 0 (length field.now) && nat_le (length field.now) 10)
        && list_all is_ascii_digit field.now) }
{
    !field.is_empty() && field.len() <= 10 && all_digits(field)
}

/// Whether all octets are decimal digits.
pub fn all_digits(field: &[u8]) -> bool
    ensures { result ≡ list_all is_ascii_digit field.now }
{
    field.iter().all(|b| b.is_ascii_digit())
}

/// The number that these decimal digits write; at most ten of them.
pub fn value_of(digits: &[u8]) -> u64
    requires most { length digits.now ≤ 10 }
    requires digits { list_all is_ascii_digit digits.now ≡ true }
    ensures value { result ≡ digits_value 10 digits.now }
    ensures below { result < 10 ^ length digits.now }
{
    let mut value = 0;
    for digit in digits {
        value = value * 10 + u64::from(*digit - b'0');
    }
    value
}
