// Reading: fields, letters and numbers.
#![tactic(auto)]

ghost use Rattle.std.specs.Prelude.{◌≡◌, [], true, ◌≤◌, length, get_or};
ghost use Rattle.text.specs.Text.{until, fields, is_letter, digits, value, is_number, number_of, number_values, number_says};

// The index of the first b, or the length where there is none.
#[tactic(auto, using(crate::proofs::Steps::until_next, crate::proofs::Steps::until_end))]
pub fn until(text: &[u8], b: u8) -> usize
    ensures { result ≡ until b text.now }
{
    for i in 0..text.len() {
        if text[i] == b {
            return i;
        }
    }
    text.len()
}

// How many fields a line has.
pub fn field_count(text: &[u8]) -> usize
    ensures { result ≡ length (fields text.now) }
{
    let mut count: usize = 1;
    for b in text {
        if *b == b'\t' {
            count += 1;
        }
    }
    count
}

// Field i of a line: empty where there is none.
pub fn field(text: &[u8], i: usize) -> &[u8]
    ensures { result.now ≡ get_or (fields text.now) i [] }
{
    let mut rest = text;
    for _ in 0..i {
        let end = until(rest, b'\t');
        if end == rest.len() {
            return &[];
        }
        rest = &rest[end + 1..];
    }
    &rest[..until(rest, b'\t')]
}

// Whether a part is the letter b alone.
#[tactic(auto, unfolding(text::specs::Text::is_letter))]
pub fn is_letter(part: &[u8], b: u8) -> bool
    ensures { result ≡ is_letter b part.now }
{
    match part {
        [x] => *x == b,
        _ => false,
    }
}

// Whether every byte of a part is a digit.
fn digits(part: &[u8]) -> bool
    ensures { result ≡ digits part.now }
{
    part.iter().all(|b| b.is_ascii_digit())
}

// The value of at most 7 digits.
fn value(part: &[u8]) -> u32
    requires { (length part.now ≤ 7) × (digits part.now ≡ true) }
    ensures { result ≡ value part.now }
{
    let mut value: u32 = 0;
    for b in part {
        value = value * 10 + (*b - b'0') as u32;
    }
    value
}

// Whether a part is 1 to 7 digits, with no leading zero but `0` itself.
#[tactic(auto, unfolding(text::specs::Text::is_number))]
fn is_number(part: &[u8]) -> bool
    ensures { result ≡ is_number part.now }
{
    let count = part.len();
    1 <= count && count <= 7 && digits(part) && (count == 1 || part[0] != b'0')
}

// What a part says as a number.
#[tactic(auto, using(text::proofs::Reading::number_digits), unfolding(text::specs::Text::value_if))]
pub fn number_of(part: &[u8]) -> Option<u32>
    ensures answer { result ≡ number_of part.now }
    ensures values { number_values result ≡ number_says part.now }
{
    if is_number(part) {
        Some(value(part))
    } else {
        None
    }
}

// What field i of a line says as a number.
pub fn number_at(text: &[u8], i: usize) -> Option<u32>
    ensures answer { result ≡ number_of (get_or (fields text.now) i []) }
    ensures values { number_values result ≡ number_says (get_or (fields text.now) i []) }
{
    number_of(field(text, i))
}

// Whether field i of a line is the letter b alone.
pub fn letter_at(text: &[u8], i: usize, b: u8) -> bool
    ensures { result ≡ is_letter b (get_or (fields text.now) i []) }
{
    is_letter(field(text, i), b)
}
