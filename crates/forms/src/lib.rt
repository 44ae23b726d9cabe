// What a schedule line says. `None` is a line that is not of the forms.
#![tactic(auto)]

ghost use Rattle.std.specs.Prelude.{◌≡◌, [], length};
ghost use Rattle.rules.specs.Refusals.{first, refusal_of};
ghost use Rattle.text.specs.Text.{fields};
ghost use Rattle.forms.specs.Form.{field, below_read, low_read, settings_form, first_form, operation_read, line_form, first_number, first_values, first_order, first_says, line_number, line_values, line_order, line_says};

use rules::state::Settings;

// A line other than the first. Its operation is a number, as `begin` takes it.
#[derive(Clone, Copy, PartialEq, Eq, Debug)]
pub enum Line {
    Begin {
        thread: u32,
        operation: u32,
        key: u32,
    },
    Steps {
        thread: u32,
        count: u32,
    },
}

// A number below 0: a minus, and a number that is not 0.
#[tactic(auto, unfolding(crate::specs::Form::is_below, text::specs::Text::value_if))]
fn below_of(part: &[u8]) -> Option<u32>
    ensures { result ≡ below_read part.now }
{
    let [b'-', rest @ ..] = part else {
        return None;
    };
    reading::number_of(rest).filter(|n| *n != 0)
}

// How far min lies below 0.
#[tactic(auto, unfolding(crate::specs::Form::is_min, crate::specs::Form::low_of, text::specs::Text::value_if))]
fn low_of(part: &[u8]) -> Option<u32>
    ensures { result ≡ low_read part.now }
{
    below_of(part).or(reading::number_of(part).filter(|n| *n == 0))
}

// The settings of a line of 5 fields, in range or not.
#[tactic(auto, unfolding(crate::specs::Form::settings_form, crate::specs::Form::is_first, crate::specs::Form::settings_of, text::specs::Text::value_if))]
fn settings_form(line: &[u8]) -> Option<Settings>
    requires { length (fields line.now) ≡ 5 }
    ensures { result ≡ settings_form (fields line.now) }
{
    if !reading::letter_at(line, 0, b'R') {
        return None;
    }
    Some(Settings {
        succ: reading::number_at(line, 1)?,
        fail: reading::number_at(line, 2)?,
        low: low_of(reading::field(line, 3))?,
        max: reading::number_at(line, 4)?,
    })
}

// What the first line says.
#[tactic(auto, using(crate::proofs::Form::first_says_lem), unfolding(crate::specs::Form::first_form, crate::specs::Form::ranged, crate::specs::Form::settings_form, crate::specs::Form::is_first, crate::specs::Form::settings_of))]
pub fn first_form(line: &[u8]) -> Option<Settings>
    ensures answer { result ≡ first_form line.now }
    ensures number { first_number result ≡ refusal_of (first_order line.now) }
    ensures values { first_values result ≡ first (first_order line.now) (λ n. []) (first_says line.now) }
{
    if reading::field_count(line) != 5 {
        return None;
    }
    let settings = settings_form(line)?;
    range::settings_in_range(settings).then_some(settings)
}

// The operation that field 2 of a line names.
#[tactic(auto, unfolding(crate::specs::Form::is_operation, crate::specs::Form::operation_of, text::specs::Text::is_letter, text::specs::Text::value_if))]
fn operation_at(line: &[u8]) -> Option<u32>
    ensures { result ≡ operation_read (field (fields line.now) 2) }
{
    match reading::field(line, 2) {
        [b'I'] => Some(0),
        [b'D'] => Some(1),
        [b'L'] => Some(2),
        _ => None,
    }
}

// A line of 4 fields.
#[tactic(auto, unfolding(crate::specs::Form::line_form, crate::specs::Form::is_begin, crate::specs::Form::is_steps, text::specs::Text::value_if))]
fn begin_form(line: &[u8]) -> Option<Line>
    requires { length (fields line.now) ≡ 4 }
    ensures { result ≡ line_form line.now }
{
    if !reading::letter_at(line, 0, b'B') {
        return None;
    }
    Some(Line::Begin {
        thread: reading::number_at(line, 1)?,
        operation: operation_at(line)?,
        key: reading::number_at(line, 3)?,
    })
}

// A line of 3 fields.
#[tactic(auto, unfolding(crate::specs::Form::line_form, crate::specs::Form::is_begin, crate::specs::Form::is_steps, text::specs::Text::value_if))]
fn steps_form(line: &[u8]) -> Option<Line>
    requires { length (fields line.now) ≡ 3 }
    ensures { result ≡ line_form line.now }
{
    if !reading::letter_at(line, 0, b'S') {
        return None;
    }
    Some(Line::Steps {
        thread: reading::number_at(line, 1)?,
        count: reading::number_at(line, 2)?,
    })
}

// What a line other than the first says.
#[tactic(auto, using(crate::proofs::Form::line_says_lem), unfolding(crate::specs::Form::line_form, crate::specs::Form::is_begin, crate::specs::Form::is_steps))]
pub fn line_form(line: &[u8]) -> Option<Line>
    ensures answer { result ≡ line_form line.now }
    ensures number { line_number result ≡ refusal_of (line_order line.now) }
    ensures values { line_values result ≡ first (line_order line.now) (λ n. []) (line_says line.now) }
{
    match reading::field_count(line) {
        4 => begin_form(line),
        3 => steps_form(line),
        _ => None,
    }
}
