// Row two: a table of fourteen field forms, walked by one field checker.
ghost use Rattle.std.specs.Prelude.{◌≡◌, length};
ghost use Rattle.text.specs.Field.{cut};
ghost use Rattle.report.specs.Outcome.{says};
ghost use Rattle.headers.specs.Two.{is_decimal, up_to_digits, is_unit_code, is_zone_count, fits_form, row_two_forms, fit_all, has_multiplier, row_two};
ghost use Rattle.lines.specs.Answer.{line_of};

use lines::line::Line;
use lines::row::begin;
use report::require;
use report::verdict::Verdict;
use text::bytes::{all_digits, is_empty, same};
use text::cutting::Fields;
use text::fields::behind;
use text::numbers::{digits, number_of};

// What a field may be.
#[derive(Clone, Copy, Debug, PartialEq, Eq)]
pub enum Form {
    // The row's code, which 13 has tested.
    Code,
    // A decimal, or empty.
    Decimal,
    Empty,
    // `900`
    Seconds,
    // `01`
    Unit,
    // 1 to 4 digits, not zero, or empty.
    UnitCode,
    // `-1`, or 1 to 2 digits up to 47, or empty.
    ZoneCount,
    // `CST`
    ZoneName,
}

// The forms of fields 1 to 14: the table that document 01 names, which one field checker walks.
const FORMS: [Form; 14] = [
    Form::Code,
    Form::Decimal,
    Form::Decimal,
    Form::Decimal,
    Form::Empty,
    Form::Decimal,
    Form::Empty,
    Form::Seconds,
    Form::Unit,
    Form::UnitCode,
    Form::ZoneCount,
    Form::Decimal,
    Form::Decimal,
    Form::ZoneName,
];

// 1 to 15 digits, optionally a point and 1 to 4 digits.
fn is_decimal(f: &[u8]) -> bool
    ensures { result ≡ is_decimal f.now }
{
    let w = digits(f);
    let whole = (1 <= w) & (w <= 15);
    match behind(f, w) {
        [] => whole,
        [b'.', part @ ..] => whole & up_to_digits(part, 4),
        _ => false,
    }
}

// 1 to n digits, as its definition is written; so is `is_name` (text), of 1 to n letters or digits.
fn up_to_digits(f: &[u8], n: usize) -> bool
    ensures { result ≡ up_to_digits n f.now }
{
    (1 <= f.len()) & (f.len() <= n) & all_digits(f)
}

// 1 to 4 digits, not zero.
fn is_unit_code(f: &[u8]) -> bool
    ensures { result ≡ is_unit_code f.now }
{
    if !up_to_digits(f, 4) {
        return false;
    }
    number_of(f) != 0
}

// 1 to 2 digits up to 47.
fn is_zone_count(f: &[u8]) -> bool
    ensures { result ≡ is_zone_count f.now }
{
    if !up_to_digits(f, 2) {
        return false;
    }
    number_of(f) <= 47
}

// Whether a field has a form.
#[tactic(auto, unfolding(crate::specs::Two::fits_form))]
fn fits(form: Form, f: &[u8]) -> bool
    ensures { result ≡ fits_form form f.now }
{
    match form {
        Form::Code => true,
        Form::Decimal => is_empty(f) | is_decimal(f),
        Form::Empty => is_empty(f),
        Form::Seconds => same(f, b"900"),
        Form::Unit => same(f, b"01"),
        Form::UnitCode => is_empty(f) | is_unit_code(f),
        Form::ZoneCount => is_empty(f) | same(f, b"-1") | is_zone_count(f),
        Form::ZoneName => same(f, b"CST"),
    }
}

// Whether each field has its form.
fn fit_all(mut fields: Fields<'_>) -> bool
    requires { length fields ≡ 14 }
    ensures { result ≡ fit_all row_two_forms fields.entry }
{
    for form in FORMS {
        if !fits(form, fields.next()) {
            return false;
        }
    }
    true
}

// Field 4 may not be empty if 2 and 3 are both filled.
fn has_multiplier(line: &[u8]) -> bool
    requires { length (cut line.now) ≡ 14 }
    ensures { result ≡ has_multiplier (cut line.now) }
{
    let mut fields = Fields::of(line);
    fields.next();
    let start = fields.next();
    let stop = fields.next();
    let multiplier = fields.next();
    is_empty(start) | is_empty(stop) | !is_empty(multiplier)
}

#[tactic(auto, using(lines::proofs::Begin::fields_counted))]
pub fn read_two(line: Line<'_>) -> Result<(), Verdict>
    ensures { says result ≡ row_two (line_of line.entry) }
{
    let fields = begin(line, b"00000002", 14)?;
    require(fit_all(fields) & has_multiplier(line.body), Verdict::Misfit)
}
