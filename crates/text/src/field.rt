// The field that a text begins with, and what follows it: a text is taken apart from the front, so that each field is found once.
ghost use Rattle.std.specs.Prelude.{◌≡◌, option_map, ◌≤◌, length};
ghost use Rattle.text.specs.Field.{parts, span, inner, last, name_field, number_field, kind_field, last_number};

use crate::name::kind;
use crate::number::number;

fn parts(b: u8) -> bool
    ensures { result ≡ parts b }
{
    b == b'\t' || b == b'\n'
}

// How many bytes stand before the first tab or newline.
fn span(text: &[u8]) -> usize
    ensures value { result ≡ span text.now }
    ensures within { result ≤ length text.now }
{
    text.iter().position(|b| parts(*b)).unwrap_or(text.len())
}

// A field that a tab follows, and what follows the tab.
fn inner(text: &[u8]) -> Option<(&[u8], &[u8])>
    ensures { option_map (λ p. (p.0.now, p.1.now)) result ≡ inner text.now }
{
    let (field, rest) = text.split_at(span(text));
    let next = rest.strip_prefix(b"\t")?;
    Some((field, next))
}

// A line's last field, and the lines after it.
fn last(text: &[u8]) -> Option<(&[u8], &[u8])>
    ensures { option_map (λ p. (p.0.now, p.1.now)) result ≡ last text.now }
{
    let (field, rest) = text.split_at(span(text));
    match rest {
        [] => Some((field, rest)),
        [b'\t', ..] => None,
        [_, next @ ..] => Some((field, next)),
    }
}

// What follows a line's name, where that is this one.
pub fn name_field<'a>(text: &'a [u8], name: &[u8]) -> Option<&'a [u8]>
    ensures { option_map (λ r. r.now) result ≡ name_field name.now text.now }
{
    let (field, rest) = inner(text)?;
    if field == name { Some(rest) } else { None }
}

// Three functions and not one over a closure: that would need a `requires` of the closure and a lemma at each use, for two lines saved.
pub fn number_field(text: &[u8]) -> Option<(u64, &[u8])>
    ensures { option_map (λ p. (p.0, p.1.now)) result ≡ number_field text.now }
{
    let (field, rest) = inner(text)?;
    let value = number(field)?;
    Some((value, rest))
}

// A kind's name; its value is the kind's number.
pub fn kind_field(text: &[u8]) -> Option<(u64, &[u8])>
    ensures { option_map (λ p. (p.0, p.1.now)) result ≡ kind_field text.now }
{
    let (field, rest) = inner(text)?;
    let value = kind(field)?;
    Some((value, rest))
}

// A number that ends its line.
pub fn last_number(text: &[u8]) -> Option<(u64, &[u8])>
    ensures { option_map (λ p. (p.0, p.1.now)) result ≡ last_number text.now }
{
    let (field, rest) = last(text)?;
    let value = number(field)?;
    Some((value, rest))
}
