//! The order of texts, with case and without.

ghost use Rattle.std.specs.Prelude.{◌≡◌, IsSome, None};
ghost use Rattle.std.specs.Char.Iter.{case_mapping_chars, case_mapping_first, case_mapping_second, case_mapping_third};
ghost use Rattle.sd_evaluation.specs.Case.{folded, one_unit, same_text, text_order, upper_unit};

use std::char::ToUppercase;
use std::cmp::Ordering;

/// A UTF-16 unit in upper case, if that is one unit.
#[tactic(auto, unfolding(crate::specs::Case::upper_unit))]
fn upper_unit(unit: u16) -> u16
    ensures { result ≡ upper_unit unit }
{
    match char::from_u32(unit as u32) {
        Some(character) => one_unit(unit, character.to_uppercase()),
        None => unit,
    }
}

/// What the unit becomes, if that is one unit.
fn one_unit(unit: u16, mapped: ToUppercase) -> u16
    requires some { IsSome (case_mapping_first mapped) }
    requires packed { case_mapping_second mapped ≡ None → case_mapping_third mapped ≡ None }
    ensures { result ≡ one_unit unit (case_mapping_chars mapped) }
{
    let mut upper = mapped;
    match (upper.next(), upper.next()) {
        (Some(first), None) => {
            let code = first as u32;
            if code < 0x1_0000 { code as u16 } else { unit }
        }
        _ => unit,
    }
}

fn folded(with_case: bool, unit: u16) -> u16
    ensures { result ≡ folded with_case unit }
{
    if with_case { unit } else { upper_unit(unit) }
}

/// The order of two texts: that of the first units that differ, or else the shorter one is first.
pub(crate) fn text_order(with_case: bool, a: &[u16], b: &[u16]) -> Ordering
    ensures { result ≡ text_order with_case a.now b.now }
{
    let mut left = a;
    let mut right = b;
    'units: while let (Some((x, xs)), Some((y, ys))) = (left.split_first(), right.split_first()) {
        let order = folded(with_case, *x).cmp(&folded(with_case, *y));
        if order != Ordering::Equal {
            return order;
        }
        left = xs;
        right = ys;
    }
    left.len().cmp(&right.len())
}

/// Whether two texts are the same.
pub(crate) fn same_text(with_case: bool, a: &[u16], b: &[u16]) -> bool
    ensures { result ≡ same_text with_case a.now b.now }
{
    text_order(with_case, a, b) == Ordering::Equal
}
