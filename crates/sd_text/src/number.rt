//! Numbers in decimal digits.

ghost use Rattle.std.specs.Prelude.{◌≡◌, ◌<◌, ◌+◌, ◌++◌, [], ◌∷◌, OnOk, string_bytes};
ghost use Rattle.std.specs.Fmt.{decimal};
ghost use Rattle.sd_text.specs.Canon.{two_digits};

use std::alloc::AllocError;

/// Appends the number in decimal: the digits before its last two, then those two. Only for speed: `write!` would do.
#[tactic(auto, using(crate::proofs::Numbers::one_digit, crate::proofs::Numbers::one_pair))]
pub(crate) fn push_decimal(out: &mut String, number: u32) -> Result<(), AllocError>
    ensures { OnOk result (string_bytes out.new ≡ string_bytes out.old ++ decimal number) }
{
    if number < 10 {
        return push_digit(out, number as u8);
    }
    if number < 100 {
        return push_pair(out, number as u8);
    }
    push_decimal(out, number / 100)?;
    push_pair(out, (number % 100) as u8)
}

fn push_pair(out: &mut String, pair: u8) -> Result<(), AllocError>
    requires { pair < 100 }
    ensures { OnOk result (string_bytes out.new ≡ string_bytes out.old ++ two_digits pair) }
{
    push_digit(out, pair / 10)?;
    push_digit(out, pair % 10)
}

fn push_digit(out: &mut String, digit: u8) -> Result<(), AllocError>
    requires { digit < 10 }
    ensures { OnOk result (string_bytes out.new ≡ string_bytes out.old ++ (48 + digit) ∷ []) }
{
    out.push(char::from(b'0' + digit))
}
