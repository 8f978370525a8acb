//! Zero bytes up to a multiple of four.

ghost use Rattle.std.specs.Prelude.{◌≡◌, ◌++◌, replicate, OnOk};
ghost use Rattle.sd_data.specs.Writing.{padding_len};

use std::alloc::AllocError;

/// How many zero bytes follow so many bytes, up to a multiple of four ([MS-DTYP] 2.4.4.17.4).
pub fn padding_len(len: usize) -> usize
    ensures { result ≡ padding_len len }
{
    (4 - len % 4) % 4
}

/// Appends zero bytes.
pub fn push_padding(bytes: &mut Vec<u8>, len: usize) -> Result<(), AllocError>
    ensures { OnOk result (bytes.new.items ≡ bytes.old.items ++ replicate len 0) }
{
    for _ in 0..len {
        bytes.push(0)?;
    }
    Ok(())
}
