//! The text of inputs of every encoding, in pieces of every length.
ghost use Rattle.std.specs.Prelude.{◌<◌};

use sd_lines::Decoder;
use std::alloc::{AllocError, Global};
use std::test::Fail;

/// Inputs and their texts. UTF-16 is as RFC 2781 has it, whose section 5 has a character of two units before `=Ra`.
/// What is no character is FF.
const TEXTS: [(&[u8], &[u8]); 16] = [
    (b"", b""),
    (b"a\n", b"a\n"),
    (b"\xff", b"\xff"),
    (b"\xfe\xfe", b"\xfe\xfe"),
    (b"\xef\xbb", b"\xef\xbb"),
    (b"\xef\xbb\xbf\xef\xbb\xbfa", b"\xef\xbb\xbfa"),
    (b"\xff\xfe", b""),
    (b"\xfe\xff", b""),
    (b"\xff\xfea\0\n\0", b"a\n"),
    (b"\xff\xfe\x08\xd8\x45\xdf=\0R\0a\0", b"\xf0\x92\x8d\x85=Ra"),
    (b"\xfe\xff\xd8\x08\xdf\x45\0=\0R\0a", b"\xf0\x92\x8d\x85=Ra"),
    (
        b"\xfe\xff\0\xe9\x20\xac\xe0\0\xff\xff",
        b"\xc3\xa9\xe2\x82\xac\xee\x80\x80\xef\xbf\xbf",
    ),
    (b"\xfe\xff\xfe\xff\0a", b"\xef\xbb\xbfa"),
    (b"\xff\xfea\0b", b"a\xff"),
    (
        b"\xfe\xff\xdc\0\0\n\xd8\0\0a\xd8\0\xd8\0\xdc\0",
        b"\xff\n\xffa\xff\xf0\x90\x80\x80",
    ),
    (b"\xfe\xff\0a\xd8\0\xdc", b"a\xff\xff"),
];

fn decoded(
    alloc: Global,
    mut decoder: Decoder,
    input: &[u8],
    size: usize,
) -> Result<Vec<u8>, AllocError>
    requires { 0 < size }
{
    let mut text = Vec::new(alloc);
    for piece in input.chunks(size) {
        decoder.decode(alloc, piece, &mut text)?;
    }
    decoder.end(&mut text)?;
    Ok(text)
}

#[test]
fn texts_come_in_pieces_of_every_length(rt: HostRuntime) -> Result<(), Fail> {
    let alloc = rt.alloc();
    for (input, wanted) in TEXTS {
        for size in 1..=input.len() + 1 {
            let text = decoded(alloc, Decoder::new(alloc), input, size)?;
            assert_eq!(rt; text.as_slice(), wanted, "{input:?} by {size}");
            let text = decoded(alloc, Decoder::utf8(alloc), input, size)?;
            assert_eq!(rt; text.as_slice(), input, "{input:?} by {size}");
        }
    }
    Ok(())
}
