// Each call that takes memory, with ample memory, also those of names and lists of bytes; and what a
// `Display` writes.
use cs_ids::{Bytes, Name, is_name};
use cs_text::{HexText, put_dec, put_hex, read_hex};
use std::test::Fail;

#[test]
fn writes_numbers_and_hex(rt: HostRuntime) -> Result<(), Fail> {
    let mut out = Bytes::from_slice(rt.alloc(), b"n")?;
    put_dec(&mut out, u64::MAX)?;
    put_hex(&mut out, &[0, 90, 255])?;
    assert_eq!(rt; out.as_slice(), b"n18446744073709551615005aff".as_slice());
    assert!(rt; is_name(out.as_slice()));
    let name = Name::from_slice(rt.alloc(), out.as_slice())?;
    assert_eq!(rt; name.as_slice(), out.as_slice());
    let text = format!(in rt.alloc(); "{}", HexText(&[171; 300]))?;
    let read = read_hex(rt.alloc(), text.as_bytes())?.ok_or("pairs of digits")?;
    assert_eq!(rt; read.as_slice(), [171; 300].as_slice());
    Ok(())
}
