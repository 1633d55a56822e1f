// Each call that writes or reads fields and takes memory, with ample memory; and the bytes that are left where a
// field isn't spelled.
use cs_codec::{
    Reader, put_flag, put_ino, put_list, put_name, put_number, put_optional_ino, put_seq, put_snap,
    put_tid,
};
use cs_ids::{Bytes, Ino, Items, Name, Seq, Snap, Tid};
use std::test::Fail;

#[test]
fn numbers_are_read_back(rt: HostRuntime) -> Result<(), Fail> {
    let mut out = Bytes::new(rt.alloc());
    put_number(&mut out, 2, 258)?;
    put_flag(&mut out, true)?;
    assert_eq!(rt; out.as_slice(), [2, 1, 1].as_slice());
    put_ino(&mut out, Ino::new(99_999).ok_or("inode")?)?;
    put_optional_ino(&mut out, None)?;
    put_optional_ino(&mut out, Ino::new(1))?;
    put_tid(&mut out, Tid::new(3).ok_or("tid")?)?;
    put_snap(&mut out, Snap::new(4).ok_or("snapshot")?)?;
    put_seq(&mut out, Seq::new(5).ok_or("seq")?)?;

    let mut reader = Reader::new(out.as_slice());
    assert_eq!(rt; reader.number(2, 0, 300), Some(258));
    assert_eq!(rt; reader.flag(), Some(true));
    assert_eq!(rt; reader.ino(), Ino::new(99_999));
    assert_eq!(rt; reader.optional_ino(), Some(None));
    assert_eq!(rt; reader.optional_ino(), Some(Ino::new(1)));
    assert_eq!(rt; reader.tid(), Tid::new(3));
    assert_eq!(rt; reader.snap(), Snap::new(4));
    assert_eq!(rt; reader.seq(), Seq::new(5));
    assert!(rt; reader.is_done());
    Ok(())
}

#[test]
fn names_and_lists_are_read_back(rt: HostRuntime) -> Result<(), Fail> {
    let mut out = Bytes::new(rt.alloc());
    put_name(&mut out, &Name::from_slice(rt.alloc(), b"a-1")?)?;
    put_list(&mut out, &[Snap::new(6).ok_or("snapshot")?])?;
    assert_eq!(rt;
        out.as_slice(),
        b"\x03a-1\x01\0\x06\0\0\0\0\0\0\0".as_slice()
    );

    let mut reader = Reader::new(out.as_slice());
    let name = reader.name(rt.alloc())?.ok_or("name")?;
    assert_eq!(rt; name.as_slice(), b"a-1".as_slice());
    let list: Items<Snap> = reader.list(rt.alloc())?.ok_or("list")?;
    assert_eq!(rt;
        list.as_slice(),
        [Snap::new(6).ok_or("snapshot")?].as_slice()
    );
    assert!(rt; reader.is_done());
    Ok(())
}

#[test]
fn what_is_no_field_is_left(rt: HostRuntime) -> Result<(), Fail> {
    let mut reader = Reader::new(b"\x03\0a");
    assert!(rt; reader.name(rt.alloc())?.is_none());
    let list: Option<Items<Snap>> = reader.list(rt.alloc())?;
    assert!(rt; list.is_none());
    assert_eq!(rt; reader.flag(), None);
    assert_eq!(rt; reader.number(4, 0, 9), None);
    assert_eq!(rt; reader.number(2, 0, 9), Some(3));
    assert!(rt; !reader.is_done());
    Ok(())
}
