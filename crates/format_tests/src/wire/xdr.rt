//! The items of XDR (RFC 4506, sections 4.1 to 4.11), and frames.
use crate::words::{reads, round};
use xdr_core::{
    Below, CallError, Cursor, Fixed, Frame, FrameFull, Opaque, Wire, Words, XdrError, one_front,
    read, written_is_read,
};

fn numbers_are_read() -> bool {
    round::<u32>(&[0, 0, 1, 2]) == Some(258)
        && round::<u64>(&[0, 0, 0, 1, 0, 0, 0, 2]) == Some(0x1_0000_0002)
        && round::<i32>(&[255, 255, 255, 254]) == Some(-2)
        && round::<bool>(&[0, 0, 0, 1]) == Some(true)
        && round::<(u32, bool)>(&[0, 0, 0, 7, 0, 0, 0, 0]) == Some((7, false))
}

fn bytes_are_read() -> bool {
    let opaque: Option<Opaque<5>> = round(&[0, 0, 0, 5, 1, 2, 3, 4, 5, 0, 0, 0]);
    let fixed: Option<Fixed<3>> = round(&[1, 2, 3, 0]);
    let words: Option<Words<2>> = round(&[0, 0, 0, 1, 0, 0, 0, 9]);
    let below: Option<Below<4>> = round(&[0, 0, 0, 3]);
    match (opaque, fixed, words, below) {
        (Some(opaque), Some(fixed), Some(words), Some(below)) => {
            opaque.bytes == [1, 2, 3, 4, 5].as_slice()
                && fixed.bytes == [1, 2, 3].as_slice()
                && words.bytes == [0, 0, 0, 9].as_slice()
                && below.number == 3
        }
        _ => false,
    }
}

#[test]
fn items(rt: HostRuntime) {
    assert!(rt; numbers_are_read());
    assert!(rt; bytes_are_read());
    one_front::<u32>();
    written_is_read::<u32>();
}

// Whether what is refused leaves the cursor where it was. A length past its bound is told also where the bytes are short.
fn refused_stays() -> bool {
    let mut c = Cursor::new(&[0, 0, 0, 2]);
    read::<bool>(&mut c) == Err(XdrError::BadBool)
        && read::<u64>(&mut c) == Err(XdrError::Short)
        && matches!(Below::<2>::get(&mut c), Err(XdrError::BadEnum))
        && matches!(Words::<1>::get(&mut c), Err(XdrError::TooLong))
        && matches!(Opaque::<1>::get(&mut c), Err(XdrError::TooLong))
        && c.rest() == [0, 0, 0, 2].as_slice()
}

// Residual bytes may have any value.
fn residue_is_free() -> bool {
    let mut c = Cursor::new(&[0, 0, 0, 1, 7, 1, 2, 3]);
    Opaque::<1>::get(&mut c).is_ok()
}

const ERRORS: &[(XdrError, &str)] = &[
    (XdrError::Starved, "1 Starved"),
    (XdrError::Short, "2 Short"),
    (XdrError::BadBool, "3 BadBool"),
    (XdrError::BadEnum, "4 BadEnum"),
    (XdrError::TooLong, "5 TooLong"),
];

const FAULTS: &[(CallError, &str)] = &[
    (CallError::Starved, "1 Starved"),
    (CallError::NoSuchProc, "11 NoSuchProc"),
    (CallError::GarbageArgs, "12 GarbageArgs"),
];

#[test]
fn refusals(rt: HostRuntime) {
    assert!(rt; refused_stays());
    assert!(rt; residue_is_free());
    assert!(rt; reads(rt.alloc(), FrameFull, "25 FrameFull"));
}

#[test]
fn errors_read(rt: HostRuntime) -> Result<(), &'static str> {
    for (error, text) in ERRORS {
        if !reads(rt.alloc(), *error, text) {
            return Err(*text);
        }
    }
    for (fault, text) in FAULTS {
        if !reads(rt.alloc(), *fault, text) {
            return Err(*text);
        }
    }
    Ok(())
}

fn fills_up() -> bool {
    let mut f = Frame::new();
    f.append(&[9; 4092]).is_ok()
        && 7u64.put(&mut f) == Err(FrameFull)
        && f.len() == 4092
        && 7u32.put(&mut f) == Ok(())
        && f.len() == 4096
}

#[test]
fn frame_full(rt: HostRuntime) {
    assert!(rt; fills_up());
}
