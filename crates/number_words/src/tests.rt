//! Numbers and faults.
use crate::read_number;
use std::process::Abort;
use std::test::Fail;

#[test]
fn numbers_are_read(rt: HostRuntime) -> Result<(), Fail> {
    for (word, text) in [
        ("0", "0"),
        ("-7/2", "-7/2"),
        ("r3", "r3"),
        ("-2/4*r3", "-1/2*r3"),
        ("1/2-3/4*r3", "1/2-3/4*r3"),
        ("-10/5+r3", "-2+r3"),
        (
            "999999999999999999/000000000000000001",
            "999999999999999999",
        ),
    ] {
        let number = read_number(word.as_bytes())?;
        assert_eq!(rt;
            number.text(rt.alloc()).as_slice(),
            text.as_bytes(),
            "{word}"
        );
    }
    for (word, place) in [
        ("", 0),
        ("-", 1),
        ("--1", 1),
        ("1/0", 3),
        ("1/000000000000000000", 19),
        ("1234567890123456789", 18),
        ("1.5", 1),
        ("2*r", 3),
        ("2*r33", 4),
        ("1+", 2),
        ("1-r2", 3),
        ("1/2*3", 4),
    ] {
        match read_number(word.as_bytes()) {
            Ok(_) => assert!(rt; false, "{word} is read"),
            Err(fault) => assert_eq!(rt; fault.place, place, "{word}"),
        }
    }
    Ok(())
}
