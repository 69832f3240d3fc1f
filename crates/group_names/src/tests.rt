//! Names of groups.
use super::*;
use group_symbol::read_group;
use magnetic_groups::build_group;
use std::test::Fail;

#[test]
fn first_symbols(rt: HostRuntime) -> Result<(), Fail> {
    let rows = [
        ("321", "32"),
        ("m'-3'm'", "m'-3'm'"),
        ("22'2'", "22'2'"),
        ("2/m@z", "2/m@z"),
        ("1'", "1'"),
    ];
    for (text, name) in rows {
        let (Ok(tree), Ok(first)) = (read_group(text.as_bytes()), read_group(name.as_bytes()))
        else {
            panic!(rt; "{text} isn't read");
        };
        let Ok(group) = build_group(rt.alloc(), &tree) else {
            panic!(rt; "{text} has no group");
        };
        match name_of(rt.alloc(), &group) {
            Ok(found) => assert!(rt; found == Some(first), "{text}"),
            Err(NoMemory) => panic!(rt; "no memory"),
        }
    }
    Ok(())
}
