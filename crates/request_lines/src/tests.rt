use super::*;
use std::test::Fail;

/// What is read of a line of a format: a number for the kind of request, or the place where the line goes wrong.
fn kind(format: Format, line: &[u8]) -> Result<u8, usize> {
    if line.len() > 1000 {
        return Err(1001);
    }
    match read_request(format, line) {
        Ok(Request::Form { .. }) => Ok(0),
        Ok(Request::Group { .. }) => Ok(1),
        Ok(Request::Voigt { .. }) => Ok(2),
        Ok(Request::States { .. }) => Ok(3),
        Ok(Request::Pairs { .. }) => Ok(4),
        Ok(Request::Differ { .. }) => Ok(5),
        Ok(Request::Same { .. }) => Ok(6),
        Ok(Request::Comment) => Ok(7),
        Err(fault) => Err(fault.place),
    }
}

/// Lines, and the kinds of their requests, or the places where they go wrong.
static LINES: [(&[u8], Result<u8, usize>); 24] = [
    (b"form 2 V", Ok(0)),
    (b"group 2'", Ok(1)),
    (b"voigt 6mm [[V2]2] c", Ok(2)),
    (b"states m-3m 4mm", Ok(3)),
    (b"pairs 4 1", Ok(4)),
    (b"differ 6/mmm mmm [V2]", Ok(5)),
    (b"same 2@z 4 V", Ok(6)),
    (b"form 4/mm V", Err(9)),
    (b"form 1 [V2", Err(10)),
    (b"form 1 V7", Err(8)),
    (b"form 2'1' V", Err(7)),
    (b"form 1 ", Err(7)),
    (b"form", Err(4)),
    (b"x", Err(0)),
    (b"form 1 V ", Err(8)),
    (b"voigt 1 V3 x", Err(11)),
    (b"group 2 ", Err(7)),
    (b"s", Err(1)),
    (b"sa", Err(2)),
    (b"st", Err(2)),
    (b"form 2 V,eV", Err(8)),
    (b"form 1 Ve", Err(9)),
    (b"form 1 eeV", Err(8)),
    (b"# note", Err(0)),
];

#[test]
fn lines_are_read(rt: HostRuntime) -> Result<(), Fail> {
    for (line, wanted) in &LINES {
        assert_eq!(rt; kind(Format::One, line), *wanted);
    }
    Ok(())
}

/// The same in format 2.
static LINES_OF_TWO: [(&[u8], Result<u8, usize>); 10] = [
    (b"form 2 V,eV", Ok(0)),
    (b"differ 4 1 V,V2,e", Ok(5)),
    (b"# note, of any kind", Ok(7)),
    (b"#\n", Err(1)),
    (b"form 1 V,V7", Err(10)),
    (b"form 1 V,V6V", Ok(0)),
    (b"form 1 V,", Err(9)),
    (b"form 1 V,V,V,V,V,V,V,V,V", Err(22)),
    (b"same 1 2 V,V", Err(10)),
    (b"voigt 1 V2,V2 c", Err(10)),
];

#[test]
fn lines_of_format_two_are_read(rt: HostRuntime) -> Result<(), Fail> {
    for (line, wanted) in &LINES_OF_TWO {
        assert_eq!(rt; kind(Format::Two, line), *wanted);
    }
    Ok(())
}

/// The places of the word of the list with this number.
fn word(line: &[u8], number: usize) -> Option<(usize, usize)> {
    if line.len() > 4000 {
        return None;
    }
    match read_request(Format::Two, line) {
        Ok(Request::Form { j, .. }) => list_word(line, j, number).map(|word| (
            word.start, word.end,
        )),
        _ => None,
    }
}

#[test]
fn words_of_a_list_are_found(rt: HostRuntime) -> Result<(), Fail> {
    let line = b"form 2 V,eV2,a";
    assert_eq!(rt; word(line, 0), None);
    assert_eq!(rt; word(line, 1), Some((7, 8)));
    assert_eq!(rt; word(line, 2), Some((9, 12)));
    assert_eq!(rt; word(line, 3), Some((13, 14)));
    assert_eq!(rt; word(line, 4), None);
    Ok(())
}

#[test]
fn long_lines_are_read(rt: HostRuntime) -> Result<(), Fail> {
    let mut line = [b'['; 507];
    for (place, byte) in b"form 1 ".iter().enumerate() {
        line[place] = *byte;
    }
    assert_eq!(rt; kind(Format::One, &line), Err(507));
    assert_eq!(rt; kind(Format::One, &[b'x'; 1000]), Err(0));
    Ok(())
}
