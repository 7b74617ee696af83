// Tables of examples that are in order, and some that are not.
use cases::{Example, Kind, next_example, unpacked};
use std::test::Fail;
use text::{Reader, same};

// The next example, where it is in order.
fn next<'a>(reader: &mut Reader<'a>) -> Result<Example<'a>, Fail> {
    match next_example(reader) {
        Some(Ok(example)) => Ok(example),
        _ => Err(Fail::new("no example in order")),
    }
}

// The parts of a worked sheet stand as they are in the table.
#[test]
fn sheets(rt: HostRuntime) -> Result<(), Fail> {
    let mut reader = Reader::new(
        b"\nexample=a\nformula=x = y\nsheet=2\nrun=0\nreading=0 0 6\nrecord=6 0\nrecord=1 2\nverdict=open\nstates=2\n\n",
    );
    let example = next(&mut reader)?;
    let Kind::Worked(sheet) = example.kind else {
        return Err(Fail::new("another kind"));
    };
    let parts: [(&[u8], &[u8]); 5] = [
        (example.name, b"a"),
        (sheet.sheet, b"sheet=2\nrun=0\n"),
        (sheet.readings, b"reading=0 0 6\n"),
        (sheet.record, b"record=6 0\nrecord=1 2\n"),
        (sheet.closing, b"verdict=open\nstates=2\n"),
    ];
    for (part, text) in &parts {
        assert!(rt; same(part, text));
    }
    assert!(rt; next_example(&mut reader).is_none());
    Ok(())
}

// A text with its answer, and one with what is shown of its run.
#[test]
fn packed(rt: HostRuntime) -> Result<(), Fail> {
    let mut reader = Reader::new(
        b"example=a\ntext=sheet=2//\nanswer=5 2 0\n\nexample=b\ntext=\nstate=0\nv0=1\nverdict=open\nstates=1\n",
    );
    let Kind::Loaded(loaded) = next(&mut reader)?.kind else {
        return Err(Fail::new("another kind"));
    };
    let Kind::Shown(shown) = next(&mut reader)?.kind else {
        return Err(Fail::new("another kind"));
    };
    let parts: [(&[u8], &[u8]); 5] = [
        (loaded.packed, b"sheet=2//"),
        (loaded.answer, b"5 2 0"),
        (shown.packed, b""),
        (shown.record, b"state=0\nv0=1\n"),
        (shown.closing, b"verdict=open\nstates=1\n"),
    ];
    for (part, text) in &parts {
        assert!(rt; same(part, text));
    }
    assert!(rt; same(&unpacked(rt.alloc(), loaded.packed)?, b"sheet=2\n\n"));
    Ok(())
}

// The number of the line at which the first example of a table is malformed, or 0.
fn malformed(table: &[u8]) -> usize {
    match next_example(&mut Reader::new(table)) {
        Some(Err(line)) => line,
        _ => 0,
    }
}

// A block without a name or closing lines is malformed, and so is one with parts in another order, or with a line that spells no reading.
#[test]
fn blocks(rt: HostRuntime) {
    let rows: [(&[u8], usize); 9] = [
        (b"sheet=2\nverdict=open\n", 1),
        (b"\n\nexample=a\nsheet=2\n\n", 5),
        (
            b"example=a\nsheet=2\nrecord=0\nreading=0 0 1\nverdict=open\n",
            4,
        ),
        (b"example=a\nsheet=2\nverdict=open\nexample=b\n", 4),
        (b"example=a\ntext=\n", 3),
        (b"example=a\ntext=\nanswer=1 0 0\nverdict=open\n", 4),
        (b"example=a\nanswer=1 0 0\n", 2),
        (
            b"example=a\nsheet=2\nreading=0 0 6\nreading=0 0\nverdict=open\n",
            4,
        ),
        (b"example=a\nsheet=2\nreading=0 0 +1\nverdict=open\n", 3),
    ];
    for (table, line) in &rows {
        assert_eq!(rt; malformed(table), *line);
    }
}

// After a malformed example the next one is read.
#[test]
fn goes_on(rt: HostRuntime) -> Result<(), Fail> {
    let mut reader = Reader::new(b"example=a\n\nexample=b\nsheet=2\nverdict=open");
    assert!(rt; next_example(&mut reader).is_some_and(|next| next.is_err()));
    assert!(rt; same(next(&mut reader)?.name, b"b"));
    Ok(())
}
