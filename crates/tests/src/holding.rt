// What a loader holds, and the names that it finds.
use load::Loader;
use std::process::Abort;
use std::test::Fail;

// Texts that are refused: one without its end, one of another format, one without a `run` line, and one with a line behind it.
const REFUSED: [&[u8]; 4] = [
    b"sheet=2",
    b"sheet=1\n",
    b"sheet=2\nvar=b 0 0\nvar=c 0 0\nstmt=more\n",
    b"sheet=2\nvar=a 0 0\nstmt=empty\nrun=0\n\n",
];

// Checks that each of those texts leaves the sheet that is held: its counts of variables, expressions and statements, and its run number.
fn keeps(rt: &impl Abort, loader: &mut Loader, counts: [usize; 3], run: u16) {
    for text in &REFUSED {
        assert!(rt; loader.load(text).is_err());
        let sheet = loader.sheet();
        let tables = &sheet.tables;
        assert_eq!(rt;
            [
                tables.variables.len(),
                tables.expressions.len(),
                tables.statements.len(),
            ],
            counts
        );
        assert_eq!(rt; sheet.run, run);
    }
}

const LOADED: &[u8] = b"sheet=2\nvar=a 0 0\nvar=b 0 0\nexpr=num 1\nstmt=empty\nstmt=more\nrun=1\n";

// A new loader holds the smallest sheet. A refused text changes nothing, wherever it is refused.
#[test]
fn kept(rt: HostRuntime) -> Result<(), Fail> {
    let mut loader = Loader::new(rt.alloc())?;
    keeps(&rt, &mut loader, [1, 0, 1], 0);
    assert!(rt; loader.load(LOADED).is_ok());
    keeps(&rt, &mut loader, [2, 1, 2], 1);
    Ok(())
}

const NAMED: &[u8] = b"sheet=2\nvar=abcdefghijkl -5 5\nvar=b 0 0\nstmt=empty\nrun=0\n";

const UNNAMED: &[u8] = b"sheet=2\nvar=a 0 0\nstmt=empty\n";

// A name is told by the bytes of its text. There is none where there is no such variable, or where the text is refused. The sheet stays.
#[test]
fn names(rt: HostRuntime) -> Result<(), Fail> {
    let mut loader = Loader::new(rt.alloc())?;
    let rows: [(&[u8], usize, Option<&[u8]>); 5] = [
        (NAMED, 0, Some(b"abcdefghijkl")),
        (NAMED, 1, Some(b"b")),
        (NAMED, 2, None),
        (NAMED, usize::MAX, None),
        (UNNAMED, 0, None),
    ];
    for (text, k, name) in &rows {
        assert_eq!(rt; loader.variable_name(text, *k), *name);
    }
    keeps(&rt, &mut loader, [1, 0, 1], 0);
    Ok(())
}
