// The numbers of expressions, also where not all is known, and what the operations make of numbers.
use load::Loader;
use std::fmt;
use std::fmt::Write;
use std::process::Abort;
use std::test::Fail;
use value::{End, Memo, evaluate};

// The variables' numbers as far as they are known, what is known of the end, an expression, and its number.
#[derive(Clone, Copy)]
struct Case<'a>(&'a [Option<i64>], End, u16, Option<i64>);

// Checks the cases of the sheet that a text spells. All numbers are worked out in one memory.
fn give(rt: &(impl Abort + AllocGlobal), text: &[u8], cases: &[Case]) -> Result<(), Fail> {
    let mut loader = Loader::new(rt.alloc())?;
    assert!(rt; loader.load(text).is_ok());
    let mut memo = Memo::new(rt.alloc())?;
    for case in cases {
        assert_eq!(rt;
            evaluate(loader.sheet(), case.0, case.1, case.2, &mut memo),
            case.3
        );
    }
    Ok(())
}

// Adds expressions 1 to `n`, each of which has the one before as both operands.
fn add_chain(text: &mut String, n: u16) -> fmt::Result {
    for k in 0..n {
        write!(text, "expr=both {k} {k}\n")?;
    }
    Ok(())
}

// A new memory has a place for each of the 200 expressions that a sheet may have, and has seen nothing.
// Each expression of a chain uses the one before it twice. It is worked out once, or this would not end.
#[test]
fn shared(rt: HostRuntime) -> Result<(), Fail> {
    let mut text = String::from_str(rt.alloc(), "sheet=2\nvar=a 0 0\nexpr=num 1\n")?;
    add_chain(&mut text, 199)?;
    text.push_str("stmt=empty\nrun=0\n")?;
    let cases = [Case(&[], End::Unknown, 199, Some(1))];
    give(&rt, text.as_bytes(), &cases)
}

const COUNTER: &[u8] =
    b"sheet=2\nvar=i 0 9\nexpr=val i\nexpr=num 1\nexpr=add 0 1\nstmt=empty\nrun=0\n";

// A counter's next number, where the counter is known, where it is not, and where its value lies outside its range.
#[test]
fn counted(rt: HostRuntime) -> Result<(), Fail> {
    let cases = [
        Case(&[Some(9)], End::On, 2, Some(10)),
        Case(&[None], End::On, 2, None),
        Case(&[], End::On, 2, None),
        Case(&[Some(10)], End::On, 2, None),
        Case(&[Some(-1)], End::On, 0, None),
        Case(&[Some(10)], End::On, 1, Some(1)),
    ];
    give(&rt, COUNTER, &cases)
}

const ENDING: &[u8] =
    b"sheet=2\nvar=a 0 0\nexpr=last\nexpr=num 0\nexpr=both 0 1\nstmt=empty\nrun=0\n";

// `last`, as far as the end is known. What is not known makes nothing known, also beside a 0.
#[test]
fn last(rt: HostRuntime) -> Result<(), Fail> {
    let cases = [
        Case(&[], End::Unknown, 0, None),
        Case(&[], End::On, 0, Some(0)),
        Case(&[], End::Last, 0, Some(1)),
        Case(&[], End::Unknown, 2, None),
    ];
    give(&rt, ENDING, &cases)
}

// Expressions 0 to 5 are constants, and those from 6 on are what is made of them.
const OPERATIONS: &[u8] =
    b"sheet=2\nvar=a 0 0\nexpr=num 2\nexpr=num -5\nexpr=num 5\nexpr=num 0\nexpr=num 1000\nexpr=num -1000000\nexpr=add 0 1\nexpr=sub 0 2\nexpr=mul 4 5\nexpr=eq 1 1\nexpr=lt 1 2\nexpr=both 1 3\nexpr=either 1 3\nexpr=not 1\nexpr=not 3\nstmt=empty\nrun=0\n";

// A sum, a difference, and the widest product that a sheet has. A test is 1 or 0, and so is a `not`.
#[test]
fn operators(rt: HostRuntime) -> Result<(), Fail> {
    let cases = [
        Case(&[], End::Unknown, 6, Some(-3)),
        Case(&[], End::Unknown, 7, Some(-3)),
        Case(&[], End::Unknown, 8, Some(-1_000_000_000)),
        Case(&[], End::Unknown, 9, Some(1)),
        Case(&[], End::Unknown, 10, Some(1)),
        Case(&[], End::Unknown, 11, Some(0)),
        Case(&[], End::Unknown, 12, Some(1)),
        Case(&[], End::Unknown, 13, Some(0)),
        Case(&[], End::Unknown, 14, Some(1)),
    ];
    give(&rt, OPERATIONS, &cases)
}
