// A report and a list of broken rules made by hand, and what is written of them.
use crate::{first_text, refusal, report_text, verdict};
use go_base::{Bytes, Family, LineCol, Name, NoMemory, ObjId, Rule, Status};
use go_model::Mode;
use go_module::{At, Placed};
use go_num::Value;
use go_report::{DefKind, Line, NamedObject, PackageReport, Records, Report, Verdict, What};
use go_term::{Basic, Term};
use std::alloc::Global;
use std::test::Fail;

// A declared name, and one that is declared in a function.
const DECLARED: ObjId = ObjId(50);

const LOCAL: ObjId = ObjId(51);

pub fn name(alloc: Global, text: &str) -> Result<Name, NoMemory> {
    Ok(Name::new(String::from_str(alloc, text)?))
}

fn at(alloc: Global, line: usize, col: usize) -> Result<At, NoMemory> {
    Ok(At {
        stub: false,
        file: name(alloc, "a.go")?,
        line,
        col,
    })
}

fn broken(alloc: Global, line: usize, family: Family) -> Result<Placed, NoMemory> {
    Ok(Placed {
        at: at(alloc, line, 1)?,
        rule: Rule { family, number: 14 },
    })
}

pub fn object(
    alloc: Global,
    object: ObjId,
    path: &str,
    text: &str,
) -> Result<NamedObject, NoMemory> {
    Ok(NamedObject {
        object,
        path: name(alloc, path)?,
        name: name(alloc, text)?,
        at: Some(at(alloc, 5, 2)?),
        local: object == LOCAL,
        params: Vec::new(alloc),
    })
}

fn seven(alloc: Global) -> Result<Line, NoMemory> {
    let kind = DefKind::Const(Term::Named(DECLARED, Vec::new(alloc)), Value::Int(7));
    Ok(Line {
        at: at(alloc, 3, 7)?,
        what: What::Def(name(alloc, "A")?, kind),
    })
}

fn two_bytes(alloc: Global) -> Result<Line, NoMemory> {
    let bytes = Bytes::new(b"\"\n".to_vec(alloc)?);
    let kind = DefKind::Const(Term::Basic(Basic::String), Value::Text(bytes));
    Ok(Line {
        at: at(alloc, 4, 7)?,
        what: What::Def(name(alloc, "B")?, kind),
    })
}

fn defined(alloc: Global) -> Result<Line, NoMemory> {
    let own = Term::Named(DECLARED, Vec::new(alloc));
    let kind = DefKind::Defined(own, Term::Basic(Basic::Uint8));
    Ok(Line {
        at: at(alloc, 5, 2)?,
        what: What::Def(name(alloc, "T")?, kind),
    })
}

fn field(alloc: Global) -> Result<Line, NoMemory> {
    Ok(Line {
        at: at(alloc, 6, 3)?,
        what: What::Def(name(alloc, "f")?, DefKind::Field(Term::Basic(Basic::Int))),
    })
}

fn used(alloc: Global) -> Result<Line, NoMemory> {
    Ok(Line {
        at: at(alloc, 3, 9)?,
        what: What::Used(name(alloc, "string")?, None),
    })
}

fn expression(alloc: Global) -> Result<Line, NoMemory> {
    let end = LineCol { line: 3, col: 14 };
    let term = Term::Named(LOCAL, Vec::new(alloc));
    Ok(Line {
        at: at(alloc, 3, 13)?,
        what: What::Expr(end, Mode::Const, Some(term), Some(Value::Int(7))),
    })
}

fn records(alloc: Global) -> Result<Records, NoMemory> {
    Ok(Records {
        lines: vec![in alloc;
            seven(alloc)?,
            two_bytes(alloc)?,
            defined(alloc)?,
            field(alloc)?,
            used(alloc)?,
            expression(alloc)?,
        ]?,
        named: vec![in alloc;
            object(alloc, DECLARED, "m", "T")?,
            object(alloc, LOCAL, "m", "L")?,
        ]?,
    })
}

fn package(
    alloc: Global,
    path: &str,
    text: &str,
    verdict: Verdict,
) -> Result<PackageReport, NoMemory> {
    Ok(PackageReport {
        path: name(alloc, path)?,
        name: name(alloc, text)?,
        verdict,
    })
}

fn report(alloc: Global) -> Result<Report, NoMemory> {
    let accepted = Verdict::Accepted(records(alloc)?);
    let refused = Verdict::Refused(vec![in alloc; broken(alloc, 2, Family::R)?]?);
    Ok(Report {
        path: name(alloc, "m")?,
        version: 21,
        first: Vec::new(alloc),
        packages: vec![in alloc;
            package(alloc, "m", "p", accepted)?,
            package(alloc, "m/q", "q", refused)?,
            package(alloc, "m/r", "r", Verdict::Skipped)?,
        ]?,
    })
}

const TEXT: &str = "module\tm\t1.21\n\
    package\tm\tp\taccepted\n\
    def\ta.go:3:7\tA\tconst\tm.T\t7\n\
    def\ta.go:4:7\tB\tconst\tstring\t\"\\\"\\x0a\"\n\
    def\ta.go:5:2\tT\ttype\tm.T\tuint8\n\
    def\ta.go:6:3\tf\tfield\tint\n\
    use\ta.go:3:9\tstring\tuniverse\n\
    expr\ta.go:3:13\t3:14\tconst\tm.L@a.go:5:2\t7\n\
    package\tm/q\tq\trefused\n\
    broken\ta.go:2:1\tR14\n\
    package\tm/r\tr\tskipped\n";

#[test]
fn a_report_has_its_text_and_status(rt: HostRuntime) -> Result<(), Fail> {
    let report = report(rt.alloc())?;
    let text = report_text(rt.alloc(), &report)?;
    assert_eq!(rt; text.as_slice(), TEXT.as_bytes());
    assert_eq!(rt; verdict(&report), Status::Refused);
    Ok(())
}

#[test]
fn rules_broken_before_have_their_text_and_status(rt: HostRuntime) -> Result<(), Fail> {
    let alloc = rt.alloc();
    let list = vec![in alloc; broken(alloc, 1, Family::S)?, broken(alloc, 2, Family::L)?]?;
    let text = first_text(alloc, &list)?;
    let wanted = b"refused\nbroken\ta.go:1:1\tS14\nbroken\ta.go:2:1\tL14\n";
    assert_eq!(rt; text.as_slice(), &wanted[..]);
    assert_eq!(rt; refusal(&list), Status::Beyond);
    assert_eq!(rt; refusal(&list[..1]), Status::Refused);
    Ok(())
}
