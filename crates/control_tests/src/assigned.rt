//! Sources that assign: those that come to their `\end` tell what was set, and the others are
//! refused at their line.

use crate::runs::{Met, run};
use main_control::FaultKind;
use std::test::Fail;

/// Sources that come to their `\end`, most of them where something that was set has its value; else
/// the file's end would come first, or an undefined name.
const ENDED: &[&str] = &[
    // integers, dimensions and glue
    "\\count0=7 \\ifnum\\count0=7 \\end\\fi",
    "\\count0 = -2147483647 \\multiply\\count0 by-1 \\ifnum\\count0=2147483647 \\end\\fi",
    "\\count0=-7 \\divide\\count0 2 \\ifnum\\count0=-3 \\end\\fi",
    "\\count1=3 \\advance\\count1\\count1 \\ifnum\\count1=6 \\end\\fi",
    "\\dimen255=1pt \\advance\\dimen255 by-.5pt \\ifdim\\dimen255=.5pt \\end\\fi",
    "\\hsize=10pt \\multiply\\hsize by3 \\divide\\hsize by-2 \\ifdim\\hsize=-15pt \\end\\fi",
    "\\skip0=1pt plus1fil\\advance\\skip0 by1pt\\divide\\skip0-2 \\ifdim\\skip0=-1pt \\end\\fi",
    "\\tolerance=200 \\advance\\tolerance by1 \\ifnum\\tolerance=201 \\end\\fi",
    // meanings
    "\\def\\a#1{\\count0=#1 }\\a7\\ifnum\\count0=7 \\end\\fi",
    "\\long\\def\\a#1{\\end}\\a\n\n",
    "\\global \\relax\\long\\def\\a#1{\\end}\\a\n\n",
    "\\count0=7 \\edef\\a{\\the\\count0}\\count0=8 \\ifnum\\a=7 \\end\\fi",
    "\\let\\b=\\end\\b",
    "\\let\\b= \\end\\relax\\b",
    "\\let\\b={\\b\\begingroup\\endgroup}\\end",
    "\\chardef\\c=37 \\ifnum\\c=37 \\end\\fi",
    "\\chardef\\c\"A4A2 \\ifnum\\c=42146 \\end\\fi",
    "\\countdef\\r=3 \\r=7 \\ifnum\\count3=7 \\end\\fi",
    "\\dimendef\\r3 \\r1pt \\ifdim\\dimen3=1pt \\end\\fi",
    "\\skipdef\\r3 \\r1pt plus1fil\\relax\\ifdim\\skip3=1pt \\end\\fi",
    "\\toksdef\\t=2 \\t={\\end}\\the\\toks2 ",
    // groups
    "{\\global\\count0=7 \\count1=7 }\\ifnum\\count0=7 \\ifnum\\count1=0 \\end\\fi\\fi",
    "\\count0=7 \\begingroup\\count0=8 \\endgroup\\ifnum\\count0=7 \\end\\fi",
    "{\\gdef\\a{\\end}}\\a",
    "{\\xdef\\a{\\noexpand\\end}}\\a",
    "{\\global\\let\\b=\\end}\\b",
    "{\\global\\chardef\\c=7 }\\ifnum\\c=7 \\end\\fi",
    "{\\global\\advance\\count0 by7 }\\ifnum\\count0=7 \\end\\fi",
    // token lists
    "\\toks0={\\end}\\toks1=\\toks0 \\the\\toks1 ",
    "\\def\\a{{\\end}}\\toks0\\relax\\a\\the\\toks0 ",
    "\\let\\b={\\toks0=\\b\\end}\\the\\toks0 ",
    "\\output={\\end}\\toks0=\\output\\the\\toks0 ",
    // codes and switches
    "\\catcode36=9 $\\end",
    "{\\catcode36=9 }\\ifnum\\catcode36=3 \\end\\fi",
    "\\kcatcode\"A4A2=18 \\ifnum\\kcatcode\"A4A3=18 \\end\\fi",
    "\\xspcode65=2 \\ifnum\\xspcode65=2 \\end\\fi",
    "\\inhibitxspcode\"A4A2=1 \\ifnum\\inhibitxspcode\"A4A2=1 \\end\\fi",
    "\\prebreakpenalty65=100 \\postbreakpenalty65=200 \\ifnum\\prebreakpenalty65=0 \\end\\fi",
    "\\autospacing\\noautospacing\\autoxspacing\\noautoxspacing\\end",
    // what is always global
    "\\deadcycles=1 {\\deadcycles=0 }\\end",
    // what assigns nothing
    "\\ignorespaces \\end",
    "\\def\\:{\\let\\s= }\\: \\ignorespaces\\s \\s\\end",
];

/// Sources that are refused, with the line.
const REFUSED: &[(&str, FaultKind, u32)] = &[
    // what expansion refuses
    ("\\fi", FaultKind::ExtraCond, 1),
    ("\\csname a\\relax\\endcsname", FaultKind::CsnameEnd, 1),
    ("\\input zz ", FaultKind::FileMissing, 1),
    // ranges of registers, where the number is whole
    ("\\count256=1 ", FaultKind::RegisterRange, 1),
    ("\\count256\n\n", FaultKind::RegisterRange, 1),
    ("\\count256%\n\\relax", FaultKind::RegisterRange, 2),
    ("\\count256=\\undefined", FaultKind::RegisterRange, 1),
    ("\\count256\\undefined", FaultKind::Undefined, 1),
    ("\\dimen-1 ", FaultKind::RegisterRange, 1),
    ("\\skipdef\\a256 ", FaultKind::RegisterRange, 1),
    // ranges of values and results
    ("\\count0=2147483648 ", FaultKind::NumberRange, 1),
    ("\\hsize=16384pt", FaultKind::DimenRange, 1),
    (
        "\\count0=2147483647 \\advance\\count0 by1 ",
        FaultKind::Arithmetic,
        1,
    ),
    (
        "\\count0=2147483647 \\advance\\count0 by1%\n\\relax",
        FaultKind::Arithmetic,
        2,
    ),
    (
        "\\count0=-2147483647 \\advance\\count0-1 ",
        FaultKind::Arithmetic,
        1,
    ),
    (
        "\\count0=1073741824 \\multiply\\count0 2 ",
        FaultKind::Arithmetic,
        1,
    ),
    ("\\divide\\count0 by0 ", FaultKind::Arithmetic, 1),
    (
        "\\dimen0=1073741823sp \\advance\\dimen0 by1sp ",
        FaultKind::Arithmetic,
        1,
    ),
    ("\\divide\\skip0 by0 ", FaultKind::Arithmetic, 1),
    // what isn't there
    ("\\count0=a", FaultKind::NoNumber, 1),
    ("\\hsize=1xx", FaultKind::NoUnit, 1),
    ("\\advance\\count0 bx", FaultKind::NoNumber, 1),
    ("\\def 1{}", FaultKind::NoName, 1),
    ("\\let{\\end", FaultKind::NoName, 1),
    ("\\toks0=a", FaultKind::NoBrace, 1),
    ("\\toks0=\n\\par", FaultKind::NoBrace, 2),
    // codes
    ("\\catcode65=16 ", FaultKind::CodeRange, 1),
    ("\\catcode256=11 ", FaultKind::CodeRange, 1),
    ("\\kcatcode\"A4A2=15 ", FaultKind::CodeRange, 1),
    ("\\kcatcode65=16 ", FaultKind::CodeRange, 1),
    ("\\xspcode65=4 ", FaultKind::CodeRange, 1),
    ("\\prebreakpenalty65=10001 ", FaultKind::CodeRange, 1),
    ("\\chardef\\c=256 ", FaultKind::CodeRange, 1),
    // definitions
    ("\\def\\a#1{}\\a\n\n", FaultKind::ArgParagraph, 2),
    ("\\def\\a+{}\\a-", FaultKind::UseMismatch, 1),
    ("\\def\\a{", FaultKind::FileEnded, 1),
    ("\\def\\a#2{}", FaultKind::BadParameter, 1),
    ("\\def\\a}", FaultKind::NoBrace, 1),
    ("{\\def\\a{\\end}}\\a", FaultKind::Undefined, 1),
    ("\\let\\a=\\undefined\\a", FaultKind::Undefined, 1),
    ("\\chardef\\a=\\a", FaultKind::NoNumber, 1),
    ("\\def\\a{\\begingroup\\a}\\a", FaultKind::GroupsFull, 1),
    ("\\def\\a{\\csname\\a}\\a", FaultKind::DepthFull, 1),
    // prefixes
    ("\\global}", FaultKind::NotInMode, 1),
    ("\\global$", FaultKind::NotInMode, 1),
    ("\\global\\hbox", FaultKind::NotInMode, 1),
    ("\\global\n\n", FaultKind::NotInMode, 2),
    ("\\chardef\\c7 \\global\\c", FaultKind::NotInMode, 1),
    ("\\long\\count256=1 ", FaultKind::NotInMode, 1),
    ("\\long\n\\global\n\\let", FaultKind::NotInMode, 3),
    ("\\long\\setbox", FaultKind::NotBuilt, 1),
    // what isn't calculated
    ("\\advance\\relax\\count0 by1 ", FaultKind::NotInMode, 1),
    ("\\advance\\deadcycles by1 ", FaultKind::NotInMode, 1),
    ("\\multiply\\wd256 ", FaultKind::NotInMode, 1),
    ("\\divide\\toks256 ", FaultKind::NotInMode, 1),
    // a page without items that would come out
    ("{\\deadcycles=1 }\\end", FaultKind::NotBuilt, 1),
    // what isn't passed over
    ("\\ignorespaces \n $", FaultKind::LeftOut, 2),
];

#[test]
fn what_was_set_leads_to_the_end(rt: HostRuntime) -> Result<(), Fail> {
    let alloc = rt.alloc();
    for source in ENDED {
        let met = run(alloc, source.as_bytes(), 5000, 9999).or(Err("memory"))?;
        assert_eq!(rt; met, Met::End);
    }
    Ok(())
}

#[test]
fn assignments_are_refused_at_their_line(rt: HostRuntime) -> Result<(), Fail> {
    let alloc = rt.alloc();
    for (source, kind, line) in REFUSED {
        let met = run(alloc, source.as_bytes(), 5000, 9999).or(Err("memory"))?;
        assert_eq!(rt; met, Met::Fault(*kind, *line));
    }
    Ok(())
}
