//! Jobs from their words to their bytes.

use crate::run;
use sample_metrics::JP10;
use std::alloc::Global;
use std::test::Fail;
use ts_outside::{FileName, MemFile, MemFiles, MemSink};

// The DVI file of two characters side by side.
const WORKED: [u8; 172] = [
    247, 2, 1, 131, 146, 192, 28, 59, 0, 0, 0, 0, 3, 232, 0, 139, 0, 0, 0, 0, 0, 0, 0, 0, 0, 0, 0,
    0, 0, 0, 0, 0, 0, 0, 0, 0, 0, 0, 0, 0, 0, 0, 0, 0, 0, 0, 0, 0, 0, 0, 0, 0, 0, 0, 0, 0, 255,
    255, 255, 255, 243, 0, 0, 0, 0, 0, 0, 10, 0, 0, 0, 10, 0, 0, 0, 4, 106, 112, 49, 48, 171, 141,
    146, 0, 0, 0, 0, 160, 0, 8, 192, 0, 129, 36, 34, 142, 141, 146, 0, 10, 0, 0, 160, 0, 8, 192, 0,
    129, 36, 36, 142, 140, 248, 0, 0, 0, 15, 1, 131, 146, 192, 28, 59, 0, 0, 0, 0, 3, 232, 0, 10,
    0, 0, 0, 20, 0, 0, 0, 1, 0, 1, 243, 0, 0, 0, 0, 0, 0, 10, 0, 0, 0, 10, 0, 0, 0, 4, 106, 112,
    49, 48, 249, 0, 0, 0, 112, 2, 223, 223, 223, 223, 223,
];

const EUC: &[u8] = b"\\font\\j=jp10 \\j\\shipout\\hbox{\xA4\xA2\xA4\xA4}\\end\n";

const JIS: &[u8] = b"\\font\\j=jp10 \\j\\shipout\\hbox{\x1B$B$\"$$\x1B(B}\\end\n";

const SJIS: &[u8] = b"\\font\\j=jp10 \\j\\shipout\\hbox{\x82\xA0\x82\xA2}\\end";

const UNENDED: &[u8] = b"\\font\\j=jp10 \\j\\shipout\\hbox{\xA4\xA2}\n";

const NO_METRIC: &[u8] = b"\\font\\j=zz \\j\\shipout\\hbox{\xA4\xA2}\\end\n";

const USAGE: &str =
    "usage: typeset NAME [--kanji euc|jis|sjis] [--budget N] | list NAME | sample N\n";

// What a job leaves: its status, its report and its DVI file.
#[derive(Debug, Drop)]
struct Left {
    status: u8,
    report: Vec<u8>,
    dvi: Vec<u8>,
}

// The metric with some of its bytes changed.
fn metric(alloc: Global, changes: &[(usize, u8)]) -> Result<Vec<u8>, Fail> {
    let mut bytes = Vec::new(alloc);
    for word in JP10 {
        bytes.extend_from_slice(&word.to_be_bytes())?;
    }
    for (at, byte) in changes {
        let place = bytes.get_mut(*at).ok_or("no such byte")?;
        *place = *byte;
    }
    Ok(bytes)
}

fn file(alloc: Global, name: &[u8], bytes: Vec<u8>) -> Result<MemFile, Fail> {
    let name = FileName::new(alloc, name)?;
    Ok(MemFile { name, bytes })
}

// Runs a job on a source and a metric, with reads cut, and with calls that fail.
fn job(
    alloc: Global,
    words: &str,
    held: Vec<MemFile>,
    cuts: &[usize],
    read_fails: &[u64],
    put_fails: &[u64],
) -> Result<Left, Fail> {
    let mut list = Vec::new(alloc);
    for word in words.split(' ') {
        list.push(String::from_str(alloc, word)?)?;
    }
    let mut files = MemFiles::new(alloc, held, cuts.to_vec(alloc)?, read_fails.to_vec(alloc)?);
    let mut out = MemSink::new(alloc, cuts.to_vec(alloc)?, put_fails.to_vec(alloc)?);
    let mut report = MemSink::new(alloc, cuts.to_vec(alloc)?, Vec::new(alloc));
    let outcome = run(alloc, &list, &mut files, &mut out, &mut report);
    Ok(Left {
        status: outcome.status(),
        report: report.bytes().to_vec(alloc)?,
        dvi: out.bytes().to_vec(alloc)?,
    })
}

#[test]
fn sources(rt: HostRuntime) -> Result<(), Fail> {
    let alloc = rt.alloc();
    let table: [(&str, &[u8], u8, &str, &[u8]); 9] = [
        ("ts typeset row", EUC, 0, "pages 1\n", &WORKED),
        (
            "ts typeset row.tex --kanji jis",
            JIS,
            0,
            "pages 1\n",
            &WORKED,
        ),
        ("ts typeset row --kanji sjis", SJIS, 0, "pages 1\n", &WORKED),
        (
            "ts typeset row --kanji sjis",
            b"a\x82\n",
            1,
            "row.tex:1: BadByte 1\n",
            b"",
        ),
        (
            "ts typeset row",
            UNENDED,
            1,
            "row.tex:0: FormNotBuilt\n",
            b"",
        ),
        (
            "ts typeset row",
            NO_METRIC,
            1,
            "row.tex:1: FileMissing\n",
            b"",
        ),
        (
            "ts typeset other",
            EUC,
            1,
            "other.tex:0: FileMissing\n",
            b"",
        ),
        ("ts typeset", EUC, 2, USAGE, b""),
        ("ts typeset -x", EUC, 2, USAGE, b""),
    ];
    for (words, source, status, report, dvi) in table {
        for cuts in [&[][..], &[1]] {
            let held = vec![in alloc;
                file(alloc, b"row.tex", source.to_vec(alloc)?)?,
                file(alloc, b"jp10.tfm", metric(alloc, &[])?)?,
            ]?;
            let left = job(alloc, words, held, cuts, &[], &[])?;
            assert_eq!(rt; left.status, status);
            assert_eq!(rt; left.report.as_slice(), report.as_bytes());
            assert_eq!(rt; left.dvi.as_slice(), dvi);
        }
    }
    Ok(())
}

#[test]
fn metrics_and_failures(rt: HostRuntime) -> Result<(), Fail> {
    let alloc = rt.alloc();
    let tate: &[(usize, u8)] = &[(1, 9), (57, 8), (65, 8)];
    let no_jfm: &[(usize, u8)] = &[(1, 12)];
    // of the six parameters the first is a kern
    let kern: &[(usize, u8)] = &[(23, 1), (27, 5)];
    let table: [(&[(usize, u8)], usize, &[u64], &[u64], u8, &str, &[u8]); 8] = [
        (&[], 96, &[], &[], 0, "pages 1\n", &WORKED),
        (
            &[],
            95,
            &[],
            &[],
            1,
            "row.tex:1: FontBad Truncated 95\n",
            &[],
        ),
        (tate, 96, &[], &[], 1, "row.tex:0: FormNotBuilt\n", &[]),
        (no_jfm, 96, &[], &[], 1, "row.tex:0: FormNotBuilt\n", &[]),
        (
            no_jfm,
            1,
            &[],
            &[],
            1,
            "row.tex:1: FontBad Truncated 1\n",
            &[],
        ),
        (kern, 96, &[], &[], 1, "row.tex:0: FormNotBuilt\n", &[]),
        (&[], 96, &[1], &[], 3, "", &[]),
        (&[], 96, &[], &[1], 4, "", &[247]),
    ];
    for (changes, length, read_fails, put_fails, status, report, dvi) in table {
        let mut bytes = metric(alloc, changes)?;
        bytes.truncate(length);
        let held = vec![in alloc;
            file(alloc, b"row.tex", EUC.to_vec(alloc)?)?,
            file(alloc, b"jp10.tfm", bytes)?,
        ]?;
        let left = job(alloc, "ts typeset row", held, &[1], read_fails, put_fails)?;
        assert_eq!(rt; left.status, status);
        assert_eq!(rt; left.report.as_slice(), report.as_bytes());
        assert_eq!(rt; left.dvi.as_slice(), dvi);
    }
    Ok(())
}
