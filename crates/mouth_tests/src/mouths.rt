//! Files in memory, one inside the other, with the codes that hold at the start.

ghost use Rattle.std.specs.Prelude.{◌≡◌, ◌<◌, length, OnOk, IfOk};
ghost use Rattle.kcat_eyes.specs.StartBounds.{start_bounds};
ghost use Rattle.kcat_eyes.specs.StartCodes.{start_cat, start_kcat};
ghost use Rattle.mouth.specs.Keeping.{AreOpen, IsReadable, KeepsFiles};

use input_codings::Coding;
use jis_codes::{Cell, Char};
use mouth::{Allowed, Mouth, MouthFault};
use std::alloc::Global;
use std::test::Fail;
use tok_lists::{Args, CodeTable, NameNo, SharedTokens, Token, Tokens};
use ts_outside::{FileName, Files, MemFile, MemFiles};

struct Start;

impl CodeTable for Start {
    ghost codes = { λ _. record { cat = start_cat; kcat = start_kcat } };

    ghost bounds = { λ _. start_bounds };

    fn cat(&self, code: u8) -> u8 {
        match code {
            b'\\' => 0,
            b'{' => 1,
            b'}' => 2,
            b'\r' => 5,
            0 => 9,
            b' ' => 10,
            b'a'..=b'z' => 11,
            b'~' => 13,
            b'%' => 14,
            127 => 15,
            _ => 12,
        }
    }

    fn kcat(&self, cell: Cell) -> u8 {
        match cell.row() {
            3..=6 => 17,
            16..=84 => 16,
            _ => 18,
        }
    }
}

// What is done to the mouth.
#[derive(Clone, Copy)]
enum Step {
    // Takes so many tokens, Kept ones as their plain names.
    Take(usize),
    // Puts the letters x and y in front.
    Put,
    // Opens the file `b`.
    Open,
    EndAfterLine,
    Enter,
    Leave,
}

const X: Token = Token::Char(b'x', 11);

const Y: Token = Token::Char(b'y', 11);

const A: Token = Token::Char(b'a', 11);

const B: Token = Token::Char(b'b', 11);

const SPACE: Token = Token::Char(b' ', 10);

// The next token, Kept ones as their plain names.
fn plain_token<F: Files, C: CodeTable>(
    mouth: &mut Mouth,
    files: &mut F,
    codes: &C,
) -> Result<Token, MouthFault>
    requires opened { AreOpen mouth.old (F.state files.old) }
    requires readable { IsReadable mouth.old }
    ensures opened { AreOpen mouth.new (F.state files.new) }
    ensures readable { OnOk result (IsReadable mouth.new) }
{
    mouth.next_plain(files, codes)
}

// The next token.
fn any_token<F: Files, C: CodeTable>(
    mouth: &mut Mouth,
    files: &mut F,
    codes: &C,
) -> Result<Token, MouthFault>
    requires opened { AreOpen mouth.old (F.state files.old) }
    requires readable { IsReadable mouth.old }
    ensures opened { AreOpen mouth.new (F.state files.new) }
    ensures readable { OnOk result (IsReadable mouth.new) }
{
    mouth.next(files, codes)
}

fn take<F: Files, C: CodeTable>(
    mouth: &mut Mouth,
    files: &mut F,
    codes: &C,
    count: usize,
    tokens: &mut Tokens,
) -> Result<(), MouthFault>
    requires opened { AreOpen mouth.old (F.state files.old) }
    requires readable { IsReadable mouth.old }
    ensures opened { AreOpen mouth.new (F.state files.new) }
    ensures readable { OnOk result (IsReadable mouth.new) }
{
    for _ in 0..count {
        let token = plain_token(mouth, files, codes)?;
        tokens.push(token)?;
    }
    Ok(())
}

// Puts the letters x and y in front.
fn put<F: Files>(alloc: Global, mouth: &mut Mouth, files: &F) -> Result<(), MouthFault>
    requires opened { AreOpen mouth.old (F.state files.now) }
    requires readable { IsReadable mouth.old }
    ensures opened { AreOpen mouth.new (F.state files.now) }
    ensures readable { IsReadable mouth.new }
{
    let _ = files;
    let list = SharedTokens::new(alloc, &[X, Y])?;
    mouth.push_list(&list)
}

fn end_line<F: Files>(mouth: &mut Mouth, files: &F) -> Result<(), MouthFault>
    requires opened { AreOpen mouth.old (F.state files.now) }
    requires readable { IsReadable mouth.old }
    ensures opened { AreOpen mouth.new (F.state files.now) }
    ensures readable { IsReadable mouth.new }
{
    let _ = files;
    mouth.end_after_line();
    Ok(())
}

fn enter<F: Files>(mouth: &mut Mouth, files: &F) -> Result<(), MouthFault>
    requires opened { AreOpen mouth.old (F.state files.now) }
    requires readable { IsReadable mouth.old }
    ensures opened { AreOpen mouth.new (F.state files.now) }
    ensures readable { IsReadable mouth.new }
{
    let _ = files;
    mouth.enter_text()?;
    Ok(())
}

fn leave<F: Files>(mouth: &mut Mouth, files: &F) -> Result<(), MouthFault>
    requires opened { AreOpen mouth.old (F.state files.now) }
    requires readable { IsReadable mouth.old }
    ensures opened { AreOpen mouth.new (F.state files.now) }
    ensures readable { IsReadable mouth.new }
{
    let _ = files;
    mouth.leave_text();
    Ok(())
}

fn open_other<F: Files>(alloc: Global, mouth: &mut Mouth, files: &mut F) -> Result<(), MouthFault>
    requires opened { AreOpen mouth.old (F.state files.old) }
    requires readable { IsReadable mouth.old }
    ensures opened { AreOpen mouth.new (F.state files.new) }
    ensures readable { IsReadable mouth.new }
{
    let Ok(name) = FileName::new(alloc, b"b") else {
        return Err(MouthFault::NoMemory);
    };
    mouth.open(files, &name)
}

fn take_step<F: Files, C: CodeTable>(
    alloc: Global,
    mouth: &mut Mouth,
    files: &mut F,
    codes: &C,
    step: Step,
    tokens: &mut Tokens,
) -> Result<(), MouthFault>
    requires opened { AreOpen mouth.old (F.state files.old) }
    requires readable { IsReadable mouth.old }
    ensures opened { AreOpen mouth.new (F.state files.new) }
    ensures readable { OnOk result (IsReadable mouth.new) }
{
    match step {
        Step::Take(count) => take(mouth, files, codes, count, tokens),
        Step::Put => put(alloc, mouth, files),
        Step::Open => open_other(alloc, mouth, files),
        Step::EndAfterLine => end_line(mouth, files),
        Step::Enter => enter(mouth, files),
        Step::Leave => leave(mouth, files),
    }
}

fn run<F: Files, C: CodeTable>(
    alloc: Global,
    mouth: &mut Mouth,
    files: &mut F,
    codes: &C,
    steps: &[Step],
    tokens: &mut Tokens,
) -> Result<(), MouthFault>
    requires opened { AreOpen mouth.old (F.state files.old) }
    requires readable { IsReadable mouth.old }
    ensures opened { AreOpen mouth.new (F.state files.new) }
    ensures readable { OnOk result (IsReadable mouth.new) }
{
    for next in steps {
        take_step(alloc, mouth, files, codes, *next, tokens)?;
    }
    Ok(())
}

// The files `a` and `b` of these bytes, with reads cut to so many, of which these calls fail.
fn files_of(
    alloc: Global,
    a: &[u8],
    b: &[u8],
    cut: usize,
    fails: &[u64],
) -> Result<MemFiles, Fail> {
    let first = MemFile {
        name: FileName::new(alloc, b"a")?,
        bytes: a.to_vec(alloc)?,
    };
    let second = MemFile {
        name: FileName::new(alloc, b"b")?,
        bytes: b.to_vec(alloc)?,
    };
    let held = vec![in alloc; first, second]?;
    let cuts = vec![in alloc; cut]?;
    Ok(MemFiles::new(alloc, held, cuts, fails.to_vec(alloc)?))
}

// What came of steps: the tokens, the answer, and the place.
#[derive(Drop)]
struct Outcome {
    tokens: Tokens,
    answer: Result<(), MouthFault>,
    file: FileName,
    line: u32,
}

// The mouth on the file `a` with so many units, after steps; at the end all files are closed.
fn outcome_of(
    alloc: Global,
    files: &mut MemFiles,
    units: u32,
    steps: &[Step],
) -> Result<Outcome, Fail> {
    let name = FileName::new(alloc, b"a")?;
    let mut tokens = Tokens::new(alloc);
    match Mouth::start(alloc, files, &name, Coding::Euc, units) {
        Err(fault) => Ok(Outcome {
            tokens,
            answer: Err(fault),
            file: name,
            line: 0,
        }),
        Ok(mut mouth) => {
            let answer = run(alloc, &mut mouth, files, &Start, steps, &mut tokens);
            let place = mouth.place();
            mouth.close_all(files);
            Ok(Outcome {
                tokens,
                answer,
                file: place.file,
                line: place.line,
            })
        }
    }
}

#[derive(Clone, Copy)]
struct Row<'a> {
    a: &'a [u8],
    b: &'a [u8],
    steps: &'a [Step],
    tokens: &'a [Token],
    fault: MouthFault,
    file: &'a [u8],
    line: u32,
}

#[test]
fn files_one_inside_the_other(rt: HostRuntime) -> Result<(), Fail> {
    let rows = [
        Row {
            a: b"a\n",
            b: b"b\n",
            steps: &[
                Step::Put,
                Step::Take(1),
                Step::Open,
                Step::Put,
                Step::Take(8),
            ],
            tokens: &[X, X, Y, B, SPACE, Y, A, SPACE],
            fault: MouthFault::NoEnd,
            file: b"a",
            line: 1,
        },
        Row {
            a: b"ab\nb\n",
            b: b"",
            steps: &[Step::Take(1), Step::EndAfterLine, Step::Take(3)],
            tokens: &[A, B, SPACE],
            fault: MouthFault::NoEnd,
            file: b"a",
            line: 1,
        },
        Row {
            a: b"a",
            b: b"b\nb",
            steps: &[Step::Open, Step::EndAfterLine, Step::Take(5)],
            tokens: &[B, SPACE, A, SPACE],
            fault: MouthFault::NoEnd,
            file: b"a",
            line: 1,
        },
        Row {
            a: b"",
            b: b"",
            steps: &[Step::Take(1)],
            tokens: &[],
            fault: MouthFault::NoEnd,
            file: b"a",
            line: 0,
        },
        Row {
            a: b"a\n%\nab",
            b: b"%\nb\n",
            steps: &[Step::Take(1), Step::Open, Step::Enter, Step::Take(3)],
            tokens: &[A, B, SPACE],
            fault: MouthFault::FileEnded,
            file: b"b",
            line: 2,
        },
        Row {
            a: b"a\n%\n",
            b: b"",
            steps: &[
                Step::Enter,
                Step::Take(2),
                Step::Leave,
                Step::Enter,
                Step::Take(1),
            ],
            tokens: &[A, SPACE],
            fault: MouthFault::FileEnded,
            file: b"a",
            line: 2,
        },
        Row {
            a: b"a",
            b: b"\x7F",
            steps: &[Step::Take(1), Step::Open, Step::Take(1)],
            tokens: &[A],
            fault: MouthFault::BadChar,
            file: b"b",
            line: 1,
        },
    ];
    for row in &rows {
        for cut in [1usize, 3] {
            let mut files = files_of(rt.alloc(), row.a, row.b, cut, &[])?;
            let got = outcome_of(rt.alloc(), &mut files, 0, row.steps)?;
            assert_eq!(rt; got.tokens.as_slice(), row.tokens);
            assert_eq!(rt; got.answer, Err(row.fault));
            assert_eq!(rt; got.file.bytes(), row.file);
            assert_eq!(rt; got.line, row.line);
        }
    }
    Ok(())
}

#[test]
fn each_failed_call_is_a_read_fault(rt: HostRuntime) -> Result<(), Fail> {
    let steps = [Step::Take(1), Step::Open, Step::Take(4)];
    for call in 0..9u64 {
        let mut files = files_of(rt.alloc(), b"a\n", b"b\n", 1, &[call])?;
        let got = outcome_of(rt.alloc(), &mut files, 0, &steps)?;
        let fault = if call < 8 {
            MouthFault::ReadFault
        } else {
            MouthFault::NoEnd
        };
        assert_eq!(rt; got.answer, Err(fault));
    }
    Ok(())
}

// The mouth on the file `a`, with the file `b` beside it.
fn started(alloc: Global, units: u32) -> Result<(MemFiles, Mouth), Fail>
    ensures opened { IfOk result (λ o. AreOpen o.1 (⟦<MemFiles as Files>⟧.state o.0)) }
    ensures readable { IfOk result (λ o. IsReadable o.1) }
{
    let mut files = files_of(alloc, b"a\n", b"b\n", 1, &[])?;
    let name = FileName::new(alloc, b"a")?;
    let mouth = Mouth::start(alloc, &mut files, &name, Coding::Euc, units)?;
    Ok((files, mouth))
}

// How many expansions begin, and why no further one does.
fn begin_all(mouth: &mut Mouth) -> (u32, MouthFault)
    ensures files { KeepsFiles mouth.old mouth.new }
{
    for count in 0..1000u32 {
        if let Err(fault) = mouth.begin() {
            return (count, fault);
        }
    }
    (1000, MouthFault::NoMemory)
}

#[test]
fn units_and_expansions(rt: HostRuntime) -> Result<(), Fail> {
    let (mut files, mut mouth) = started(rt.alloc(), 3)?;
    mouth.spend()?;
    assert_eq!(rt; begin_all(&mut mouth), (2, MouthFault::Budget));
    assert_eq!(rt; mouth.spend(), Err(MouthFault::Budget));
    mouth.close_all(&mut files);
    let (mut files, mut mouth) = started(rt.alloc(), 300)?;
    assert_eq!(rt; begin_all(&mut mouth), (200, MouthFault::DepthFull));
    mouth.end();
    assert_eq!(rt; begin_all(&mut mouth), (1, MouthFault::DepthFull));
    mouth.close_all(&mut files);
    Ok(())
}

// How many times the file `b` is opened, and why not once more.
fn open_all<F: Files>(
    alloc: Global,
    mouth: &mut Mouth,
    files: &mut F,
) -> Result<(u32, MouthFault), Fail>
    requires opened { AreOpen mouth.old (F.state files.old) }
    requires readable { IsReadable mouth.old }
    ensures opened { AreOpen mouth.new (F.state files.new) }
    ensures readable { IsReadable mouth.new }
{
    let name = FileName::new(alloc, b"b")?;
    for count in 0..100u32 {
        if let Err(fault) = mouth.open(files, &name) {
            return Ok((count, fault));
        }
    }
    Ok((100, MouthFault::NoMemory))
}

#[test]
fn at_most_fifteen_files(rt: HostRuntime) -> Result<(), Fail> {
    let missing = FileName::new(rt.alloc(), b"c")?;
    let (mut files, mut mouth) = started(rt.alloc(), 0)?;
    assert_eq!(rt;
        mouth.open(&mut files, &missing),
        Err(MouthFault::FileMissing)
    );
    assert_eq!(rt;
        open_all(rt.alloc(), &mut mouth, &mut files)?,
        (14, MouthFault::InputsFull)
    );
    assert_eq!(rt;
        mouth.open(&mut files, &missing),
        Err(MouthFault::InputsFull)
    );
    mouth.close_all(&mut files);
    match Mouth::start(rt.alloc(), &mut files, &missing, Coding::Jis, 0) {
        Ok(mouth) => {
            mouth.close_all(&mut files);
            Err("a missing file was opened".into())
        }
        Err(fault) => {
            assert_eq!(rt; fault, MouthFault::FileMissing);
            Ok(())
        }
    }
}

// How many lists of 10 tokens are put in front, and why not one more.
fn fill(alloc: Global, mouth: &mut Mouth) -> Result<(u32, MouthFault), Fail>
    ensures files { KeepsFiles mouth.old mouth.new }
{
    let list = SharedTokens::new(alloc, &[A, A, A, A, A, A, A, A, A, A])?;
    for count in 0..200_000u32 {
        if let Err(fault) = mouth.push_list(&list) {
            return Ok((count, fault));
        }
    }
    Ok((200_000, MouthFault::NoMemory))
}

#[test]
fn a_million_tokens_in_each_file(rt: HostRuntime) -> Result<(), Fail> {
    let (mut files, mut mouth) = started(rt.alloc(), 0)?;
    assert_eq!(rt;
        fill(rt.alloc(), &mut mouth)?,
        (100_000, MouthFault::TokensFull)
    );
    open_other(rt.alloc(), &mut mouth, &mut files)?;
    put(rt.alloc(), &mut mouth, &files)?;
    assert_eq!(rt; any_token(&mut mouth, &mut files, &Start)?, X);
    mouth.close_all(&mut files);
    Ok(())
}

#[test]
fn conditionals_keep_their_numbers(rt: HostRuntime) -> Result<(), Fail> {
    let (mut files, mut mouth) = started(rt.alloc(), 0)?;
    assert_eq!(rt; mouth.open_conditional()?, 0);
    assert_eq!(rt; mouth.open_conditional()?, 1);
    mouth.change_conditional(0, Allowed::Else);
    mouth.change_conditional(2, Allowed::Fi);
    assert_eq!(rt;
        mouth.conditionals(),
        [Allowed::Else, Allowed::Test].as_slice()
    );
    mouth.close_conditional();
    assert_eq!(rt; mouth.conditionals(), [Allowed::Else].as_slice());
    mouth.close_conditional();
    mouth.close_conditional();
    assert!(rt; mouth.conditionals().is_empty());
    mouth.close_all(&mut files);
    Ok(())
}

// Puts the call of a macro in front, whose body is a Kept name and its parameter.
fn put_call(alloc: Global, mouth: &mut Mouth, name: NameNo) -> Result<(), MouthFault>
    requires { name.0 < length mouth.old.names }
    ensures files { KeepsFiles mouth.old mouth.new }
{
    let body = SharedTokens::new(alloc, &[Token::Kept(name), Token::Param(1)])?;
    let mut args = Args::new(alloc);
    args.push(SharedTokens::new(alloc, &[X, Token::Kept(name)])?)?;
    mouth.push_call(&body, args)
}

fn new_name(mouth: &mut Mouth) -> Result<NameNo, MouthFault>
    ensures files { KeepsFiles mouth.old mouth.new }
    ensures held { IfOk result (λ name. name.0 < length mouth.new.names) }
{
    mouth.intern(false, &[Char::One(b'q')])
}

// Four tokens, the second and the third as plain names.
fn four_tokens<F: Files, C: CodeTable>(
    mouth: &mut Mouth,
    files: &mut F,
    codes: &C,
) -> Result<[Token; 4], MouthFault>
    requires opened { AreOpen mouth.old (F.state files.old) }
    requires readable { IsReadable mouth.old }
    ensures opened { AreOpen mouth.new (F.state files.new) }
{
    let first = any_token(mouth, files, codes)?;
    let second = plain_token(mouth, files, codes)?;
    let third = plain_token(mouth, files, codes)?;
    let fourth = any_token(mouth, files, codes)?;
    Ok([first, second, third, fourth])
}

#[test]
fn calls_and_kept_names(rt: HostRuntime) -> Result<(), Fail> {
    let (mut files, mut mouth) = started(rt.alloc(), 0)?;
    let name = new_name(&mut mouth)?;
    put_call(rt.alloc(), &mut mouth, name)?;
    let tokens = four_tokens(&mut mouth, &mut files, &Start)?;
    mouth.close_all(&mut files);
    assert_eq!(rt; name, NameNo(138));
    assert_eq!(rt; tokens, [Token::Kept(name), X, Token::Name(name), A]);
    Ok(())
}
