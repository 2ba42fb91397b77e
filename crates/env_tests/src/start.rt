//! What holds at the start.

use env_groups::*;
use jis_codes::{Cell, Char};
use std::alloc::Global;
use std::process::Abort;
use std::test::Fail;
use tok_lists::{CodeTable, NameNo, Names, SharedTokens};
use ts_geometry::{Glue, Order, Sp};

/// Returns the environment at the start, of which no proof is told anything.
fn start(alloc: Global) -> Result<Env, Fail> {
    Ok(Env::new(alloc)?)
}

fn integers_at_the_start(rt: &impl Abort, env: &Env) -> Result<(), Fail> {
    for (param, value) in [
        (IntParam::Pretolerance, 100),
        (IntParam::Tolerance, 200),
        (IntParam::LinePenalty, 10),
        (IntParam::AdjDemerits, 10_000),
        (IntParam::InterlinePenalty, 0),
        (IntParam::ClubPenalty, 150),
        (IntParam::WidowPenalty, 150),
        (IntParam::JcharWidowPenalty, 500),
        (IntParam::OutputPenalty, 0),
        (IntParam::DeadCycles, 0),
        (IntParam::AutoSpacing, 1),
        (IntParam::AutoXspacing, 1),
    ] {
        assert_eq!(rt; env.get_int(IntKey::Param(param)), Ok(value), "{param:?}");
    }
    Ok(())
}

fn dimensions_at_the_start(rt: &impl Abort, env: &Env) -> Result<(), Fail> {
    for (param, value) in [
        (DimParam::HSize, 30_785_863),
        (DimParam::VSize, 42_152_922),
        (DimParam::ParIndent, 1_310_720),
        (DimParam::MaxDepth, 262_144),
        (DimParam::BoxMaxDepth, 1_073_741_823),
        (DimParam::LineSkipLimit, 0),
        (DimParam::EmergencyStretch, 0),
        (DimParam::TBaselineShift, 0),
        (DimParam::YBaselineShift, 0),
    ] {
        assert_eq!(rt;
            env.get_dim(DimKey::Param(param)),
            Ok(Sp(value)),
            "{param:?}"
        );
    }
    Ok(())
}

/// Returns glue with a stretch of an order and a finite shrink, in scaled points.
fn glue(width: i64, stretch: i64, stretch_order: Order, shrink: i64) -> Glue {
    Glue {
        width: Sp(width),
        stretch: Sp(stretch),
        stretch_order,
        shrink: Sp(shrink),
        shrink_order: Order::Normal,
    }
}

fn glue_at_the_start(rt: &impl Abort, env: &Env) -> Result<(), Fail> {
    let zero = glue(0, 0, Order::Normal, 0);
    for (param, value) in [
        (GlueParam::BaselineSkip, glue(786_432, 0, Order::Normal, 0)),
        (GlueParam::LineSkip, glue(65_536, 0, Order::Normal, 0)),
        (GlueParam::ParSkip, glue(0, 65_536, Order::Normal, 0)),
        (GlueParam::TopSkip, glue(655_360, 0, Order::Normal, 0)),
        (GlueParam::LeftSkip, zero),
        (GlueParam::RightSkip, zero),
        (GlueParam::ParFillSkip, glue(0, 65_536, Order::Fil, 0)),
        (GlueParam::KanjiSkip, glue(0, 26_214, Order::Normal, 26_214)),
        (
            GlueParam::XKanjiSkip,
            glue(163_840, 65_536, Order::Normal, 65_536),
        ),
    ] {
        assert_eq!(rt; env.get_glue(GlueKey::Param(param)), Ok(value), "{param:?}");
    }
    Ok(())
}

fn registers_at_the_start(rt: &impl Abort, env: &Env) -> Result<(), Fail> {
    for n in 0..256 {
        assert_eq!(rt; env.get_int(IntKey::Register(n)), Ok(0));
        assert_eq!(rt; env.get_dim(DimKey::Register(n)), Ok(Sp(0)));
        assert_eq!(rt;
            env.get_glue(GlueKey::Register(n)),
            Ok(glue(0, 0, Order::Normal, 0))
        );
        assert_eq!(rt;
            env.get_toks(ToksKey::Register(n)),
            Ok(SharedTokens::default())
        );
        assert!(rt; env.get_box(n)?.is_none());
    }
    Ok(())
}

fn output_and_fonts_at_the_start(rt: &impl Abort, env: &Env) -> Result<(), Fail> {
    let output = ToksKey::Param(ToksParam::Output);
    assert_eq!(rt; env.get_toks(output), Ok(SharedTokens::default()));
    for slot in [FontSlot::Roman, FontSlot::Yoko, FontSlot::Tate] {
        assert_eq!(rt; env.get_font(slot), None);
    }
    Ok(())
}

/// The categories of the characters that are neither letters nor others.
const SPECIAL: [(u8, u8); 15] = [
    (b'\\', 0),
    (b'{', 1),
    (b'}', 2),
    (b'$', 3),
    (b'&', 4),
    (13, 5),
    (b'#', 6),
    (b'^', 7),
    (b'_', 8),
    (0, 9),
    (32, 10),
    (9, 10),
    (b'~', 13),
    (b'%', 14),
    (127, 15),
];

fn start_category(code: u8) -> u8 {
    for (special, category) in SPECIAL {
        if special == code {
            return category;
        }
    }
    if code.is_ascii_alphabetic() { 11 } else { 12 }
}

fn start_xsp(code: u8) -> i64 {
    if code.is_ascii_alphanumeric() { 3 } else { 0 }
}

/// Returns the penalties before and after a character.
fn penalties(env: &Env, character: &Char) -> [i64; 2] {
    let pre = CodeKey::Pre(*character);
    let post = CodeKey::Post(*character);
    [env.get_code(pre), env.get_code(post)]
}

fn codes_of_bytes_at_the_start(rt: &impl Abort, env: &Env) -> Result<(), Fail> {
    for code in 0..=255u8 {
        assert_eq!(rt; env.cat(code), start_category(code), "{code}");
        assert_eq!(rt;
            env.get_code(CodeKey::Cat(code)),
            i64::from(start_category(code))
        );
        assert_eq!(rt; env.get_code(CodeKey::Xsp(code)), start_xsp(code), "{code}");
        assert_eq!(rt; penalties(env, &Char::One(code)), [0, 0]);
    }
    Ok(())
}

fn start_kind(row: u8) -> u8 {
    match row {
        1..=2 | 7..=15 | 85..=94 => 18,
        3..=6 => 17,
        _ => 16,
    }
}

fn codes_of_cells_at_the_start(rt: &impl Abort, env: &Env) -> Result<(), Fail> {
    for row in 1..=94u8 {
        let cell = Cell::new(row, row).ok_or("no cell")?;
        assert_eq!(rt; env.kcat(cell), start_kind(row), "row {row}");
        assert_eq!(rt;
            env.get_code(CodeKey::Kcat(cell)),
            i64::from(start_kind(row))
        );
        assert_eq!(rt; env.get_code(CodeKey::InhibitXsp(cell)), 3);
        assert_eq!(rt; penalties(env, &Char::Ja(cell)), [0, 0]);
    }
    Ok(())
}

fn names_have_their_primitives(rt: &impl Abort, env: &Env) -> Result<(), Fail> {
    for (name, prim) in [
        (0, Prim::ExpandAfter),
        (33, Prim::IfDDir),
        (34, Prim::Def),
        (68, Prim::Long),
        (69, Prim::Relax),
        (109, Prim::End),
        (110, Prim::Pretolerance),
        (119, Prim::HSize),
        (128, Prim::BaselineSkip),
        (137, Prim::Output),
    ] {
        assert_eq!(rt; env.get_meaning(NameNo(name)), Meaning::Primitive(prim));
    }
    assert_eq!(rt; env.get_meaning(NameNo(138)), Meaning::Undefined);
    assert_eq!(rt; env.get_meaning(NameNo(49_999)), Meaning::Undefined);
    Ok(())
}

fn a_spelling_has_its_primitive(rt: &impl Abort, alloc: Global, env: &Env) -> Result<(), Fail> {
    let mut names = Names::new(alloc)?;
    let space = names.intern(false, &[Char::One(b' ')])?;
    assert_eq!(rt;
        env.get_meaning(space),
        Meaning::Primitive(Prim::ControlSpace)
    );
    let new = names.intern(false, &[Char::One(b'+')])?;
    assert_eq!(rt; env.get_meaning(new), Meaning::Undefined);
    Ok(())
}

fn check_start(rt: &impl Abort, alloc: Global, env: &Env) -> Result<(), Fail> {
    integers_at_the_start(rt, env)?;
    dimensions_at_the_start(rt, env)?;
    glue_at_the_start(rt, env)?;
    registers_at_the_start(rt, env)?;
    output_and_fonts_at_the_start(rt, env)?;
    codes_of_bytes_at_the_start(rt, env)?;
    codes_of_cells_at_the_start(rt, env)?;
    names_have_their_primitives(rt, env)?;
    a_spelling_has_its_primitive(rt, alloc, env)?;
    Ok(())
}

#[test]
fn start_values_are_those_of_the_tables(rt: HostRuntime) -> Result<(), Fail> {
    let env = start(rt.alloc())?;
    check_start(&rt, rt.alloc(), &env)
}
