//! Settings under groups.

ghost use Rattle.env_groups.specs.Bounds.{HasSetDimens};

use box_tree::{BoxKind, BoxNode, FontNo, Items, SetGlue, SharedBox, Side};
use env_groups::*;
use jis_codes::{Cell, Char};
use std::alloc::Global;
use std::process::Abort;
use std::test::Fail;
use tok_lists::{CodeTable, NameNo, SharedTokens, Token};
use ts_geometry::{Dir, Glue, Measures, Order, Sp};

/// Returns the environment at the start, of which no proof is told anything.
fn start(alloc: Global) -> Result<Env, Fail> {
    Ok(Env::new(alloc)?)
}

fn count(env: &Env, n: u32) -> Result<i64, EnvFault> {
    env.get_int(IntKey::Register(n))
}

fn set_count(env: &mut Env, n: u32, value: i16, global: bool) -> Result<(), EnvFault> {
    env.set_int(IntKey::Register(n), i64::from(value), global)
}

fn check_that_groups_are_full_at_1000(rt: &impl Abort, env: &mut Env) {
    for _ in 0..1000 {
        assert_eq!(rt; env.open(GroupKind::Semi), Ok(()));
    }
    assert_eq!(rt; env.open(GroupKind::Simple), Err(EnvFault::GroupsFull));
    assert_eq!(rt; env.close(GroupKind::Semi), Ok(()));
    assert_eq!(rt; env.open(GroupKind::Simple), Ok(()));
}

#[test]
fn groups_are_full_at_1000(rt: HostRuntime) -> Result<(), Fail> {
    let mut env = start(rt.alloc())?;
    check_that_groups_are_full_at_1000(&rt, &mut env);
    Ok(())
}

fn a_group_ends_as_it_began(rt: &impl Abort, env: &mut Env) -> Result<(), Fail> {
    env.open(GroupKind::Simple)?;
    set_count(env, 1, 5, false)?;
    for other in [GroupKind::Box, GroupKind::Semi, GroupKind::Output] {
        assert_eq!(rt; env.close(other), Err(EnvFault::GroupEnd));
    }
    assert_eq!(rt; count(env, 1), Ok(5));
    assert_eq!(rt; env.close(GroupKind::Simple), Ok(()));
    assert_eq!(rt; count(env, 1), Ok(0));
    Ok(())
}

/// Opens three groups, one in the other.
fn open_three(env: &mut Env) -> Result<(), EnvFault> {
    env.open(GroupKind::Simple)?;
    env.open(GroupKind::Simple)?;
    env.open(GroupKind::Simple)
}

/// Closes three groups.
fn close_three(env: &mut Env) -> Result<(), EnvFault> {
    env.close(GroupKind::Simple)?;
    env.close(GroupKind::Simple)?;
    env.close(GroupKind::Simple)
}

/// Sets counts in the innermost group: 1 twice, 2 globally, 3 both ways.
fn set_counts(env: &mut Env) -> Result<(), EnvFault> {
    set_count(env, 1, 5, false)?;
    set_count(env, 2, 6, true)?;
    set_count(env, 1, -7, false)?;
    set_count(env, 3, 8, false)?;
    set_count(env, 3, 9, true)
}

fn counts(env: &Env) -> [Result<i64, EnvFault>; 3] {
    [count(env, 1), count(env, 2), count(env, 3)]
}

fn a_global_setting_outlives_three_groups_and_a_plain_one_does_not(
    rt: &impl Abort,
    env: &mut Env,
) -> Result<(), Fail> {
    open_three(env)?;
    set_counts(env)?;
    assert_eq!(rt; counts(env), [Ok(-7), Ok(6), Ok(9)]);
    close_three(env)?;
    assert_eq!(rt; counts(env), [Ok(0), Ok(6), Ok(9)]);
    Ok(())
}

/// Returns an empty box of a width.
fn empty_box(alloc: Global, width: i64) -> Result<SharedBox, Fail> {
    let node = BoxNode {
        kind: BoxKind::Horizontal,
        dir: Dir::Yoko,
        size: Measures {
            wd: Sp(width),
            ht: Sp(0),
            dp: Sp(0),
        },
        set: SetGlue::Plain,
        items: Items::new(alloc),
    };
    Ok(SharedBox::new(alloc, node)?)
}

/// Returns the width of the box of a register, or `None` where it is void.
fn width(env: &Env, n: u32) -> Result<Option<Sp>, EnvFault> {
    match env.get_box(n)? {
        Some(shared) => Ok(Some(shared.get().size.wd)),
        None => Ok(None),
    }
}

fn widths(env: &Env) -> [Result<Option<Sp>, EnvFault>; 4] {
    [width(env, 1), width(env, 2), width(env, 3), width(env, 4)]
}

/// Sets box 1 and box 2 in a group, and box 3 globally in a group in it.
fn set_boxes(env: &mut Env, shared: &SharedBox) -> Result<(), EnvFault> {
    env.open(GroupKind::Simple)?;
    env.set_box(1, Some(shared.same_copy()), false)?;
    env.set_box(2, Some(shared.same_copy()), false)?;
    env.open(GroupKind::Simple)?;
    env.set_box(3, Some(shared.same_copy()), true)
}

/// Empties box 1, exchanges box 2, and puts a box into register 4, which was never set.
fn replace_boxes(env: &mut Env, wide: &SharedBox) -> Result<(), EnvFault> {
    env.open(GroupKind::Simple)?;
    env.replace_box(1, None)?;
    env.replace_box(2, Some(wide.same_copy()))?;
    env.replace_box(4, Some(wide.same_copy()))
}

fn a_box_is_replaced_where_it_was_set(
    rt: &impl Abort,
    alloc: Global,
    env: &mut Env,
) -> Result<(), Fail> {
    let shared = empty_box(alloc, 1)?;
    let wide = shared.with_measure(alloc, Side::Wd, Sp(7))?;
    set_boxes(env, &shared)?;
    replace_boxes(env, &wide)?;
    let replaced = [Ok(None), Ok(Some(Sp(7))), Ok(Some(Sp(1))), Ok(Some(Sp(7)))];
    assert_eq!(rt; widths(env), replaced);
    close_three(env)?;
    let left = [Ok(None), Ok(None), Ok(Some(Sp(1))), Ok(Some(Sp(7)))];
    assert_eq!(rt; widths(env), left);
    Ok(())
}

/// Sets a register of each kind.
fn set_registers(env: &mut Env, n: u32) -> [Result<(), EnvFault>; 6] {
    [
        env.set_int(IntKey::Register(n), 1, false),
        env.set_dim(DimKey::Register(n), Sp(2), false),
        env.set_glue(GlueKey::Register(n), points(3, 4, 5), false),
        env.set_toks(ToksKey::Register(n), SharedTokens::default(), false),
        env.set_box(n, None, false),
        env.replace_box(n, None),
    ]
}

/// Whether a register of each kind is refused where it is looked up.
fn are_refused(env: &Env, n: u32) -> bool {
    env.get_int(IntKey::Register(n)) == Err(EnvFault::RegisterRange)
        && env.get_dim(DimKey::Register(n)) == Err(EnvFault::RegisterRange)
        && env.get_glue(GlueKey::Register(n)) == Err(EnvFault::RegisterRange)
        && env.get_toks(ToksKey::Register(n)) == Err(EnvFault::RegisterRange)
        && width(env, n) == Err(EnvFault::RegisterRange)
}

fn registers_end_at_255(rt: &impl Abort, env: &mut Env) -> Result<(), Fail> {
    assert_eq!(rt; set_registers(env, 255), [Ok(()); 6]);
    assert_eq!(rt; set_registers(env, 256), [Err(EnvFault::RegisterRange); 6]);
    assert!(rt; are_refused(env, 256));
    assert_eq!(rt; count(env, 255), Ok(1));
    assert_eq!(rt; env.get_dim(DimKey::Register(255)), Ok(Sp(2)));
    assert_eq!(rt; env.get_glue(GlueKey::Register(255)), Ok(points(3, 4, 5)));
    Ok(())
}

fn output_is_kept(rt: &impl Abort, alloc: Global, env: &mut Env) -> Result<(), Fail> {
    let tokens = SharedTokens::new(alloc, &[Token::Char(b'a', 11)])?;
    let output = ToksKey::Param(ToksParam::Output);
    assert_eq!(rt; env.set_toks(output, tokens.same_copy(), false), Ok(()));
    assert_eq!(rt; env.get_toks(output), Ok(tokens));
    assert_eq!(rt;
        env.get_toks(ToksKey::Register(0)),
        Ok(SharedTokens::default())
    );
    Ok(())
}

/// Returns the kinds of two cells of row 1 and one of row 4.
fn kinds(env: &Env) -> Result<[u8; 3], Fail> {
    let comma = Cell::new(1, 2).ok_or("no cell")?;
    let bracket = Cell::new(1, 54).ok_or("no cell")?;
    let kana = Cell::new(4, 2).ok_or("no cell")?;
    Ok([env.kcat(comma), env.kcat(bracket), env.kcat(kana)])
}

fn the_kind_of_a_cell_is_that_of_its_row(rt: &impl Abort, env: &mut Env) -> Result<(), Fail> {
    let comma = Cell::new(1, 2).ok_or("no cell")?;
    env.open(GroupKind::Simple)?;
    assert_eq!(rt; env.set_code(CodeKey::Kcat(comma), 16, false), Ok(()));
    assert_eq!(rt; kinds(env)?, [16, 16, 17]);
    env.close(GroupKind::Simple)?;
    assert_eq!(rt; kinds(env)?, [18, 18, 17]);
    Ok(())
}

/// Returns the penalties before and after a character.
fn both(env: &Env, character: &Char) -> [i64; 2] {
    let pre = CodeKey::Pre(*character);
    let post = CodeKey::Post(*character);
    [env.get_code(pre), env.get_code(post)]
}

/// Sets a code, and returns the penalties before and after a character.
fn with_code(
    env: &mut Env,
    key: CodeKey,
    value: i64,
    character: &Char,
) -> Result<[i64; 2], EnvFault> {
    env.set_code(key, value, false)?;
    Ok(both(env, character))
}

fn one_penalty_takes_the_other_away(rt: &impl Abort, env: &mut Env) -> Result<(), Fail> {
    let comma = Char::One(b',');
    let pre = CodeKey::Pre(Char::One(b','));
    let post = CodeKey::Post(Char::One(b','));
    assert_eq!(rt; with_code(env, pre, 10_000, &comma), Ok([10_000, 0]));
    env.open(GroupKind::Simple)?;
    assert_eq!(rt; with_code(env, post, 200, &comma), Ok([0, 200]));
    env.close(GroupKind::Simple)?;
    assert_eq!(rt; both(env, &comma), [10_000, 0]);
    Ok(())
}

fn a_penalty_of_0_takes_the_other_away(rt: &impl Abort, env: &mut Env) -> Result<(), Fail> {
    let comma = Char::One(b',');
    let pre = CodeKey::Pre(Char::One(b','));
    let post = CodeKey::Post(Char::One(b','));
    assert_eq!(rt; with_code(env, post, 200, &comma), Ok([0, 200]));
    assert_eq!(rt; with_code(env, pre, 0, &comma), Ok([0, 0]));
    Ok(())
}

fn takes(env: &mut Env, key: &CodeKey, value: i64) -> bool {
    env.set_code(*key, value, true) == Ok(()) && env.get_code(*key) == value
}

fn refuses(env: &mut Env, key: &CodeKey, value: i64) -> bool {
    env.set_code(*key, value, true) == Err(EnvFault::CodeRange)
}

/// Whether a code takes its least and its greatest value, and none beyond them.
fn has_range(env: &mut Env, key: &CodeKey, least: i64, most: i64) -> bool {
    takes(env, key, least)
        && takes(env, key, most)
        && refuses(env, key, least.wrapping_sub(1))
        && refuses(env, key, most.wrapping_add(1))
        && env.get_code(*key) == most
}

fn codes_have_their_ranges(rt: &impl Abort, env: &mut Env) -> Result<(), Fail> {
    let cell = Cell::new(20, 33).ok_or("no cell")?;
    let byte = CodeKey::Pre(Char::One(255));
    let kanji = CodeKey::Post(Char::Ja(cell));
    assert!(rt; has_range(env, &CodeKey::Cat(255), 0, 15));
    assert!(rt; has_range(env, &CodeKey::Kcat(cell), 16, 18));
    assert!(rt; has_range(env, &CodeKey::Xsp(0), 0, 3));
    assert!(rt; has_range(env, &CodeKey::InhibitXsp(cell), 0, 3));
    assert!(rt; has_range(env, &byte, -10_000, 10_000));
    assert!(rt; has_range(env, &kanji, -10_000, 10_000));
    Ok(())
}

/// Returns facts whose `em` is this one.
fn facts(em: u8) -> FontFacts {
    FontFacts {
        em: Sp(i64::from(em)),
        ex: Sp(1),
        zw: Sp(2),
        zh: Sp(3),
    }
}

fn check_that_fonts_are_full_at_255(rt: &impl Abort, env: &mut Env) {
    for number in 0..255u8 {
        assert_eq!(rt; env.add_font(facts(number)), Ok(FontNo(number)));
    }
    assert_eq!(rt; env.add_font(facts(255)), Err(EnvFault::FontsFull));
}

#[test]
fn fonts_are_full_at_255(rt: HostRuntime) -> Result<(), Fail> {
    let mut env = start(rt.alloc())?;
    check_that_fonts_are_full_at_255(&rt, &mut env);
    Ok(())
}

fn a_font_is_selected(rt: &impl Abort, env: &mut Env) -> Result<(), Fail> {
    let font = env.add_font(facts(9))?;
    assert_eq!(rt; env.facts(font), facts(9));
    assert_eq!(rt; env.set_font(FontSlot::Tate, font, false), Ok(()));
    assert_eq!(rt; env.get_font(FontSlot::Tate), Some(font));
    assert_eq!(rt; env.get_font(FontSlot::Yoko), None);
    Ok(())
}

fn a_name_means_a_font(rt: &impl Abort, env: &mut Env) -> Result<(), Fail> {
    let font = env.add_font(facts(9))?;
    assert_eq!(rt;
        env.set_meaning(NameNo(200), Meaning::Font(font), false),
        Ok(())
    );
    assert_eq!(rt; env.get_meaning(NameNo(200)), Meaning::Font(font));
    Ok(())
}

fn a_name_means_a_macro(rt: &impl Abort, alloc: Global, env: &mut Env) -> Result<(), Fail> {
    let definition = MacroDef {
        long: true,
        params: SharedTokens::new(alloc, &[Token::Param(1)])?,
        body: SharedTokens::new(alloc, &[Token::Param(1), Token::Param(1)])?,
    };
    let twice = Meaning::Macro(definition.same_copy());
    assert_eq!(rt;
        env.set_meaning(NameNo(201), Meaning::Macro(definition), true),
        Ok(())
    );
    assert_eq!(rt; env.get_meaning(NameNo(201)), twice);
    Ok(())
}

fn a_primitive_comes_back_after_a_group(rt: &impl Abort, env: &mut Env) -> Result<(), Fail> {
    let letter = Meaning::Letter(Token::Char(97, 11));
    env.open(GroupKind::Simple)?;
    assert_eq!(rt;
        env.set_meaning(NameNo(69), letter.same_copy(), false),
        Ok(())
    );
    assert_eq!(rt; env.get_meaning(NameNo(69)), letter);
    env.close(GroupKind::Simple)?;
    assert_eq!(rt;
        env.get_meaning(NameNo(69)),
        Meaning::Primitive(Prim::Relax)
    );
    Ok(())
}

fn the_situation_outlives_groups(rt: &impl Abort, env: &mut Env) -> Result<(), Fail> {
    let inner = Situation {
        mode: Mode::Restricted,
        dir: Dir::Tate,
    };
    env.open(GroupKind::Box)?;
    env.set_situation(inner);
    env.close(GroupKind::Box)?;
    assert_eq!(rt; env.situation(), inner);
    Ok(())
}

/// Returns glue of finite stretch and shrink, in scaled points.
fn points(width: u8, stretch: u8, shrink: u8) -> Glue
    ensures { HasSetDimens result }
{
    Glue {
        width: Sp(i64::from(width)),
        stretch: Sp(i64::from(stretch)),
        stretch_order: Order::Normal,
        shrink: Sp(i64::from(shrink)),
        shrink_order: Order::Normal,
    }
}

// One environment serves all of these: each function that holds one of its own takes long to prove.
fn check_settings(rt: &impl Abort, alloc: Global, env: &mut Env) -> Result<(), Fail> {
    a_group_ends_as_it_began(rt, env)?;
    a_global_setting_outlives_three_groups_and_a_plain_one_does_not(rt, env)?;
    a_box_is_replaced_where_it_was_set(rt, alloc, env)?;
    registers_end_at_255(rt, env)?;
    output_is_kept(rt, alloc, env)?;
    the_kind_of_a_cell_is_that_of_its_row(rt, env)?;
    one_penalty_takes_the_other_away(rt, env)?;
    a_penalty_of_0_takes_the_other_away(rt, env)?;
    codes_have_their_ranges(rt, env)?;
    a_font_is_selected(rt, env)?;
    a_name_means_a_font(rt, env)?;
    a_name_means_a_macro(rt, alloc, env)?;
    a_primitive_comes_back_after_a_group(rt, env)?;
    the_situation_outlives_groups(rt, env)?;
    Ok(())
}

#[test]
fn settings_are_those_of_the_innermost_group(rt: HostRuntime) -> Result<(), Fail> {
    let mut env = start(rt.alloc())?;
    check_settings(&rt, rt.alloc(), &mut env)
}
