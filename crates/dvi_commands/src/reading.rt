//! The command at a place.

ghost use Rattle.std.specs.Prelude.{◌≡◌, ◌≤◌, ◌<◌, length, drop, IfOk, IfSome};
ghost use Rattle.dvi_commands.specs.Fields.{Gives, left_at};
ghost use Rattle.dvi_commands.specs.Commands.{meant, command, command_after, mark_after, group_after, right_after, down_after, font_def_after, font_after, pre_after, post_after, file_after};
ghost use Rattle.dvi_commands.specs.Next.{IsCommandAt, HasPartsIn, set_left, set_first};

use crate::command::Command;
use crate::fault::{DviBad, DviKind};
use crate::field::{byte_at, counts_at, font_number_at, half_at, number_at, signed_at, text_at};

#[tactic(auto, unfolding(crate::specs::Commands::mark_after))]
fn mark(op: u8, bytes: &[u8], at: usize) -> Result<(Command, usize), DviKind>
    requires { at ≤ length bytes.now }
    ensures exact { Gives (left_at bytes.now (meant bytes.now)) result (mark_after op (drop at
        bytes.now)) }
    ensures on { IfOk result (λ x. at ≤ x.1) }
    ensures within { IfOk result (λ x. x.1 ≤ length bytes.now) }
    ensures parts { IfOk result (λ x. HasPartsIn (length bytes.now) x.0) }
{
    if op <= 127 {
        Ok((Command::Set(u32::from(op)), at))
    } else if op <= 131 {
        let (code, at) = number_at(bytes, at, usize::from(op - 127))?;
        Ok((Command::Set(code), at))
    } else if op == 132 {
        let (height, at) = signed_at(bytes, at, 4)?;
        let (width, at) = signed_at(bytes, at, 4)?;
        Ok((Command::SetRule(height, width), at))
    } else if op <= 136 {
        let (code, at) = number_at(bytes, at, usize::from(op - 132))?;
        Ok((Command::Put(code), at))
    } else {
        let (height, at) = signed_at(bytes, at, 4)?;
        let (width, at) = signed_at(bytes, at, 4)?;
        Ok((Command::PutRule(height, width), at))
    }
}

#[tactic(auto, unfolding(crate::specs::Commands::group_after))]
fn group(op: u8, bytes: &[u8], at: usize) -> Result<(Command, usize), DviKind>
    requires { at ≤ length bytes.now }
    ensures exact { Gives (left_at bytes.now (meant bytes.now)) result (group_after op (drop at
        bytes.now)) }
    ensures on { IfOk result (λ x. at ≤ x.1) }
    ensures within { IfOk result (λ x. x.1 ≤ length bytes.now) }
    ensures parts { IfOk result (λ x. HasPartsIn (length bytes.now) x.0) }
{
    if op == 138 {
        Ok((Command::Nop, at))
    } else if op == 139 {
        let (counts, at) = counts_at(bytes, at)?;
        let (back, at) = signed_at(bytes, at, 4)?;
        Ok((Command::Bop { counts, back }, at))
    } else if op == 140 {
        Ok((Command::Eop, at))
    } else if op == 141 {
        Ok((Command::Push, at))
    } else {
        Ok((Command::Pop, at))
    }
}

#[tactic(auto, unfolding(crate::specs::Commands::right_after))]
fn right(op: u8, bytes: &[u8], at: usize) -> Result<(Command, usize), DviKind>
    requires at { at ≤ length bytes.now }
    requires low { 143 ≤ op }
    requires high { op ≤ 156 }
    ensures exact { Gives (left_at bytes.now (meant bytes.now)) result (right_after op (drop at
        bytes.now)) }
    ensures on { IfOk result (λ x. at ≤ x.1) }
    ensures within { IfOk result (λ x. x.1 ≤ length bytes.now) }
    ensures parts { IfOk result (λ x. HasPartsIn (length bytes.now) x.0) }
{
    if op <= 146 {
        let (n, at) = signed_at(bytes, at, usize::from(op - 142))?;
        Ok((Command::Right(n), at))
    } else if op == 147 {
        Ok((Command::W0, at))
    } else if op <= 151 {
        let (n, at) = signed_at(bytes, at, usize::from(op - 147))?;
        Ok((Command::W(n), at))
    } else if op == 152 {
        Ok((Command::X0, at))
    } else {
        let (n, at) = signed_at(bytes, at, usize::from(op - 152))?;
        Ok((Command::X(n), at))
    }
}

#[tactic(auto, unfolding(crate::specs::Commands::down_after))]
fn down(op: u8, bytes: &[u8], at: usize) -> Result<(Command, usize), DviKind>
    requires at { at ≤ length bytes.now }
    requires low { 157 ≤ op }
    requires high { op ≤ 170 }
    ensures exact { Gives (left_at bytes.now (meant bytes.now)) result (down_after op (drop at
        bytes.now)) }
    ensures on { IfOk result (λ x. at ≤ x.1) }
    ensures within { IfOk result (λ x. x.1 ≤ length bytes.now) }
    ensures parts { IfOk result (λ x. HasPartsIn (length bytes.now) x.0) }
{
    if op <= 160 {
        let (n, at) = signed_at(bytes, at, usize::from(op - 156))?;
        Ok((Command::Down(n), at))
    } else if op == 161 {
        Ok((Command::Y0, at))
    } else if op <= 165 {
        let (n, at) = signed_at(bytes, at, usize::from(op - 161))?;
        Ok((Command::Y(n), at))
    } else if op == 166 {
        Ok((Command::Z0, at))
    } else {
        let (n, at) = signed_at(bytes, at, usize::from(op - 166))?;
        Ok((Command::Z(n), at))
    }
}

#[tactic(auto, unfolding(crate::specs::Commands::font_def_after))]
fn font_def(number: i32, bytes: &[u8], at: usize) -> Result<(Command, usize), DviKind>
    requires { at ≤ length bytes.now }
    ensures exact { Gives (left_at bytes.now (meant bytes.now)) result (font_def_after number
        (drop at bytes.now)) }
    ensures on { IfOk result (λ x. at ≤ x.1) }
    ensures within { IfOk result (λ x. x.1 ≤ length bytes.now) }
    ensures parts { IfOk result (λ x. HasPartsIn (length bytes.now) x.0) }
{
    let (check_sum, at) = number_at(bytes, at, 4)?;
    let (size, at) = number_at(bytes, at, 4)?;
    let (design, at) = number_at(bytes, at, 4)?;
    let (area_len, at) = byte_at(bytes, at)?;
    let (name_len, at) = byte_at(bytes, at)?;
    let (area, at) = text_at(bytes, at, usize::from(area_len))?;
    let (name, at) = text_at(bytes, at, usize::from(name_len))?;
    Ok((
        Command::FontDef {
            number,
            check_sum,
            size,
            design,
            area,
            name,
        },
        at,
    ))
}

#[tactic(auto, unfolding(crate::specs::Commands::font_after))]
fn font(op: u8, bytes: &[u8], at: usize) -> Result<(Command, usize), DviKind>
    requires at { at ≤ length bytes.now }
    requires low { 171 ≤ op }
    requires high { op ≤ 246 }
    ensures exact { Gives (left_at bytes.now (meant bytes.now)) result (font_after op (drop at
        bytes.now)) }
    ensures on { IfOk result (λ x. at ≤ x.1) }
    ensures within { IfOk result (λ x. x.1 ≤ length bytes.now) }
    ensures parts { IfOk result (λ x. HasPartsIn (length bytes.now) x.0) }
{
    if op <= 234 {
        Ok((Command::Font(i32::from(op) - 171), at))
    } else if op <= 238 {
        let (number, at) = font_number_at(bytes, at, usize::from(op - 234))?;
        Ok((Command::Font(number), at))
    } else if op <= 242 {
        let (len, at) = number_at(bytes, at, usize::from(op - 238))?;
        let (text, at) = text_at(bytes, at, len as usize)?;
        Ok((Command::Xxx(text), at))
    } else {
        let (number, at) = font_number_at(bytes, at, usize::from(op - 242))?;
        font_def(number, bytes, at)
    }
}

#[tactic(auto, unfolding(crate::specs::Commands::pre_after))]
fn pre(bytes: &[u8], at: usize) -> Result<(Command, usize), DviKind>
    requires { at ≤ length bytes.now }
    ensures exact { Gives (left_at bytes.now (meant bytes.now)) result (pre_after (drop at
        bytes.now)) }
    ensures on { IfOk result (λ x. at ≤ x.1) }
    ensures within { IfOk result (λ x. x.1 ≤ length bytes.now) }
    ensures parts { IfOk result (λ x. HasPartsIn (length bytes.now) x.0) }
{
    let (id, at) = byte_at(bytes, at)?;
    let (num, at) = number_at(bytes, at, 4)?;
    let (den, at) = number_at(bytes, at, 4)?;
    let (mag, at) = number_at(bytes, at, 4)?;
    let (len, at) = byte_at(bytes, at)?;
    let (comment, at) = text_at(bytes, at, usize::from(len))?;
    Ok((
        Command::Pre {
            id,
            num,
            den,
            mag,
            comment,
        },
        at,
    ))
}

#[tactic(auto, unfolding(crate::specs::Commands::post_after))]
fn post(bytes: &[u8], at: usize) -> Result<(Command, usize), DviKind>
    requires { at ≤ length bytes.now }
    ensures exact { Gives (left_at bytes.now (meant bytes.now)) result (post_after (drop at
        bytes.now)) }
    ensures on { IfOk result (λ x. at ≤ x.1) }
    ensures within { IfOk result (λ x. x.1 ≤ length bytes.now) }
    ensures parts { IfOk result (λ x. HasPartsIn (length bytes.now) x.0) }
{
    let (back, at) = signed_at(bytes, at, 4)?;
    let (num, at) = number_at(bytes, at, 4)?;
    let (den, at) = number_at(bytes, at, 4)?;
    let (mag, at) = number_at(bytes, at, 4)?;
    let (height, at) = number_at(bytes, at, 4)?;
    let (width, at) = number_at(bytes, at, 4)?;
    let (stack, at) = half_at(bytes, at)?;
    let (pages, at) = half_at(bytes, at)?;
    Ok((
        Command::Post {
            back,
            num,
            den,
            mag,
            height,
            width,
            stack,
            pages,
        },
        at,
    ))
}

#[tactic(auto, unfolding(crate::specs::Commands::file_after))]
fn file(op: u8, bytes: &[u8], at: usize) -> Result<(Command, usize), DviKind>
    requires { at ≤ length bytes.now }
    ensures exact { Gives (left_at bytes.now (meant bytes.now)) result (file_after op (drop at
        bytes.now)) }
    ensures on { IfOk result (λ x. at ≤ x.1) }
    ensures within { IfOk result (λ x. x.1 ≤ length bytes.now) }
    ensures parts { IfOk result (λ x. HasPartsIn (length bytes.now) x.0) }
{
    if op == 247 {
        pre(bytes, at)
    } else if op == 248 {
        post(bytes, at)
    } else if op == 249 {
        let (post, at) = signed_at(bytes, at, 4)?;
        let (id, at) = byte_at(bytes, at)?;
        Ok((Command::PostPost { post, id }, at))
    } else if op == 255 {
        let (dir, at) = byte_at(bytes, at)?;
        Ok((Command::Direction(dir), at))
    } else {
        Err(DviKind::Opcode)
    }
}

#[tactic(auto, unfolding(crate::specs::Commands::command_after))]
fn command_of(op: u8, bytes: &[u8], at: usize) -> Result<(Command, usize), DviKind>
    requires { at ≤ length bytes.now }
    ensures exact { Gives (left_at bytes.now (meant bytes.now)) result (command_after op (drop at
        bytes.now)) }
    ensures on { IfOk result (λ x. at ≤ x.1) }
    ensures within { IfOk result (λ x. x.1 ≤ length bytes.now) }
    ensures parts { IfOk result (λ x. HasPartsIn (length bytes.now) x.0) }
{
    if op <= 137 {
        mark(op, bytes, at)
    } else if op <= 142 {
        group(op, bytes, at)
    } else if op <= 156 {
        right(op, bytes, at)
    } else if op <= 170 {
        down(op, bytes, at)
    } else if op <= 246 {
        font(op, bytes, at)
    } else {
        file(op, bytes, at)
    }
}

#[tactic(auto, unfolding(crate::specs::Commands::command))]
fn command_at(bytes: &[u8], at: usize) -> Result<(Command, usize), DviKind>
    requires { at ≤ length bytes.now }
    ensures exact { Gives (left_at bytes.now (meant bytes.now)) result (command (drop at
        bytes.now)) }
    ensures on { IfOk result (λ x. at < x.1) }
    ensures within { IfOk result (λ x. x.1 ≤ length bytes.now) }
    ensures parts { IfOk result (λ x. HasPartsIn (length bytes.now) x.0) }
{
    let (op, after) = byte_at(bytes, at)?;
    command_of(op, bytes, after)
}

/// Returns the command at a place, in bytes from 0 up to the length, and the place after it (TeX:
/// The Program, sections 585 to 590). `Truncated` comes exactly where not all of its bytes are
/// there, and `Opcode` where the byte is 250 to 254, each at that place. Takes no memory.
pub fn next_command(bytes: &[u8], at: usize) -> Result<(Command, usize), DviBad>
    requires { at ≤ length bytes.now }
    ensures exact { IsCommandAt bytes.now at result }
    ensures on { IfOk result (λ x. at < x.1) }
    ensures within { IfOk result (λ x. x.1 ≤ length bytes.now) }
    ensures parts { IfOk result (λ x. HasPartsIn (length bytes.now) x.0) }
{
    match command_at(bytes, at) {
        Ok((command, after)) => Ok((command, after)),
        Err(kind) => Err(DviBad { at, kind }),
    }
}

/// Returns the code of the character that the command at a place sets, and the place after it, in
/// bytes from 0 up to the length; `None` where the command sets none, or isn't all there (TeX: The
/// Program, section 585). Takes no memory.
#[tactic(auto, unfolding(crate::specs::Commands::command, crate::specs::Commands::command_after, crate::specs::Commands::mark_after), using(crate::proofs::Sets::none_set))]
pub fn next_set(bytes: &[u8], at: usize) -> Option<(u32, usize)>
    requires { at ≤ length bytes.now }
    ensures exact { set_left bytes.now result ≡ set_first (command (drop at bytes.now)) }
    ensures on { IfSome result (λ x. at < x.1) }
    ensures within { IfSome result (λ x. x.1 ≤ length bytes.now) }
{
    let (op, after) = byte_at(bytes, at).ok()?;
    match op {
        0..=127 => Some((u32::from(op), after)),
        128 => number_at(bytes, after, 1).ok(),
        129 => number_at(bytes, after, 2).ok(),
        130 => number_at(bytes, after, 3).ok(),
        131 => number_at(bytes, after, 4).ok(),
        _ => None,
    }
}
