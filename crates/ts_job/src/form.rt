//! The form of sources that is built so far.

ghost use Rattle.std.specs.Prelude.{◌≡◌, ◌≤◌, ◌∷◌, [], true, length, option_map, IfOk, IfSome};
ghost use Rattle.std.specs.List.{list_all};
ghost use Rattle.ts_job.specs.Form.{after as what_is_after, name_in as the_name_in, cells_in as the_cells_in, is_line_end as ends_line, is_name_byte as is_byte_of_name, form_of as the_form_of, form_with as the_form_with};
ghost use Rattle.ts_job.specs.FormSeen.{seen};
ghost use Rattle.ts_job.specs.Setting.{IsSound};

use jis_codes::{Cell, Char};
use std::alloc::{AllocError, Global};

/// The name of a metric, without an ending, and the characters that are set with it.
#[derive(Debug, Drop)]
pub(crate) struct Form {
    pub(crate) name: Vec<u8>,
    pub(crate) cells: Vec<Cell>,
}

// What stands after a byte, where the characters begin with it.
fn after_byte(byte: u8, characters: &[Char]) -> Option<&[Char]>
    ensures { option_map (λ s. s.now) result ≡ what_is_after (byte ∷ []) characters.now }
{
    match characters {
        [Char::One(one), others @ ..] => (*one == byte).then_some(others),
        _ => None,
    }
}

// What stands after a text, where the characters begin with it.
#[tactic(auto, using(crate::proofs::Forms::after_more, crate::proofs::Forms::after_none))]
fn after<'a>(text: &[u8], characters: &'a [Char]) -> Option<&'a [Char]>
    ensures { option_map (λ s. s.now) result ≡ what_is_after text.now characters.now }
{
    let mut rest = characters;
    for byte in text {
        rest = after_byte(*byte, rest)?;
    }
    Some(rest)
}

fn is_name_byte(byte: u8) -> bool
    ensures { result ≡ is_byte_of_name byte }
{
    byte.is_ascii_lowercase() || byte.is_ascii_digit()
}

// The name at the front.
fn name_in(alloc: Global, characters: &[Char]) -> Result<Vec<u8>, AllocError>
    ensures name { IfOk result (λ v. v.items ≡ the_name_in characters.now) }
    ensures bytes { IfOk result (λ v. list_all is_byte_of_name v.items ≡ true) }
    ensures within { IfOk result (λ v. length v.items ≤ length characters.now) }
{
    let mut name = Vec::new(alloc);
    for character in characters {
        match *character {
            Char::One(byte) if is_name_byte(byte) => name.push(byte)?,
            _ => break,
        }
    }
    Ok(name)
}

// The cells at the front.
fn cells_in(alloc: Global, characters: &[Char]) -> Result<Vec<Cell>, AllocError>
    ensures cells { IfOk result (λ v. v.items ≡ the_cells_in characters.now) }
    ensures within { IfOk result (λ v. length v.items ≤ length characters.now) }
{
    let mut cells = Vec::new(alloc);
    for character in characters {
        match *character {
            Char::Ja(cell) => cells.push(cell)?,
            Char::One(_) => break,
        }
    }
    Ok(cells)
}

// Whether nothing but the end of the line is left.
fn is_line_end(characters: &[Char]) -> bool
    ensures { result ≡ ends_line characters.now }
{
    match characters {
        [Char::One(byte)] => *byte == b'\r',
        _ => false,
    }
}

fn form_with(name: Vec<u8>, cells: Vec<Cell>, rest: &[Char]) -> Option<Form>
    requires { list_all is_byte_of_name name.items ≡ true }
    ensures form { option_map seen result ≡ the_form_with name.items cells.items rest.now }
    ensures sound { IfSome result (λ form. IsSound (seen form)) }
{
    let is_named = 1 <= name.len() && name.len() <= 8;
    let is_filled = 1 <= cells.len() && cells.len() <= 50;
    if is_named && is_filled && is_line_end(rest) {
        Some(Form { name, cells })
    } else {
        None
    }
}

/// The form that the characters of a line have, if they have it.
#[tactic(auto, unfolding(crate::specs::Form::form_of))]
pub(crate) fn form_of(alloc: Global, all: &[Char]) -> Result<Option<Form>, AllocError>
    ensures form { IfOk result (λ form. option_map seen form ≡ the_form_of all.now) }
    ensures sound { IfOk result (λ form. IfSome form (λ found. IsSound (seen found))) }
{
    let Some(named) = after(b"\\font\\j=", all) else {
        return Ok(None);
    };
    let name = name_in(alloc, named)?;
    let Some(boxed) = after(b" \\j\\shipout\\hbox{", &named[name.len()..]) else {
        return Ok(None);
    };
    let cells = cells_in(alloc, boxed)?;
    let Some(rest) = after(b"}\\end", &boxed[cells.len()..]) else {
        return Ok(None);
    };
    Ok(form_with(name, cells, rest))
}
