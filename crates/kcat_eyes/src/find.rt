//! What stands next in a line.

ghost use Rattle.std.specs.Prelude.{◌≡◌, ◌≤◌, ◌<◌, ◌+◌, ◌-◌, List, ℕ, IfSome, get_or, length, drop};
ghost use Rattle.jis_codes.specs.declared.character.Char.TheVariants.{One};
ghost use Rattle.kcat_eyes.specs.Eyes.{Glance, is_letter as is_a_letter, letters as the_letters, after_symbol as the_state_after_symbol, escaped as what_is_escaped, line_end as the_line_end, blank as the_blank, after_brace as the_state_after_brace, of_category as what_is_of_category, met as what_is_met, in_line as what_is_in_line};
ghost use Rattle.kcat_eyes.specs.Finds.{glance_of, or_skipped, IsInLine};

use crate::state::State;
use jis_codes::Char;
use tok_lists::{CodeTable, Token};

// The token of a blank.
const SPACE: Token = Token::Char(b' ', 10);

/// What stands next in a line, with the state after it. Places are indexes of its characters.
#[derive(Clone, Copy, Debug, PartialEq, Eq)]
pub(crate) enum Find {
    /// A token that is no name, and the place after it.
    Token(Token, State, usize),
    /// A name: whether it is an active character, and the places of its characters and after them.
    Name(bool, usize, usize, State),
    /// The name `\par` of the end of an empty line.
    Paragraph,
    /// A character of category 15.
    Invalid,
    Nothing,
}

fn is_letter<C: CodeTable>(codes: &C, character: Char) -> bool
    ensures { result ≡ is_a_letter (C.codes codes.now) character }
{
    match character {
        Char::One(code) => codes.cat(code) == 11,
        Char::Ja(cell) => {
            let kind = codes.kcat(cell);
            kind == 16 || kind == 17
        }
    }
}

// How many letters are at the front.
fn letters<C: CodeTable>(codes: &C, rest: &[Char]) -> usize
    ensures value { result ≡ the_letters (C.codes codes.now) rest.now }
    ensures within { result ≤ length rest.now }
{
    let mut count = 0;
    for character in rest {
        if !is_letter(codes, *character) {
            break;
        }
        count += 1;
    }
    count
}

fn after_symbol<C: CodeTable>(codes: &C, character: Char) -> State
    ensures { result ≡ the_state_after_symbol (C.codes codes.now) character }
{
    match character {
        Char::One(code) if codes.cat(code) == 10 => State::SkipBlanks,
        Char::One(_) => State::MidLine,
        Char::Ja(_) => State::Kanji,
    }
}

// What stands after an escape.
fn escaped<C: CodeTable>(codes: &C, line: &[Char], at: usize) -> Find
    requires { at ≤ length line.now }
    ensures value { glance_of line.now result ≡ what_is_escaped (C.codes codes.now) (drop at line.now) }
    ensures places { IsInLine at (length line.now) result }
{
    let rest = &line[at..];
    match rest {
        [] => Find::Name(false, at, at, State::MidLine),
        [first, ..] if is_letter(codes, *first) => {
            Find::Name(false, at, at + letters(codes, rest), State::SkipBlanks)
        }
        [first, ..] => Find::Name(false, at, at + 1, after_symbol(codes, *first)),
    }
}

// The end of a line of so many characters.
fn line_end(state: State, line: &[Char]) -> Find
    ensures value { glance_of line.now result ≡ the_line_end state }
    ensures places { (least : ℕ) → least ≤ length line.now → IsInLine least (length line.now) result }
{
    match state {
        State::NewLine => Find::Paragraph,
        State::MidLine => Find::Token(SPACE, State::NewLine, line.len()),
        State::SkipBlanks | State::Kanji => Find::Nothing,
    }
}

fn after_brace(state: State) -> State
    ensures { result ≡ the_state_after_brace state }
{
    match state {
        State::Kanji => State::Kanji,
        State::NewLine | State::MidLine | State::SkipBlanks => State::MidLine,
    }
}

// A blank, with the place after it, where it isn't skipped.
fn blank(state: State, at: usize) -> Option<Find>
    ensures value { (line : List Char) (skipped : Glance) → or_skipped line result skipped ≡ the_blank state (drop at line) skipped }
    ensures places { (n : ℕ) → at ≤ n → IfSome result (IsInLine at n) }
{
    match state {
        State::NewLine | State::SkipBlanks => None,
        State::MidLine | State::Kanji => Some(Find::Token(SPACE, State::SkipBlanks, at)),
    }
}

// A character of one byte, with the place after it, where it isn't skipped.
fn of_category<C: CodeTable>(
    codes: &C,
    state: State,
    code: u8,
    line: &[Char],
    at: usize,
) -> Option<Find>
    requires least { 1 ≤ at }
    requires most { at ≤ length line.now }
    requires here { One code ≡ get_or line.now (at - 1) (One code) }
    ensures value { (skipped : Glance) → or_skipped line.now result skipped
        ≡ what_is_of_category (C.codes codes.now) state code ((C.codes codes.now).cat code) (drop at line.now) skipped }
    ensures places { IfSome result (IsInLine at (length line.now)) }
{
    match codes.cat(code) {
        0 => Some(escaped(codes, line, at)),
        cat @ (1 | 2) => Some(Find::Token(Token::Char(code, cat), after_brace(state), at)),
        5 => Some(line_end(state, line)),
        9 => None,
        10 => blank(state, at),
        13 => Some(Find::Name(true, at - 1, at, State::MidLine)),
        14 => Some(Find::Nothing),
        15 => Some(Find::Invalid),
        cat => Some(Find::Token(Token::Char(code, cat), State::MidLine, at)),
    }
}

// A character, with the place after it, where it isn't skipped.
fn met<C: CodeTable>(codes: &C, state: State, first: Char, line: &[Char], at: usize) -> Option<Find>
    requires least { 1 ≤ at }
    requires most { at ≤ length line.now }
    requires here { first ≡ get_or line.now (at - 1) first }
    ensures value { (skipped : Glance) → or_skipped line.now result skipped
        ≡ what_is_met (C.codes codes.now) state first (drop at line.now) skipped }
    ensures places { IfSome result (IsInLine at (length line.now)) }
{
    match first {
        Char::One(code) => of_category(codes, state, code, line, at),
        Char::Ja(cell) => Some(Find::Token(Token::Ja(cell), State::Kanji, at)),
    }
}

/// What stands next in a line from a place on.
#[tactic(auto, using(crate::proofs::Places::found_later, std::proofs::lemmas::Grind::common_steps))]
pub(crate) fn in_line<C: CodeTable>(codes: &C, state: State, line: &[Char], at: usize) -> Find
    requires { at ≤ length line.now }
    ensures value { glance_of line.now result ≡ what_is_in_line (C.codes codes.now) state (drop at line.now) }
    ensures places { IsInLine (at + 1) (length line.now) result }
{
    for place in at..line.len() {
        if let Some(find) = met(codes, state, line[place], line, place + 1) {
            return find;
        }
    }
    Find::Nothing
}
