//! Lists, calls and what is read of them.

ghost use Rattle.std.specs.Prelude.{◌≡◌, [], ◌∷◌, IfOk};
ghost use Rattle.tok_lists.specs.Names.{HasNoParam};
ghost use Rattle.tok_lists.specs.Pending.{AreParamsWithin};

use crate::{Args, NameNo, Pending, PendingFault, SharedTokens, Token, Tokens};
use std::alloc::Global;
use std::test::Fail;
use ts_base::NoMemory;

const A: Token = Token::Char(b'a', 11);

const B: Token = Token::Char(b'b', 11);

const C: Token = Token::Char(b'c', 11);

const BAR: Token = Token::Char(b'|', 12);

const FIRST: Token = Token::Param(1);

const SECOND: Token = Token::Param(2);

const LOOP: Token = Token::Name(NameNo(138));

fn one(alloc: Global, first: &[Token]) -> Result<Args, NoMemory>
    ensures { IfOk result (λ args. args ≡ first.now ∷ []) }
{
    let mut args = Args::new(alloc);
    args.push(SharedTokens::new(alloc, first)?)?;
    Ok(args)
}

fn two(alloc: Global, first: &[Token], second: &[Token]) -> Result<Args, NoMemory>
    ensures { IfOk result (λ args. args ≡ first.now ∷ second.now ∷ []) }
{
    let mut args = one(alloc, first)?;
    args.push(SharedTokens::new(alloc, second)?)?;
    Ok(args)
}

fn list(alloc: Global, pending: &mut Pending, list: &[Token]) -> Result<(), PendingFault>
    requires { HasNoParam list.now }
{
    pending.push_list(&SharedTokens::new(alloc, list)?)
}

fn call(
    alloc: Global,
    pending: &mut Pending,
    body: &[Token],
    first: &[Token],
) -> Result<(), PendingFault>
    requires params { AreParamsWithin 1 body.now }
    requires no_param { HasNoParam first.now }
{
    pending.push_call(&SharedTokens::new(alloc, body)?, one(alloc, first)?)
}

fn call_of_two(
    alloc: Global,
    pending: &mut Pending,
    body: &[Token],
    first: &[Token],
    second: &[Token],
) -> Result<(), PendingFault>
    requires params { AreParamsWithin 2 body.now }
    requires first { HasNoParam first.now }
    requires second { HasNoParam second.now }
{
    pending.push_call(&SharedTokens::new(alloc, body)?, two(alloc, first, second)?)
}

// The tokens that were pending.
fn taken(alloc: Global, pending: &mut Pending) -> Result<Tokens, NoMemory> {
    let mut tokens = Tokens::new(alloc);
    for _ in 0..pending.len() {
        if let Some(token) = pending.take() {
            tokens.push(token)?;
        }
    }
    Ok(tokens)
}

#[test]
fn arguments_stand_in_their_places(rt: HostRuntime) -> Result<(), Fail> {
    let alloc = rt.alloc();
    let mut pending = Pending::new(alloc);
    list(alloc, &mut pending, &[A, B])?;
    call_of_two(
        alloc,
        &mut pending,
        &[SECOND, BAR, FIRST, SECOND, BAR],
        &[A, B],
        &[C],
    )?;
    call(alloc, &mut pending, &[BAR, FIRST, FIRST, BAR], &[])?;
    call(alloc, &mut pending, &[C, FIRST], &[LOOP, B])?;
    call(alloc, &mut pending, &[FIRST], &[])?;
    list(alloc, &mut pending, &[])?;
    assert_eq!(rt;
        taken(alloc, &mut pending)?.as_slice(),
        [C, LOOP, B, BAR, BAR, C, BAR, A, B, C, BAR, A, B].as_slice()
    );
    assert_eq!(rt; (pending.len(), pending.take()), (0, None));
    Ok(())
}

fn full(alloc: Global) -> Result<Pending, PendingFault> {
    let ten = SharedTokens::new(alloc, &[A, B, C, A, B, C, A, B, C, BAR])?;
    let mut pending = Pending::new(alloc);
    for _ in 0..100_000u32 {
        pending.push_list(&ten)?;
    }
    Ok(pending)
}

#[test]
fn the_list_ends_at_1000000_tokens(rt: HostRuntime) -> Result<(), Fail> {
    let alloc = rt.alloc();
    let mut pending = full(alloc)?;
    let answers = [
        list(alloc, &mut pending, &[BAR]),
        call(alloc, &mut pending, &[BAR], &[]),
        call(alloc, &mut pending, &[FIRST, FIRST], &[]),
    ];
    let full = Err(PendingFault::TokensFull);
    assert_eq!(rt; answers, [full, full, Ok(())]);
    assert_eq!(rt; (pending.len(), pending.take()), (1_000_000, Some(A)));
    let answers = [
        call(alloc, &mut pending, &[FIRST, FIRST], &[C]),
        list(alloc, &mut pending, &[BAR]),
    ];
    assert_eq!(rt; answers, [full, Ok(())]);
    assert_eq!(rt; (pending.len(), pending.take()), (1_000_000, Some(BAR)));
    Ok(())
}

#[test]
fn a_loop_of_tail_calls(rt: HostRuntime) -> Result<(), Fail> {
    let alloc = rt.alloc();
    let body = SharedTokens::new(alloc, &[BAR, FIRST, LOOP])?;
    let mut pending = Pending::new(alloc);
    for _ in 0..100_000u32 {
        pending.push_call(&body, one(alloc, &[A])?)?;
        let tokens = [pending.take(), pending.take(), pending.take()];
        assert_eq!(rt; tokens, [Some(BAR), Some(A), Some(LOOP)]);
    }
    assert_eq!(rt; pending.take(), None);
    Ok(())
}

#[test]
fn shared_lists_are_read_by_index(rt: HostRuntime) -> Result<(), Fail> {
    let list = SharedTokens::new(rt.alloc(), &[A, FIRST])?;
    let copy = list.same_copy();
    let tokens = [copy.get(0), copy.get(1), copy.get(2)];
    assert_eq!(rt; tokens, [Some(A), Some(FIRST), None]);
    assert!(rt; copy == list);
    let args = two(rt.alloc(), &[A], &[B, C])?;
    assert_eq!(rt; args.as_slice()[1].as_slice(), [B, C].as_slice());
    Ok(())
}
