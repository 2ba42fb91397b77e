//! Numbers as the bytes of a DVI file, the highest byte first.

ghost use Rattle.std.specs.Prelude.{◌≡◌, ◌++◌, List, ℕ, Ok, OnOk, OnErr, length, drop};
ghost use Rattle.byteorder.specs.Endian.{big_bytes};
ghost use Rattle.dvi_commands.specs.Fields.{signed, unsigned, signed_bytes};

use byteorder::{BigEndian, ByteOrder};
use std::alloc::AllocError;

/// Puts a number with a sign as four bytes, which a DVI file reads as that number whatever stands
/// after them (TeX: The Program, section 600). Refused, it leaves the bytes as they were.
#[tactic(auto, using(crate::proofs::Numbers::signed_put))]
pub fn put_signed(out: &mut Vec<u8>, number: i32) -> Result<(), AllocError>
    ensures bytes { OnOk result (out.new.items ≡ out.old.items ++ signed_bytes number) }
    ensures read { OnOk result ((rest : List ℕ) → signed 4 (drop (length out.old.items)
        out.new.items ++ rest) ≡ Ok (number, rest)) }
    ensures refused { OnErr result (out.new.items ≡ out.old.items) }
{
    let mut bytes = [0; 4];
    BigEndian::write_i32(&mut bytes, number);
    out.extend_from_slice(&bytes)
}

/// Puts a number without a sign as four bytes, which a DVI file reads as that number whatever
/// stands after them (TeX: The Program, section 600). Refused, it leaves the bytes as they were.
#[tactic(auto, using(crate::proofs::Numbers::unsigned_put))]
pub fn put_unsigned(out: &mut Vec<u8>, number: u32) -> Result<(), AllocError>
    ensures bytes { OnOk result (out.new.items ≡ out.old.items ++ big_bytes 4 number) }
    ensures read { OnOk result ((rest : List ℕ) → unsigned 4 (drop (length out.old.items)
        out.new.items ++ rest) ≡ Ok (number, rest)) }
    ensures refused { OnErr result (out.new.items ≡ out.old.items) }
{
    let mut bytes = [0; 4];
    BigEndian::write_u32(&mut bytes, number);
    out.extend_from_slice(&bytes)
}

/// Puts a number without a sign as two bytes, which a DVI file reads as that number whatever stands
/// after them (TeX: The Program, sections 583 to 585). Refused, it leaves the bytes as they were.
#[tactic(auto, using(crate::proofs::Numbers::short_put))]
pub fn put_short(out: &mut Vec<u8>, number: u16) -> Result<(), AllocError>
    ensures bytes { OnOk result (out.new.items ≡ out.old.items ++ big_bytes 2 number) }
    ensures read { OnOk result ((rest : List ℕ) → unsigned 2 (drop (length out.old.items)
        out.new.items ++ rest) ≡ Ok (number, rest)) }
    ensures refused { OnErr result (out.new.items ≡ out.old.items) }
{
    let mut bytes = [0; 2];
    BigEndian::write_u16(&mut bytes, number);
    out.extend_from_slice(&bytes)
}
