//! A page that is written.

ghost use Rattle.std.specs.Prelude.{◌≡◌, true, [], ◌∷◌, OnOk, IfErr};
ghost use Rattle.box_marks.specs.Bounds.{IsSoundPiece};
ghost use Rattle.dvi_writer.specs.Saying.{said, fits, IsInReach};
ghost use Rattle.dvi_writer.specs.Wrote.{Wrote, Writes, Refuses, HasByte};

use crate::fault::WriteFault;
use crate::hand::{Hand, across, along, fits};
use crate::put::{put_down, put_piece, put_right, put_turn};
use box_marks::Placed;
use std::alloc::AllocError;

/// A page that is written: its bytes so far, and where writing stands.
#[derive(Debug, Drop)]
pub(crate) struct Pen {
    pub(crate) out: Vec<u8>,
    pub(crate) hand: Hand,
}

impl Pen {
    /// Puts the commands that mark a glyph or a rule.
    pub(crate) fn put(&mut self, p: Placed) -> Result<(), WriteFault>
        requires near { IsInReach self.old.hand.at }
        requires sound { IsSoundPiece p.piece }
        ensures ok { OnOk result (Writes self.old self.new (p ∷ [])) }
        ensures err { IfErr result (λ fault. Refuses fault (p ∷ [])) }
    {
        if !fits(p) {
            return Err(WriteFault::PlaceRange);
        }
        put_said(&mut self.out, self.hand, p)?;
        self.hand = self.hand.after(p);
        Ok(())
    }
}

#[tactic(auto, using(crate::proofs::Said::is_short_there))]
fn put_said(out: &mut Vec<u8>, hand: Hand, p: Placed) -> Result<(), AllocError>
    requires near { IsInReach hand.at }
    requires fit { fits p ≡ true }
    requires sound { IsSoundPiece p.piece }
    ensures wrote { OnOk result (Wrote out.old.items out.new.items (said hand p)) }
    ensures byte { OnOk result (HasByte p.piece) }
{
    put_turn(out, hand.dir, p.dir)?;
    put_right(out, along(p.dir, hand.at, p.at))?;
    put_down(out, across(p.dir, hand.at, p.at))?;
    put_piece(out, hand.font, p.piece)?;
    Ok(())
}
