//! A shipper that puts each page.

ghost use Rattle.std.specs.Prelude.{◌≡◌, ◌<◌, ◌+◌, ◌^◌, [], ◌∷◌, ℕ, List, Option, Bool, true, false, length, take, OnOk, OnErr, IfErr};
ghost use Rattle.std.specs.Borrow.{GName};
ghost use Rattle.ts_base.specs.Agreement.{Counts};
ghost use Rattle.ts_outside.specs.Gaining.{Gained, GainedPart, put_cause};
ghost use Rattle.dvi_writer.specs.Reading.{Asked};
ghost use Rattle.dvi_writer.specs.Standing.{last_bytes};
ghost use Rattle.shipping.specs.Faults.{ship_cause, IsOutside};
ghost use Rattle.shipping.specs.Standing.{Took, held_before, PutsFile, PutsPartly};

use crate::fault::ShipFault;
use crate::shipper::Shipper;
use box_tree::SharedBox;
use dvi_code::laws::whole_pages_are_the_first;
use dvi_writer::laws::pages_are_whole;
use dvi_writer::{FontTable, Writer};
use std::alloc::Global;
use ts_outside::{Put, PutFault, Sink, put_all};

/// A shipper that puts each page to a sink before it answers that the box is taken, and the
/// postamble at its end. It keeps no box.
///
/// The writer is a parameter of the type, so that a caller learns what its sink holds after the
/// shipper is gone.
pub struct PageShipper<'a, S: Sink, W: Drop = Writer> {
    out: &'a mut S,
    writer: W,
    put: u64,
    broken: bool,
}

impl<S: Sink, W: Drop> Drop for PageShipper<'_, S, W> {
    fn drop(self)
        ensures { self.exit.0.now ≡ self.entry.out.now }
    {
        let PageShipper {
            out: _,
            writer: _,
            put: _,
            broken: _,
        } = self;
    }
}

// Puts all bytes, and counts those that are put.
fn put_counted<S: Sink>(out: &mut S, put: &mut u64, bytes: &[u8]) -> Result<(), PutFault>
    requires room { put.old + length bytes.now < 2 ^ 64 }
    ensures all { OnOk result (Gained (S.held out.old) (S.held out.new) bytes.now) }
    ensures whole { OnOk result (put.new ≡ put.old + length bytes.now) }
    ensures part { OnErr result ((n : ℕ) × (n < length bytes.now)
        × Gained (S.held out.old) (S.held out.new) (take n bytes.now)
        × (put.new ≡ put.old + n)) }
    ensures counted { Counts put_cause result (S.faults out.old) (S.faults out.new) }
{
    let mut done = 0;
    while done < bytes.len() {
        match out.put(&bytes[done..]) {
            Put::Took(n) => {
                done += n;
                *put += n as u64;
            }
            Put::Failed => return Err(PutFault::Failed),
            Put::NoMemory => return Err(PutFault::NoMemory),
        }
    }
    Ok(())
}

impl<'a, S: Sink> PageShipper<'a, S> {
    /// Returns a shipper that has taken no box. Takes no memory.
    pub fn new(alloc: Global, out: &'a mut S) -> PageShipper<'a, S>
        ensures loan { result.out.ghost_name ≡ out.entry.ghost_name }
        ensures held { result.out.now ≡ out.old }
        ensures put { result.put ≡ 0 }
        ensures whole { result.broken ≡ false }
        ensures took { Took (S.held result.out.now) result.writer result.put result.broken [] }
    {
        pages_are_whole();
        PageShipper {
            out,
            writer: Writer::new(alloc),
            put: 0,
            broken: false,
        }
    }

    /// Returns how many boxes it took. Takes no memory.
    pub fn pages(&self) -> u16
        ensures { (boxes : List Asked) → Took (S.held self.now.out.now) self.now.writer
            self.now.put self.now.broken boxes → self.now.broken ≡ false
            → result ≡ length boxes }
    {
        self.writer.pages()
    }

    /// Puts the postamble, or nothing where no box was taken. `SinkFault` comes only where the sink
    /// fails. Refused, it has put a part of the postamble that isn't all of it.
    pub fn finish(self) -> Result<(), ShipFault>
        ensures done { OnOk result ((boxes : List Asked)
            → Took (S.held self.entry.out.now) self.entry.writer self.entry.put self.entry.broken
            boxes → self.entry.broken ≡ false
            → PutsFile (held_before (S.held self.entry.out.now) self.entry.put)
            (S.held self.exit.0.now) boxes) }
        ensures all { OnOk result (Gained (S.held self.entry.out.now) (S.held self.exit.0.now)
            (last_bytes self.entry.writer)) }
        ensures partly { OnErr result ((boxes : List Asked)
            → Took (S.held self.entry.out.now) self.entry.writer self.entry.put self.entry.broken
            boxes → self.entry.broken ≡ false
            → PutsPartly (held_before (S.held self.entry.out.now) self.entry.put)
            (S.held self.exit.0.now) boxes) }
        ensures part { OnErr result (GainedPart (S.held self.entry.out.now)
            (S.held self.exit.0.now) (last_bytes self.entry.writer)) }
        ensures outside { IfErr result IsOutside }
        ensures counted { Counts ship_cause result (S.faults self.entry.out.now)
            (S.faults self.exit.0.now) }
    {
        whole_pages_are_the_first();
        let PageShipper {
            out,
            writer,
            put: _,
            broken,
        } = self;
        if broken {
            return Err(ShipFault::NoMemory);
        }
        let end = writer.finish()?;
        put_all(out, &end)?;
        Ok(())
    }
}

impl<'a, S: Sink> Shipper for PageShipper<'a, S> {
    ghost Origin = { GName × Option (List ℕ) };

    ghost stands = { λ p boxes. Took (S.held p.out.now) p.writer p.put p.broken boxes };

    ghost faults = { λ p. S.faults p.out.now };

    ghost broken = { λ p. p.broken };

    ghost origin = { λ p. (p.out.ghost_name, held_before (S.held p.out.now) p.put) };

    fn ship(
        &mut self,
        node: &SharedBox,
        counts: &[i32; 10],
        fonts: &FontTable,
    ) -> Result<(), ShipFault> {
        pages_are_whole();
        if self.broken {
            return Err(ShipFault::NoMemory);
        }
        let page = self.writer.page(node, counts, fonts)?;
        if page.len() as u64 > u64::MAX - self.put {
            self.broken = true;
            return Err(ShipFault::NoMemory);
        }
        if let Err(fault) = put_counted(self.out, &mut self.put, &page) {
            self.broken = true;
            return Err(ShipFault::from(fault));
        }
        Ok(())
    }
}
