//! The next token without expansion.

ghost use Rattle.std.specs.Prelude.{◌≡◌, ◌<◌, ◌≤◌, length, OnOk, IfOk};
ghost use Rattle.ts_base.specs.Agreement.{Counts, Uncounted};
ghost use Rattle.tok_lists.specs.Names.{Grew};
ghost use Rattle.mouth.specs.Reading.{mouth_cause};
ghost use Rattle.kcat_eyes.specs.Sights.{Lowers};
ghost use Rattle.mouth.specs.Tokens.{looked, file_ended, next as the_next, next_plain as the_next_plain, plain as the_plain};
ghost use Rattle.mouth.specs.Sizes.{unread, size, kept_size};
ghost use Rattle.mouth.specs.Keeping.{numbers, reading, AgreesAt, AreOpen, AreTold, IsReadable, IsToken, IsGiven, LeavesOthers};

use crate::fault::MouthFault;
use crate::mouth::Mouth;
use crate::stack::pop_file;
use kcat_eyes::Seen;
use std::mem;
use tok_lists::{CodeTable, Token};
use ts_outside::Files;

// The plain name of a Kept token, and any other token as it is.
fn plain(token: Token) -> Token
    ensures { result ≡ the_plain token }
{
    match token {
        Token::Kept(name) => Token::Name(name),
        _ => token,
    }
}

impl Mouth {
    /// Returns the next token without expansion: what is pending in the innermost file comes
    /// first, and a file that ends is closed. A `Kept` token shows that it was kept.
    ///
    /// `NoEnd` comes exactly at the end of the main file. Where no file may end, `FileEnded` comes
    /// exactly at the end of any; that file is then still open. The other faults are those of the
    /// eyes. After a fault only `place` and `close_all` are used.
    #[tactic(auto, using(crate::proofs::Leaving::leaves_then, tok_lists::proofs::Growing::grew_then))]
    pub fn next<F: Files, C: CodeTable>(
        &mut self,
        files: &mut F,
        codes: &C,
    ) -> Result<Token, MouthFault>
        requires opened { AreOpen self.old (F.state files.old) }
        requires readable { IsReadable self.old }
        ensures exact { AreTold self.old (F.state files.old)
            → AgreesAt (λ token. (token, reading self.new (F.state files.new))) mouth_cause
            self.new result (the_next (C.codes codes.now) (reading self.old (F.state files.old))) }
        ensures opened { AreOpen self.new (F.state files.new) }
        ensures readable { OnOk result (IsReadable self.new) }
        ensures told { AreTold self.old (F.state files.old) → AreTold self.new (F.state files.new) }
        ensures others { LeavesOthers (numbers self.old) (F.state files.old)
            (numbers self.new) (F.state files.new) }
        ensures token { IfOk result (IsToken self.new.names) }
        ensures names { Grew self.old.names self.new.names }
        ensures units { self.new.units ≡ self.old.units }
        ensures unread { OnOk result (unread (reading self.new (F.state files.new))
            < unread (reading self.old (F.state files.old))) }
        ensures size { OnOk result (size (reading self.new (F.state files.new))
            < size (reading self.old (F.state files.old))) }
        ensures counted { Counts mouth_cause result (F.state files.old).faults
            (F.state files.new).faults }
    {
        loop {
            match self.look(files, codes)? {
                Seen::Token(token) => return Ok(token),
                Seen::End => self.end_file(files)?,
            }
        }
    }

    /// Returns the next token without expansion as `next` does, but a `Kept` token as its plain
    /// name.
    pub fn next_plain<F: Files, C: CodeTable>(
        &mut self,
        files: &mut F,
        codes: &C,
    ) -> Result<Token, MouthFault>
        requires opened { AreOpen self.old (F.state files.old) }
        requires readable { IsReadable self.old }
        ensures exact { AreTold self.old (F.state files.old)
            → AgreesAt (λ token. (token, reading self.new (F.state files.new))) mouth_cause
            self.new result
            (the_next_plain (C.codes codes.now) (reading self.old (F.state files.old))) }
        ensures opened { AreOpen self.new (F.state files.new) }
        ensures readable { OnOk result (IsReadable self.new) }
        ensures told { AreTold self.old (F.state files.old) → AreTold self.new (F.state files.new) }
        ensures others { LeavesOthers (numbers self.old) (F.state files.old)
            (numbers self.new) (F.state files.new) }
        ensures token { IfOk result (IsToken self.new.names) }
        ensures names { Grew self.old.names self.new.names }
        ensures units { self.new.units ≡ self.old.units }
        ensures unread { OnOk result (unread (reading self.new (F.state files.new))
            < unread (reading self.old (F.state files.old))) }
        ensures size { OnOk result (size (reading self.new (F.state files.new))
            < size (reading self.old (F.state files.old))) }
        ensures counted { Counts mouth_cause result (F.state files.old).faults
            (F.state files.new).faults }
    {
        let token = self.next(files, codes)?;
        Ok(plain(token))
    }

    // What the innermost file gives next.
    fn look<F: Files, C: CodeTable>(&mut self, files: &mut F, codes: &C) -> Result<Seen, MouthFault>
        requires opened { AreOpen self.old (F.state files.old) }
        requires readable { IsReadable self.old }
        ensures exact { AreTold self.old (F.state files.old)
            → AgreesAt (λ seen. (seen, reading self.new (F.state files.new))) mouth_cause
            self.new result (looked (C.codes codes.now) (reading self.old (F.state files.old))) }
        ensures opened { AreOpen self.new (F.state files.new) }
        ensures readable { OnOk result (IsReadable self.new) }
        ensures told { AreTold self.old (F.state files.old) → AreTold self.new (F.state files.new) }
        ensures others { LeavesOthers (numbers self.old) (F.state files.old)
            (numbers self.new) (F.state files.new) }
        ensures given { IfOk result (IsGiven self.new.names) }
        ensures names { Grew self.old.names self.new.names }
        ensures units { self.new.units ≡ self.old.units }
        ensures below { self.new.below ≡ self.old.below }
        ensures lowers { Lowers result (kept_size self.old) (kept_size self.new) }
        ensures counted { Counts mouth_cause result (F.state files.old).faults
            (F.state files.new).faults }
    {
        Ok(self.innermost.next(files, codes, &mut self.names)?)
    }

    // Closes the innermost file at its end, where it may end and another is below it.
    fn end_file<F: Files>(&mut self, files: &mut F) -> Result<(), MouthFault>
        requires opened { AreOpen self.old (F.state files.old) }
        requires readable { IsReadable self.old }
        ensures exact { AreTold self.old (F.state files.old)
            → AgreesAt (λ _. reading self.new (F.state files.new)) mouth_cause
            self.new result (file_ended (reading self.old (F.state files.old))) }
        ensures opened { AreOpen self.new (F.state files.new) }
        ensures readable { IsReadable self.new }
        ensures told { AreTold self.old (F.state files.old) → AreTold self.new (F.state files.new) }
        ensures others { LeavesOthers (numbers self.old) (F.state files.old)
            (numbers self.new) (F.state files.new) }
        ensures names { self.new.names ≡ self.old.names }
        ensures units { self.new.units ≡ self.old.units }
        ensures fewer { OnOk result (length self.new.below < length self.old.below) }
        ensures size { kept_size self.new ≤ kept_size self.old }
        ensures quiet { Uncounted mouth_cause result }
        ensures counted { (F.state files.new).faults ≡ (F.state files.old).faults }
    {
        if self.inside > 0 {
            return Err(MouthFault::FileEnded);
        }
        let Some(file) = pop_file(&mut self.below) else {
            return Err(MouthFault::NoEnd);
        };
        let ended = mem::replace(&mut self.innermost, file);
        ended.close(files);
        Ok(())
    }
}
