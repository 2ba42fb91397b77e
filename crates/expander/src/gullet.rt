//! The gullet.

mod definitions;

ghost use Rattle.std.specs.Prelude.{◌≡◌, ◌≤◌, ◌<◌, ◌+◌, [], OnOk, OnErr, IfOk, IfErr, IfSome, IsSome};
ghost use Rattle.ts_base.specs.Agreement.{Agrees, Counts, Uncounted, with_fault};
ghost use Rattle.ts_outside.specs.States.{FilesState, KeepsAll};
ghost use Rattle.tok_lists.specs.Names.{AreHeld, HasNoParam};
ghost use Rattle.tok_lists.specs.StartNames.{start_names};
ghost use Rattle.env_groups.specs.Environments.{codes_of};
ghost use Rattle.mouth.specs.Reading.{at_place, stop_cause};
ghost use Rattle.mouth.specs.Tokens.{next_plain};
ghost use Rattle.mouth.specs.Changes.{with_list, spent};
ghost use Rattle.mouth.specs.Opening.{started, before_lines};
ghost use Rattle.mouth.specs.Sizes.{size};
ghost use Rattle.mouth.specs.Keeping.{numbers, reading, place_in, AgreesAt, AreOpen, AreTold, IsReadable, IsToken, KeepsFiles, LeavesOthers};
ghost use Rattle.scan_syntax.specs.Bounds.{IsWithinBounds};
ghost use Rattle.expander.specs.GulletFaults.{gullet_cause, of_mouth_fault, of_step_fault, stop_as, IsStartFault};
ghost use Rattle.expander.specs.Worlds.{world};
ghost use Rattle.expander.specs.Leaving.{but_meanings};
ghost use Rattle.expander.specs.Holding.{AreFit, Goes, IsListed, IsPlainList};
ghost use Rattle.expander.specs.Steps.{Next, Scan as ScanCall};
ghost use Rattle.expander.specs.Expansion.{run};

use crate::expansion::{next_token, scan};
use crate::gullet_fault::GulletFault;
use env_groups::Env;
use input_codings::Coding;
use mouth::{Mouth, Place};
use scan_syntax::{Value, Want};
use std::alloc::Global;
use std::marker::Model;
use tok_lists::{SharedTokens, Token};
use ts_base::NoMemory;
use ts_outside::{FileName, Files};

/// What expands tokens (The TeXbook, chapter 20): the mouth, with its files, names and units.
/// Contracts see what the mouth keeps.
#[derive(Drop)]
pub struct Gullet {
    mouth: Mouth,
    alloc: Global,
}

impl Model for Gullet {
    ghost use Rattle.mouth.specs.Keeping.{MouthView};

    ghost Value = { MouthView };

    ghost view = { λ g. g.mouth };
}

impl Gullet {
    /// Opens the main file, with the names that have a meaning at the start and so many units.
    /// Refuses with `FileMissing`, `ReadFault` and `NoMemory` alone; refused, it leaves open the
    /// files that were open.
    pub fn start<F: Files>(
        alloc: Global,
        files: &mut F,
        name: &FileName,
        coding: Coding,
        budget: u32,
    ) -> Result<Gullet, GulletFault>
        ensures exact { IfSome (F.state files.old).held (λ held.
            Agrees (λ gullet. reading gullet (F.state files.new)) (stop_cause gullet_cause)
            (with_fault (at_place (before_lines name.now)) result)
            (with_fault (stop_as of_mouth_fault) (started held coding budget name.now))) }
        ensures refuses { IfErr result IsStartFault }
        ensures opened { IfOk result (λ gullet. AreOpen gullet (F.state files.new)) }
        ensures readable { IfOk result IsReadable }
        ensures told { IfOk result (λ gullet. IsSome (F.state files.old).held
            → AreTold gullet (F.state files.new)) }
        ensures others { IfOk result (λ gullet.
            LeavesOthers [] (F.state files.old) (numbers gullet) (F.state files.new)) }
        ensures refused { OnErr result (KeepsAll (F.state files.old) (F.state files.new)) }
        ensures names { IfOk result (λ gullet. gullet.names ≡ start_names) }
        ensures counted { Counts gullet_cause result (F.state files.old).faults
            (F.state files.new).faults }
    {
        let mouth = Mouth::start(alloc, files, name, coding, budget)?;
        Ok(Gullet { mouth, alloc })
    }

    /// Returns the next unexpandable token: tokens at the front are expanded until one isn't
    /// expandable (The TeXbook, chapter 20).
    ///
    /// Each expansion spends its unit before anything else: `Budget` comes exactly where none is
    /// left, `DepthFull` exactly where 200 expansions have begun and not ended. `Undefined` comes
    /// exactly where an undefined name is expanded, which takes no unit. After a fault only `place`
    /// and `close_all` are used.
    #[tactic(auto, using(crate::proofs::Leaving::situation_kept, crate::proofs::Leaving::fonts_kept, crate::proofs::Leaving::groups_kept))]
    pub fn next<F: Files>(&mut self, files: &mut F, env: &mut Env) -> Result<Token, GulletFault>
        requires opened { AreOpen self.old (F.state files.old) }
        requires readable { IsReadable self.old }
        requires fit { AreFit self.old.names env.old }
        ensures exact { AreTold self.old (F.state files.old)
            → AgreesAt (λ token. (token, world (reading self.new (F.state files.new)) env.new))
            gullet_cause self.new result (with_fault (stop_as of_step_fault)
            (run Next (world (reading self.old (F.state files.old)) env.old))) }
        ensures goes { Goes self.old (F.state files.old) self.new (F.state files.new) }
        ensures readable { OnOk result (IsReadable self.new) }
        ensures fit { AreFit self.new.names env.new }
        ensures kept { but_meanings env.new ≡ but_meanings env.old }
        ensures situation { env.new.situation ≡ env.old.situation }
        ensures fonts { env.new.fonts ≡ env.old.fonts }
        ensures groups { env.new.groups ≡ env.old.groups }
        ensures token { IfOk result (IsToken self.new.names) }
        ensures size { OnOk result (size (reading self.new (F.state files.new))
            < size (reading self.old (F.state files.old))) }
        ensures counted { Counts gullet_cause result (F.state files.old).faults
            (F.state files.new).faults }
    {
        Ok(next_token(self.alloc, &mut self.mouth, files, env)?)
    }

    /// Returns the next token without expansion, a Kept token as its plain name. After a fault only
    /// `place` and `close_all` are used.
    #[tactic(auto, using(crate::proofs::Fitting::fit_still))]
    pub fn raw<F: Files>(&mut self, files: &mut F, env: &mut Env) -> Result<Token, GulletFault>
        requires opened { AreOpen self.old (F.state files.old) }
        requires readable { IsReadable self.old }
        requires fit { AreFit self.old.names env.old }
        ensures exact { AreTold self.old (F.state files.old)
            → AgreesAt (λ token. (token, reading self.new (F.state files.new))) gullet_cause
            self.new result (with_fault (stop_as of_mouth_fault)
            (next_plain (codes_of env.old) (reading self.old (F.state files.old)))) }
        ensures same { env.new ≡ env.old }
        ensures goes { Goes self.old (F.state files.old) self.new (F.state files.new) }
        ensures readable { OnOk result (IsReadable self.new) }
        ensures fit { AreFit self.new.names env.new }
        ensures token { IfOk result (IsToken self.new.names) }
        ensures size { OnOk result (size (reading self.new (F.state files.new))
            < size (reading self.old (F.state files.old))) }
        ensures counted { Counts gullet_cause result (F.state files.old).faults
            (F.state files.new).faults }
    {
        Ok(self.mouth.next_plain(files, &*env)?)
    }

    /// Scans: feeds a scan with the tokens that it wants, expanded or as they are, and puts back
    /// what it hands back (The TeXbook, chapter 24). Dimensions and glue are in scaled points.
    ///
    /// `NoNumber`, `NumberRange`, `NoUnit`, `DimenRange`, `RegisterRange`, `CodeRange` and `NoName`
    /// come exactly where the tokens so far have that fault, and what `next` refuses exactly where
    /// expansion gives it first. After a fault only `place` and `close_all` are used.
    #[tactic(auto, using(crate::proofs::Leaving::situation_kept, crate::proofs::Leaving::fonts_kept, crate::proofs::Leaving::groups_kept))]
    pub fn scan<F: Files>(
        &mut self,
        files: &mut F,
        env: &mut Env,
        want: Want,
    ) -> Result<Value, GulletFault>
        requires opened { AreOpen self.old (F.state files.old) }
        requires readable { IsReadable self.old }
        requires fit { AreFit self.old.names env.old }
        ensures exact { AreTold self.old (F.state files.old)
            → AgreesAt (λ value. (value, world (reading self.new (F.state files.new)) env.new))
            gullet_cause self.new result (with_fault (stop_as of_step_fault)
            (run (ScanCall want []) (world (reading self.old (F.state files.old)) env.old))) }
        ensures goes { Goes self.old (F.state files.old) self.new (F.state files.new) }
        ensures readable { OnOk result (IsReadable self.new) }
        ensures fit { AreFit self.new.names env.new }
        ensures kept { but_meanings env.new ≡ but_meanings env.old }
        ensures situation { env.new.situation ≡ env.old.situation }
        ensures fonts { env.new.fonts ≡ env.old.fonts }
        ensures groups { env.new.groups ≡ env.old.groups }
        ensures listed { IfOk result (IsListed (IsPlainList self.new.names)) }
        ensures within { IfOk result IsWithinBounds }
        ensures size { OnOk result (size (reading self.new (F.state files.new))
            ≤ size (reading self.old (F.state files.old))) }
        ensures counted { Counts gullet_cause result (F.state files.old).faults
            (F.state files.new).faults }
    {
        Ok(scan(self.alloc, &mut self.mouth, files, env, want)?)
    }

    /// Puts a list in front of what is pending in the innermost file. `TokensFull` comes exactly
    /// where more than 1,000,000 tokens would be pending there. Refused, it leaves everything.
    pub fn push(&mut self, list: &SharedTokens) -> Result<(), GulletFault>
        requires no_param { HasNoParam list.now }
        requires held { AreHeld self.old.names list.now }
        ensures exact { (state : FilesState) → AgreesAt (λ _. reading self.new state) gullet_cause
            self.new result (with_fault (stop_as of_mouth_fault)
            (with_list list.now (reading self.old state))) }
        ensures files { KeepsFiles self.old self.new }
        ensures names { self.new.names ≡ self.old.names }
        ensures refused { OnErr result (self.new ≡ self.old) }
        ensures quiet { Uncounted gullet_cause result }
        ensures size { (state : FilesState) → size (reading self.new state)
            ≤ size (reading self.old state) + 1000000 }
    {
        Ok(self.mouth.push_list(list)?)
    }

    /// Spends one unit. `Budget` comes exactly where none is left.
    pub fn spend(&mut self) -> Result<(), GulletFault>
        ensures exact { (state : FilesState) → AgreesAt (λ _. reading self.new state) gullet_cause
            self.new result (with_fault (stop_as of_mouth_fault)
            (spent (reading self.old state))) }
        ensures files { KeepsFiles self.old self.new }
        ensures names { self.new.names ≡ self.old.names }
        ensures refused { OnErr result (self.new ≡ self.old) }
        ensures quiet { Uncounted gullet_cause result }
        ensures size { OnOk result ((state : FilesState) → size (reading self.new state)
            + 100000000000 ≡ size (reading self.old state)) }
    {
        Ok(self.mouth.spend()?)
    }

    /// Returns the place: the innermost open file, and the number of its last line that was needed
    /// and is there, or 0 before the first.
    pub fn place(&self) -> Result<Place, NoMemory>
        ensures { IfOk result (λ place. place ≡ place_in self.now) }
    {
        Ok(self.mouth.place())
    }

    /// Closes every open file.
    pub fn close_all<F: Files>(self, files: &mut F)
        requires { AreOpen self (F.state files.old) }
        ensures others { LeavesOthers (numbers self) (F.state files.old) [] (F.state files.new) }
        ensures counted { (F.state files.new).faults ≡ (F.state files.old).faults }
    {
        self.mouth.close_all(files);
    }
}
