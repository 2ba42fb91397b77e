//! Tokens in front, units, expansions, conditionals, names, and texts in which no file may end.

ghost use Rattle.std.specs.Prelude.{◌≡◌, ◌≤◌, ◌<◌, ◌+◌, length, Err, slice_get, Some, OnOk, OnErr, IfOk};
ghost use Rattle.ts_base.specs.Agreement.{Uncounted};
ghost use Rattle.ts_outside.specs.States.{FilesState};
ghost use Rattle.tok_lists.specs.Names.{Grew, AreHeld, HasNoParam};
ghost use Rattle.tok_lists.specs.Pending.{AreParamsWithin, HaveNoParam, AllHeld};
ghost use Rattle.mouth.specs.Reading.{mouth_cause};
ghost use Rattle.mouth.specs.Changes.{with_list, with_call, named, ending, spent, begun, ended, opened, changed, closed, entered, left};
ghost use Rattle.mouth.specs.Sizes.{size};
ghost use Rattle.mouth.specs.Keeping.{reading, AgreesAt, KeepsFiles};

use crate::allowed::Allowed;
use crate::fault::MouthFault;
use crate::mouth::Mouth;
use jis_codes::Char;
use tok_lists::{Args, NameNo, Names, SharedTokens};
use ts_base::NoMemory;

/// How many expansions may have begun and not ended.
const MOST_BEGUN: u32 = 200;

impl Mouth {
    /// Puts a list in front of what is pending in the innermost file. `TokensFull` comes exactly
    /// where more than 1,000,000 tokens would be pending there. Refused, it leaves everything.
    #[tactic(auto, unfolding(crate::specs::Sizes::size, crate::specs::Sizes::unread))]
    pub fn push_list(&mut self, list: &SharedTokens) -> Result<(), MouthFault>
        requires no_param { HasNoParam list.now }
        requires held { AreHeld self.old.names list.now }
        ensures exact { (state : FilesState) → AgreesAt (λ _. reading self.new state) mouth_cause
            self.new result (with_list list.now (reading self.old state)) }
        ensures files { KeepsFiles self.old self.new }
        ensures names { self.new.names ≡ self.old.names }
        ensures refused { OnErr result (self.new ≡ self.old) }
        ensures quiet { Uncounted mouth_cause result }
        ensures size { (state : FilesState) → size (reading self.new state)
            ≤ size (reading self.old state) + 1000000 }
    {
        Ok(self.innermost.push_list(list)?)
    }

    /// Puts a macro's body in front of what is pending in the innermost file, with the arguments
    /// in the places of its parameters (The TeXbook, chapter 20). `TokensFull` comes exactly where
    /// more than 1,000,000 tokens would be pending there. Refused, it leaves everything.
    #[tactic(auto, using(tok_lists::proofs::Flat::call_held), unfolding(crate::specs::Sizes::size, crate::specs::Sizes::unread))]
    pub fn push_call(&mut self, body: &SharedTokens, args: Args) -> Result<(), MouthFault>
        requires params { AreParamsWithin (length args) body.now }
        requires no_param { HaveNoParam args }
        requires body_held { AreHeld self.old.names body.now }
        requires args_held { AllHeld self.old.names args }
        ensures exact { (state : FilesState) → AgreesAt (λ _. reading self.new state) mouth_cause
            self.new result (with_call args body.now (reading self.old state)) }
        ensures files { KeepsFiles self.old self.new }
        ensures names { self.new.names ≡ self.old.names }
        ensures refused { OnErr result (self.new ≡ self.old) }
        ensures quiet { Uncounted mouth_cause result }
        ensures size { (state : FilesState) → size (reading self.new state)
            ≤ size (reading self.old state) + 1000000 }
    {
        Ok(self.innermost.push_call(body, args)?)
    }

    /// Ends the innermost file after its present line, of which the rest is still read; before its
    /// first line was taken, after that one (The TeXbook, chapter 20, `\endinput`).
    #[tactic(auto, unfolding(crate::specs::Sizes::size, crate::specs::Sizes::unread))]
    pub fn end_after_line(&mut self)
        ensures exact { (state : FilesState) → reading self.new state
            ≡ ending (reading self.old state) }
        ensures files { KeepsFiles self.old self.new }
        ensures names { self.new.names ≡ self.old.names }
        ensures size { (state : FilesState) → size (reading self.new state)
            ≡ size (reading self.old state) }
    {
        self.innermost.end_after_line();
    }

    /// Returns the number of a spelling: its own, or the next one where the spelling is new.
    /// `NamesFull` comes exactly where it is new and 50,000 names are there. Refused, it leaves
    /// everything.
    #[tactic(auto, using(crate::proofs::Looking::files_held, std::proofs::lemmas::Option::gets), unfolding(crate::specs::Sizes::size, crate::specs::Sizes::unread))]
    pub fn intern(&mut self, active: bool, chars: &[Char]) -> Result<NameNo, MouthFault>
        ensures exact { (state : FilesState) → AgreesAt (λ n. (n.0, reading self.new state))
            mouth_cause self.new result
            (named (record { active = active; chars = chars.now }) (reading self.old state)) }
        ensures spelt { IfOk result (λ n. slice_get self.new.names n.0
            ≡ Some (record { active = active; chars = chars.now })) }
        ensures held { IfOk result (λ n. n.0 < length self.new.names) }
        ensures names { Grew self.old.names self.new.names }
        ensures files { KeepsFiles self.old self.new }
        ensures refused { OnErr result (self.new ≡ self.old) }
        ensures quiet { Uncounted mouth_cause result }
        ensures size { (state : FilesState) → size (reading self.new state)
            ≡ size (reading self.old state) }
    {
        Ok(self.names.intern(active, chars)?)
    }

    /// Returns the names.
    pub fn names(&self) -> &Names
        ensures { result.now ≡ self.now.names }
    {
        &self.names
    }

    /// Spends one unit. `Budget` comes exactly where none is left.
    #[tactic(auto, unfolding(crate::specs::Sizes::size, crate::specs::Sizes::unread))]
    pub fn spend(&mut self) -> Result<(), MouthFault>
        ensures exact { (state : FilesState) → AgreesAt (λ _. reading self.new state) mouth_cause
            self.new result (spent (reading self.old state)) }
        ensures files { KeepsFiles self.old self.new }
        ensures names { self.new.names ≡ self.old.names }
        ensures units { OnOk result (self.new.units + 1 ≡ self.old.units) }
        ensures fault { OnErr result (result ≡ Err MouthFault.Budget) }
        ensures refused { OnErr result (self.new ≡ self.old) }
        ensures quiet { Uncounted mouth_cause result }
        ensures size { OnOk result ((state : FilesState) → size (reading self.new state)
            + 100000000000 ≡ size (reading self.old state)) }
    {
        self.units = self.units.checked_sub(1).ok_or(MouthFault::Budget)?;
        Ok(())
    }

    /// Begins an expansion, which spends its unit first. `Budget` comes exactly where none is left,
    /// and nothing else happens then; and after its unit is spent, `DepthFull` exactly where 200
    /// expansions have begun and not ended.
    #[tactic(auto, unfolding(crate::specs::Sizes::size, crate::specs::Sizes::unread))]
    pub fn begin(&mut self) -> Result<(), MouthFault>
        ensures exact { (state : FilesState) → AgreesAt (λ _. reading self.new state) mouth_cause
            self.new result (begun (reading self.old state)) }
        ensures files { KeepsFiles self.old self.new }
        ensures names { self.new.names ≡ self.old.names }
        ensures budget { result ≡ Err MouthFault.Budget → self.new ≡ self.old }
        ensures depth { result ≡ Err MouthFault.DepthFull → self.new.units + 1 ≡ self.old.units }
        ensures quiet { Uncounted mouth_cause result }
        ensures size { OnOk result ((state : FilesState) → size (reading self.new state)
            + 100000000000 ≡ size (reading self.old state)) }
    {
        self.spend()?;
        if self.begun >= MOST_BEGUN {
            return Err(MouthFault::DepthFull);
        }
        self.begun += 1;
        Ok(())
    }

    /// Ends the expansion that began last.
    #[tactic(auto, unfolding(crate::specs::Sizes::size, crate::specs::Sizes::unread))]
    pub fn end(&mut self)
        ensures exact { (state : FilesState) → reading self.new state
            ≡ ended (reading self.old state) }
        ensures files { KeepsFiles self.old self.new }
        ensures names { self.new.names ≡ self.old.names }
        ensures size { (state : FilesState) → size (reading self.new state)
            ≡ size (reading self.old state) }
    {
        self.begun = self.begun.saturating_sub(1);
    }

    /// Opens a conditional whose test is being read, and returns its number, which is how many
    /// were open. Refused, it leaves everything.
    #[tactic(auto, unfolding(crate::specs::Sizes::size, crate::specs::Sizes::unread))]
    pub fn open_conditional(&mut self) -> Result<usize, NoMemory>
        ensures exact { OnOk result ((state : FilesState) → reading self.new state
            ≡ opened (reading self.old state)) }
        ensures number { IfOk result (λ number. number ≡ length self.old.conditionals) }
        ensures files { KeepsFiles self.old self.new }
        ensures names { self.new.names ≡ self.old.names }
        ensures refused { OnErr result (self.new ≡ self.old) }
        ensures size { (state : FilesState) → size (reading self.new state)
            ≡ size (reading self.old state) }
    {
        let number = self.conditionals.len();
        self.conditionals.push(Allowed::Test)?;
        Ok(number)
    }

    /// Changes what is allowed in the open conditional of a number, where there is one.
    #[tactic(auto, unfolding(crate::specs::Sizes::size, crate::specs::Sizes::unread))]
    pub fn change_conditional(&mut self, number: usize, allowed: Allowed)
        ensures exact { (state : FilesState) → reading self.new state
            ≡ changed number allowed (reading self.old state) }
        ensures files { KeepsFiles self.old self.new }
        ensures names { self.new.names ≡ self.old.names }
        ensures size { (state : FilesState) → size (reading self.new state)
            ≡ size (reading self.old state) }
    {
        if let Some(present) = self.conditionals.get_mut(number) {
            *present = allowed;
        }
    }

    /// Closes the innermost conditional, where one is open.
    #[tactic(auto, unfolding(crate::specs::Sizes::size, crate::specs::Sizes::unread))]
    pub fn close_conditional(&mut self)
        ensures exact { (state : FilesState) → reading self.new state
            ≡ closed (reading self.old state) }
        ensures files { KeepsFiles self.old self.new }
        ensures names { self.new.names ≡ self.old.names }
        ensures size { (state : FilesState) → size (reading self.new state)
            ≡ size (reading self.old state) }
    {
        self.conditionals.pop();
    }

    /// Returns what is allowed in each open conditional, the outermost first.
    pub fn conditionals(&self) -> &[Allowed]
        ensures { result.now ≡ self.now.conditionals }
    {
        &self.conditionals
    }

    /// Enters a text in which no file may end: an argument, a definition, a token list, or skipped
    /// text. Refused, it leaves everything.
    #[tactic(auto, unfolding(crate::specs::Sizes::size, crate::specs::Sizes::unread))]
    pub fn enter_text(&mut self) -> Result<(), NoMemory>
        ensures exact { OnOk result ((state : FilesState) → reading self.new state
            ≡ entered (reading self.old state)) }
        ensures files { KeepsFiles self.old self.new }
        ensures names { self.new.names ≡ self.old.names }
        ensures refused { OnErr result (self.new ≡ self.old) }
        ensures size { (state : FilesState) → size (reading self.new state)
            ≡ size (reading self.old state) }
    {
        self.inside = self.inside.checked_add(1).ok_or(NoMemory)?;
        Ok(())
    }

    /// Leaves the text that was entered last.
    #[tactic(auto, unfolding(crate::specs::Sizes::size, crate::specs::Sizes::unread))]
    pub fn leave_text(&mut self)
        ensures exact { (state : FilesState) → reading self.new state
            ≡ left (reading self.old state) }
        ensures files { KeepsFiles self.old self.new }
        ensures names { self.new.names ≡ self.old.names }
        ensures size { (state : FilesState) → size (reading self.new state)
            ≡ size (reading self.old state) }
    {
        self.inside = self.inside.saturating_sub(1);
    }
}
