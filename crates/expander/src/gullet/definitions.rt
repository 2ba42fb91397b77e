//! Macro definitions and token lists.

ghost use Rattle.std.specs.Prelude.{◌≡◌, ◌<◌, OnOk, IfOk};
ghost use Rattle.ts_base.specs.Agreement.{Counts, with_fault};
ghost use Rattle.mouth.specs.Sizes.{size};
ghost use Rattle.mouth.specs.Keeping.{reading, AgreesAt, AreOpen, AreTold, IsReadable};
ghost use Rattle.raw_texts.specs.Braced.{braced};
ghost use Rattle.raw_texts.specs.Holding.{AreTokens};
ghost use Rattle.macros.specs.Definitions.{IsDefined};
ghost use Rattle.expander.specs.GulletFaults.{gullet_cause, of_macro_fault, of_step_fault, stop_as};
ghost use Rattle.expander.specs.Worlds.{world};
ghost use Rattle.expander.specs.Leaving.{but_meanings};
ghost use Rattle.expander.specs.Holding.{AreFit, Goes};
ghost use Rattle.expander.specs.Definitions.{definition_of};

use super::Gullet;
use crate::definition::read_macro;
use crate::gullet_fault::GulletFault;
use env_groups::{Env, MacroDef};
use raw_texts::read_braced;
use tok_lists::SharedTokens;
use ts_outside::Files;

impl Gullet {
    /// Reads a macro definition whose name was taken, parameter text and body, with its body
    /// expanded or not (The TeXbook, chapter 20; TeX: The Program, sections 473 to 479). The macro
    /// isn't long.
    ///
    /// `BadParameter` comes exactly where a `#` isn't followed by what may follow it, `NoBrace`
    /// exactly where a `}` stands before the body, and `FileEnded` where a file ends in the
    /// definition; the others are those of `raw`, and in an expanded body those of `next`. After a
    /// fault only `place` and `close_all` are used.
    #[tactic(auto, using(crate::proofs::Leaving::situation_kept, crate::proofs::Leaving::fonts_kept, crate::proofs::Leaving::groups_kept))]
    pub fn definition<F: Files>(
        &mut self,
        files: &mut F,
        env: &mut Env,
        expand: bool,
    ) -> Result<MacroDef, GulletFault>
        requires opened { AreOpen self.old (F.state files.old) }
        requires readable { IsReadable self.old }
        requires fit { AreFit self.old.names env.old }
        ensures exact { AreTold self.old (F.state files.old)
            → AgreesAt (λ definition. (
              definition,
              world (reading self.new (F.state files.new)) env.new,
            )) gullet_cause self.new result
            (with_fault (stop_as of_step_fault) (definition_of expand
            (world (reading self.old (F.state files.old)) env.old))) }
        ensures goes { Goes self.old (F.state files.old) self.new (F.state files.new) }
        ensures readable { OnOk result (IsReadable self.new) }
        ensures fit { AreFit self.new.names env.new }
        ensures kept { but_meanings env.new ≡ but_meanings env.old }
        ensures situation { env.new.situation ≡ env.old.situation }
        ensures fonts { env.new.fonts ≡ env.old.fonts }
        ensures groups { env.new.groups ≡ env.old.groups }
        ensures defined { IfOk result (IsDefined self.new.names) }
        ensures size { OnOk result (size (reading self.new (F.state files.new))
            < size (reading self.old (F.state files.old))) }
        ensures counted { Counts gullet_cause result (F.state files.old).faults
            (F.state files.new).faults }
    {
        Ok(read_macro(self.alloc, &mut self.mouth, files, env, expand)?)
    }

    /// Reads a token list in braces without expansion (The TeXbook, chapters 20 and 24; TeX: The
    /// Program, sections 403 and 473). Its `{` may stand after spaces and `\relax`, and may be a
    /// name that means it; `NoBrace` comes exactly where another token stands there. Its `}` is a
    /// character, and `FileEnded` comes where a file ends between the two; the others are those of
    /// `raw`. After a fault only `place` and `close_all` are used.
    #[tactic(auto, using(crate::proofs::Fitting::fit_still))]
    pub fn balanced<F: Files>(
        &mut self,
        files: &mut F,
        env: &mut Env,
    ) -> Result<SharedTokens, GulletFault>
        requires opened { AreOpen self.old (F.state files.old) }
        requires readable { IsReadable self.old }
        requires fit { AreFit self.old.names env.old }
        ensures exact { AreTold self.old (F.state files.old)
            → AgreesAt (λ tokens. (tokens, reading self.new (F.state files.new))) gullet_cause
            self.new result (with_fault (stop_as of_macro_fault)
            (braced env.old (reading self.old (F.state files.old)))) }
        ensures same { env.new ≡ env.old }
        ensures goes { Goes self.old (F.state files.old) self.new (F.state files.new) }
        ensures readable { OnOk result (IsReadable self.new) }
        ensures fit { AreFit self.new.names env.new }
        ensures tokens { IfOk result (AreTokens self.new.names) }
        ensures size { OnOk result (size (reading self.new (F.state files.new))
            < size (reading self.old (F.state files.old))) }
        ensures counted { Counts gullet_cause result (F.state files.old).faults
            (F.state files.new).faults }
    {
        Ok(read_braced(self.alloc, &mut self.mouth, files, &*env)?)
    }
}
