//! Macro definitions.

ghost use Rattle.std.specs.Prelude.{◌≡◌, ◌<◌, OnOk, IfOk, List};
ghost use Rattle.ts_base.specs.Agreement.{Counts};
ghost use Rattle.tok_lists.specs.declared.spelling.Spelling.{Spelling};
ghost use Rattle.mouth.specs.Keeping.{reading, AgreesAt, AreOpen, AreTold, IsReadable};
ghost use Rattle.mouth.specs.Sizes.{unread, size};
ghost use Rattle.raw_texts.specs.Faults.{macro_cause};
ghost use Rattle.raw_texts.specs.Runs.{Leaves};
ghost use Rattle.macros.specs.Bodies.{IsBody};
ghost use Rattle.macros.specs.Definitions.{with_last as the_with_last, macro_of as the_macro_of, defined, IsDefined};

use crate::body::Body;
use crate::heading::read_heading;
use env_groups::{Env, MacroDef};
use mouth::Mouth;
use raw_texts::{MacroFault, read_on};
use std::alloc::Global;
use tok_lists::{SharedTokens, Token, Tokens};
use ts_base::NoMemory;
use ts_outside::Files;

// Returns the shared list of these tokens, with the `{` of a `#{` at its end.
fn with_last(
    alloc: Global,
    list: &mut Tokens,
    brace: &Option<Token>,
) -> Result<SharedTokens, NoMemory>
    ensures { IfOk result (λ tokens. tokens ≡ the_with_last list.old brace.now) }
{
    if let Some(token) = brace {
        list.push(*token)?;
    }
    SharedTokens::new(alloc, list.as_slice())
}

/// Returns the macro of a body with its parameter text, not long.
pub fn macro_of(alloc: Global, body: &mut Body) -> Result<MacroDef, NoMemory>
    ensures value { IfOk result (λ definition. definition ≡ the_macro_of body.old) }
    ensures defined { (names : List Spelling) → IsBody names body.old
        → IfOk result (IsDefined names) }
{
    let params = with_last(alloc, &mut body.heading.tokens, &body.heading.brace)?;
    let text = with_last(alloc, &mut body.tokens, &body.heading.brace)?;
    Ok(MacroDef {
        long: false,
        params,
        body: text,
    })
}

/// Reads a macro definition whose name was taken, without expansion (The TeXbook, chapter 20; TeX:
/// The Program, sections 473 to 479). `BadParameter` comes exactly where a `#` isn't followed by
/// what may follow it, `NoBrace` exactly where a `}` stands before the body, and `FileEnded` where
/// a file ends in the definition. The macro isn't long.
#[tactic(auto, unfolding(crate::specs::Definitions::defined, mouth::specs::Sizes::unread))]
pub fn read_definition<F: Files>(
    alloc: Global,
    mouth: &mut Mouth,
    files: &mut F,
    env: &Env,
) -> Result<MacroDef, MacroFault>
    requires opened { AreOpen mouth.old (F.state files.old) }
    requires readable { IsReadable mouth.old }
    ensures exact { AreTold mouth.old (F.state files.old)
        → AgreesAt (λ definition. (definition, reading mouth.new (F.state files.new))) macro_cause
        mouth.new result (defined env.now (reading mouth.old (F.state files.old))) }
    ensures leaves { Leaves mouth.old (F.state files.old) mouth.new (F.state files.new) }
    ensures readable { OnOk result (IsReadable mouth.new) }
    ensures defined { IfOk result (IsDefined mouth.new.names) }
    ensures unread { OnOk result (unread (reading mouth.new (F.state files.new))
        < unread (reading mouth.old (F.state files.old))) }
    ensures size { OnOk result (size (reading mouth.new (F.state files.new))
        < size (reading mouth.old (F.state files.old))) }
    ensures counted { Counts macro_cause result (F.state files.old).faults
        (F.state files.new).faults }
{
    mouth.enter_text()?;
    let heading = read_heading(alloc, mouth, files, env)?;
    let mut body = Body::new(alloc, heading);
    read_on(mouth, files, env, &mut body)?;
    mouth.leave_text();
    Ok(macro_of(alloc, &mut body)?)
}
