//! The lists that are open.

ghost use Rattle.std.specs.Prelude.{◌≡◌, ◌+◌, ◌≤◌, List, length, nat_le, Some, IfOk, OnOk, OnErr};
ghost use Rattle.ts_base.specs.Agreement.{Agrees};
ghost use Rattle.box_tree.specs.Nodes.{tree_item};
ghost use Rattle.box_tree.specs.Sound.{IsSoundItem};
ghost use Rattle.node_links.specs.Lists.{list_cause};
ghost use Rattle.packaging.specs.Packing.{pack_cause, IsSoundIn};
ghost use Rattle.jlist_builder.specs.Entries.{Entry, Other as OfOther, Cut as OfCut, Inhibit as OfInhibit, IsOther};
ghost use Rattle.env_groups.specs.declared.situation.Mode.TheVariants as modes;
ghost use Rattle.open_lists.specs.Characters.{kanji_entry, roman_entry};
ghost use Rattle.open_lists.specs.EndCodes.{codes_in};
ghost use Rattle.open_lists.specs.Lists.{start, situation_of, is_deep, hbox_begun, open_cause, put, marked, hbox_ended, around, IsSoundPlan, IsSoundContext};
ghost use Rattle.open_lists.specs.Standing.{lists_of, StandFor, Becomes, IsNow, IsInHbox, kept_situation, kept_around};

use crate::fault::OpenFault;
use crate::list::OpenList;
use crate::plan::{BoxPlan, EndedBox};
use crate::stack::{count, pop_list, put_around};
use box_tree::Item;
use env_groups::{Env, Mode, Situation};
use font_store::Fonts;
use jis_codes::Cell;
use node_links::ListFault;
use packaging::PackFault;
use std::alloc::Global;
use std::marker::Model;
use std::sync::ledger::Ledger;
use ts_base::Steps;
use ts_geometry::Dir;

/// How many lists may be open around the innermost one, the main one not counted.
const MOST_AROUND: usize = 198;

/// The lists that are open. Contracts see what is kept of them, the innermost first, and by
/// `lists_of` the lists for which it stands with the entries of each.
#[derive(Debug, Drop)]
pub struct OpenLists {
    // The direction of the main list.
    main: Dir,
    innermost: Option<OpenList>,
    // The lists between the main one and the innermost one, the outermost first.
    around: Vec<OpenList>,
}

impl Model for OpenLists {
    ghost use Rattle.open_lists.specs.Kept.{Kept, kept_code};

    ghost Value = { Kept };

    ghost coded = { kept_code };

    ghost use Rattle.std.specs.Prelude.{reverse};
    ghost use Rattle.open_lists.specs.Standing.{with_innermost, IsTopped};

    ghost view = { λ l. record {
      main = l.main;
      inner = with_innermost l.innermost (reverse l.around.items);
    } };

    ghost invariant = { λ l. IsTopped l.innermost (reverse l.around.items) };
}

impl OpenLists {
    /// Returns the main list alone, in yoko. Takes no memory.
    pub fn new(alloc: Global) -> OpenLists
        ensures { (entries : List (List Entry)) → lists_of result entries ≡ start }
    {
        OpenLists {
            main: Dir::Yoko,
            innermost: None,
            around: Vec::new(alloc),
        }
    }

    /// Returns the mode and the direction of the innermost list. Takes no memory.
    pub fn situation(&self) -> Situation
        ensures kept { result ≡ kept_situation self.now }
        ensures lists { (entries : List (List Entry))
            → result ≡ situation_of (lists_of self.now entries) }
        ensures hbox { result.mode ≡ modes.Restricted → IsInHbox self.now.inner }
    {
        match &self.innermost {
            None => Situation {
                mode: Mode::Outer,
                dir: self.main,
            },
            Some(list) => Situation {
                mode: Mode::Restricted,
                dir: list.dir(),
            },
        }
    }

    /// Returns whether 200 lists are open, the main one counted. Takes no memory.
    pub fn is_deep(&self) -> bool
        ensures lists { (entries : List (List Entry))
            → result ≡ is_deep (lists_of self.now entries) }
        ensures kept { result ≡ nat_le 199 (length self.now.inner) }
    {
        MOST_AROUND <= count(&self.around)
    }

    /// Begins the list of an `\hbox` in the direction of the innermost one (TeX: The Program,
    /// section 1083). `DepthFull` comes exactly where 200 lists are open, the main one counted.
    /// Refused, it leaves all as it was.
    pub fn begin_hbox(&mut self, alloc: Global, plan: BoxPlan) -> Result<(), OpenFault>
        requires { IsSoundPlan plan }
        ensures exact { (entries : List (List Entry)) → StandFor self.old entries
            → Becomes open_cause self.new result (hbox_begun plan (lists_of self.old entries)) }
        ensures around { OnOk result (kept_around self.new ≡ self.old) }
        ensures refused { OnErr result (self.new ≡ self.old) }
        ensures hbox { OnOk result (IsInHbox self.new.inner) }
    {
        let dir = self.situation().dir;
        if self.is_deep() {
            return Err(OpenFault::DepthFull);
        }
        self.around.reserve(1)?;
        put_around(&mut self.innermost, &mut self.around);
        self.innermost = Some(OpenList::hbox(alloc, dir, plan));
        Ok(())
    }

    /// Adds a Japanese character to the innermost list, in the font that is selected for its
    /// direction, with its kind and its penalties as they are now. Where no such font is there, it
    /// is no entry. `ListFull` comes exactly where the list with its metric spaces and penalties
    /// would pass 200,000 items. Refused, it stands for the same lists. It takes at most 8 steps.
    pub fn kanji<L: Ledger>(
        &mut self,
        env: &Env,
        fonts: &Fonts,
        cell: Cell,
        steps: &mut Steps<L>,
    ) -> Result<(), ListFault>
        requires { length env.now.fonts ≤ length fonts.now }
        ensures exact { (entries : List (List Entry)) → StandFor self.old entries
            → Becomes list_cause self.new result (put
            (λ dir. kanji_entry fonts.now env.now dir cell) (lists_of self.old entries)) }
        ensures refused { OnErr result
            ((entries : List (List Entry)) → StandFor self.old entries → StandFor self.new entries) }
        ensures situation { kept_situation self.new ≡ kept_situation self.old }
        ensures around { kept_around self.new ≡ kept_around self.old }
        ensures counted { steps.new ≤ steps.old + 8 }
    {
        let Some(list) = &mut self.innermost else {
            return Ok(());
        };
        list.kanji(env, fonts, cell, steps)
    }

    /// Adds a cut to the innermost list, which ends its run. Takes no memory.
    pub fn cut(&mut self)
        ensures list { (entries : List (List Entry)) → StandFor self.old entries
            → IsNow self.new (marked OfCut (lists_of self.old entries)) }
        ensures situation { kept_situation self.new ≡ kept_situation self.old }
        ensures around { kept_around self.new ≡ kept_around self.old }
    {
        let Some(list) = &mut self.innermost else {
            return;
        };
        list.cut();
    }

    /// Adds a European character to the innermost list, in the font that is selected, with its
    /// penalties as they are now, moved across by `\tbaselineshift` in tate, else by
    /// `\ybaselineshift`; it may join what stands before it in the run. Where there is no such font,
    /// or the font lacks it, it is no entry. `ListFull` comes exactly where the list with its metric
    /// spaces and penalties would pass 200,000 items. Refused, it stands for the same lists. It takes
    /// at most 8 steps.
    pub fn roman<L: Ledger>(
        &mut self,
        env: &Env,
        fonts: &Fonts,
        code: u8,
        steps: &mut Steps<L>,
    ) -> Result<(), ListFault>
        requires { length env.now.fonts ≤ length fonts.now }
        ensures exact { (entries : List (List Entry)) → StandFor self.old entries
            → Becomes list_cause self.new result (put
            (λ dir. roman_entry fonts.now env.now dir code) (lists_of self.old entries)) }
        ensures refused { OnErr result
            ((entries : List (List Entry)) → StandFor self.old entries → StandFor self.new entries) }
        ensures situation { kept_situation self.new ≡ kept_situation self.old }
        ensures around { kept_around self.new ≡ kept_around self.old }
        ensures counted { steps.new ≤ steps.old + 8 }
    {
        let Some(list) = &mut self.innermost else {
            return Ok(());
        };
        list.roman(env, fonts, code, steps)
    }

    /// Adds an other item to the innermost list: it is no character, and neither penalty, glue nor
    /// kern that came with characters. `ListFull` comes exactly where the list with its metric
    /// spaces and penalties would pass 200,000 items. Refused, it stands for the same lists. It
    /// takes at most 8 steps.
    pub fn other<L: Ledger>(&mut self, item: Item, steps: &mut Steps<L>) -> Result<(), ListFault>
        requires other { IsOther item }
        requires sound { IsSoundItem (kept_situation self.old).dir (tree_item item) }
        ensures exact { (entries : List (List Entry)) → StandFor self.old entries
            → Becomes list_cause self.new result (put
            (λ dir. Some (OfOther item)) (lists_of self.old entries)) }
        ensures refused { OnErr result
            ((entries : List (List Entry)) → StandFor self.old entries → StandFor self.new entries) }
        ensures situation { kept_situation self.new ≡ kept_situation self.old }
        ensures around { kept_around self.new ≡ kept_around self.old }
        ensures counted { steps.new ≤ steps.old + 8 }
    {
        let Some(list) = &mut self.innermost else {
            return Ok(());
        };
        list.other(item, steps)
    }

    /// Adds an inhibit to the innermost list: the next character has no metric space before it,
    /// where it comes at once. Takes no memory.
    pub fn inhibit(&mut self)
        ensures list { (entries : List (List Entry)) → StandFor self.old entries
            → IsNow self.new (marked OfInhibit (lists_of self.old entries)) }
        ensures situation { kept_situation self.new ≡ kept_situation self.old }
        ensures around { kept_around self.new ≡ kept_around self.old }
    {
        let Some(list) = &mut self.innermost else {
            return;
        };
        list.inhibit();
    }

    /// Ends the innermost list, which is that of an `\hbox`: returns its box, packed in its own
    /// direction with the codes as they are now, and what is done with it (TeX: The Program,
    /// section 1086). Whatever it answers, the lists around it are left.
    pub fn end_hbox<L: Ledger>(
        &mut self,
        alloc: Global,
        env: &Env,
        steps: &mut Steps<L>,
    ) -> Result<EndedBox, PackFault>
        requires { IsInHbox self.old.inner }
        ensures exact { (entries : List (List Entry)) → StandFor self.old entries
            → Agrees (λ b. b) pack_cause result
            (hbox_ended (codes_in env.now) (lists_of self.old entries)) }
        ensures left { (entries : List (List Entry)) → StandFor self.old entries
            → IsNow self.new (around (lists_of self.old entries)) }
        ensures around { self.new ≡ kept_around self.old }
        ensures sound { IfOk result (λ b. IsSoundIn (kept_situation self.old).dir b.node) }
        ensures context { IfOk result (λ b. IsSoundContext b.context) }
    {
        let Some(list) = self.innermost.take() else {
            unreachable!();
        };
        self.innermost = pop_list(&mut self.around);
        list.end(alloc, env, steps)
    }
}
