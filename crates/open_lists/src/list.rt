//! An open list.

ghost use Rattle.std.specs.Prelude.{◌≡◌, ◌+◌, ◌*◌, ◌≤◌, ◌<◌, ◌^◌, [], ◌∷◌, List, length, Some, None, if◌then◌else◌, OnOk, OnErr, IfOk};
ghost use Rattle.ts_base.specs.Agreement.{Agrees};
ghost use Rattle.box_tree.specs.Bounds.{IsDimen};
ghost use Rattle.box_tree.specs.Nodes.{tree_item};
ghost use Rattle.box_tree.specs.Sound.{IsSoundItem};
ghost use Rattle.tfm_load.specs.Metrics.{has_character};
ghost use Rattle.node_links.specs.Lists.{list_cause};
ghost use Rattle.packaging.specs.Packing.{pack_cause, IsSoundIn};
ghost use Rattle.jlist_builder.specs.Entries.{Entry, Japanese as OfJapanese, European as OfEuropean, Other as OfOther, Cut as OfCut, Inhibit as OfInhibit, IsOther, japanese, european};
ghost use Rattle.open_lists.specs.Characters.{kanji_slot as the_slot, shift_param as the_shift, kanji_entry, roman_entry};
ghost use Rattle.open_lists.specs.EndCodes.{codes_in};
ghost use Rattle.open_lists.specs.Lists.{put_in_list, marked_list, box_of, Restricted, IsSoundPlan, IsSoundContext};
ghost use Rattle.open_lists.specs.Standing.{list_of, contents_of, IsListOf, IsRestricted, ListBecomes};

use crate::codes::{dim_param, kanji_kinsoku, kind_of, roman_kinsoku};
use crate::contents::KeptContents;
use crate::ending::ended_box;
use crate::plan::{BoxPlan, EndedBox};
use box_tree::{FontNo, Item};
use env_groups::{DimParam, Env, FontSlot};
use font_store::{Fonts, Metric};
use jfm_load::Japanese;
use jis_codes::Cell;
use jlist_builder::{HBuilder, Kinsoku};
use node_links::ListFault;
use packaging::PackFault;
use std::alloc::Global;
use std::marker::Model;
use std::sync::ledger::Ledger;
use tfm_load::Roman;
use ts_base::Steps;
use ts_geometry::{Dir, Sp};

/// A list that is open above the main one. Contracts see its direction and what is kept of its
/// contents, for which there are entries that can be packed.
#[derive(Debug, Drop)]
pub(crate) struct OpenList {
    dir: Dir,
    contents: KeptContents,
}

impl Model for OpenList {
    ghost use Rattle.open_lists.specs.Kept.{KeptList, list_code};

    ghost Value = { KeptList };

    ghost coded = { list_code };

    ghost use Rattle.open_lists.specs.Standing.{IsKept};

    ghost view = { λ l. record { dir = l.dir; contents = l.contents } };

    ghost invariant = { λ l. IsKept l.dir l.contents };
}

// The slot of the Japanese font in lists of a direction.
fn kanji_slot(dir: Dir) -> FontSlot
    ensures { result ≡ the_slot dir }
{
    match dir {
        Dir::Tate => FontSlot::Tate,
        Dir::Yoko | Dir::Dtou => FontSlot::Yoko,
    }
}

// The parameter by which a European character is moved across in lists of a direction.
fn shift_param(dir: Dir) -> DimParam
    ensures { result ≡ the_shift dir }
{
    match dir {
        Dir::Tate => DimParam::TBaselineShift,
        Dir::Yoko | Dir::Dtou => DimParam::YBaselineShift,
    }
}

impl OpenList {
    /// Returns the list of an `\hbox` without entries. Takes no memory.
    pub(crate) fn hbox(alloc: Global, dir: Dir, plan: BoxPlan) -> OpenList
        requires { IsSoundPlan plan }
        ensures dir { result.dir ≡ dir }
        ensures contents { contents_of result.contents [] ≡ Restricted plan [] }
        ensures stands { IsListOf result.contents [] }
        ensures restricted { IsRestricted result.contents }
    {
        let contents = KeptContents::Restricted(plan, HBuilder::new(alloc));
        OpenList { dir, contents }
    }

    /// Returns its direction. Takes no memory.
    pub(crate) fn dir(&self) -> Dir
        ensures { result ≡ self.now.dir }
    {
        self.dir
    }

    // Adds a Japanese character of a font, whose size is in scaled points.
    fn add_kanji<L: Ledger>(
        &mut self,
        font: &Japanese,
        number: FontNo,
        z: u32,
        cell: Cell,
        kind: u8,
        kinsoku: Kinsoku,
        steps: &mut Steps<L>,
    ) -> Result<(), ListFault>
        requires { z < 2 ^ 23 }
        ensures exact { (e : List Entry) → IsListOf self.old.contents e
            → ListBecomes list_cause self.new result (put_in_list
            (λ dir. Some (OfJapanese (japanese font.now number z cell kind kinsoku)))
            (list_of self.old e)) }
        ensures refused { OnErr result
            ((e : List Entry) → IsListOf self.old.contents e → IsListOf self.new.contents e) }
        ensures dir { self.new.dir ≡ self.old.dir }
        ensures counted { steps.new ≤ steps.old + 8 }
    {
        font.numbers_are_near();
        match &mut self.contents {
            KeptContents::Restricted(_, builder) => {
                builder.kanji(font, number, z, cell, kind, kinsoku, steps)?;
                Ok(())
            }
        }
    }

    /// Adds a Japanese character in the font that is selected, with its kind and its penalties. It
    /// is no entry where no such font is there.
    pub(crate) fn kanji<L: Ledger>(
        &mut self,
        env: &Env,
        fonts: &Fonts,
        cell: Cell,
        steps: &mut Steps<L>,
    ) -> Result<(), ListFault>
        requires { length env.now.fonts ≤ length fonts.now }
        ensures exact { (e : List Entry) → IsListOf self.old.contents e
            → ListBecomes list_cause self.new result (put_in_list
            (λ dir. kanji_entry fonts.now env.now dir cell) (list_of self.old e)) }
        ensures refused { OnErr result
            ((e : List Entry) → IsListOf self.old.contents e → IsListOf self.new.contents e) }
        ensures dir { self.new.dir ≡ self.old.dir }
        ensures counted { steps.new ≤ steps.old + 8 }
    {
        let Some(number) = env.get_font(kanji_slot(self.dir)) else {
            return Ok(());
        };
        match fonts.metric(number) {
            Metric::Roman(_) => Ok(()),
            Metric::Japanese(font) => {
                let z = fonts.size(number);
                let kind = kind_of(env, cell);
                let kinsoku = kanji_kinsoku(env, cell);
                self.add_kanji(font, number, z, cell, kind, kinsoku, steps)
            }
        }
    }

    // Adds a European character of a font, whose size is in scaled points.
    fn add_roman<L: Ledger>(
        &mut self,
        font: &Roman,
        number: FontNo,
        z: u32,
        code: u8,
        shift: Sp,
        kinsoku: Kinsoku,
        steps: &mut Steps<L>,
    ) -> Result<(), ListFault>
        requires size { z < 2 ^ 23 }
        requires shift { IsDimen shift }
        ensures exact { (e : List Entry) → IsListOf self.old.contents e
            → ListBecomes list_cause self.new result (put_in_list
            (λ dir. if has_character font.now code
            then Some (OfEuropean (european font.now number z code shift kinsoku)) else None)
            (list_of self.old e)) }
        ensures refused { OnErr result
            ((e : List Entry) → IsListOf self.old.contents e → IsListOf self.new.contents e) }
        ensures dir { self.new.dir ≡ self.old.dir }
        ensures counted { steps.new ≤ steps.old + 8 }
    {
        font.numbers_are_near();
        match &mut self.contents {
            KeptContents::Restricted(_, builder) => {
                match builder.roman(font, number, z, code, shift, kinsoku, steps) {
                    Ok(true) => Ok(()),
                    // the font lacks it
                    Ok(false) => Ok(()),
                    Err(fault) => Err(fault),
                }
            }
        }
    }

    /// Adds a European character in the font that is selected, with its penalties, moved across by
    /// the parameter of the list's direction. It is no entry where there is no such font, or the
    /// font lacks it.
    pub(crate) fn roman<L: Ledger>(
        &mut self,
        env: &Env,
        fonts: &Fonts,
        code: u8,
        steps: &mut Steps<L>,
    ) -> Result<(), ListFault>
        requires { length env.now.fonts ≤ length fonts.now }
        ensures exact { (e : List Entry) → IsListOf self.old.contents e
            → ListBecomes list_cause self.new result (put_in_list
            (λ dir. roman_entry fonts.now env.now dir code) (list_of self.old e)) }
        ensures refused { OnErr result
            ((e : List Entry) → IsListOf self.old.contents e → IsListOf self.new.contents e) }
        ensures dir { self.new.dir ≡ self.old.dir }
        ensures counted { steps.new ≤ steps.old + 8 }
    {
        let Some(number) = env.get_font(FontSlot::Roman) else {
            return Ok(());
        };
        match fonts.metric(number) {
            Metric::Japanese(_) => Ok(()),
            Metric::Roman(font) => {
                let z = fonts.size(number);
                let shift = dim_param(env, shift_param(self.dir));
                let kinsoku = roman_kinsoku(env, code);
                self.add_roman(font, number, z, code, shift, kinsoku, steps)
            }
        }
    }

    /// Adds an other item.
    pub(crate) fn other<L: Ledger>(
        &mut self,
        item: Item,
        steps: &mut Steps<L>,
    ) -> Result<(), ListFault>
        requires other { IsOther item }
        requires sound { IsSoundItem self.old.dir (tree_item item) }
        ensures exact { (e : List Entry) → IsListOf self.old.contents e
            → ListBecomes list_cause self.new result (put_in_list
            (λ dir. Some (OfOther item)) (list_of self.old e)) }
        ensures refused { OnErr result
            ((e : List Entry) → IsListOf self.old.contents e → IsListOf self.new.contents e) }
        ensures dir { self.new.dir ≡ self.old.dir }
        ensures counted { steps.new ≤ steps.old + 8 }
    {
        match &mut self.contents {
            KeptContents::Restricted(_, builder) => {
                builder.other(item, steps)?;
                Ok(())
            }
        }
    }

    /// Adds an inhibit. Takes no memory.
    pub(crate) fn inhibit(&mut self)
        ensures list { (e : List Entry) → list_of self.new (OfInhibit ∷ e)
            ≡ marked_list OfInhibit (list_of self.old e) }
        ensures stands { (e : List Entry) → IsListOf self.old.contents e
            → IsListOf self.new.contents (OfInhibit ∷ e) }
        ensures dir { self.new.dir ≡ self.old.dir }
    {
        match &mut self.contents {
            KeptContents::Restricted(_, builder) => builder.inhibit(),
        }
    }

    /// Adds a cut. Takes no memory.
    pub(crate) fn cut(&mut self)
        ensures list { (e : List Entry)
            → list_of self.new (OfCut ∷ e) ≡ marked_list OfCut (list_of self.old e) }
        ensures stands { (e : List Entry) → IsListOf self.old.contents e
            → IsListOf self.new.contents (OfCut ∷ e) }
        ensures dir { self.new.dir ≡ self.old.dir }
    {
        match &mut self.contents {
            KeptContents::Restricted(_, builder) => builder.cut(),
        }
    }

    /// Returns the box of the list, packed with the codes as they are now, with what is done with
    /// it.
    pub(crate) fn end<L: Ledger>(
        self,
        alloc: Global,
        env: &Env,
        steps: &mut Steps<L>,
    ) -> Result<EndedBox, PackFault>
        requires { IsRestricted self.contents }
        ensures exact { (e : List Entry) → IsListOf self.contents e
            → Agrees (λ b. b) pack_cause result
            (box_of (codes_in env.now) self.dir (contents_of self.contents e)) }
        ensures sound { IfOk result (λ b. IsSoundIn self.dir b.node) }
        ensures context { IfOk result (λ b. IsSoundContext b.context) }
    {
        let OpenList { dir, contents } = self;
        let KeptContents::Restricted(plan, builder) = contents;
        ended_box(alloc, env, builder, dir, plan, steps)
    }
}
