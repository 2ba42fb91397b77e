//! The builder of a horizontal list.

ghost use Rattle.std.specs.Prelude.{◌≡◌, ◌+◌, ◌*◌, ◌≤◌, ◌<◌, ◌^◌, List, [], ◌∷◌, ◌++◌, length, nat_lt, not, ◌&&◌, false, true, Some, None, OnOk, OnErr, IfOk};
ghost use Rattle.tfm_load.specs.Metrics.{has_character};
ghost use Rattle.node_links.specs.Lists.{most_items};
ghost use Rattle.jlist_builder.specs.Entries.{EuropeanCharacter, Entry, Japanese as OfJapanese, European as OfEuropean, Other, Cut, Inhibit, IsOther, is_bare, japanese, european};
ghost use Rattle.jlist_builder.specs.Pieces.{joined, IsLetterOf};
ghost use Rattle.jlist_builder.specs.Gaps.{right_of, metric_list, last_letter, letter_items};
ghost use Rattle.jlist_builder.specs.Stands.{StandsFor, is_full, is_list_full, is_lacking, MatchTaken};
ghost use Rattle.jlist_builder.specs.declared.character.Run.TheVariants as runs;

use crate::character::{Arrival, Kinsoku, Letter, Run, Side};
use crate::gaps::{
    arrival, gap_count, neighbour_over, penalty_between, side_of, space_before_kanji,
};
use crate::puts::{glyph, is_too_many, put, put_gap, put_held};
use crate::space::Unscaled;
use box_tree::{FontNo, Item};
use jfm_load::Japanese;
use jis_codes::Cell;
use node_links::{ListFault, NodeList};
use std::alloc::Global;
use std::sync::ledger::Ledger;
use tfm_load::Roman;
use ts_base::{NoMemory, Steps};
use ts_geometry::Sp;

/// A horizontal list that grows by entries: characters, other items, cuts and inhibits. Metric
/// spaces and the penalties of characters come while characters do. No entries are kept: a builder
/// stands for a list of them.
#[derive(Debug, Drop)]
pub struct HBuilder {
    list: NodeList,
    // a last letter that may still join
    held: Option<Letter>,
    neighbour: Option<Side>,
    run: Run,
    is_inhibited: bool,
}

impl HBuilder {
    /// Returns a builder without entries. Takes no memory.
    pub fn new(alloc: Global) -> HBuilder
        ensures { StandsFor result [] }
    {
        HBuilder {
            list: NodeList::new(alloc),
            held: None,
            neighbour: None,
            run: Run::Start,
            is_inhibited: false,
        }
    }

    // Makes room for items after the letter that is held back, four together at most.
    #[inline(always)]
    fn make_room(&mut self, more: usize) -> Result<(), ListFault>
        requires { more ≤ 3 }
        ensures full { is_list_full result ≡ nat_lt most_items
            (length (self.old.list.items ++ letter_items self.old.held) + more) }
        ensures room { OnOk result (4 ≤ self.new.list.spare) }
        ensures items { self.new.list.items ≡ self.old.list.items }
        ensures held { self.new.held ≡ self.old.held }
        ensures neighbour { self.new.neighbour ≡ self.old.neighbour }
        ensures run { self.new.run ≡ self.old.run }
        ensures inhibited { self.new.is_inhibited ≡ self.old.is_inhibited }
    {
        if is_too_many(&self.list, &self.held, more) {
            return Err(ListFault::ListFull);
        }
        self.list.reserve(4)?;
        Ok(())
    }

    // Holds no letter back.
    #[inline(always)]
    fn let_go(&mut self)
        ensures { self.new ≡ record self.old { held = None } }
    {
        if self.held.is_some() {
            self.held = None;
        }
    }

    // Remembers what stands directly before in the run, where no inhibit follows it yet.
    #[inline(always)]
    fn go_on_after(&mut self, run: Run)
        ensures { self.new ≡ record self.old { run = run; is_inhibited = false } }
    {
        self.run = run;
        self.is_inhibited = false;
    }

    /// Adds a Japanese character of a font, whose size is in scaled points, with its kind and the
    /// penalties before and after it. `ListFull` comes exactly where the list with its metric
    /// spaces and penalties would pass 200,000 items. Refused, the builder stands for the same
    /// entries. It takes at most 8 steps.
    #[tactic(auto, using(crate::proofs::Arrivals::arrivals))]
    pub fn kanji<L: Ledger>(
        &mut self,
        font: &Japanese,
        number: FontNo,
        z: u32,
        cell: Cell,
        kind: u8,
        kinsoku: Kinsoku,
        steps: &mut Steps<L>,
    ) -> Result<(), ListFault>
        requires { z < 2 ^ 23 }
        ensures stands { OnOk result ((e : List Entry) → StandsFor self.old e
            → StandsFor self.new (OfJapanese (japanese font.now number z cell kind kinsoku) ∷ e)) }
        ensures full { (e : List Entry) → StandsFor self.old e → is_list_full result
            ≡ is_full (OfJapanese (japanese font.now number z cell kind kinsoku) ∷ e) }
        ensures refused { OnErr result
            ((e : List Entry) → StandsFor self.old e → StandsFor self.new e) }
        ensures counted { steps.new ≤ steps.old + 8 }
    {
        let class = font.class(cell);
        let penalty = penalty_between(self.neighbour, true, kinsoku.pre);
        let after = font.between(class, 0);
        let space = space_before_kanji(font, z, &self.run, self.is_inhibited, class, after);
        self.make_room(gap_count(penalty, &space) + 1)?;
        put_held(&mut self.list, &self.held, steps);
        put_gap(&mut self.list, penalty, &space, steps);
        let size = font.measures(class, z);
        let kanji = Item::Kanji {
            font: number,
            cell,
            size,
            kind,
        };
        put(&mut self.list, kanji, steps);
        self.let_go();
        self.neighbour = Some(Side {
            is_japanese: true,
            post: kinsoku.post,
        });
        self.go_on_after(Run::Japanese(class, Unscaled::new(after, z)));
        Ok(())
    }

    // Holds a letter back.
    #[inline(always)]
    fn hold(&mut self, letter: Letter)
        ensures { self.new ≡ record self.old {
          held = Some letter;
          neighbour = Some (right_of letter);
          run = runs.European letter;
          is_inhibited = false;
        } }
    {
        self.held = Some(letter);
        self.neighbour = Some(side_of(&letter));
        self.go_on_after(Run::European(letter));
    }

    // Adds a letter of the font.
    #[tactic(auto, using(crate::proofs::Joining::letters))]
    #[inline(always)]
    fn letter<L: Ledger>(
        &mut self,
        font: &Roman,
        z: u32,
        letter: Letter,
        steps: &mut Steps<L>,
    ) -> Result<(), ListFault>
        requires { z < 2 ^ 23 }
        ensures stands { (a : EuropeanCharacter) → IsLetterOf font.now z letter a
            → OnOk result ((e : List Entry) → StandsFor self.old e
            → StandsFor self.new (OfEuropean a ∷ e)) }
        ensures full { (a : EuropeanCharacter) → IsLetterOf font.now z letter a
            → (e : List Entry) → StandsFor self.old e
            → is_list_full result ≡ is_full (OfEuropean a ∷ e) }
        ensures refused { OnErr result
            ((e : List Entry) → StandsFor self.old e → StandsFor self.new e) }
        ensures counted { steps.new ≤ steps.old + 8 }
    {
        let space = match arrival(font, z, &self.run, self.is_inhibited, letter) {
            Arrival::Joined(joint) => {
                self.hold(joint);
                return Ok(());
            }
            Arrival::Beside(space) => space,
        };
        let penalty = penalty_between(self.neighbour, false, letter.kinsoku.pre);
        self.make_room(gap_count(penalty, &space) + 1)?;
        put_held(&mut self.list, &self.held, steps);
        put_gap(&mut self.list, penalty, &space, steps);
        self.hold(letter);
        Ok(())
    }

    /// Adds a European character of a font, whose size is in scaled points, moved across by its
    /// shift, with the penalties before and after it; it may join what stands before it in the run.
    /// Answers false, and changes nothing, exactly where the font lacks the code. `ListFull` comes
    /// exactly where the font has it and the list with its metric spaces and penalties would pass
    /// 200,000 items. Refused, the builder stands for the same entries. It takes at most 8 steps.
    pub fn roman<L: Ledger>(
        &mut self,
        font: &Roman,
        number: FontNo,
        z: u32,
        code: u8,
        shift: Sp,
        kinsoku: Kinsoku,
        steps: &mut Steps<L>,
    ) -> Result<bool, ListFault>
        requires { z < 2 ^ 23 }
        ensures stands { MatchTaken result
            ((e : List Entry) → StandsFor self.old e → StandsFor self.new
            (OfEuropean (european font.now number z code shift kinsoku) ∷ e))
            (self.new ≡ self.old)
            ((e : List Entry) → StandsFor self.old e → StandsFor self.new e) }
        ensures lacking { is_lacking result ≡ not (has_character font.now code) }
        ensures full { (e : List Entry) → StandsFor self.old e → is_list_full result
            ≡ (has_character font.now code
            && is_full (OfEuropean (european font.now number z code shift kinsoku) ∷ e)) }
        ensures counted { steps.new ≤ steps.old + 8 }
    {
        let Some(size) = font.measures(code, z) else {
            return Ok(false);
        };
        let letter = Letter {
            font: number,
            code,
            size,
            shift,
            first: code,
            last: code,
            kinsoku,
        };
        self.letter(font, z, letter, steps)?;
        Ok(true)
    }

    /// Adds a cut, which ends the run. Takes no memory.
    #[tactic(auto, using(crate::proofs::Arrivals::marks))]
    pub fn cut(&mut self)
        ensures { (e : List Entry) → StandsFor self.old e → StandsFor self.new (Cut ∷ e) }
    {
        self.go_on_after(Run::Start);
    }

    /// Adds an inhibit: the next character has no metric space before it, where it comes at once.
    /// Takes no memory.
    #[tactic(auto, using(crate::proofs::Arrivals::marks))]
    pub fn inhibit(&mut self)
        ensures { (e : List Entry) → StandsFor self.old e → StandsFor self.new (Inhibit ∷ e) }
    {
        self.is_inhibited = true;
    }

    /// Adds an other item, which ends the run. `ListFull` comes exactly where the list with its
    /// metric spaces and penalties would pass 200,000 items. Refused, the builder stands for the
    /// same entries. It takes at most 8 steps.
    #[tactic(auto, using(crate::proofs::Arrivals::others))]
    pub fn other<L: Ledger>(&mut self, item: Item, steps: &mut Steps<L>) -> Result<(), ListFault>
        requires { IsOther item }
        ensures stands { OnOk result
            ((e : List Entry) → StandsFor self.old e → StandsFor self.new (Other item ∷ e)) }
        ensures full { (e : List Entry) → StandsFor self.old e
            → is_list_full result ≡ is_full (Other item ∷ e) }
        ensures refused { OnErr result
            ((e : List Entry) → StandsFor self.old e → StandsFor self.new e) }
        ensures counted { steps.new ≤ steps.old + 8 }
    {
        self.make_room(1)?;
        put_held(&mut self.list, &self.held, steps);
        self.neighbour = neighbour_over(&item, self.neighbour);
        put(&mut self.list, item, steps);
        self.let_go();
        self.go_on_after(Run::Start);
        Ok(())
    }

    /// Returns whether neither a character nor an other item is among the entries. Takes no memory.
    #[tactic(auto, using(crate::proofs::Lending::bare))]
    pub fn is_empty(&self) -> bool
        ensures { (e : List Entry) → StandsFor self.now e → result ≡ is_bare e }
    {
        match self.held {
            Some(_) => false,
            None => self.list.len() == 0,
        }
    }

    /// Lends the list as it is: the metric list, but for a last European character, where nothing
    /// but cuts and inhibits follows it. Takes no memory.
    #[tactic(auto, using(crate::proofs::Lending::lending))]
    pub fn list(&self) -> &NodeList
        ensures { (e : List Entry) → StandsFor self.now e
            → result.now.items ++ letter_items (last_letter (joined e)) ≡ metric_list e }
    {
        &self.list
    }

    /// Returns the whole list, with room for two insertions a node. It takes at most 8 steps.
    #[tactic(auto, using(crate::proofs::Lending::lending))]
    pub fn finish<L: Ledger>(mut self, steps: &mut Steps<L>) -> Result<NodeList, NoMemory>
        ensures whole { IfOk result (λ list. (e : List Entry) → StandsFor self e
            → list.items ≡ metric_list e) }
        ensures room { IfOk result (λ list. 2 * length list.items ≤ list.spare) }
        ensures counted { steps.new ≤ steps.old + 8 }
    {
        if let Some(letter) = &self.held {
            // the builder counted it when it came, so the list isn't full
            self.list.append(glyph(letter), steps).or(Err(NoMemory))?;
        }
        let room = self.list.len().checked_mul(2).ok_or(NoMemory)?;
        self.list.reserve(room)?;
        Ok(self.list)
    }
}
