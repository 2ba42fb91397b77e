//! Laws of expansion. The lemmas that proofs cite for them stand in `proofs/Unguarded.antt` and
//! `proofs/Sized.antt`.

ghost use Rattle.std.specs.Prelude.{◌≡◌, ◌≤◌, ◌<◌, ◌+◌, ◌↔◌, ℕ, ℤ, Bool, List, [], length, Option, Ok, IfOk, IsTrue};
ghost use Rattle.jis_codes.specs.declared.Char.{Char};
ghost use Rattle.tok_lists.specs.declared.token.Token.{Token};
ghost use Rattle.tok_lists.specs.declared.spelling.Spelling.{Spelling};
ghost use Rattle.tok_lists.specs.Names.{Grew};
ghost use Rattle.tok_lists.specs.StartNames.{start_names};
ghost use Rattle.env_groups.specs.declared.group.GroupKind.{GroupKind};
ghost use Rattle.ts_geometry.specs.declared.glue.Glue.{Glue};
ghost use Rattle.ts_geometry.specs.declared.measure.Sp.{Sp};
ghost use Rattle.box_tree.specs.Trees.{BoxTree};
ghost use Rattle.box_tree.specs.declared.item.FontNo.{FontNo};
ghost use Rattle.env_groups.specs.declared.font.FontSlot.{FontSlot};
ghost use Rattle.env_groups.specs.declared.code.CodeKey.{CodeKey};
ghost use Rattle.env_groups.specs.declared.key.IntKey.{IntKey};
ghost use Rattle.env_groups.specs.declared.key.DimKey.{DimKey};
ghost use Rattle.env_groups.specs.declared.key.GlueKey.{GlueKey};
ghost use Rattle.env_groups.specs.declared.key.ToksKey.{ToksKey};
ghost use Rattle.env_groups.specs.declared.meaning.Meaning.{Meaning};
ghost use Rattle.env_groups.specs.Environments.{Nest, codes_of, start, meaning_set, int_set, dim_set, glue_set, toks_set, box_set, box_replaced, code_set, font_set, group_opened, group_closed};
ghost use Rattle.expander.specs.Holding.{AreFit, IsFit, IsPlainList};
ghost use Rattle.mouth.specs.Reading.{Reading};
ghost use Rattle.mouth.specs.Tokens.{next_plain};
ghost use Rattle.mouth.specs.Changes.{with_list};
ghost use Rattle.mouth.specs.Sizes.{size};
ghost use Rattle.raw_texts.specs.Braced.{braced};
ghost use Rattle.ts_base.specs.Agreement.{followed_by};
ghost use Rattle.macros.specs.declared.body.Body.{Body};
ghost use Rattle.expander.specs.Comparisons.{is_same_meaning};
ghost use Rattle.expander.specs.Definitions.{next_part, goes_on, expanded, definition_of};
ghost use Rattle.expander.specs.Leaving.{but_meanings};
ghost use Rattle.expander.specs.Worlds.{World};
ghost use Rattle.scan_numbers.specs.Tokens.{FedToken};
ghost use Rattle.scan_syntax.specs.declared.want.Want.{Want};
ghost use Rattle.expander.specs.Steps.{Next, PastSpaces, Chars, Expand, Scan, next_step, past_step, chars_step, expand_step, scan_step};
ghost use Rattle.expander.specs.Expansion.{run};

/// Each call is its step, over the calls themselves: that each is asked of less than the one that
/// makes it takes nothing away.
#[tactic(auto, using(crate::proofs::Unguarded::expand_is, crate::proofs::Sized::next_is, crate::proofs::Spaces::past_is, crate::proofs::Spelling::chars_is, crate::proofs::Scanning::scan_is))]
pub fn expansion_is_its_steps()
    ensures expand { (token : Token) (w : World)
        → run (Expand token) w ≡ expand_step run token w }
    ensures next { (w : World) → run Next w ≡ next_step run w }
    ensures past_spaces { (w : World) → run PastSpaces w ≡ past_step run w }
    ensures chars { (before : List Char) (w : World)
        → run (Chars before) w ≡ chars_step run before w }
    ensures scan { (want : Want) (before : List FedToken) (w : World)
        → run (Scan want before) w ≡ scan_step run want before w }
{}

/// What an expansion leaves is no more than what stood after its token, the next unexpandable token
/// leaves less than there was, and so do the next token as it is, a macro definition and a list in
/// braces; a scan leaves no more. A list that is put in front makes as much more as it is long.
#[tactic(auto, using(crate::proofs::Sized::expand_leaves, crate::proofs::Sized::next_leaves, crate::proofs::Sized::scan_leaves, crate::proofs::Texts::plain_falls, crate::proofs::Texts::braced_falls, crate::proofs::Texts::with_adds, crate::proofs::Defining::definition_leaves))]
pub fn expansions_leave_less()
    ensures expand { (token : Token) (w : World)
        → IfOk (run (Expand token) w) (λ v. size v.at ≤ size w.at) }
    ensures next { (w : World) → IfOk (run Next w) (λ t. size t.1.at < size w.at) }
    ensures scan { (want : Want) (w : World)
        → IfOk (run (Scan want []) w) (λ y. size y.1.at ≤ size w.at) }
    ensures definition { (is_expanded : Bool) (w : World)
        → IfOk (definition_of is_expanded w) (λ d. size d.1.at < size w.at) }
    ensures balanced { (nest : Nest) (r : Reading)
        → IfOk (braced nest r) (λ b. size b.1 < size r) }
    ensures raw { (nest : Nest) (r : Reading)
        → IfOk (next_plain (codes_of nest) r) (λ t. size t.1 < size r) }
    ensures pushed { (list : List Token) (r : Reading)
        → IfOk (with_list list r) (λ v. size v ≡ size r + length list) }
{}

/// Expansions, scans and definitions change the meanings of names alone: no register, parameter or
/// code, no font, no group and no situation.
#[tactic(auto, using(crate::proofs::Leaving::expand_keeps, crate::proofs::Leaving::next_keeps, crate::proofs::Leaving::scan_keeps, crate::proofs::Leaving::definition_keeps, crate::proofs::Leaving::situation_kept, crate::proofs::Leaving::fonts_kept, crate::proofs::Leaving::groups_kept))]
pub fn expansions_change_meanings_alone()
    ensures expand { (token : Token) (w : World)
        → IfOk (run (Expand token) w) (λ v. but_meanings v.nest ≡ but_meanings w.nest) }
    ensures next { (w : World)
        → IfOk (run Next w) (λ t. but_meanings t.1.nest ≡ but_meanings w.nest) }
    ensures scan { (want : Want) (w : World)
        → IfOk (run (Scan want []) w) (λ y. but_meanings y.1.nest ≡ but_meanings w.nest) }
    ensures definition { (is_expanded : Bool) (w : World) → IfOk (definition_of is_expanded w)
        (λ d. but_meanings d.1.nest ≡ but_meanings w.nest) }
    ensures situation { (old new : Nest) → but_meanings new ≡ but_meanings old
        → new.situation ≡ old.situation }
    ensures fonts { (old new : Nest) → but_meanings new ≡ but_meanings old
        → new.fonts ≡ old.fonts }
    ensures groups { (old new : Nest) → but_meanings new ≡ but_meanings old
        → new.groups ≡ old.groups }
{}

/// A body that is expanded reads a part, and where there is more it goes on in the same way.
#[tactic(auto, using(crate::proofs::Defining::expanded_is))]
pub fn bodies_go_on()
    ensures { (body : Body) (w : World)
        → expanded body w ≡ followed_by (next_part body w) (goes_on expanded) }
{}

/// Whether two meanings are the same is decided.
#[tactic(auto, using(crate::proofs::Comparing::meanings_decide))]
pub fn meanings_are_compared()
    ensures { (first second : Meaning)
        → IsTrue (is_same_meaning first second) ↔ (first ≡ second) }
{}

/// The environment at the start is fit for expansion with the names of the start, and an
/// environment stays so as names come, and after each call that sets something that names hold.
#[tactic(auto, using(crate::proofs::Fitting::fit_at_start, crate::proofs::Fitting::fit_still, crate::proofs::Fitting::fit_after_meaning, crate::proofs::Fitting::fit_after_int, crate::proofs::Fitting::fit_after_dim, crate::proofs::Fitting::fit_after_glue, crate::proofs::Fitting::fit_after_toks, crate::proofs::Fitting::fit_after_box, crate::proofs::Fitting::fit_after_replacing, crate::proofs::Fitting::fit_after_code, crate::proofs::Fitting::fit_after_font, crate::proofs::Fitting::fit_after_opening, crate::proofs::Fitting::fit_after_closing))]
pub fn environments_stay_fit()
    ensures start { AreFit start_names start }
    ensures grew { (old new : List Spelling) (nest : Nest) → Grew old new → AreFit old nest
        → AreFit new nest }
    ensures meaning { (names : List Spelling) (nest : Nest) (name : ℕ) (value : Meaning)
        (is_global : Bool) → IsFit names value → AreFit names nest
        → AreFit names (meaning_set nest name value is_global) }
    ensures toks { (names : List Spelling) (old new : Nest) (key : ToksKey) (value : List Token)
        (is_global : Bool) → toks_set old key value is_global ≡ Ok new
        → IsPlainList names value
        → AreFit names old → AreFit names new }
    ensures int { (names : List Spelling) (old new : Nest) (key : IntKey) (value : ℤ)
        (is_global : Bool) → int_set old key value is_global ≡ Ok new → AreFit names old
        → AreFit names new }
    ensures dim { (names : List Spelling) (old new : Nest) (key : DimKey) (value : Sp)
        (is_global : Bool) → dim_set old key value is_global ≡ Ok new → AreFit names old
        → AreFit names new }
    ensures glue { (names : List Spelling) (old new : Nest) (key : GlueKey) (value : Glue)
        (is_global : Bool) → glue_set old key value is_global ≡ Ok new → AreFit names old
        → AreFit names new }
    ensures boxes { (names : List Spelling) (old new : Nest) (n : ℕ) (value : Option BoxTree)
        (is_global : Bool) → box_set old n value is_global ≡ Ok new → AreFit names old
        → AreFit names new }
    ensures replaced { (names : List Spelling) (old new : Nest) (n : ℕ) (value : Option BoxTree)
        → box_replaced old n value ≡ Ok new → AreFit names old → AreFit names new }
    ensures code { (names : List Spelling) (old new : Nest) (key : CodeKey) (value : ℤ)
        (is_global : Bool) → code_set old key value is_global ≡ Ok new → AreFit names old
        → AreFit names new }
    ensures font { (names : List Spelling) (nest : Nest) (slot : FontSlot) (value : FontNo)
        (is_global : Bool) → AreFit names nest → AreFit names (font_set nest slot value is_global) }
    ensures opened { (names : List Spelling) (old new : Nest) (kind : GroupKind)
        → group_opened old kind ≡ Ok new → AreFit names old → AreFit names new }
    ensures closed { (names : List Spelling) (old new : Nest) (kind : GroupKind)
        → group_closed old kind ≡ Ok new → AreFit names old → AreFit names new }
{}
