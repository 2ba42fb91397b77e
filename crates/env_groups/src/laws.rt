//! Laws of environments. The lemmas that proofs cite for them stand in `proofs/Nesting.antt` and
//! `proofs/Keeping.antt`.

ghost use Rattle.std.specs.Prelude.{◌≡◌, ℕ, ℤ, List, [], Option, Some, Ok, IfSome, Bool, true, map};
ghost use Rattle.ts_geometry.specs.declared.glue.Glue.{Glue};
ghost use Rattle.ts_geometry.specs.declared.measure.Sp.{Sp};
ghost use Rattle.tok_lists.specs.declared.token.Token.{Token};
ghost use Rattle.tok_lists.specs.StartNames.{start_words};
ghost use Rattle.box_tree.specs.declared.item.FontNo.{FontNo};
ghost use Rattle.box_tree.specs.Trees.{BoxTree};
ghost use Rattle.env_groups.specs.declared.code.CodeKey.{CodeKey};
ghost use Rattle.env_groups.specs.declared.font.FontSlot.{FontSlot};
ghost use Rattle.env_groups.specs.declared.group.GroupKind.{GroupKind};
ghost use Rattle.env_groups.specs.declared.key.IntKey.{IntKey};
ghost use Rattle.env_groups.specs.declared.key.DimKey.{DimKey};
ghost use Rattle.env_groups.specs.declared.key.GlueKey.{GlueKey};
ghost use Rattle.env_groups.specs.declared.key.ToksKey.{ToksKey};
ghost use Rattle.env_groups.specs.declared.meaning.Meaning.{Meaning};
ghost use Rattle.env_groups.specs.PrimWords.{word_of};
ghost use Rattle.env_groups.specs.StartMeanings.{start_prims, start_meaning};
ghost use Rattle.env_groups.specs.Environments.{Nest, start, int_at, int_set, dim_at, dim_set, glue_at, glue_set, toks_at, toks_set, box_at, box_set, box_replaced, code_at, code_set, meaning_at, meaning_set, font_at, font_set, group_opened, group_closed};
ghost use Rattle.env_groups.specs.Laws.{WhatIsLocalGoes, Stays, WhatIsReplacedStays, HaveValues};

/// The words of the primitives, in the order of their numbers, are those of the names that have a
/// meaning at the start.
pub fn start_names_have_their_primitives()
    ensures { map word_of start_prims ≡ start_words }
{}

/// What is set in a group goes with it.
#[tactic(auto, using(crate::proofs::Nesting::what_is_local_goes))]
pub fn what_is_local_goes()
    ensures { WhatIsLocalGoes }
{}

/// What is set globally is there after any number of groups are closed.
#[tactic(auto, using(crate::proofs::Nesting::int_stays, crate::proofs::Nesting::dim_stays, crate::proofs::Nesting::glue_stays, crate::proofs::Nesting::toks_stays, crate::proofs::Nesting::box_stays, crate::proofs::Nesting::code_stays, crate::proofs::Nesting::meaning_stays, crate::proofs::Nesting::font_stays))]
pub fn what_is_global_stays()
    ensures int { (nest : Nest) (key : IntKey) (value : ℤ)
        → Stays nest (int_set nest key value true) (λ n. int_at n key) (Ok value) }
    ensures dim { (nest : Nest) (key : DimKey) (value : Sp)
        → Stays nest (dim_set nest key value true) (λ n. dim_at n key) (Ok value) }
    ensures glue { (nest : Nest) (key : GlueKey) (value : Glue)
        → Stays nest (glue_set nest key value true) (λ n. glue_at n key) (Ok value) }
    ensures toks { (nest : Nest) (key : ToksKey) (value : List Token)
        → Stays nest (toks_set nest key value true) (λ n. toks_at n key) (Ok value) }
    ensures boxes { (nest : Nest) (register : ℕ) (value : Option BoxTree)
        → Stays nest (box_set nest register value true) (λ n. box_at n register) (Ok value) }
    ensures code { (nest : Nest) (key : CodeKey) (value : ℤ)
        → Stays nest (code_set nest key value true) (λ n. code_at n key) value }
    ensures meaning { (nest : Nest) (name : ℕ) (value : Meaning)
        → Stays nest (Ok (meaning_set nest name value true)) (λ n. meaning_at n name) value }
    ensures font { (nest : Nest) (slot : FontSlot) (value : FontNo)
        → Stays nest (Ok (font_set nest slot value true)) (λ n. font_at n slot) (Some value) }
{}

/// What is replaced is so where it was set.
#[tactic(auto, using(crate::proofs::Nesting::what_is_replaced_stays))]
pub fn what_is_replaced_stays()
    ensures { WhatIsReplacedStays }
{}

/// Properties of meanings, of lists of tokens and of boxes, for laws alone.
pub trait Properties {
    ghost use Rattle.std.specs.Prelude.{List};
    ghost use Rattle.tok_lists.specs.declared.token.Token.{Token};
    ghost use Rattle.box_tree.specs.Trees.{BoxTree};
    ghost use Rattle.env_groups.specs.declared.meaning.Meaning.{Meaning};

    ghost of_meaning: { Meaning → Type 0 };

    ghost of_tokens: { List Token → Type 0 };

    ghost of_box: { BoxTree → Type 0 };
}

/// Properties that all meanings, lists of tokens and boxes in all environments have are still there
/// after each call, where a new value has them; and what is looked up has them.
#[tactic(auto, using(crate::proofs::Keeping::start_has, crate::proofs::Keeping::int_keeps, crate::proofs::Keeping::dim_keeps, crate::proofs::Keeping::glue_keeps, crate::proofs::Keeping::toks_keeps, crate::proofs::Keeping::box_keeps, crate::proofs::Keeping::replace_keeps, crate::proofs::Keeping::code_keeps, crate::proofs::Keeping::meaning_keeps, crate::proofs::Keeping::font_keeps, crate::proofs::Keeping::open_keeps, crate::proofs::Keeping::close_keeps, crate::proofs::Keeping::meaning_has, crate::proofs::Keeping::toks_has, crate::proofs::Keeping::box_has))]
pub fn values_keep_their_properties<P: Properties>()
    ensures start { HaveValues P.of_meaning P.of_tokens P.of_box start.environments }
    ensures int { (old new : Nest) (key : IntKey) (value : ℤ) (is_global : Bool)
        → int_set old key value is_global ≡ Ok new
        → HaveValues P.of_meaning P.of_tokens P.of_box old.environments
        → HaveValues P.of_meaning P.of_tokens P.of_box new.environments }
    ensures dim { (old new : Nest) (key : DimKey) (value : Sp) (is_global : Bool)
        → dim_set old key value is_global ≡ Ok new
        → HaveValues P.of_meaning P.of_tokens P.of_box old.environments
        → HaveValues P.of_meaning P.of_tokens P.of_box new.environments }
    ensures glue { (old new : Nest) (key : GlueKey) (value : Glue) (is_global : Bool)
        → glue_set old key value is_global ≡ Ok new
        → HaveValues P.of_meaning P.of_tokens P.of_box old.environments
        → HaveValues P.of_meaning P.of_tokens P.of_box new.environments }
    ensures toks { (old new : Nest) (key : ToksKey) (value : List Token) (is_global : Bool)
        → toks_set old key value is_global ≡ Ok new → P.of_tokens value
        → HaveValues P.of_meaning P.of_tokens P.of_box old.environments
        → HaveValues P.of_meaning P.of_tokens P.of_box new.environments }
    ensures boxes { (old new : Nest) (register : ℕ) (value : Option BoxTree) (is_global : Bool)
        → box_set old register value is_global ≡ Ok new → IfSome value P.of_box
        → HaveValues P.of_meaning P.of_tokens P.of_box old.environments
        → HaveValues P.of_meaning P.of_tokens P.of_box new.environments }
    ensures replaced { (old new : Nest) (register : ℕ) (value : Option BoxTree)
        → box_replaced old register value ≡ Ok new → IfSome value P.of_box
        → HaveValues P.of_meaning P.of_tokens P.of_box old.environments
        → HaveValues P.of_meaning P.of_tokens P.of_box new.environments }
    ensures code { (old new : Nest) (key : CodeKey) (value : ℤ) (is_global : Bool)
        → code_set old key value is_global ≡ Ok new
        → HaveValues P.of_meaning P.of_tokens P.of_box old.environments
        → HaveValues P.of_meaning P.of_tokens P.of_box new.environments }
    ensures meaning { (old : Nest) (name : ℕ) (value : Meaning) (is_global : Bool)
        → P.of_meaning value → HaveValues P.of_meaning P.of_tokens P.of_box old.environments
        → HaveValues P.of_meaning P.of_tokens P.of_box
        (meaning_set old name value is_global).environments }
    ensures font { (old : Nest) (slot : FontSlot) (value : FontNo) (is_global : Bool)
        → HaveValues P.of_meaning P.of_tokens P.of_box old.environments
        → HaveValues P.of_meaning P.of_tokens P.of_box
        (font_set old slot value is_global).environments }
    ensures opened { (old new : Nest) (kind : GroupKind) → group_opened old kind ≡ Ok new
        → HaveValues P.of_meaning P.of_tokens P.of_box old.environments
        → HaveValues P.of_meaning P.of_tokens P.of_box new.environments }
    ensures closed { (old new : Nest) (kind : GroupKind) → group_closed old kind ≡ Ok new
        → HaveValues P.of_meaning P.of_tokens P.of_box old.environments
        → HaveValues P.of_meaning P.of_tokens P.of_box new.environments }
    ensures meaning_got { (nest : Nest) (name : ℕ)
        → HaveValues P.of_meaning P.of_tokens P.of_box nest.environments
        → P.of_meaning (start_meaning name) → P.of_meaning (meaning_at nest name) }
    ensures toks_got { (nest : Nest) (key : ToksKey) (value : List Token)
        → toks_at nest key ≡ Ok value
        → HaveValues P.of_meaning P.of_tokens P.of_box nest.environments → P.of_tokens []
        → P.of_tokens value }
    ensures box_got { (nest : Nest) (register : ℕ) (value : Option BoxTree)
        → box_at nest register ≡ Ok value
        → HaveValues P.of_meaning P.of_tokens P.of_box nest.environments
        → IfSome value P.of_box }
{}
