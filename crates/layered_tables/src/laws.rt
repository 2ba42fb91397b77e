//! Laws of tables. The lemmas that proofs cite for them stand in `proofs/Values.antt`.

ghost use Rattle.std.specs.Prelude.{◌≡◌, ◌≢◌, ℕ, List, Bool, Some, ◌∷◌, []};
ghost use Rattle.std.specs.FinMap as map;
ghost use Rattle.layered_tables.specs.Environments.{opened, closed};
ghost use Rattle.layered_tables.specs.Tables.{Table, value_at, put, innermost, with_set, with_replaced};
ghost use Rattle.layered_tables.specs.Values.{HasAll, HaveAll};

/// A property of values, for laws alone.
pub trait Property {
    ghost has: { Self → Type 0 };
}

/// A property that all values of all tables have is still there after a setting or an exchange
/// whose value has it, and as groups open and close.
#[tactic(auto, using(crate::proofs::Values::have_none, crate::proofs::Values::have_set, crate::proofs::Values::have_replaced, crate::proofs::Values::have_opened, crate::proofs::Values::have_closed, crate::proofs::Values::has_innermost))]
pub fn values_keep_what_all_have<X: Property>()
    ensures start { HaveAll X.has (map.empty ∷ []) }
    ensures set { (n : ℕ) (value : X) (is_global : Bool) (tables : List (Table X)) → X.has value
        → HaveAll X.has tables → HaveAll X.has (with_set n value is_global tables) }
    ensures replaced { (n : ℕ) (value : X) (tables : List (Table X)) → X.has value
        → HaveAll X.has tables → HaveAll X.has (with_replaced n value tables) }
    ensures opened { (tables : List (Table X)) → HaveAll X.has tables
        → HaveAll X.has (opened tables) }
    ensures closed { (tables : List (Table X)) → HaveAll X.has tables
        → HaveAll X.has (closed tables) }
    ensures innermost { (tables : List (Table X)) → HaveAll X.has tables
        → HasAll X.has (innermost tables) }
{}

/// What is set at a number stands there, and at each other number stands what stood there.
#[tactic(auto, using(crate::proofs::Values::value_there, crate::proofs::Values::value_apart))]
pub fn a_value_stands_where_it_is_set<X>()
    ensures there { (n : ℕ) (value : X) (m : ℕ) (table : Table X)
        → value_at (put n value m table) n ≡ Some value }
    ensures apart { (n : ℕ) (value : X) (m : ℕ) (table : Table X) (q : ℕ) → q ≢ n
        → value_at (put n value m table) q ≡ value_at table q }
{}
