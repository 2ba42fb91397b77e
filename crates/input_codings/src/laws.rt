//! Laws of lines.

ghost use Rattle.std.specs.Prelude.{◌≡◌, ◌+◌, ℕ, List, Ok};
ghost use Rattle.std.specs.List.{All};
ghost use Rattle.ts_base.specs.Agreement.{followed_by};
ghost use Rattle.jis_codes.specs.declared.Char.{Char};
ghost use Rattle.input_codings.specs.declared.coding.Coding.{Coding};
ghost use Rattle.input_codings.specs.Decoding.{decoded};
ghost use Rattle.input_codings.specs.Lines.{line, next_line, past_lines};
ghost use Rattle.input_codings.specs.Spelled.{spelled, HasSpelling};

/// The next line after n lines is line n + 1.
#[tactic(auto, using(crate::proofs::Next::lines_are))]
pub fn lines_follow()
    ensures { (coding : Coding) (n : ℕ) (bytes : List ℕ)
        → followed_by (next_line (record { coding = coding; line_no = n; bytes = past_lines n bytes })) (λ next. Ok next.0)
        ≡ line coding (n + 1) bytes }
{}

/// In each coding what spells characters is decoded to them.
#[tactic(auto, using(crate::proofs::Spelled::reads_back))]
pub fn spellings_are_decoded()
    ensures { (coding : Coding) (chars : List Char) → All HasSpelling chars → decoded coding (spelled coding chars) ≡ Ok chars }
{}
