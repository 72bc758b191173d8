//! Laws of texts that are made of parts, one after the other, for each kind of part; and figures of
//! padding.
ghost use Rattle.std.specs.Prelude.{◌≡◌, ◌≢◌, ◌∷◌, ◌++◌, [], List, ℕ, codes};
ghost use Rattle.dr_base.specs.Padding.{trimmed, unpadded};
ghost use Rattle.dr_base.specs.Runs.{Run, AreParts};

/// A kind of part: which texts begin with it, and what is left of them behind it.
pub trait TextPart {
    ghost starts: { List ℕ → Self → List ℕ → Type 0 };
}

/// A run goes on by one more part, and by another run.
pub fn a_run_goes_on<P: TextPart>()
    ensures by_one { (xs : List P) (x : P) (text mid rest : List ℕ)
        → Run P.starts xs text mid → P.starts mid x rest
        → Run P.starts (xs ++ x ∷ []) text rest }
    ensures by_more { (xs ys : List P) (text mid rest : List ℕ)
        → Run P.starts xs text mid → Run P.starts ys mid rest
        → Run P.starts (xs ++ ys) text rest }
{}

/// A text is a run of one list of parts at most, and each run that begins it is the front of that
/// one.
pub fn a_text_has_one_run<P: TextPart>()
    ensures same { AreParts P.starts
        → (xs ys : List P) (text : List ℕ)
        → Run P.starts xs text [] → Run P.starts ys text [] → ys ≡ xs }
    ensures front { AreParts P.starts
        → (xs ys : List P) (text mid : List ℕ)
        → Run P.starts xs text mid → Run P.starts ys text []
        → (later : List P) × (ys ≡ xs ++ later) × Run P.starts later mid [] }
    ensures next { AreParts P.starts
        → (xs ys : List P) (text mid : List ℕ)
        → mid ≢ [] → Run P.starts xs text mid → Run P.starts ys text []
        → (x : P) × (after : List ℕ) × P.starts mid x after }
{}

/// Where a part stands with more behind it, a run does.
pub fn a_run_stands_in_longer_texts<P: TextPart>()
    ensures longer { ((text : List ℕ) (x : P) (rest more : List ℕ)
        → P.starts text x rest
        → P.starts (text ++ more) x (rest ++ more))
        → (xs : List P) (text rest more : List ℕ)
        → Run P.starts xs text rest
        → Run P.starts xs (text ++ more) (rest ++ more) }
{}

/// What is dropped: spaces and NULs behind a text, and spaces in front of a title. What stays: a
/// NUL in front, what stands between two letters, and a tab or any other byte at the end.
pub fn what_is_padding()
    ensures both_ends { trimmed (32 ∷ 65 ∷ 32 ∷ 66 ∷ 0 ∷ 32 ∷ 0 ∷ []) ≡ 65 ∷ 32 ∷ 66 ∷ [] }
    ensures nul_in_front { trimmed (32 ∷ 0 ∷ 32 ∷ 65 ∷ []) ≡ 0 ∷ 32 ∷ 65 ∷ [] }
    ensures spaces_alone { trimmed (32 ∷ 32 ∷ []) ≡ [] }
    ensures spaces { trimmed (codes "  CT ") ≡ codes "CT" }
    ensures name { unpadded (32 ∷ 49 ∷ 46 ∷ 50 ∷ 0 ∷ []) ≡ 32 ∷ 49 ∷ 46 ∷ 50 ∷ [] }
    ensures others { unpadded (49 ∷ 9 ∷ []) ++ unpadded (49 ∷ 10 ∷ []) ++ unpadded (49 ∷ 13 ∷ [])
        ++ unpadded (49 ∷ 160 ∷ 255 ∷ [])
        ≡ 49 ∷ 9 ∷ 49 ∷ 10 ∷ 49 ∷ 13 ∷ 49 ∷ 160 ∷ 255 ∷ [] }
    ensures first_tab { trimmed (9 ∷ 65 ∷ []) ≡ 9 ∷ 65 ∷ [] }
{}
