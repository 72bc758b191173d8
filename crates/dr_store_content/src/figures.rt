//! Rows as bytes, and numbers.
ghost use Rattle.std.specs.Prelude.{◌≡◌, ◌∷◌, ◌++◌, ◌^◌, [], codes, pos, negsuc, replicate};
ghost use Rattle.sqlite_value.specs.declared.value.Value.TheVariants.{Null, Int, Text, Blob};
ghost use Rattle.dr_store_content.specs.Contents.{content_of, number_of};
ghost use Rattle.dr_store_content.specs.Rows.{cell_text, row_text};

/// A row of the table `kept` with the text `1.2`; and cells of each kind.
pub fn rows_as_bytes()
    ensures row { row_text (codes "kept") (Null ∷ Text (codes "1.2") ∷ [])
        ≡ (4 ∷ 0 ∷ 0 ∷ 0 ∷ 0 ∷ 0 ∷ 0 ∷ 0 ∷ []) ++ codes "kept"
        ++ (0 ∷ 3 ∷ 3 ∷ 0 ∷ 0 ∷ 0 ∷ 0 ∷ 0 ∷ 0 ∷ 0 ∷ []) ++ codes "1.2" }
    ensures number { cell_text (Int (pos 258)) ≡ 1 ∷ 2 ∷ 1 ∷ 0 ∷ 0 ∷ 0 ∷ 0 ∷ 0 ∷ 0 ∷ [] }
    ensures below { cell_text (Int (negsuc 1))
        ≡ 1 ∷ 254 ∷ 255 ∷ 255 ∷ 255 ∷ 255 ∷ 255 ∷ 255 ∷ 255 ∷ [] }
    ensures blob { cell_text (Blob (9 ∷ [])) ≡ 4 ∷ 1 ∷ 0 ∷ 0 ∷ 0 ∷ 0 ∷ 0 ∷ 0 ∷ 0 ∷ 9 ∷ [] }
{}

/// The lowest byte stands first; no rows have the content 0.
pub fn numbers_of_bytes()
    ensures lowest { number_of (1 ∷ replicate 31 0) ≡ 1 }
    ensures highest { number_of (replicate 31 0 ++ 1 ∷ []) ≡ 256 ^ 31 }
    ensures none { content_of [] ≡ 0 }
{}
