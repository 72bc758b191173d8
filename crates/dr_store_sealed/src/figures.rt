//! A file of two lines, and lines that are none.
ghost use Rattle.std.specs.Prelude.{◌≡◌, ◌∷◌, ◌++◌, [], List, ℕ, codes, length, replicate};
ghost use Rattle.hex.specs.Hex.{encode_lower};
ghost use Rattle.sha2.specs.Sha256.{sha256};
ghost use Rattle.dr_store_sealed.specs.InTables.{bytes_of_seal, seal_said};
ghost use Rattle.dr_store_sealed.specs.Lines.{IsOneLine, bytes_of};
ghost use Rattle.dr_store_sealed.specs.Seals.{first_seal, full, next_seal, seal_after};

/// A file of the lines `a` and `bc`: each is followed by a space, its chain in 64 digits, and the
/// end of the line. The first chain is the SHA-256 of 32 zeros and `a`.
pub fn a_file_of_two_lines()
    ensures bytes { (first second : List ℕ)
        → first ≡ sha256 (replicate 32 0 ++ codes "a")
        → second ≡ sha256 (first ++ codes "bc")
        → bytes_of (replicate 32 0) (codes "a" ∷ codes "bc" ∷ [])
        ≡ codes "a " ++ encode_lower first ++ codes "\nbc " ++ encode_lower second ++ codes "\n" }
    ensures size { length (bytes_of (replicate 32 0) (codes "a" ∷ codes "bc" ∷ [])) ≡ 135 }
    ensures count { (seal_after first_seal (codes "a" ∷ codes "bc" ∷ [])).count ≡ 2 }
    ensures offset { (seal_after first_seal (codes "a" ∷ codes "bc" ∷ [])).offset ≡ 135 }
{}

/// The line behind 64,000,000 bytes is in the next file, and the one behind a byte less isn't.
pub fn where_the_next_file_begins()
    ensures behind { (next_seal
        (record { count = 9; chain = []; number = 3; offset = 64000000 }) (codes "a")).number ≡ 4 }
    ensures at { (next_seal
        (record { count = 9; chain = []; number = 3; offset = 64000000 }) (codes "a")).offset ≡ 67 }
    ensures before { (next_seal
        (record { count = 9; chain = []; number = 3; offset = 63999999 }) (codes "a")).number ≡ 3 }
{}

/// The empty text is a line, and a text with an end of a line in it is none.
pub fn what_is_a_line()
    ensures empty { IsOneLine [] }
    ensures two { IsOneLine (codes "a\nb") → ⊥ }
{}

/// What tables have for the seal of 258 lines, the last of which ends at byte 135 of file 1, and
/// which seal they say without any bytes.
pub fn a_seal_in_tables()
    ensures bytes { bytes_of_seal
        (record { count = 258; chain = replicate 32 7; number = 1; offset = 135 })
        ≡ (2 ∷ 1 ∷ replicate 6 0) ++ replicate 32 7 ++ (1 ∷ replicate 7 0)
        ++ (135 ∷ replicate 7 0) }
    ensures none { seal_said [] ≡ first_seal }
{}
