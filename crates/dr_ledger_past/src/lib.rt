//! Books whose first lines stand elsewhere, as those of a journal that was sealed do: of the rest
//! there is no more than what the past made, and the lines since.
//!
//! A book with its past is what it is with the past's lines before its own
//! (`specs/Pasts.antt`). What a call answers, and what a book shows but for its lines, is the same
//! with the past and without it; and with it a book is what its journal makes just where it goes on
//! from what the past made. Nothing here runs.
#![tactic(auto)]

pub mod figures;
pub mod laws;
