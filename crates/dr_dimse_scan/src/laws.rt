//! Laws of what is told with a message, as functions that do nothing, and a worked example.
ghost use Rattle.std.specs.Prelude.{◌≡◌, ◌≢◌, ◌<◌, ◌≤◌, ℕ, List, length, Option, Some, None};
ghost use Rattle.std.specs.Prelude.{Result, Ok, Err};
ghost use Rattle.dr_base.specs.declared.syntax.Syntax.{Syntax as SyntaxName};
ghost use Rattle.dr_base.specs.declared.syntax.Syntax.TheVariants.{Implicit, Explicit};
ghost use Rattle.dr_pdu.specs.declared.pdu.Pdv.{Pdv as Value};
ghost use Rattle.dr_dimse.specs.declared.command.Command.TheVariants.{StoreRq};
ghost use Rattle.dr_dimse.specs.declared.message.Awaited.{Awaited as Waiting};
ghost use Rattle.dr_dimse.specs.declared.message.Body.TheVariants.{Whole};
ghost use Rattle.dr_dimse.specs.declared.message.Message.{Message as MessageValue};
ghost use Rattle.dr_dimse.specs.Messages.{IsMessage};
ghost use Rattle.dr_dimse.specs.Taking.{GivesMessage};
ghost use Rattle.dr_dataset.specs.DataSet.{Scans};
ghost use Rattle.dr_dataset.specs.declared.fault.DataFault.{DataFault as Fault};
ghost use Rattle.dr_dataset.specs.declared.fault.DataFault.TheVariants.{BadVr, Memory};
ghost use Rattle.dr_dataset.specs.declared.values.Attributes.{Attributes as Values};
ghost use Rattle.dr_dimse_scan.specs.Stores.{ReadsStore, store_text};
ghost use Rattle.dr_dimse_scan.specs.Fragments.{data_text};
ghost use Rattle.dr_dimse_scan.specs.Worked.{store_values, stored, answered, asked, stored_large};
ghost use Rattle.dr_dimse_scan.specs.Worked.{modality_alone};

/// A data set has one answer in each syntax; only want of memory may stand in the place of its
/// values.
pub fn a_data_set_has_one_answer()
    ensures one { (s : Option SyntaxName) (text : Option (List ℕ))
        (r q : Option (Result Values Fault))
        → r ≢ Some (Err Memory) → q ≢ Some (Err Memory) → ReadsStore s text r → ReadsStore s text q
        → r ≡ q }
    ensures some { (s : Option SyntaxName) (text : Option (List ℕ))
        → (r : Option (Result Values Fault)) × (r ≢ Some (Err Memory)) × ReadsStore s text r }
{}

/// Of a C-STORE-RQ alone is told what its data set is read as.
pub fn only_stores_are_read()
    ensures { (s : Option SyntaxName) (m : MessageValue) (found : Result Values Fault)
        → ReadsStore s (store_text m) (Some found)
        → (n : ℕ)
        × (class instance text : List ℕ)
        × (m.command ≡ StoreRq n class instance)
        × (m.body ≡ Some (Whole text)) }
{}

/// Where values give a C-STORE-RQ, what is told with it is of all the bytes of its data set,
/// however they were cut into fragments; of more than 67,108,864 bytes nothing is told.
pub fn a_store_is_read_whole()
    ensures whole { (awaited : Waiting) (ps : List Value) (m : MessageValue) (n : ℕ)
        (class instance : List ℕ) (s : SyntaxName) (told : Option (Result Values Fault))
        → GivesMessage awaited ps m
        → m.command ≡ StoreRq n class instance
        → length (data_text ps) ≤ 67108864
        → ReadsStore (Some s) (store_text m) told
        → (found : Result Values Fault) × (told ≡ Some found) × Scans s (data_text ps) found }
    ensures large { (awaited : Waiting) (ps : List Value) (m : MessageValue) (s : Option SyntaxName)
        (told : Option (Result Values Fault))
        → GivesMessage awaited ps m
        → 67108864 < length (data_text ps)
        → ReadsStore s (store_text m) told
        → told ≡ None }
{}

/// Two lists of values that are a C-STORE-RQ with the same bytes as its data set: of both the same
/// is told, wherever the fragments are cut.
pub fn cuts_do_not_matter()
    ensures { (ps qs : List Value) (m o : MessageValue) (s : Option SyntaxName)
        (r q : Option (Result Values Fault))
        → IsMessage ps m → IsMessage qs o → m.command ≡ o.command
        → data_text ps ≡ data_text qs
        → r ≢ Some (Err Memory) → q ≢ Some (Err Memory)
        → ReadsStore s (store_text m) r
        → ReadsStore s (store_text o) q
        → r ≡ q }
{}

/// A data set in two fragments: in the implicit syntax its modality is read, in the explicit one it
/// is at fault, and in no named syntax nothing is told; nor is it of the same data set behind
/// another command, or of one that is too large.
pub fn worked_example()
    ensures message { IsMessage store_values stored }
    ensures good { ReadsStore (Some Implicit) (store_text stored) (Some (Ok modality_alone)) }
    ensures bad { ReadsStore (Some Explicit) (store_text stored) (Some (Err BadVr)) }
    ensures told { ReadsStore (Some Implicit) (store_text stored) None → ⊥ }
    ensures unnamed { ReadsStore None (store_text stored) None }
    ensures answer { store_text answered ≡ None }
    ensures query { store_text asked ≡ None }
    ensures large { store_text stored_large ≡ None }
{}
