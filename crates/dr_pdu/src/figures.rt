//! Worked figures of the definitions, by computation.
ghost use Rattle.std.specs.Prelude.{◌≡◌, ◌∷◌, [], Some, None, Ok, length};
ghost use Rattle.dr_pdu.specs.Grammar.{header_fault, AreContextIds, HasContextIds, IsAnswer};
ghost use Rattle.dr_pdu.specs.Grammar.{IsBody, IsProposal, Decodes, Shows};
ghost use Rattle.dr_pdu.specs.Items.{first_body};
ghost use Rattle.dr_pdu.specs.Vectors.{explicit, proposal};
ghost use Rattle.dr_pdu.specs.Written.{implicit, body_text, written};
ghost use Rattle.dr_base.specs.Standard.{image, verification};
ghost use Rattle.dr_pdu.specs.Vectors.{proposal_text, acceptance, refusal, rejection};
ghost use Rattle.dr_pdu.specs.Vectors.{rejection_text, transient_rejection, abort, echo, echo_text};
ghost use Rattle.dr_pdu.specs.Vectors.{foreign_request, foreign_text, syntax_alone, class_alone};
ghost use Rattle.dr_pdu.specs.Vectors.{bare_proposal, bare_body, repeated};
ghost use Rattle.dr_pdu.specs.declared.pdu.ContextAnswer.{ContextAnswer as Answer};
ghost use Rattle.dr_pdu.specs.declared.pdu.ContextProposal.{ContextProposal as Proposal};
ghost use Rattle.dr_pdu.specs.declared.pdu.Pdu.{Pdu as PduValue};
ghost use Rattle.dr_pdu.specs.declared.pdu.Pdu.TheVariants.{ReleaseRq};
ghost use Rattle.dr_pdu.specs.declared.fault.PduFault.TheVariants.{More, UnknownType, TooLong};
ghost use Rattle.dr_pdu.specs.declared.fault.PduFault.TheVariants.{BadItem};

/// The length fields of associations, and three PDUs byte by byte.
pub fn what_is_written()
    ensures proposal { length (body_text (proposal image explicit)) ≡ 228 }
    ensures proposal_text { written (proposal image explicit) ≡ proposal_text }
    ensures acceptance { length (body_text (acceptance explicit)) ≡ 199 }
    ensures proposal_of_echo { length (body_text (proposal verification implicit)) ≡ 218 }
    ensures acceptance_of_echo { length (body_text (acceptance implicit)) ≡ 197 }
    ensures refusal { length (body_text refusal) ≡ 197 }
    ensures rejection { written rejection ≡ rejection_text }
    ensures transient { written transient_rejection ≡ 3 ∷ 0 ∷ 0 ∷ 0 ∷ 0 ∷ 4 ∷ 0 ∷ 2 ∷ 3 ∷ 5 ∷ [] }
    ensures abort { written abort ≡ 7 ∷ 0 ∷ 0 ∷ 0 ∷ 0 ∷ 4 ∷ 0 ∷ 0 ∷ 2 ∷ 6 ∷ [] }
    ensures echo { written echo ≡ echo_text }
{}

/// The edges of the length fields.
pub fn edges_of_lengths()
    ensures greatest_association { header_fault 0 1 262144 ≡ None }
    ensures over { header_fault 0 1 262145 ≡ Some TooLong }
    ensures least_association { header_fault 0 2 68 ≡ None }
    ensures under { header_fault 0 2 67 ≡ Some BadItem }
    ensures greatest_data { header_fault 0 4 134217728 ≡ None }
    ensures over_data { header_fault 0 4 134217729 ≡ Some TooLong }
    ensures at_limit { header_fault 1024 4 1024 ≡ None }
    ensures over_limit { header_fault 1024 4 1025 ≡ Some TooLong }
    ensures greatest_limit { header_fault 4294967295 4 4294967295 ≡ None }
    ensures limit_of_data_alone { header_fault 1024 1 1025 ≡ None }
    ensures four { header_fault 0 7 4 ≡ None }
    ensures five { header_fault 0 5 5 ≡ Some BadItem }
    ensures nothing { header_fault 0 0 4 ≡ Some UnknownType }
    ensures eight { header_fault 0 8 4294967295 ≡ Some UnknownType }
{}

/// Of a repeated item the first counts, and items of other types are skipped.
pub fn repeated_items()
    ensures first { first_body 0x51
        (record { kind = 0x52; body = 7 ∷ [] } ∷ record { kind = 0x51; body = 8 ∷ [] }
        ∷ record { kind = 0x51; body = 9 ∷ [] } ∷ [])
        ≡ Some (8 ∷ []) }
    ensures none { first_body 0x50 (record { kind = 0x52; body = 7 ∷ [] } ∷ []) ≡ None }
{}

/// Ids of contexts are odd, and no two are alike. None at all are good too.
pub fn context_ids()
    ensures none { AreContextIds [] }
    ensures good { AreContextIds (3 ∷ 1 ∷ 255 ∷ []) }
    ensures even { AreContextIds (1 ∷ 2 ∷ []) → ⊥ }
    ensures twice { AreContextIds (1 ∷ 3 ∷ 1 ∷ []) → ⊥ }
    ensures request { HasContextIds (proposal image explicit) }
    ensures acceptance { HasContextIds repeated → ⊥ }
{}

/// A refused context needs no transfer syntax, an accepted one and a proposal do. A proposal needs
/// an abstract syntax too, and a request an application context.
pub fn contexts_without_items()
    ensures refused { IsAnswer (1 ∷ 9 ∷ 3 ∷ 9 ∷ []) (record { id = 1; result = 3; syntax = [] }) }
    ensures accepted { (c : Answer) → IsAnswer (1 ∷ 0 ∷ 0 ∷ 0 ∷ []) c → ⊥ }
    ensures proposed { (c : Proposal) → IsProposal (1 ∷ 0 ∷ 0 ∷ 0 ∷ []) c → ⊥ }
    ensures no_class { (c : Proposal) → IsProposal syntax_alone c → ⊥ }
    ensures no_syntax { (c : Proposal) → IsProposal class_alone c → ⊥ }
    ensures both { IsProposal bare_proposal
        (record { id = 1; class = verification; syntaxes = implicit ∷ [] }) }
    ensures no_application { (p : PduValue) → IsBody 1 bare_body p → ⊥ }
{}

/// PDUs that are read, one of another product among them, and texts that show a fault.
pub fn what_is_read()
    ensures echo { Decodes 16384 echo_text (Ok (echo, 80)) }
    ensures foreign { Decodes 0 foreign_text (Ok (foreign_request, 267)) }
    ensures reserved_bytes { Decodes 16384 (5 ∷ 9 ∷ 0 ∷ 0 ∷ 0 ∷ 4 ∷ 1 ∷ 2 ∷ 3 ∷ 4 ∷ 5 ∷ [])
        (Ok (ReleaseRq, 10)) }
    ensures five_bytes { Shows 16384 (4 ∷ 0 ∷ 0 ∷ 0 ∷ 0 ∷ []) More }
    ensures header_alone { Shows 16384 (1 ∷ 0 ∷ 0 ∷ 4 ∷ 0 ∷ 0 ∷ []) More }
    ensures too_long { Shows 16384 (1 ∷ 0 ∷ 0 ∷ 4 ∷ 0 ∷ 1 ∷ []) TooLong }
    ensures too_short { Shows 16384 (1 ∷ 0 ∷ 0 ∷ 0 ∷ 0 ∷ 67 ∷ []) BadItem }
    ensures not_four { Shows 16384 (3 ∷ 0 ∷ 0 ∷ 0 ∷ 0 ∷ 5 ∷ []) BadItem }
    ensures no_type { Shows 16384 (8 ∷ 0 ∷ 0 ∷ 0 ∷ 0 ∷ 0 ∷ []) UnknownType }
{}
