//! Worked figures of the definitions, by computation.
ghost use Rattle.std.specs.Prelude.{◌≡◌, ◌∷◌, [], ℕ, List, length, Some, None, Ok, Err};
ghost use Rattle.dr_dimse.specs.Commands.{first_value, text_at, IsCommand, ReadsCommand};
ghost use Rattle.dr_dimse.specs.Taking.{Idle, InCommand, InData, TakesValue};
ghost use Rattle.dr_dimse.specs.Vectors.{echo_request, echo_answer};
ghost use Rattle.dr_pdu.specs.Vectors.{echo_command};
ghost use Rattle.dr_dimse.specs.Vectors.{group_length_of_answer, store_request, store_answer};
ghost use Rattle.dr_dimse.specs.Vectors.{store_text, store_answer_text, moved_text, cancel};
ghost use Rattle.dr_dimse.specs.Vectors.{cancel_text, cancel_with};
ghost use Rattle.dr_dimse.specs.Written.{written};
ghost use Rattle.dr_dimse.specs.declared.fault.DimseFault.TheVariants.{OutOfPlace, MixedContext};
ghost use Rattle.dr_dimse.specs.declared.fault.DimseFault.TheVariants.{BadCommand, TooLong};
ghost use Rattle.dr_dimse.specs.declared.message.Awaited.TheVariants.{Requests, AnswerTo, Nothing};
ghost use Rattle.dr_dimse.specs.declared.message.Body.TheVariants.{Whole};

/// Requests for an echo and a store, byte by byte, the answer to a store, and the group length of
/// that to an echo.
pub fn what_is_written()
    ensures request { written echo_request ≡ echo_command }
    ensures answer { group_length_of_answer ≡ 66 }
    ensures store { written store_request ≡ store_text }
    ensures store_answer { written store_answer ≡ store_answer_text }
{}

/// Of a repeated element the first counts, those of other numbers are skipped, and padding at the
/// end is dropped.
pub fn repeated_elements()
    ensures first { first_value 0x0110
        (record { number = 0x0120; value = 7 ∷ [] } ∷ record { number = 0x0110; value = 8 ∷ [] }
        ∷ record { number = 0x0110; value = 9 ∷ [] } ∷ [])
        ≡ Some (8 ∷ []) }
    ensures none { first_value 0x0110 (record { number = 0x0120; value = 7 ∷ [] } ∷ []) ≡ None }
    ensures text { text_at 0x0002
        (record { number = 0x0002; value = 49 ∷ 46 ∷ 50 ∷ 32 ∷ 0 ∷ [] } ∷ [])
        ≡ 49 ∷ 46 ∷ 50 ∷ [] }
    ensures no_text { text_at 0x0002 [] ≡ [] }
{}

/// A request for an echo is read from its text, and its answer from what is written of it. A
/// C-STORE-RQ may name the move's originator, whose message id has two bytes; a C-CANCEL-RQ has
/// neither id nor status.
pub fn what_is_read()
    ensures request { IsCommand echo_command echo_request }
    ensures answer { IsCommand (written echo_answer) echo_answer }
    ensures moved { IsCommand (moved_text (9 ∷ 0 ∷ [])) store_request }
    ensures long_id { ReadsCommand (moved_text (9 ∷ 0 ∷ 0 ∷ 0 ∷ [])) (Err BadCommand) }
    ensures cancel { IsCommand cancel_text cancel }
{}

/// A fragment of a data set before any command, two fragments of a command in two contexts, a
/// command within a data set, and what 16,385 bytes show.
pub fn faults_of_values()
    ensures data_first { TakesValue Requests Idle (record { id = 1; header = 2; fragment = [] })
        (Err OutOfPlace) Idle }
    ensures contexts { TakesValue Requests (InCommand 1 (0 ∷ []))
        (record { id = 3; header = 1; fragment = 0 ∷ [] }) (Err MixedContext)
        (InCommand 1 (0 ∷ [])) }
    ensures within { TakesValue Requests (InData 1 echo_request (Whole []))
        (record { id = 1; header = 3; fragment = [] }) (Err OutOfPlace)
        (InData 1 echo_request (Whole [])) }
    ensures longest { (text more : List ℕ) → length text ≡ 16384 → length more ≡ 1
        → TakesValue Requests (InCommand 1 text) (record { id = 1; header = 1; fragment = more })
        (Err TooLong) (InCommand 1 text) }
{}

/// An echo is a message of one value, and so is a cancel; a request, an answer that is awaited, and
/// one that isn't.
pub fn an_echo_is_one_value()
    ensures request { TakesValue Requests Idle
        (record { id = 1; header = 3; fragment = echo_command })
        (Ok (Some (record { id = 1; command = echo_request; body = None }))) Idle }
    ensures cancel { TakesValue Requests Idle
        (record { id = 1; header = 3; fragment = cancel_text })
        (Ok (Some (record { id = 1; command = cancel; body = None }))) Idle }
    ensures answer { TakesValue (AnswerTo 1) Idle
        (record { id = 1; header = 3; fragment = written echo_answer })
        (Ok (Some (record { id = 1; command = echo_answer; body = None }))) Idle }
    ensures other_id { TakesValue (AnswerTo 2) Idle
        (record { id = 1; header = 3; fragment = written echo_answer }) (Err OutOfPlace) Idle }
    ensures not_asked { TakesValue Nothing Idle
        (record { id = 1; header = 3; fragment = written echo_answer }) (Err OutOfPlace) Idle }
    ensures reverse { TakesValue (AnswerTo 1) Idle
        (record { id = 1; header = 3; fragment = echo_command }) (Err OutOfPlace) Idle }
{}

/// The message id that is answered (0000,0120) and the status (0000,0900) have two bytes where they
/// are there at all, also in a command that needs neither.
pub fn numbers_have_two_bytes()
    ensures two { IsCommand (cancel_with (7 ∷ 0 ∷ []) (0 ∷ 0 ∷ [])) cancel }
    ensures long_id { ReadsCommand (cancel_with (7 ∷ 0 ∷ 0 ∷ 0 ∷ []) (0 ∷ 0 ∷ []))
        (Err BadCommand) }
    ensures short_id { ReadsCommand (cancel_with (7 ∷ []) (0 ∷ 0 ∷ [])) (Err BadCommand) }
    ensures no_id { ReadsCommand (cancel_with [] (0 ∷ 0 ∷ [])) (Err BadCommand) }
    ensures long_status { ReadsCommand (cancel_with (7 ∷ 0 ∷ []) (0 ∷ 0 ∷ 0 ∷ 0 ∷ []))
        (Err BadCommand) }
    ensures short_status { ReadsCommand (cancel_with (7 ∷ 0 ∷ []) (0 ∷ [])) (Err BadCommand) }
    ensures no_status { ReadsCommand (cancel_with (7 ∷ 0 ∷ []) []) (Err BadCommand) }
{}
