//! Laws of the definitions.
ghost use Rattle.std.specs.Prelude.{◌≡◌, ◌≢◌, ◌<◌, ◌≤◌, ◌+◌, ◌^◌, ◌∷◌, ◌++◌, [], List, ℕ, Bool};
ghost use Rattle.std.specs.Prelude.{Option, Some, None, Result, Ok, Err, length};
ghost use Rattle.std.specs.List.{AllByRecursion};
ghost use Rattle.dr_pdu.specs.declared.pdu.Pdv.{Pdv as Value};
ghost use Rattle.dr_dimse.specs.Commands.{IsCommand};
ghost use Rattle.dr_dimse.specs.Messages.{IsMessage, AreMessages};
ghost use Rattle.dr_dimse.specs.Taking.{MessageStage, Idle, LeavesStage, IsAwaited, TakesValue};
ghost use Rattle.dr_dimse.specs.Taking.{TakeCall};
ghost use Rattle.dr_dimse.specs.Taking.{Took, taken, given, Waits, GivesMessage, ended_by, since};
ghost use Rattle.dr_dimse.specs.Taking.{InCommand, InData, TakesData, let_go};
ghost use Rattle.dr_dimse.specs.declared.message.Body.{Body as Data};
ghost use Rattle.dr_dimse.specs.declared.message.Body.TheVariants.{TooLarge};
ghost use Rattle.dr_dimse.specs.declared.message.Awaited.{Awaited as Waiting};
ghost use Rattle.dr_dimse.specs.declared.message.Message.{Message as MessageValue};
ghost use Rattle.dr_dimse.specs.Written.{written, CommandFits};
ghost use Rattle.dr_dimse.specs.declared.command.Command.{Command as CommandValue};
ghost use Rattle.dr_dimse.specs.declared.command.Command.TheVariants.{StoreRq, StoreRsp, EchoRq};
ghost use Rattle.dr_dimse.specs.declared.command.Command.TheVariants.{EchoRsp, Other};
ghost use Rattle.dr_dimse.specs.declared.fault.DimseFault.{DimseFault as Fault};
ghost use Rattle.dr_dimse.specs.declared.fault.DimseFault.TheVariants.{Memory};

/// A text spells one command at most.
pub fn a_text_has_one_command()
    ensures { (text : List ℕ) (c d : CommandValue) → IsCommand text c → IsCommand text d → c ≡ d }
{}

/// A list of values gives a message at its last one, and none before, exactly where it is that
/// message, and its command is awaited.
pub fn a_message_is_given_at_its_last_value()
    ensures given { (awaited : Waiting) (ps : List Value) (m : MessageValue)
        → GivesMessage awaited ps m
        → IsMessage ps m × IsAwaited awaited m.command }
    ensures whole { (awaited : Waiting) (ps : List Value) (m : MessageValue)
        → IsMessage ps m
        → IsAwaited awaited m.command
        → GivesMessage awaited ps m }
{}

/// Whatever the calls, the messages that were given are those of the values that were taken, in
/// order, and what is under way is made of the values behind them.
pub fn an_assembly_gives_the_messages()
    ensures fresh { (calls : List TakeCall) (new : MessageStage)
        → Took Idle calls new
        → (rest : List Value)
        × AreMessages (taken calls) (given calls) rest
        × LeavesStage rest new }
    ensures awaited { (awaited : Waiting) (calls : List TakeCall) (new : MessageStage)
        → AllByRecursion (λ (x : TakeCall). x.awaited ≡ awaited) calls
        → Took Idle calls new
        → AllByRecursion (λ (m : MessageValue). IsAwaited awaited m.command) (given calls) }
    ensures later { (calls : List TakeCall) (before : List Value) (old new : MessageStage)
        → LeavesStage before old → Took old calls new
        → (rest : List Value)
        × AreMessages (before ++ taken calls) (given calls) rest
        × LeavesStage rest new }
{}

/// The values since the last message leave one stage at most: it is fixed by them.
pub fn a_stage_is_one()
    ensures { (ps : List Value) (s t : MessageStage) → LeavesStage ps s → LeavesStage ps t → s ≡ t }
{}

/// From any stage on: where the values since the last message, one more, and those that are still
/// to come make a message that is awaited, the one is taken, and gives the message just where no
/// more are to come.
pub fn a_message_comes_value_by_value()
    ensures { (awaited : Waiting) (before : List Value) (p : Value) (later : List Value)
        (m : MessageValue) (s : MessageStage)
        → LeavesStage before s
        → IsMessage (before ++ p ∷ later) m
        → IsAwaited awaited m.command
        → (new : MessageStage)
        × TakesValue awaited s p (Ok (ended_by later m)) new
        × LeavesStage (since (before ++ p ∷ []) later) new }
{}

/// A value has one answer, but for want of memory.
pub fn a_value_has_one_answer()
    ensures { (awaited : Waiting) (old : MessageStage) (p : Value)
        (r s : Result (Option MessageValue) Fault) (new new' : MessageStage)
        → r ≢ Err Memory → s ≢ Err Memory
        → TakesValue awaited old p r new
        → TakesValue awaited old p s new'
        → (r ≡ s) × (new ≡ new') }
{}

/// No value is without an answer other than want of memory: that each of the answers is wrong of it
/// is absurd. (That says that there is one without saying which, as long as nobody has tried to
/// read the command.)
pub fn a_value_has_an_answer()
    ensures { (awaited : Waiting) (old : MessageStage) (p : Value)
        → ((r : Result (Option MessageValue) Fault) (new : MessageStage)
        → r ≢ Err Memory
        → TakesValue awaited old p r new
        → ⊥)
        → ⊥ }
{}

/// No fault is told while a message can still come: after a fault, the values since the last
/// message and the one that was refused begin no message that is awaited. (It may be told later
/// than at the first value with which that is so.)
pub fn after_a_fault_there_is_no_message()
    ensures { (awaited : Waiting) (ps : List Value) (p : Value) (fault : Fault)
        (old new : MessageStage)
        → fault ≢ Memory
        → Waits awaited Idle ps old
        → TakesValue awaited old p (Err fault) new
        → (more : List Value) (m : MessageValue)
        → IsMessage (ps ++ p ∷ more) m
        → IsAwaited awaited m.command
        → ⊥ }
{}

/// A data set whose bytes were let go is told as one that is too large, whatever comes of it; its
/// command stays. Between messages, and within a command, nothing is let go.
pub fn what_was_let_go_is_too_large()
    ensures told { (id : ℕ) (c : CommandValue) (body : Data) (p : Value) (m : MessageValue)
        (new : MessageStage)
        → TakesData (let_go (InData id c body)) p (Some m) new
        → (m.command ≡ c) × (m.body ≡ Some TooLarge) }
    ensures stays { (id : ℕ) (c : CommandValue) (body : Data) (p : Value) (new : MessageStage)
        → TakesData (let_go (InData id c body)) p None new
        → new ≡ let_go (InData id c body) }
    ensures idle { let_go Idle ≡ Idle }
    ensures command { (id : ℕ) (text : List ℕ) → let_go (InCommand id text) ≡ InCommand id text }
{}

/// What is written is a spelling of its command.
pub fn what_is_written_is_read()
    ensures { (c : CommandValue) → CommandFits c → IsCommand (written c) c }
{}

/// A command that was read from at most 16,384 bytes can be written.
pub fn what_is_read_can_be_written()
    ensures { (text : List ℕ) (c : CommandValue)
        → IsCommand text c → length text ≤ 16384 → CommandFits c }
{}

/// The answer to a request that can be written can be written, with the same UIDs.
pub fn a_request_can_be_answered()
    ensures store { (id status : ℕ) (class instance : List ℕ) (has_data : Bool)
        → CommandFits (StoreRq id class instance)
        → status < 2 ^ 16
        → CommandFits (StoreRsp id status class instance has_data) }
    ensures echo { (id status : ℕ) (class : List ℕ) (had_data has_data : Bool)
        → CommandFits (EchoRq id class had_data)
        → status < 2 ^ 16
        → CommandFits (EchoRsp id status class has_data) }
    ensures other { (field id status : ℕ) (none : Option ℕ) (had_data has_data : Bool)
        → CommandFits (Other field (Some id) none had_data)
        → field < 0x8000 → status < 2 ^ 16
        → CommandFits (Other (0x8000 + field) (Some id) (Some status) has_data) }
{}
