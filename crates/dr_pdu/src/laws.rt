//! Laws of the definitions: a text has one reading, what is written is read, and cuts do not
//! matter.
ghost use Rattle.std.specs.Prelude.{◌≡◌, ◌≢◌, ◌<◌, ◌≤◌, false, ◌++◌, [], List, ℕ, Result, Err, Ok};
ghost use Rattle.std.specs.Prelude.{length};
ghost use Rattle.std.specs.List.{flat_map, AllByRecursion};
ghost use Rattle.dr_pdu.specs.Grammar.{Spells, IsBody, Decodes, Shows};
ghost use Rattle.dr_pdu.specs.Feeding.{Units, Feeding, Feeds, FeedCall, Fed, taken, given, shown};
ghost use Rattle.dr_pdu.specs.Feeding.{KeepsNoPdu, LeavesStream, fresh};
ghost use Rattle.dr_pdu.specs.Written.{Fits, MeetsLimit, written};
ghost use Rattle.dr_pdu.specs.declared.fault.PduFault.{PduFault as Fault};
ghost use Rattle.dr_pdu.specs.declared.fault.PduFault.TheVariants.{More, Memory};
ghost use Rattle.dr_pdu.specs.declared.pdu.Pdu.{Pdu as PduValue};

/// A PDU is determined by its type and its body.
pub fn a_body_is_one_pdu()
    ensures { (kind : ℕ) (body : List ℕ) (p q : PduValue)
        → IsBody kind body p → IsBody kind body q → p ≡ q }
{}

/// Where two spellings begin one text, whatever follows and whatever the limits, they are one
/// spelling of one PDU.
pub fn no_spelling_begins_another()
    ensures { (limit limit' : ℕ) (a b x y : List ℕ) (p q : PduValue)
        → Spells limit a p → Spells limit' b q → a ++ x ≡ b ++ y → (a ≡ b) × (p ≡ q) }
{}

/// The longest list of PDUs that begins a text is one.
pub fn a_text_has_one_longest_list()
    ensures { (limit : ℕ) (text : List ℕ) (ps qs : List PduValue) (a b : List ℕ)
        → Units limit text ps a → Units limit text qs b → (ps ≡ qs) × (a ≡ b) }
{}

/// However a stream is cut, the PDUs that a feeder gave are the longest list that begins the pieces
/// which it took, joined. The rest is kept, or shows the one fault that was answered. From the
/// middle of a stream on, what was kept stands in front of the pieces; and no PDU starts what a
/// feeder keeps.
pub fn cuts_do_not_matter()
    ensures start { (limit : ℕ) (calls : List FeedCall) (new : Feeding)
        → Fed (fresh limit) calls new
        → (rest : List ℕ)
        × Units limit (taken calls) (given calls) rest
        × LeavesStream limit (shown calls) new rest }
    ensures midstream { (old : Feeding) (calls : List FeedCall) (new : Feeding)
        → old.failed ≡ false → KeepsNoPdu old → Fed old calls new
        → (rest : List ℕ)
        × Units old.limit (old.kept ++ taken calls) (given calls) rest
        × LeavesStream old.limit (shown calls) new rest }
    ensures kept { (old : Feeding) (piece : List ℕ) (r : Result (List PduValue) Fault)
        (new : Feeding)
        → Feeds old piece r new → KeepsNoPdu old → KeepsNoPdu new }
    ensures kept_at_first { (limit : ℕ) → KeepsNoPdu (fresh limit) }
    ensures limit { (old : Feeding) (calls : List FeedCall) (new : Feeding)
        → Fed old calls new → new.limit ≡ old.limit }
{}

/// What is written is a spelling, under each limit that its length field meets, so it is read again
/// whatever follows.
pub fn what_is_written_is_read()
    ensures spelled { (limit : ℕ) (p : PduValue)
        → Fits p → MeetsLimit limit p
        → Spells limit (written p) p }
    ensures read { (limit : ℕ) (p : PduValue) (more : List ℕ)
        → Fits p → MeetsLimit limit p
        → Decodes limit (written p ++ more) (Ok (p, length (written p))) }
{}

/// The front of a text has one answer, but for want of memory.
pub fn a_text_has_one_answer()
    ensures { (limit : ℕ) (text : List ℕ) (r s : Result (PduValue × ℕ) Fault)
        → r ≢ Err Memory → s ≢ Err Memory → Decodes limit text r → Decodes limit text s → r ≡ s }
{}

/// A feeder has one answer to a piece, and is one feeder behind it, but for want of memory.
pub fn a_piece_has_one_answer()
    ensures { (old : Feeding) (piece : List ℕ) (r s : Result (List PduValue) Fault)
        (new new' : Feeding)
        → r ≢ Err Memory → s ≢ Err Memory → Feeds old piece r new → Feeds old piece s new'
        → (r ≡ s) × (new ≡ new') }
{}

/// Of PDUs that are written one after the other, cut within the last one, all but that one come
/// out. What is there of it is kept, and shows no fault.
pub fn a_stream_of_written_pdus_is_read()
    ensures { (limit : ℕ) (pdus : List PduValue) (last : PduValue) (front back : List ℕ)
        → AllByRecursion (λ (p : PduValue). Fits p × MeetsLimit limit p) pdus
        → Fits last → MeetsLimit limit last
        → written last ≡ front ++ back
        → back ≢ []
        → Units limit (flat_map written pdus ++ front) pdus front × Shows limit front More }
{}

/// What was read fits, so it can be written: under a limit of at most 134,217,728, and under any
/// limit whose length field is no greater than that.
pub fn what_was_read_fits()
    ensures within { (limit : ℕ) (text : List ℕ) (p : PduValue)
        → limit ≤ 134217728 → Spells limit text p → Fits p }
    ensures any { (limit : ℕ) (text : List ℕ) (p : PduValue)
        → MeetsLimit 134217728 p → Spells limit text p → Fits p }
{}

/// Each text of bytes has an answer that isn't want of memory, and so has each piece that a feeder
/// takes.
pub fn a_text_has_an_answer()
    ensures text { (limit : ℕ) (text : List ℕ)
        → AllByRecursion (λ b. b < 256) text
        → (r : Result (PduValue × ℕ) Fault) × (r ≢ Err Memory) × Decodes limit text r }
    ensures piece { (old : Feeding) (piece : List ℕ)
        → AllByRecursion (λ b. b < 256) (old.kept ++ piece)
        → (r : Result (List PduValue) Fault)
        × (new : Feeding) × (r ≢ Err Memory) × Feeds old piece r new }
{}
