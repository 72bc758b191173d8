//! An assembly with a scan of the data set that is under way.
ghost use Rattle.std.specs.Prelude.{◌≡◌, ◌≢◌, ◌<◌, List, ℕ, length, take, IfOk, IfSome, IfNone};
ghost use Rattle.std.specs.Bool.{MatchBool};
ghost use Rattle.dr_base.specs.declared.syntax.Syntax.{Syntax as SyntaxName};
ghost use Rattle.dr_dimse.specs.Taking.{Idle, TakesValue, let_go};
ghost use Rattle.dr_dataset.specs.Hearing.{Hears};
ghost use Rattle.dr_dimse_scan.specs.Stores.{HasScan, IsScanOf, message_of, store_in, store_text};
ghost use Rattle.dr_dimse_scan.specs.Following.{HasHeard, HasHeardFirst, is_storing, store_of};

use crate::heard::HeardMessage;
use crate::store::{is_store, text_in};
use dr_base::Syntax;
use dr_dataset::Scan;
use dr_dimse::{Assembly, Awaited, Command, DimseFault, Message};
use dr_pdu::Pdv;
use std::alloc::Global;
use std::marker::Model;
use std::mem;

/// Takes the data values of an association, and gives its messages. The data set of a C-STORE-RQ is
/// scanned while it comes. Contracts see it as its assembly.
#[derive(Drop)]
pub struct Hearing {
    alloc: Global,
    assembly: Assembly,
    /// The scan of the data set that is under way. There is none before its first byte, where its
    /// syntax wasn't named, or where there was no memory for one.
    reading: Option<Reading>,
}

/// A scan with the syntax in which it reads. It is some 5.6 kB, and so stands in a box.
#[derive(Drop)]
struct Reading {
    syntax: Syntax,
    scan: Box<Scan>,
}

impl Model for Hearing {
    ghost use Rattle.dr_dimse.specs.Taking.{Assembling};

    ghost Value = { Assembling };

    ghost view = { λ h. h.assembly };

    ghost use Rattle.dr_dimse_scan.specs.Following.{HasHeard};

    ghost invariant = { λ h. HasHeard h.reading h.assembly.stage };
}

impl Hearing {
    /// Nothing has been taken; it takes no memory.
    pub fn new(alloc: Global, awaited: Awaited) -> Hearing
        ensures { result ≡ record { awaited = awaited; stage = Idle } }
    {
        Hearing {
            alloc,
            assembly: Assembly::new(alloc, awaited),
            reading: None,
        }
    }

    /// Awaits other commands from now on. The test is made at a command's last fragment.
    pub fn set_awaited(&mut self, awaited: Awaited)
        ensures { self.new ≡ record { awaited = awaited; stage = self.old.stage } }
    {
        self.assembly.set_awaited(awaited);
    }

    /// Takes one more value, as `Assembly::take` does, and gives the message that it ends, with a
    /// scan of its data set where there is one. `syntax` is the transfer syntax of the value's
    /// presentation context, and None where it isn't one that is read: then nothing is scanned. Of
    /// one data set that counts which is named with its last value.
    ///
    /// Errors: those of `Assembly::take`, after which all is as before. A fault of a data set is no
    /// error: its message comes whole, and its scan answers the fault. Nor is it one that there is
    /// no memory for a scan: then there is none.
    pub fn take(
        &mut self,
        pdv: Pdv,
        syntax: Option<Syntax>,
    ) -> Result<Option<HeardMessage>, DimseFault>
        ensures awaited { self.new.awaited ≡ self.old.awaited }
        ensures takes { TakesValue self.old.awaited self.old.stage pdv (message_of result)
            self.new.stage }
        ensures scans { IfOk result (λ ended. IfSome ended (λ h. HasScan syntax h)) }
    {
        let before = self.assembly.data_so_far().len();
        match self.assembly.take(pdv) {
            Ok(None) => {
                let reading = mem::replace(&mut self.reading, None);
                let reading = follow(self.alloc, &self.assembly, reading, before, syntax);
                put(&mut self.reading, reading);
                Ok(None)
            }
            Ok(Some(message)) => {
                let last = mem::replace(&mut self.reading, None);
                let scan = end(&message, last, before, syntax);
                Ok(Some(HeardMessage { message, scan }))
            }
            Err(fault) => Err(fault),
        }
    }

    /// Lets the bytes of the data set that is under way go, as `Assembly::let_data_go` does, and
    /// its scan.
    pub fn let_data_go(&mut self)
        ensures { self.new
            ≡ record { awaited = self.old.awaited; stage = let_go self.old.stage } }
    {
        drop(mem::replace(&mut self.reading, None));
        self.assembly.let_data_go();
    }
}

/// The scan behind one more value that ended no message. It had heard the first `before` bytes of
/// the data set.
fn follow(
    alloc: Global,
    assembly: &Assembly,
    reading: Option<Reading>,
    before: usize,
    syntax: Option<Syntax>,
) -> Option<Reading>
    requires { HasHeardFirst before reading (store_of assembly.now.stage) }
    ensures { HasHeard result assembly.now.stage }
{
    if !is_storing(assembly) {
        return None;
    }
    let bytes = assembly.data_so_far();
    match reading {
        Some(reading) => hear_behind(reading, bytes, before),
        None => begin(alloc, bytes, syntax),
    }
}

/// Whether the command whose data set is under way is a C-STORE-RQ.
fn is_storing(assembly: &Assembly) -> bool
    ensures { result ≡ is_storing assembly.now.stage }
{
    match assembly.data_of() {
        Some((_, command)) => is_store(command),
        None => false,
    }
}

/// A scan that has heard these bytes, unless there are none, no syntax is named, or there is no
/// memory.
fn begin(alloc: Global, bytes: &[u8], syntax: Option<Syntax>) -> Option<Reading>
    ensures { IfSome result (λ r. Hears r.syntax bytes.now r.scan.value) }
{
    if bytes.is_empty() {
        return None;
    }
    let Some(syntax) = syntax else {
        return None;
    };
    let Ok(scan) = Box::new(alloc, Scan::new(syntax)) else {
        return None;
    };
    let mut scan = scan;
    let _ = scan.feed(bytes);
    Some(Reading { syntax, scan })
}

/// The scan hears what stands behind the bytes that it has heard. A fault isn't lost: the scan
/// answers it at the end.
fn hear_behind(reading: Reading, bytes: &[u8], before: usize) -> Option<Reading>
    ensures hears { IfSome result (λ r. (r.syntax ≡ reading.syntax)
        × ((s : SyntaxName)
        → Hears s (take before bytes.now) reading.scan.value
        → Hears s bytes.now r.scan.value)) }
    ensures short { IfNone result (length bytes.now < before) }
{
    if bytes.len() < before {
        return None;
    }
    let (_, more) = bytes.split_at(before);
    let mut reading = reading;
    let _ = reading.scan.feed(more);
    Some(reading)
}

/// Puts a scan in the place of none.
fn put(place: &mut Option<Reading>, reading: Option<Reading>)
    ensures { place.new ≡ reading }
{
    *place = reading;
}

/// The scan of a whole message. It had heard the first `before` bytes of its data set.
fn end(
    message: &Message,
    reading: Option<Reading>,
    before: usize,
    syntax: Option<Syntax>,
) -> Option<Box<Scan>>
    requires { HasHeardFirst before reading (store_in message.now.command message.now.body) }
    ensures { IfSome result (λ b. IsScanOf syntax (store_text message.now) b.value) }
{
    let Some(syntax) = syntax else {
        return None;
    };
    let Some(text) = text_in(message) else {
        return None;
    };
    let Some(reading) = reading else {
        return None;
    };
    if !is_in(&reading, syntax) {
        return None;
    }
    let Some(reading) = hear_behind(reading, text, before) else {
        return None;
    };
    Some(reading.scan)
}

/// Whether the scan reads in that syntax.
fn is_in(reading: &Reading, syntax: Syntax) -> bool
    ensures { MatchBool result (reading.now.syntax ≡ syntax) (reading.now.syntax ≢ syntax) }
{
    reading.syntax == syntax
}
