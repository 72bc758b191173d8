//! What came, by caller and modality, and what was responded, for whoever asks the node for it.
use dr_base::Text;
use dr_ledger::{Arrived, Instance, LedgerFault};
use dr_run_answer::noted::{Minute, copies_of, let_go, note_caller, note_minute, recents_of};
use dr_run_answer::{Brought, Recent, ResponseCount, note_status, response_copies};
use std::alloc::{AllocError, Global};
use std::sync::{Mutex, Wait};

/// So many milliseconds are a minute.
pub const MINUTE: u64 = 60_000;

/// What each caller has brought since the node serves, and what came lately, by minutes.
#[derive(Drop)]
struct Noted {
    callers: Vec<Brought>,
    minutes: Vec<Minute>,
}

/// An association that is open: the number of its session, who asked for it, and which responses
/// were sent over it.
#[derive(Drop)]
struct Answering {
    session: u64,
    caller: Text,
    responses: Vec<ResponseCount>,
}

/// Which responses each caller was sent since the node serves, and those of the associations that
/// are open.
#[derive(Drop)]
struct Responded {
    callers: Vec<ResponseCount>,
    open: Vec<Answering>,
}

impl Responded {
    /// A response of this status was sent over the association of that session.
    fn note(&mut self, session: u64, status: u16) {
        for one in self.open.iter_mut() {
            if one.session == session {
                let _own = note_status(&mut one.responses, &one.caller, status);
                let _counted = note_status(&mut self.callers, &one.caller, status);
            }
        }
    }

    /// The association of that session is over: the responses that were sent over it, none where it
    /// wasn't noted.
    fn end(&mut self, alloc: Global, session: u64) -> Vec<ResponseCount> {
        match self.open.iter().position(|one| one.session == session) {
            Some(place) => {
                let Answering { responses, .. } = self.open.swap_remove(place);
                responses
            }
            None => Vec::new(alloc),
        }
    }
}

/// What came, and what was responded, each under a lock of its own.
#[derive(Drop)]
pub struct Intake {
    all: Mutex<Noted>,
    responded: Mutex<Responded>,
}

impl Intake {
    /// Nothing has come.
    pub fn new(alloc: Global) -> Intake {
        Intake {
            all: Mutex::new(Noted {
                callers: Vec::new(alloc),
                minutes: Vec::new(alloc),
            }),
            responded: Mutex::new(Responded {
                callers: Vec::new(alloc),
                open: Vec::new(alloc),
            }),
        }
    }

    /// An instance came from a caller, and was answered, at that moment (milliseconds). Where there
    /// is no memory for a line more, it isn't counted.
    pub fn note<R: Wait>(
        &self,
        rt: &R,
        caller: &Text,
        instance: &Instance,
        answer: Result<Arrived, LedgerFault>,
        now: u64,
    ) {
        let (minute, modality) = (now / MINUTE, &instance.key.modality);
        let mut all = self.all.lock(rt);
        let _counted = note_caller(&mut all.callers, caller, answer, instance.size);
        let_go(&mut all.minutes, minute);
        let _kept = note_minute(&mut all.minutes, minute, caller, modality, answer.is_ok());
    }

    /// What each caller has brought since the node serves.
    ///
    /// Errors: want of memory.
    pub fn brought<R: Wait>(&self, rt: &R, alloc: Global) -> Result<Vec<Brought>, AllocError> {
        copies_of(alloc, self.all.lock(rt).callers.as_slice())
    }

    /// What came within the last hour from each caller, of each modality.
    ///
    /// Errors: want of memory.
    pub fn recents<R: Wait>(
        &self,
        rt: &R,
        alloc: Global,
        now: u64,
    ) -> Result<Vec<Recent>, AllocError> {
        recents_of(alloc, self.all.lock(rt).minutes.as_slice(), now / MINUTE)
    }
    /// An association of that session was accepted, for which this caller asked. Where there is no
    /// memory for it, its responses aren't counted.
    pub fn begin<R: Wait>(&self, rt: &R, alloc: Global, session: u64, caller: &[u8]) {
        if let Ok(caller) = Text::copy_of(alloc, caller) {
            let responses = Vec::new(alloc);
            let _noted = self.responded.lock(rt).open.push(Answering {
                session,
                caller,
                responses,
            });
        }
    }

    /// A response of this status was sent over the association of that session. Where there is no
    /// room or no memory for a line more, it isn't counted.
    pub fn respond<R: Wait>(&self, rt: &R, session: u64, status: u16) {
        self.responded.lock(rt).note(session, status);
    }

    /// The association of that session is over: the responses that were sent over it, none where it
    /// wasn't noted.
    pub fn end<R: Wait>(&self, rt: &R, alloc: Global, session: u64) -> Vec<ResponseCount> {
        self.responded.lock(rt).end(alloc, session)
    }

    /// Which responses each caller was sent since the node serves.
    ///
    /// Errors: want of memory.
    pub fn responses<R: Wait>(
        &self,
        rt: &R,
        alloc: Global,
    ) -> Result<Vec<ResponseCount>, AllocError> {
        response_copies(alloc, self.responded.lock(rt).callers.as_slice())
    }
}
