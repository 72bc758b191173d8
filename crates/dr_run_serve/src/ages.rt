//! The rows to a next node that wait, and since when each of their instances is here.
ghost use Rattle.std.specs.Prelude.{◌≡◌, ◌+◌, ◌-◌, ◌^◌, ◌==◌, [], IfOk, None, Some, cond, false};
ghost use Rattle.std.specs.Prelude.{min, true};
ghost use Rattle.std.specs.BTreeMap as tree;
ghost use Rattle.std.specs.BTreeMap.{is_at};
ghost use Rattle.dr_base.specs.Texts.{Text as Words, text_cmp};
ghost use Rattle.dr_run_serve.specs.Waitings.{begins_anew, longest_of, search_from};

use dr_base::Text;
use dr_run_control::RowSearch;
use std::alloc::{AllocError, Global};
use std::collections::{BTreeMap, BTreeSet};

/// So many rows to a node are noted, those that wait longest: they take some 25 MB.
const MOST: usize = 100_000;

/// Rows to one node that wait. Where there are more than are noted, none of the others has waited
/// for longer.
#[derive(Drop)]
pub struct WaitingRows {
    alloc: Global,
    /// Since when each of them waits.
    moments: BTreeMap<Text, u64>,
    /// The same, first of all the one that waits longest.
    ages: BTreeSet<(u64, Text)>,
    /// Whether somebody has asked. Before, nothing is noted.
    is_asked: bool,
    /// Whether there was no room for a row since rows were looked up.
    is_full: bool,
    /// How often all rows had to be looked up again.
    round: u64,
    /// Behind which UID rows may wait that aren't noted; None where there are none.
    after: Option<Text>,
}

impl WaitingRows {
    /// None is noted; some may be there from before.
    pub fn new(alloc: Global) -> WaitingRows
        ensures { (result.is_asked ≡ false) × (result.is_full ≡ false) × (result.round ≡ 0)
            × (result.after ≡ Some []) }
    {
        WaitingRows {
            alloc,
            moments: BTreeMap::new(alloc),
            ages: BTreeSet::new(alloc),
            is_asked: false,
            is_full: false,
            round: 0,
            after: Some(Text::empty(alloc)),
        }
    }

    /// Rows may wait that aren't noted, wherever they are.
    pub fn doubt(&mut self)
        ensures round { self.new.round ≡ min (self.old.round + 1) (2 ^ 64 - 1) }
        ensures after { self.new.after ≡ Some [] }
        ensures rows { (self.new.moments ≡ self.old.moments) × (self.new.ages ≡ self.old.ages) }
        ensures flags { (self.new.is_asked ≡ self.old.is_asked)
            × (self.new.is_full ≡ self.old.is_full) }
    {
        self.round = self.round.saturating_add(1);
        self.after = Some(Text::empty(self.alloc));
    }

    /// Whether all rows are to be looked up again, where rows wait: none is noted, and there was no
    /// room for one, or none was left to be looked up.
    fn begins_anew(&self) -> bool
        ensures { result ≡ begins_anew self.now.ages.keys self.now.is_full self.now.after }
    {
        if !self.ages.is_empty() {
            return false;
        }
        if self.is_full {
            return true;
        }
        self.after.is_none()
    }

    /// Somebody asks, where rows wait: where none is noted, all are looked up again.
    fn ask(&mut self)
        ensures asked { self.new.is_asked ≡ true }
        ensures rows { (self.new.moments ≡ self.old.moments) × (self.new.ages ≡ self.old.ages) }
        ensures anew { begins_anew self.old.ages.keys self.old.is_full self.old.after ≡ true
            → (self.new.round ≡ min (self.old.round + 1) (2 ^ 64 - 1))
            × (self.new.after ≡ Some []) × (self.new.is_full ≡ false) }
        ensures on { begins_anew self.old.ages.keys self.old.is_full self.old.after ≡ false
            → (self.new.round ≡ self.old.round)
            × (self.new.after ≡ self.old.after) × (self.new.is_full ≡ self.old.is_full) }
    {
        self.is_asked = true;
        if self.begins_anew() {
            self.is_full = false;
            self.doubt();
        }
    }

    /// From where rows are to be looked up that may wait and aren't noted; None where all are.
    ///
    /// Errors: want of memory.
    fn place(&self) -> Result<Option<RowSearch>, AllocError>
        ensures { IfOk result (λ found. found ≡ search_from self.now.round self.now.after) }
    {
        match &self.after {
            Some(after) => Ok(Some(RowSearch {
                round: self.round,
                after: after.clone()?,
            })),
            None => Ok(None),
        }
    }

    /// From where rows are to be looked up that may wait and aren't noted; None where all are. It
    /// is asked where rows wait: where none is noted, all are looked up again.
    ///
    /// Errors: want of memory.
    pub fn search(&mut self) -> Result<Option<RowSearch>, AllocError>
        ensures asked { self.new.is_asked ≡ true }
        ensures rows { (self.new.moments ≡ self.old.moments) × (self.new.ages ≡ self.old.ages) }
        ensures anew { begins_anew self.old.ages.keys self.old.is_full self.old.after ≡ true
            → (self.new.round ≡ min (self.old.round + 1) (2 ^ 64 - 1))
            × (self.new.after ≡ Some []) × (self.new.is_full ≡ false) }
        ensures on { begins_anew self.old.ages.keys self.old.is_full self.old.after ≡ false
            → (self.new.round ≡ self.old.round)
            × (self.new.after ≡ self.old.after) × (self.new.is_full ≡ self.old.is_full) }
        ensures found { IfOk result (λ found. found ≡ search_from self.new.round self.new.after) }
    {
        self.ask();
        self.place()
    }

    /// In that round rows were noted up to a UID, or all of them. Where another round has begun
    /// meanwhile, nothing changes.
    pub fn note_search(&mut self, round: u64, last: Option<Text>)
        ensures after { self.new.after ≡ cond (self.old.round == round) last self.old.after }
        ensures round { self.new.round ≡ self.old.round }
        ensures rows { (self.new.moments ≡ self.old.moments) × (self.new.ages ≡ self.old.ages) }
        ensures flags { (self.new.is_asked ≡ self.old.is_asked)
            × (self.new.is_full ≡ self.old.is_full) }
    {
        if self.round == round {
            self.after = last;
        }
    }

    /// Whether a row that waits since then is none of those that are noted: it is there already
    /// with an earlier moment, or there was no room for others that have waited for longer.
    fn is_known(&self, uid: &Text, moment: u64) -> bool {
        match self.moments.get(uid) {
            Some(known) => *known <= moment,
            None => self.is_full && self.is_youngest(moment),
        }
    }

    /// Whether no row that is noted waits since later.
    fn is_youngest(&self, moment: u64) -> bool {
        match self.ages.last() {
            Some((youngest, _)) => *youngest <= moment,
            None => true,
        }
    }

    /// Where there are too many rows, the one that waits since last is noted no more.
    fn make_room(&mut self) {
        if self.ages.len() <= MOST {
            return;
        }
        self.is_full = true;
        if let Some((_, uid)) = self.ages.pop_last() {
            let _gone = self.moments.remove(&uid);
        }
    }

    /// Notes a row.
    fn put(&mut self, uid: &Text, moment: u64) -> Result<(), AllocError> {
        self.note_gone(uid);
        let _is_new = self.ages.insert((moment, uid.clone()?))?;
        let _known = self.moments.insert(uid.clone()?, moment)?;
        self.make_room();
        Ok(())
    }

    /// Nothing is noted any more, and all will be looked up when somebody asks.
    fn forget_all(&mut self)
        ensures rows { (self.new.moments.entries ≡ []) × (self.new.ages.keys ≡ []) }
        ensures round { self.new.round ≡ min (self.old.round + 1) (2 ^ 64 - 1) }
        ensures after { self.new.after ≡ Some [] }
        ensures flags { (self.new.is_asked ≡ self.old.is_asked)
            × (self.new.is_full ≡ self.old.is_full) }
    {
        self.moments.clear();
        self.ages.clear();
        self.doubt();
    }

    /// A row waits, of an instance that is here since that moment. Where it is noted, the earlier
    /// moment stays. Before anybody has asked nothing is noted.
    ///
    /// Errors: want of memory; then all will be looked up when somebody asks.
    pub fn note(&mut self, uid: &Text, moment: u64) -> Result<(), AllocError> {
        if !self.is_asked || self.is_known(uid, moment) {
            return Ok(());
        }
        let noted = self.put(uid, moment);
        if noted.is_err() {
            self.forget_all();
        }
        noted
    }

    /// A row doesn't wait any more.
    pub fn note_gone(&mut self, uid: &Text)
        ensures moments { (q : Words) → tree.get text_cmp self.new.moments q
            ≡ cond (is_at (text_cmp uid.now) q) None (tree.get text_cmp self.old.moments q) }
        ensures place { (self.new.round ≡ self.old.round) × (self.new.after ≡ self.old.after) }
        ensures flags { (self.new.is_asked ≡ self.old.is_asked)
            × (self.new.is_full ≡ self.old.is_full) }
    {
        let Some((uid, moment)) = self.moments.remove_entry(uid) else {
            return;
        };
        let _gone = self.ages.remove(&(moment, uid));
    }

    /// The UID of the row that waits longest, and since when.
    ///
    /// Errors: want of memory.
    pub fn longest(&self) -> Result<Option<(Text, u64)>, AllocError>
        ensures { IfOk result (λ found. found ≡ longest_of self.now.ages.keys) }
    {
        match self.ages.first() {
            Some(age) => {
                let uid = age.1.clone()?;
                Ok(Some((uid, age.0)))
            }
            None => Ok(None),
        }
    }
}
