// One log, as recovery reads it.
//
// Recovery scans each log twice: first for the commit records, which give sets their commit numbers, and then for the
// change records, which offer bytes of pages. A scan reads every block of the log once, from the first to the last. A
// block that cannot be read is passed over, and so is one of another round: neither ends the scan, since a stop can
// leave such a block in the midst of good ones. What is found goes by keep-the-later into what the caller has, so the
// order in which logs and blocks are read does not count.
#![tactic(auto)]

ghost use Rattle.std.specs.Prelude.{◌≡◌, true, OnOk, IfSome, nat_le, slice_set};
ghost use Rattle.std.specs.Option.{option_map};
ghost use Rattle.change.specs.Changes.{ChangeOk, view};
ghost use Rattle.later.specs.Keeping.{kept_all};
ghost use Rattle.later.specs.Stamps.{mark_upto};
ghost use Rattle.model.specs.Logs.{value_at, record_in, record_of, sound, ill, given, offered, named as page_named};
ghost use Rattle.model.specs.Recovery.{marked};
ghost use Rattle.logs.specs.Scans.{counting, change_within, some_ill, ok_unless, ok_if, commits_in, offers_in, named_in};

use crate::offers::apply_change;
use block::{Commit, quad};
use change::Change;
use later::{Mark, Place, keep_later};
use model::{Refusal, read_block};
use rack::Rack;

mod offers;

// A log: blocks 0 to `blocks` - 1 of a drive. Records of one round count, and the store has so many pages.
#[derive(Clone, Copy, Debug)]
pub struct Log {
    pub drive: u16,
    pub blocks: u16,
    pub round: u32,
    pub pages: u16,
}

// The change of one of so many pages that stands in a block, if one does. No block is both a change and a commit, so a
// commit is not looked for.
fn read_change(bytes: &[u8; 512], pages: u16) -> Option<Change<'_>>
    ensures value { option_map view result ≡ change_within pages (record_in bytes.now) }
    ensures sound { IfSome result (λ change. ChangeOk (view change)) }
{
    let change = Change::read(bytes)?;
    (change.page < pages).then_some(change)
}

// Takes the commit that stands in a block, if one does. A block that is no commit and no change of one of so many pages
// is a bad record.
fn take_commit(bytes: &[u8; 512], pages: u16, numbers: &mut [u8; 256]) -> Result<(), Refusal>
    ensures answers { result ≡ ok_if (sound pages (record_in bytes.now)) }
    ensures keeps { numbers.new ≡ kept_all nat_le numbers.old (given (record_in bytes.now)) }
{
    if let Some(commit) = Commit::read(bytes) {
        keep_later(numbers, commit.set as usize, commit.number);
        return Ok(());
    }
    // `map` and `ok_or` for the two arms would say no more
    match read_change(bytes, pages) {
        Some(_) => Ok(()),
        None => Err(Refusal::BadRecord),
    }
}

// Notes that a change names the page. A page past the end changes nothing.
fn name_page(named: &mut [bool; 64], page: u16)
    ensures { named.new ≡ slice_set named.old page true }
{
    let page = page as usize;
    // by its index: of a write through `get_mut` the proof learns nothing
    if page < named.len() {
        named[page] = true;
    }
}

impl Log {
    // What a block of the log holds, if it can be read and counts.
    fn read_counting<R: Rack>(self, rack: &R, block: u16) -> Option<[u8; 512]>
        ensures { result ≡ counting self.round (value_at (R.Rack.meaning rack.now) self.drive block) }
    {
        read_block(rack, self.drive, block).filter(|bytes| quad(bytes, 4) == self.round)
    }

    // Takes the commit that counts in one block, if there is one. A block that counts and is no commit and no change of
    // one of the pages is a bad record.
    fn collect_block<R: Rack>(
        self,
        rack: &R,
        block: u16,
        numbers: &mut [u8; 256],
    ) -> Result<(), Refusal>
        ensures answers { result ≡ ok_unless (ill self.round self.pages (value_at (R.Rack.meaning rack.now) self.drive block)) }
        ensures keeps { numbers.new ≡ kept_all nat_le numbers.old (given (record_of self.round (value_at (R.Rack.meaning rack.now) self.drive block))) }
    {
        match self.read_counting(rack, block) {
            Some(bytes) => take_commit(&bytes, self.pages, numbers),
            None => Ok(()),
        }
    }

    // Takes the commit records: of two commit numbers of a set the larger stays. A block that counts and is no commit and
    // no change of one of the pages is a bad record; then a part of the numbers may have been taken, so a caller that is
    // to keep what it had works on a copy.
    pub fn collect<R: Rack>(self, rack: &R, numbers: &mut [u8; 256]) -> Result<(), Refusal>
        ensures answers { result ≡ ok_unless (some_ill self (R.Rack.meaning rack.now)) }
        ensures keeps { OnOk result (numbers.new ≡ kept_all nat_le numbers.old (commits_in self (R.Rack.meaning rack.now))) }
    {
        for block in 0..self.blocks {
            self.collect_block(rack, block, numbers)?;
        }
        Ok(())
    }

    // Takes the change of one of the pages that counts in one block, if there is one. The marks are the caller's memory and
    // the numbers and names the store's own, so they come apart.
    fn apply_block<R: Rack>(
        self,
        rack: &R,
        block: u16,
        numbers: &[u8; 256],
        marks: &mut [Mark],
        named: &mut [bool; 64],
    )
        ensures offers { marks.new ≡ kept_all mark_upto marks.old (offered numbers.now self.pages self.drive block (record_of self.round (value_at (R.Rack.meaning rack.now) self.drive block))) }
        ensures names { named.new ≡ marked (page_named self.pages (record_of self.round (value_at (R.Rack.meaning rack.now) self.drive block))) named.old }
    {
        if let Some(bytes) = self.read_counting(rack, block)
            && let Some(change) = read_change(&bytes, self.pages)
        {
            let place = Place {
                drive: self.drive,
                block,
            };
            apply_change(&change, place, numbers, marks);
            name_page(named, change.page);
        }
    }

    // Takes the change records of the pages: of two marks of a byte the later stays, and the pages that the changes name
    // are noted. What is no change of one of the pages is passed over.
    pub fn apply<R: Rack>(
        self,
        rack: &R,
        numbers: &[u8; 256],
        marks: &mut [Mark],
        named: &mut [bool; 64],
    )
        ensures marks { marks.new ≡ kept_all mark_upto marks.old (offers_in self numbers.now (R.Rack.meaning rack.now)) }
        ensures named { named.new ≡ marked (named_in self (R.Rack.meaning rack.now)) named.old }
    {
        for block in 0..self.blocks {
            self.apply_block(rack, block, numbers, marks, named);
        }
    }
}
