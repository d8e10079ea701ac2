// The pages of a warm store.
//
// A page has what is committed and what the set that holds it has made of it. A change puts its bytes into the working
// content and records the committed bytes that they replace: were the before bytes taken from the working content, a
// set that is not committed could not be undone. Only a commit makes a working content the committed one.
#![tactic(auto)]

ghost use Rattle.std.specs.Prelude.{◌≡◌, ℕ, ◌<◌, ◌==◌, ◌&&◌, not, map, length, if◌then◌else◌};
ghost use Rattle.change.specs.Pairs.{covering};
ghost use Rattle.change.specs.Changes.{Writes};
ghost use Rattle.model.specs.Rounds.{rest_page};
ghost use Rattle.model.specs.Warming.{held_by_other, changed, shown, committed_by};
ghost use Rattle.pages.specs.Pages.{holder_in, page_in, committed_in, record_for, released, at_rest};

use block::PAGE_BYTES;
use change::{Change, Pair, Pairs, covers, gather, overlay};
use std::num::NonZeroU8;

// A page: what is committed, what its holder made of it, the set that holds it, and whether a record names it in this
// round. No set has the number 0, so a page that nobody holds has no holder.
#[derive(Clone, Copy)]
pub struct Page {
    pub committed: [u8; PAGE_BYTES],
    pub working: [u8; PAGE_BYTES],
    pub holder: Option<NonZeroU8>,
    pub touched: bool,
}

// Which change a record is: of which page, in which round, by which set, and its step there.
#[derive(Clone, Copy)]
pub struct Entry {
    pub page: u16,
    pub round: u32,
    pub set: u8,
    pub step: u32,
}

impl Page {
    // A page with this content that nobody holds and no record names.
    pub fn resting(content: [u8; PAGE_BYTES]) -> Page
        ensures { page_in result ≡ rest_page content }
    {
        Page {
            committed: content,
            working: content,
            holder: None,
            touched: false,
        }
    }

    // Whether this set holds the page. Here and below a set is the number that a caller of the store gives, 0 for a reader
    // that is no set and holds nothing; so it is no Option.
    fn is_held_by(&self, set: u16) -> bool
        ensures { result ≡ (not (set == 0) && holder_in self.now.holder == set) }
    {
        self.holder
            .is_some_and(|holder| u16::from(holder.get()) == set)
    }

    // Whether another set holds the page.
    pub fn is_held_by_other(&self, set: u16) -> bool
        ensures { result ≡ held_by_other set (page_in self.now) }
    {
        self.holder.is_some() && !self.is_held_by(set)
    }

    // What a set reads of the page, or a reader that is no set.
    pub fn content_for(&self, set: u16) -> &[u8; PAGE_BYTES]
        ensures { result.now ≡ shown set (page_in self.now) }
    {
        if self.is_held_by(set) {
            &self.working
        } else {
            &self.committed
        }
    }

    // The record of a change of this page to these new bytes, joined; nothing where there is no such record.
    pub fn record(&self, entry: Entry, pairs: &[Pair], bytes: &[u8]) -> Option<[u8; 512]>
        ensures { Writes (record_for entry pairs.now self.now.committed bytes.now) result }
    {
        let held = Pairs::new(pairs)?;
        let mut joined = [0; PAGE_BYTES];
        let n = gather(pairs, &self.committed, &mut joined);
        Change {
            page: entry.page,
            round: entry.round,
            set: entry.set,
            step: entry.step,
            pairs: held,
            before: &joined[..n],
            after: bytes,
        }
        .block()
    }

    // Puts new bytes into the working content, for the set that holds the page from now on. Nothing is done where they are
    // not as many as the pairs cover, or the pairs cannot stand in a change.
    pub fn change(&mut self, set: u8, pairs: &[Pair], bytes: &[u8])
        ensures { page_in self.new ≡ (if covering pairs.now (length bytes.now) then changed set pairs.now bytes.now (page_in self.old) else page_in self.old) }
    {
        if covers(pairs, bytes.len()) {
            overlay(pairs, bytes, &mut self.working);
            self.holder = NonZeroU8::new(set);
            self.touched = true;
        }
    }

    // Makes the working content the committed one where this set holds the page, which it then holds no more.
    fn commit(&mut self, set: u8)
        ensures { self.new ≡ released set self.old }
    {
        if self.holder == NonZeroU8::new(set) {
            self.committed = self.working;
            self.holder = None;
        }
    }

    // Leaves nothing but what is committed.
    fn rest(&mut self)
        ensures page { self.new ≡ at_rest self.old }
        ensures sized { length self.old.committed ≡ 240 }
    {
        self.working = self.committed;
        self.holder = None;
        self.touched = false;
    }
}

// Commits what the set has made of its pages, in a table of pages.
pub fn commit_pages(pages: &mut [Page], set: u8)
    ensures { pages.new ≡ map (released set) pages.old }
{
    for page in pages {
        page.commit(set);
    }
}

// Leaves nothing but what is committed, in each page: nothing is held or touched at the start of a round.
pub fn rest_pages(pages: &mut [Page])
    ensures each { pages.new ≡ map at_rest pages.old }
    ensures sized { (p : ℕ) → p < length pages.old → length (committed_in pages.old p) ≡ 240 }
{
    for page in pages {
        page.rest();
    }
}
