// What stands on drive 0: the head, and the pages.
//
// Recovery looks at all of it before it changes anything of the caller's: first the head, then whether every page
// can be read, and only then are the pages read into the marks, one for each page byte.
#![tactic(auto)]

ghost use Rattle.std.specs.Prelude.{◌≡◌, suc, ◌+◌, ◌*◌, ◌<◌, ◌≤◌, false, not, map, length};
ghost use Rattle.page_drive.specs.Pages.{pasted, CanRead};
ghost use Rattle.model.specs.Store.{some_of};
ghost use Rattle.model.specs.Logs.{value_at};
ghost use Rattle.model.specs.Recovery.{head_on, is_none, drive_mark, page_marks, drive_marks};

use block::{Head, PAGE_BYTES, page_content};
use later::{Mark, Stamp};
use model::read_block;
use rack::Rack;

// The head of the store that stands on the rack, if one does.
pub fn head_on<R: Rack>(rack: &R) -> Option<Head>
    ensures { result ≡ head_on (R.Rack.meaning rack.now) }
{
    let block = read_block(rack, 0, 0)?;
    Head::read(&block)
}

// Whether each of the pages can be read.
pub fn are_readable<R: Rack>(rack: &R, pages: u16) -> bool
    ensures { result ≡ not (some_of (λ p. is_none (value_at (R.Rack.meaning rack.now) 0 (suc p))) pages) }
{
    (0..pages).all(|page| read_block(rack, 0, page + 1).is_some())
}

// Writes bytes as marks over others, from a place on, each with the stamp of a drive's own byte. In place, by the index: the
// library's `map` would make an array of marks, to be copied then.
fn fill(marks: &mut [Mark], at: usize, bytes: &[u8])
    requires { at + length bytes.now ≤ length marks.old }
    ensures { marks.new ≡ pasted marks.old at (map drive_mark bytes.now) }
{
    for (i, byte) in bytes.iter().enumerate() {
        marks[at + i] = Mark {
            stamp: Stamp::Drive,
            byte: *byte,
        };
    }
}

// Reads a page into its marks; where it cannot be read, the marks stay.
fn read_page<R: Rack>(rack: &R, page: u16, marks: &mut [Mark])
    requires { (page < 64) × (240 * page + 240 ≤ length marks.old) }
    ensures after { marks.new ≡ pasted marks.old (240 * page) (page_marks (value_at (R.Rack.meaning rack.now) 0 (suc page))) }
    ensures whole { is_none (value_at (R.Rack.meaning rack.now) 0 (suc page)) ≡ false → length (page_marks (value_at (R.Rack.meaning rack.now) 0 (suc page))) ≡ 240 }
{
    if let Some(block) = read_block(rack, 0, page + 1) {
        fill(marks, PAGE_BYTES * page as usize, page_content(&block));
    }
}

// Reads the pages into the marks, where there is a mark for each byte of each page and every page can be read.
pub fn read_pages<R: Rack>(rack: &R, pages: u16, marks: &mut [Mark])
    ensures { CanRead (R.Rack.meaning rack.now) pages (length marks.old) → marks.new ≡ drive_marks (R.Rack.meaning rack.now) pages }
{
    // nothing is asked of a caller, so what `CanRead` says is looked at here
    if pages > 64 || marks.len() < PAGE_BYTES * pages as usize {
        return;
    }
    for page in 0..pages {
        read_page(rack, page, marks);
    }
}
