// The pages of a warm store, and the strokes that end a round.
//
// A warm store keeps its pages in a table of 64, however many pages it has. Recovery fills the table from its marks.
// A round ends in an order that is meant for power cuts: the logs are settled before a page is written, and the pages
// are settled before the head is raised.
#![tactic(auto)]

ghost use Rattle.std.specs.Prelude.{◌≡◌, ℕ, suc, ◌*◌, ◌<◌, ◌≤◌, length, slice_index, slice_index_or};
ghost use Rattle.std.specs.Result.{result_err};
ghost use Rattle.rack.specs.Answers.{answer, Leaves};
ghost use Rattle.strokes.specs.declared.Stroke.TheVariants.{Write};
ghost use Rattle.strokes.specs.Plan.{effect, fault, Plays};
ghost use Rattle.block.specs.Pages.{page_block};
ghost use Rattle.model.specs.Format.{head_at, headed};
ghost use Rattle.model.specs.Rounds.{flushes, page_writes, round_end, rest_page, found_page};
ghost use Rattle.pages.specs.Pages.{no_page, page_in, pages_in, committed_in, contents_in};
ghost use Rattle.table.specs.Pages.{is_chosen};
ghost use Rattle.table.specs.Found.{mark_bytes, page_bytes, table_bytes};
ghost use Rattle.table.specs.Heads.{head_shape, next_head};

use block::{Head, PAGE_BYTES, page_block};
use later::Mark;
use pages::Page;
use rack::{Rack, RackFault};
use std::array;
use strokes::settle_run;

// How many pages a table has: as many as a store can have.
const PAGES: usize = 64;

// The byte of the mark at a place, 0 where there is no mark.
fn byte_at(marks: &[Mark], at: usize) -> u8
    ensures { result ≡ slice_index (mark_bytes marks.now) at }
{
    marks.get(at).map_or(0, |mark| mark.byte)
}

// The bytes of a page among the marks, zero from where the marks end on.
fn page_bytes(marks: &[Mark], page: u16) -> [u8; PAGE_BYTES]
    ensures { result ≡ page_bytes marks.now page }
{
    let first = page as usize * PAGE_BYTES;
    array::from_fn(|i| byte_at(marks, first + i))
}

// The bytes in the table for a page: zeros for a page that the store does not have.
#[tactic(auto, unfolding(block::specs::Bytes::zeros))]
fn table_bytes(marks: &[Mark], pages: u16, page: u16) -> [u8; PAGE_BYTES]
    ensures { result ≡ table_bytes pages marks.now page }
{
    if page < pages {
        page_bytes(marks, page)
    } else {
        [0; PAGE_BYTES]
    }
}

// The pages that recovery found, by its marks: one for each byte of a page, those of page p from place p * 240 on.
pub fn found_pages(marks: &[Mark], pages: u16) -> [Page; PAGES]
    ensures each { (p : ℕ) → p < 64 → page_in (slice_index_or result p no_page) ≡ rest_page (table_bytes pages marks.now p) }
    ensures found { pages ≤ 64 → length marks.now ≡ pages * 240 → (p : ℕ) → pages_in pages result p ≡ rest_page (found_page pages marks.now p) }
{
    // filled in place: `array::from_fn` would move the 31 KB of the table, with as much stack again for each move
    let mut table = [Page::resting([0; PAGE_BYTES]); PAGES];
    for (page, slot) in table.iter_mut().enumerate() {
        *slot = Page::resting(table_bytes(marks, pages, page as u16));
    }
    table
}

// Flushes the log drives, 1 to `logs`.
fn flush_logs<R: Rack>(rack: &mut R, logs: u16) -> Result<(), RackFault>
    ensures { Plays (flushes 1 logs) (R.Rack.meaning rack.old) (result_err result) (R.Rack.meaning rack.new) }
{
    for drive in 1..=logs {
        rack.flush(drive)?;
    }
    Ok(())
}

// Writes a page's block with this content.
fn put_page<R: Rack>(rack: &mut R, page: u16, content: &[u8; PAGE_BYTES]) -> Result<(), RackFault>
    requires { page < 64 }
    ensures answers { result ≡ answer (fault (Write 0 (suc page) (page_block content.now)) (R.Rack.meaning rack.old)) }
    ensures leaves { Leaves result (effect (Write 0 (suc page) (page_block content.now)) (R.Rack.meaning rack.old)) (R.Rack.meaning rack.old) (R.Rack.meaning rack.new) }
{
    rack.write(0, page + 1, &page_block(content))
}

// Writes what is committed in the chosen ones of the first so many pages, rising.
fn write_chosen<R: Rack>(
    rack: &mut R,
    pages: u16,
    chosen: &[bool; PAGES],
    table: &[Page; PAGES],
) -> Result<(), RackFault>
    ensures { Plays (page_writes (is_chosen chosen.now) (committed_in table.now) 0 pages) (R.Rack.meaning rack.old) (result_err result) (R.Rack.meaning rack.new) }
{
    for (page, (is_chosen, content)) in (0..pages).zip(chosen.iter().zip(table)) {
        if *is_chosen {
            put_page(rack, page, &content.committed)?;
        }
    }
    Ok(())
}

// The head of the next round.
fn next_head(head: Head) -> Head
    ensures { result ≡ next_head head }
{
    Head {
        round: head.round.wrapping_add(1),
        ..head
    }
}

// Writes the head of the next round and settles it.
fn raise_head<R: Rack>(rack: &mut R, head: Head) -> Result<(), RackFault>
    ensures { Plays (headed (head_at (head_shape head) (suc head.round))) (R.Rack.meaning rack.old) (result_err result) (R.Rack.meaning rack.new) }
{
    settle_run(rack, 0, 0..1, &next_head(head).block())
}

// Ends the round that the head names: settles the logs, writes what is committed in the chosen ones of the store's
// pages, rising, settles that, and raises the head. It is for a round that is not the last, 4,294,967,295: no number
// of four bytes comes after that, and the block of the head would be that of round 0, which reads as no head.
// The flags and the table are made apart, in recovery, so they stay two arrays; one zip goes over both.
pub fn end_round<R: Rack>(
    rack: &mut R,
    head: Head,
    chosen: &[bool; PAGES],
    table: &[Page; PAGES],
) -> Result<(), RackFault>
    ensures { Plays (round_end (head_shape head) head.round (is_chosen chosen.now) (contents_in head.pages table.now)) (R.Rack.meaning rack.old) (result_err result) (R.Rack.meaning rack.new) }
{
    flush_logs(rack, head.logs)?;
    write_chosen(rack, head.pages, chosen, table)?;
    rack.flush(0)?;
    raise_head(rack, head)
}
