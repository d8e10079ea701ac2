// A depot station that is driven by a script: one command a line on standard input, one answer a line on
// standard output. What a line means and what it is answered is the library's, in crates `script` and `console`;
// here lines are read, memory is had for racks, and answers are printed.
#![tactic(auto)]

ghost use Rattle.std.specs.Prelude.{◌<◌, IfOk, OnSome};
ghost use Rattle.std.specs.Io.Iter.{pieces_left_to_read};

use anyhow::anyhow;
use console::{Order, Station, Step};
use rack::shape::Shape;
use script::answers::Answer;
use std::alloc::Global;
use std::io::{BufRead, BufReader, Split};

// Answers lines up to the end of the input, or up to one that asks for a new rack.
fn serve<B: BufRead + Drop>(
    rt: &(impl Print + Alloc<A = Global>),
    lines: &mut Split<B>,
    station: &mut Station<'_>,
) -> anyhow::Result<Option<Order>>
    ensures { IfOk result (λ next. OnSome next (pieces_left_to_read lines.new < pieces_left_to_read lines.old)) }
{
    // no `for` over the borrowed lines: the clause on what is left to read needs them by name
    while let Some(line) = lines.next() {
        match station.answer(rt.alloc(), line?.as_slice())? {
            Step::Say(answer) => rt.println(answer)?,
            Step::Build(order) => return Ok(Some(order)),
        }
    }
    Ok(None)
}

// Builds a rack in memory of its own, says so, and serves it.
fn build<B: BufRead + Drop>(
    rt: &(impl Print + Alloc<A = Global>),
    lines: &mut Split<B>,
    order: Order,
) -> anyhow::Result<Option<Order>>
    ensures { IfOk result (λ next. OnSome next (pieces_left_to_read lines.new < pieces_left_to_read lines.old)) }
{
    let total = order.shape.total();
    let mut bytes = vec![in rt.alloc(); 0u8; 512 * total]?;
    let mut marks = vec![in rt.alloc(); 1u8; total]?;
    let mut station = Station::new(order, bytes.as_mut_slice(), marks.as_mut_slice()).map_err(
        |_| anyhow!("a rack's memory does not fit its shape"),
    )?;
    rt.println(Answer::Done)?;
    serve(rt, lines, &mut station)
}

// Before the first command `rack` there is a rack with no drives.
fn run(rt: &HostRuntime) -> anyhow::Result<()> {
    // with a buffer before it: the runtime's own reader takes a byte at a time from a pipe
    let mut lines = BufReader::new(rt.alloc(), rt.stdin())?.split(rt.alloc(), b'\n');
    let shape = Shape::new(&[]).map_err(|_| anyhow!("no shape without drives"))?;
    let mut station = Station::new(Order { shape, left: 0 }, &mut [], &mut []).map_err(|_| anyhow!(
        "a rack without drives needs memory"
    ))?;
    let mut next = serve(rt, &mut lines, &mut station)?;
    while let Some(order) = next {
        next = build(rt, &mut lines, order)?;
    }
    Ok(())
}

fn main(rt: HostRuntime) -> anyhow::Result<()> {
    run(&rt)
}
