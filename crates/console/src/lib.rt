// The station that a script drives: a memory rack and one store.
//
// Each command is answered by one call of the store or of the rack, and its answer is made from what that call
// gave; a refusal is its error. A new rack needs memory of its own, so the step on the command `rack` is to build
// one. A number that is too large for a call's own type is cut down to one that names nothing there.
#![tactic(auto)]

ghost use Rattle.std.specs.Prelude.{◌≡◌, MatchResult};
ghost use Rattle.script.specs.Commands.{said, command_in};
ghost use Rattle.memory_rack.specs.Memory.{kept_in, shown, fresh};
ghost use Rattle.rack.specs.declared.RackFault.TheVariants.{BadShape};
ghost use Rattle.console.specs.Station.{Opens, line_in, named, block_answer, CanBuild, Orders, Obeys, Steps, said_of, step_of};

use memory_rack::MemoryRack;
use model::Refusal;
use rack::shape::Shape;
use rack::{Rack, RackFault};
use recovery::Cold;
use script::answers::Answer;
use script::{Command, parse};
use std::alloc::{AllocError, Global};

// A rack that is to be built.
#[derive(Clone, Copy)]
pub struct Order {
    pub shape: Shape,
    // the strokes left
    pub left: u64,
}

impl Order {
    // The rack that `rack` asks for; refused where a rack cannot have these sizes.
    fn new(left: u32, sizes: &[u32]) -> Result<Order, RackFault>
        ensures { MatchResult result (Orders left sizes.now) (λ f. (CanBuild sizes.now → ⊥) × (f ≡ BadShape)) }
    {
        if sizes.is_empty() {
            return Err(RackFault::BadShape);
        }
        Ok(Order {
            shape: Shape::new(sizes)?,
            left: u64::from(left),
        })
    }
}

// What comes of a command: an answer to print, or a new rack to build.
#[derive(Clone, Copy)]
pub enum Step {
    Say(Answer),
    Build(Order),
}

#[derive(Drop)]
pub struct Station<'a> {
    rack: MemoryRack<'a>,
    store: Cold,
}

// The drive, block or page count that a number names.
fn name_of(n: u32) -> u16
    ensures { result ≡ named n }
{
    u16::try_from(n).unwrap_or(u16::MAX)
}

// A line without the newline that ends it.
fn without_newline(line: &[u8]) -> &[u8]
    ensures { result.now ≡ line_in line.now }
{
    line.strip_suffix(b"\n").unwrap_or(line)
}

impl<'a> Station<'a> {
    // A station with the rack that is asked for in the caller's memory, and a store that is cold; refused where the
    // memory does not fit the shape.
    pub fn new(
        order: Order,
        bytes: &'a mut [u8],
        marks: &'a mut [u8],
    ) -> Result<Station<'a>, RackFault>
        ensures { Opens (fresh order.shape bytes.old marks.old order.left) result }
    {
        Ok(Station {
            rack: MemoryRack::new(order.shape, bytes, marks, order.left)?,
            store: Cold,
        })
    }

    fn block(&self, drive: u32, block: u32) -> Result<Answer, RackFault>
        ensures { said_of result ≡ block_answer (shown (kept_in self.now.rack)) (named drive) (named block) }
    {
        let mut bytes = [0; 512];
        self.rack.read(name_of(drive), name_of(block), &mut bytes)?;
        Ok(Answer::Block(bytes))
    }

    // The step on a command.
    fn obey(&mut self, command: &Command) -> Result<Step, Refusal>
        ensures { Obeys (said command.now) (kept_in self.old.rack) (step_of result) (kept_in self.new.rack) }
    {
        let answer = match command {
            Command::Rack { left, sizes } => {
                return Ok(Step::Build(Order::new(*left, sizes.as_slice())?));
            }
            Command::Format { pages } => {
                self.store.format(&mut self.rack, name_of(*pages))?;
                Answer::Done
            }
            Command::Left => Answer::Number(self.rack.strokes_left()),
            Command::Block { drive, block } => self.block(*drive, *block)?,
            Command::Poke {
                drive,
                block,
                at,
                bytes,
            } => {
                self.rack.poke(
                    name_of(*drive),
                    name_of(*block),
                    *at as usize,
                    bytes.as_slice(),
                )?;
                Answer::Done
            }
            Command::Tear { drive, block } => {
                self.rack.tear(name_of(*drive), name_of(*block))?;
                Answer::Done
            }
            Command::Stop { left } => {
                self.rack.stop(u64::from(*left));
                self.store = Cold;
                Answer::Done
            }
        };
        Ok(Step::Say(answer))
    }

    // The step on a line of a script, with or without the newline that ends it. Where memory for the command is
    // wanting, nothing is changed.
    pub fn answer(&mut self, heap: Global, line: &[u8]) -> Result<Step, AllocError>
        ensures { MatchResult result (λ s. Steps (command_in (line_in line.now)) (kept_in self.old.rack) s (kept_in self.new.rack)) (λ _. kept_in self.new.rack ≡ kept_in self.old.rack) }
    {
        let Some(command) = parse(heap, without_newline(line))? else {
            return Ok(Step::Say(Answer::Unknown));
        };
        Ok(
            self.obey(&command)
                .unwrap_or_else(|refusal| Step::Say(Answer::Refused(refusal))),
        )
    }
}
