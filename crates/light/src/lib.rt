// From light to levels: readings, and the assembler of one block.
#![tactic(auto)]

ghost use Rattle.std.specs.Prelude.{◌≡◌, ◌<◌, Some};
ghost use Rattle.rules.specs.Assembling as rules;
ghost use Rattle.rules.specs.Answers.{take_answer, take_left};
ghost use Rattle.refusal.specs.Printed.{printed};
ghost use Rattle.refusal.specs.Results.{answer_by};
ghost use Rattle.light.specs.Values.{reading_of, assembler_of, room, Hands, Starts, Gives};
ghost use Rattle.light.specs.Steps.{is_wrong, Fills, LevelAt, taken_answer};

use refusal::Refusal;
use std::error::Error;
use std::fmt;

// N at the largest n: how many levels an assembler has room for.
const ROOM: usize = word::SLOTS;

// An in-phase and a quadrature sample.
#[derive(Clone, Copy, Debug)]
pub struct Pair {
    pub in_phase: f32,
    pub quadrature: f32,
}

// A single sample, a pair of samples, or an erased slot.
#[derive(Clone, Copy, Debug)]
pub enum Reading {
    Single(f32),
    Pair(Pair),
    Erased,
}

// The levels of a block for one n, as far as it is filled, and zeros behind them. It is plain data that a caller can make up, in an
// array of fixed size, since nothing here uses a heap; so how far it is filled stands beside the levels.
#[derive(Clone, Copy, Debug)]
pub struct Assembler {
    pub n: u32,
    pub filled: usize,
    pub levels: [i32; ROOM],
}

// Why a call was refused, and the assembler that is handed back with the refusal.
#[derive(Clone, Copy, Debug)]
pub struct Refused {
    pub why: Refusal,
    pub assembler: Assembler,
}

// A call that was refused is printed by its refusal.
impl fmt::Display for Refused {
    ghost output = { λ refused. Some (printed refused.why) };

    fn fmt<W: fmt::Write>(&self, f: &mut fmt::Formatter<W>) -> fmt::Result {
        write!(f, "{}", self.why)
    }
}

impl Error for Refused {}

// The level of a sample that stands at this place in its reading; refusal 11 names the place.
fn level_at(sample: f32, place: usize) -> Result<i32, Refusal>
    ensures { LevelAt sample place result }
{
    sample::level(sample).ok_or(Refusal::NotFinite(place))
}

impl Reading {
    // How many slots the reading needs.
    fn slots_needed(self) -> usize
        ensures { result ≡ rules.slots_needed (reading_of self) }
    {
        match self {
            Reading::Single(_) => 1,
            Reading::Pair(_) => 2,
            Reading::Erased => 1,
        }
    }
}

impl Assembler {
    // An assembler for one n, empty, with every level 0; a refusal hands back that too.
    pub fn new(n: u32) -> Result<Assembler, Refused>
        ensures { Starts n result }
    {
        let assembler = Assembler {
            n,
            filled: 0,
            levels: [0; ROOM],
        };
        if word::wrong_size(n) {
            return Err(Refused {
                why: Refusal::Size,
                assembler,
            });
        }
        Ok(assembler)
    }

    // The assembler with the next slots filled from a reading; a refusal hands back the assembler that came in.
    pub fn take(self, reading: Reading) -> Result<Assembler, Refused>
        ensures { Hands (take_answer (assembler_of self) (reading_of reading)) (take_left (assembler_of self) (reading_of reading)) result }
    {
        self.taken(reading).map_err(|why| Refused {
            why,
            assembler: self,
        })
    }

    // The N levels of a full assembler into out; a refusal leaves out as it was.
    pub fn give(self, out: &mut [i32]) -> Result<(), Refusal>
        ensures { Gives (assembler_of self) out.old out.new result }
    {
        if self.is_wrong() {
            return Err(Refusal::Size);
        }
        let size = word::slots(self.n);
        if self.filled < size {
            return Err(Refusal::NotFull);
        }
        if out.len() != size {
            return Err(Refusal::Length);
        }
        out.copy_from_slice(&self.levels[..size]);
        Ok(())
    }

    // Whether the n is not 1..6, or more than N slots are filled.
    fn is_wrong(self) -> bool
        ensures { result ≡ is_wrong self.n self.filled }
    {
        word::wrong_size(self.n) || self.filled > word::slots(self.n)
    }

    // The assembler with the next slots filled from a reading, or the refusal alone.
    fn taken(self, reading: Reading) -> Result<Assembler, Refusal>
        ensures { answer_by assembler_of result ≡ taken_answer (assembler_of self) (reading_of reading) }
    {
        if self.is_wrong() {
            return Err(Refusal::Size);
        }
        if self.filled + reading.slots_needed() > word::slots(self.n) {
            return Err(Refusal::NoRoom);
        }
        match reading {
            Reading::Single(s) => {
                let level = level_at(s, 0)?;
                Ok(self.fill(level))
            }
            Reading::Pair(p) => {
                let first = level_at(p.in_phase, 0)?;
                let second = level_at(p.quadrature, 1)?;
                Ok(self.fill(first).fill(second))
            }
            Reading::Erased => Ok(self.fill(0)),
        }
    }

    // The next slot filled.
    fn fill(mut self, level: i32) -> Assembler
        requires { self.filled < room }
        ensures { Fills self level result }
    {
        self.levels[self.filled] = level;
        self.filled += 1;
        self
    }
}
