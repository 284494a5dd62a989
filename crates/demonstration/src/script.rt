//! Who makes the calls: a script that is cut in its install, and writes down what it is shown.

ghost use Rattle.std.specs.Prelude.{◌≡◌};

use crate::image::{LEN, NEW, OLD, nonce};
use authenticator::Authenticator;
use board::Answer;
use chip::Nor;
use commands::push_hex;
use lifecycle::{Call, Driver, Order, Reply, Standing};
use planner::Request;
use std::alloc::{AllocError, Global};
use std::fmt;
use store::{BLOCK_LEN, CutPlan, Make, MemoryStore, Plain, Residue};

/// The block from which the new image lies on.
const FIRST: usize = 6;

/// The calls of the script, each once, in the order of `STEPS`.
#[derive(Clone, Copy, PartialEq, Eq)]
enum Step {
    Start,
    StageFirst,
    StageSecond,
    OfferWrong,
    Offer,
    /// The install that is cut.
    CutInstall,
    Restart,
    /// An offer and an install, where the old image runs again.
    OfferAgain,
    Install,
}

const STEPS: [Step; 9] = [
    Step::Start,
    Step::StageFirst,
    Step::StageSecond,
    Step::OfferWrong,
    Step::Offer,
    Step::CutInstall,
    Step::Restart,
    Step::OfferAgain,
    Step::Install,
];

impl Step {
    /// Whether it comes ahead of the install that is cut.
    fn is_prelude(self) -> bool {
        match self {
            Step::Start | Step::StageFirst | Step::StageSecond | Step::OfferWrong | Step::Offer =>
                true,
            Step::CutInstall | Step::Restart | Step::OfferAgain | Step::Install => false,
        }
    }
}

impl fmt::Display for Step {
    fn fmt<W: fmt::Write>(&self, f: &mut fmt::Formatter<W>) -> fmt::Result {
        match self {
            Step::Start | Step::Restart => write!(f, "start"),
            Step::StageFirst => write!(f, "stage block {FIRST}"),
            Step::StageSecond => write!(f, "stage block {}", FIRST + 1),
            Step::OfferWrong => write!(f, "offer with a wrong token"),
            Step::Offer | Step::OfferAgain => write!(f, "offer"),
            Step::CutInstall | Step::Install => write!(f, "install"),
        }
    }
}

/// The version that a board tells of last.
#[derive(Clone, Copy)]
struct Version(Standing);

impl fmt::Display for Version {
    fn fmt<W: fmt::Write>(&self, f: &mut fmt::Formatter<W>) -> fmt::Result {
        match self.0 {
            Standing::Cold => write!(f, "no version"),
            Standing::Running(_, version) | Standing::Matched(_, _, _, version, _, _) => {
                write!(f, "version {version}")
            }
        }
    }
}

/// What a call answered.
#[derive(Clone, Copy)]
struct Said(Reply);

impl fmt::Display for Said {
    fn fmt<W: fmt::Write>(&self, f: &mut fmt::Formatter<W>) -> fmt::Result {
        let version = Version(self.0.standing);
        match self.0.answer {
            None => write!(f, "not in this state"),
            Some(Answer::Done) => write!(f, "done"),
            Some(Answer::Runs(launch)) | Some(Answer::Confirmed(launch)) => {
                write!(f, "runs {version}, entry {}", launch.entry)
            }
            Some(Answer::Passes) => write!(f, "pass"),
            Some(Answer::Resets) => write!(f, "reset"),
            Some(Answer::Matches) => write!(f, "matches, {version}"),
            Some(Answer::Refused(refusal)) => {
                write!(f, "refused with {}: {refusal}", refusal.number())
            }
            Some(Answer::Supply(supply)) => {
                write!(f, "cut at write {}; the board is cold", supply.write)
            }
            Some(Answer::NotLoaded(block)) => write!(f, "not loaded, block {block}"),
        }
    }
}

#[derive(Drop)]
pub(crate) struct Script {
    heap: Global,
    image: [u8; LEN],
    token: Vec<u8>,
    /// Another one, which is not the tag.
    wrong: Vec<u8>,
    /// The write of the install at which the supply fails, from 1.
    cut: usize,
    /// The call that was made last.
    made: Option<Step>,
    /// Those that come.
    steps: &'static [Step],
    text: String,
    /// The last confirmation.
    confirmation: Option<Vec<u8>>,
    /// Whether there was memory for each line of the text.
    written: Result<(), AllocError>,
}

impl Script {
    /// Says where this life is cut.
    pub fn begin(
        heap: Global,
        mut text: String,
        image: [u8; LEN],
        token: &[u8],
        cut: usize,
        name: &str,
    ) -> Result<Script, AllocError> {
        if cut == 1 {
            text.push_str("  the factory loads version 7 from block 4 on\n")?;
        }
        text.push_str(format!(in heap; "  install cut at {name}\n")?.as_str())?;
        let mut wrong = Vec::from_slice(heap, token)?;
        if let Some(byte) = wrong.first_mut() {
            *byte ^= 0xFF;
        }
        Ok(Script {
            heap,
            image,
            token: Vec::from_slice(heap, token)?,
            wrong,
            cut,
            made: None,
            steps: &STEPS,
            text,
            confirmation: None,
            written: Ok(()),
        })
    }

    /// Ends the text of this life: what the planner says of the confirmation.
    pub fn end<K: Authenticator>(self, planner: &mut K) -> Result<String, AllocError> {
        self.written?;
        let request = Request::open(NEW as u16, nonce(NEW));
        // Words of this one place, which no type has.
        let verdict = match &self.confirmation {
            None => {
                request.give_up();
                "no confirmation came"
            }
            Some(confirmation) => match request.verify(planner, confirmation) {
                Ok(()) => "the confirmation is right",
                Err(_) => "the confirmation is not right",
            },
        };
        let mut text = self.text;
        text.push_str(format!(in self.heap; "    planner: {verdict}\n")?.as_str())?;
        Ok(text)
    }

    /// Tells of the last call, and names the next one.
    fn turn(&mut self, last: Reply, register: &[u8]) -> Result<Option<Order>, AllocError> {
        self.tell(last, register)?;
        let Some((step, rest)) = self.steps.split_first() else {
            return Ok(None);
        };
        let Some(call) = self.call(*step, last)? else {
            return Ok(None);
        };
        self.made = Some(*step);
        self.steps = rest;
        Ok(Some(Order {
            call,
            scratch: 512,
            register: 32,
        }))
    }

    // The call of a step, if it is made.
    fn call(&self, step: Step, last: Reply) -> Result<Option<Call>, AllocError> {
        let call = match step {
            Step::Start | Step::Restart => Call::Start,
            Step::StageFirst => self.stage(FIRST, &self.image[..BLOCK_LEN])?,
            Step::StageSecond => self.stage(FIRST + 1, &self.image[BLOCK_LEN..])?,
            Step::OfferWrong => Call::Offer(FIRST, self.wrong.clone()?),
            Step::Offer => Call::Offer(FIRST, self.token.clone()?),
            Step::OfferAgain => match last.standing {
                Standing::Running(_, version) if version == OLD as u16 => {
                    Call::Offer(FIRST, self.token.clone()?)
                }
                _ => return Ok(None),
            },
            Step::CutInstall | Step::Install => Call::Install,
        };
        Ok(Some(call))
    }

    // A part of the image, and zeros after its end.
    fn stage(&self, block: usize, part: &[u8]) -> Result<Call, AllocError> {
        let mut bytes = Vec::from_slice(self.heap, part)?;
        bytes.resize(BLOCK_LEN, 0)?;
        Ok(Call::Stage(block, bytes))
    }

    // What the last call was, and what came of it. The calls ahead of the install are told in the first life alone.
    fn tell(&mut self, last: Reply, register: &[u8]) -> Result<(), AllocError> {
        let Some(step) = self.made else {
            return Ok(());
        };
        let told = self.cut == 1 || !step.is_prelude();
        if told {
            let said = Said(last);
            let line = format!(in self.heap; "    {step}: {said}")?;
            self.text.push_str(line.as_str())?;
        }
        if let Some(Answer::Confirmed(_)) = last.answer {
            // The register has room for the tag of any authenticator.
            let tag = &register[..self.token.len().min(register.len())];
            if told {
                self.text.push_str(", confirmed\n      ")?;
                push_hex(&mut self.text, tag)?;
            }
            self.confirmation = Some(Vec::from_slice(self.heap, tag)?);
        }
        if told {
            self.text.push_str("\n")?;
        }
        Ok(())
    }
}

/// A kind of memory whose plans can cut the write of a given number, from 1.
pub(crate) trait Cuts: Make {
    /// A byte of a new memory.
    const BLANK: u8;

    fn cut_at(write: usize) -> Self::Plan;
}

impl Cuts for Plain {
    const BLANK: u8 = 0;

    fn cut_at(write: usize) -> CutPlan {
        CutPlan {
            writes: write.saturating_sub(1),
            leaves: Residue::Repeated(0xA5),
        }
    }
}

// A write of a chip store has 512 or 513 operations; this cuts it in its middle.
const CHIP_WRITE: usize = 513;

const CHIP_MIDDLE: usize = 256;

impl Cuts for Nor {
    const BLANK: u8 = 0xFF;

    fn cut_at(write: usize) -> usize {
        write
            .saturating_sub(1)
            .saturating_mul(CHIP_WRITE)
            .saturating_add(CHIP_MIDDLE)
    }
}

impl<M: Cuts> Driver<MemoryStore<'_, M>> for Script {
    fn next(
        &mut self,
        last: Reply,
        store: &mut MemoryStore<'_, M>,
        register: &[u8],
    ) -> Option<Order> {
        let order = match self.turn(last, register) {
            Ok(order) => order?,
            Err(error) => {
                self.written = Err(error);
                return None;
            }
        };
        if self.made == Some(Step::CutInstall) {
            store.set_plan(M::cut_at(self.cut));
        }
        Some(order)
    }
}
