//! How the watch's answers are printed.

ghost use Rattle.std.specs.Prelude.{Some};
ghost use Rattle.watch.specs.Words.{verdict_word, state_word, rule_word};

use crate::cycle::{Rule, Verdict, Watch};
use std::fmt;

impl fmt::Display for Verdict {
    ghost output = { λ v. Some (verdict_word v) };

    fn fmt<W: fmt::Write>(&self, f: &mut fmt::Formatter<W>) -> fmt::Result {
        f.write_str(match self {
            Verdict::Pass => "pass",
            Verdict::Reset => "reset",
        })
    }
}

impl fmt::Display for Watch {
    ghost output = { λ s. Some (state_word s) };

    fn fmt<W: fmt::Write>(&self, f: &mut fmt::Formatter<W>) -> fmt::Result {
        f.write_str(match self {
            Watch::Outside => "outside",
            Watch::Inside => "inside",
            Watch::Last => "last",
            Watch::Reset => "reset",
        })
    }
}

impl fmt::Display for Rule {
    ghost output = { λ r. Some (rule_word r) };

    fn fmt<W: fmt::Write>(&self, f: &mut fmt::Formatter<W>) -> fmt::Result {
        let number = self.number();
        write!(f, "W{number}")
    }
}
