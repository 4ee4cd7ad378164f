// How many digests were compared, and how many were wrong.
use crate::expected::Verdict;
use std::fmt;

#[derive(Default, Drop)]
pub struct Tally {
    digests: u32,
    wrong: u32,
}

impl Tally {
    pub fn count(&mut self, verdict: Verdict) {
        self.digests = self.digests.saturating_add(1);
        match verdict {
            Verdict::Right => {}
            Verdict::Wrong => self.wrong = self.wrong.saturating_add(1),
        }
    }

    pub fn all_right(&self) -> bool {
        self.wrong == 0
    }
}

impl fmt::Display for Tally {
    fn fmt<W: fmt::Write>(&self, f: &mut fmt::Formatter<W>) -> fmt::Result {
        let digests = self.digests;
        let wrong = self.wrong;
        write!(f, "{digests} digests, {wrong} wrong")
    }
}
