//! Two that are compared: their runs, and what is printed of them.
use crate::runs::{Summary, nanos_each, sum_up};
use anyhow::Result;
use std::time::Duration;

/// The runs of ours, and those of theirs.
#[derive(Clone, Copy)]
pub struct Pair {
    ours: Summary,
    theirs: Summary,
}

impl Pair {
    /// Sums up runs that took these times, which it sorts.
    pub fn of(ours: &mut [Duration], theirs: &mut [Duration]) -> Result<Pair> {
        Ok(Pair {
            ours: sum_up(ours)?,
            theirs: sum_up(theirs)?,
        })
    }
}

/// The names of two that are compared, and how many things each handles in a run.
#[derive(Clone, Copy)]
pub struct Rivals {
    pub ours: &'static str,
    pub theirs: &'static str,
    pub count: u32,
}

impl Rivals {
    /// Prints two lines, of the best runs and of the middle ones: nanoseconds for each thing by ours and by theirs, and the ratio
    /// of the two. Before them stand the name of the case and, in the second line, what is given for it.
    pub fn print<R>(self, rt: &R, case: &str, again: &str, pair: Pair) -> Result<()>
    where
        R: Print,
    {
        let Pair { ours, theirs } = pair;
        self.print_line(rt, case, "best", ours.best, theirs.best)?;
        self.print_line(rt, again, "middle", ours.middle, theirs.middle)
    }

    fn print_line<R>(
        self,
        rt: &R,
        case: &str,
        run: &str,
        ours: Duration,
        theirs: Duration,
    ) -> Result<()>
    where
        R: Print,
    {
        let (our_name, their_name) = (self.ours, self.theirs);
        let ours = nanos_each(ours, self.count);
        let theirs = nanos_each(theirs, self.count);
        let ratio = ours / theirs;
        println!(rt;
            "{case}  {run:<6}  {our_name} {ours:>6.1} ns  {their_name} {theirs:>6.1} ns  ratio {ratio:.2}"
        )?;
        Ok(())
    }
}
