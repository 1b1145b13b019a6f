// Runs that differ in one number.
use std::alloc::AllocGlobal;

/// Runs one after the other, under what was tried in them: those that ended alike get one line, unless each has one.
#[derive(Drop)]
pub struct Ranges {
    what: String,
    single: bool,
    first: u64,
    last: u64,
    outcome: Option<String>,
}

impl Ranges {
    pub fn of(what: String, single: bool) -> Ranges {
        Ranges {
            what,
            single,
            first: 0,
            last: 0,
            outcome: None,
        }
    }

    pub fn what(&self) -> &str {
        self.what.as_str()
    }

    /// Notes how the run with a number ended, and prints those before it that are alike, where it ended otherwise.
    pub fn note<R: Print + AllocGlobal>(
        &mut self,
        rt: &R,
        number: u64,
        outcome: String,
    ) -> anyhow::Result<()> {
        if !self.is_alike(outcome.as_str()) {
            self.end(rt)?;
            self.first = number;
        }
        self.last = number;
        self.outcome = Some(outcome);
        if self.single {
            self.end(rt)?;
            self.outcome = None;
        }
        Ok(())
    }

    fn is_alike(&self, outcome: &str) -> bool {
        match &self.outcome {
            Some(before) => before.as_str() == outcome,
            None => false,
        }
    }

    /// Prints the last ones that are alike.
    pub fn end<R: Print + AllocGlobal>(&self, rt: &R) -> anyhow::Result<()> {
        if let Some(outcome) = &self.outcome {
            let Ranges {
                what,
                first,
                last,
                ..
            } = self;
            println!(rt; "{what} {first}-{last} {outcome}")?;
        }
        Ok(())
    }
}
