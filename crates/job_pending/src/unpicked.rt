// How many jobs were never picked.
ghost use Rattle.std.specs.Prelude.{◌≡◌, ◌<◌, ◌^◌, ◌-◌};
ghost use Rattle.job_pending.specs.Unpicked.{unpicked_with, unpicked_without, unpicked_in};

/// The jobs of each queue that were accepted and not yet picked.
#[derive(Clone, Copy)]
pub struct Unpicked {
    pub standard: u16,
    pub immediate: u16,
}

impl Unpicked {
    /// One job more is accepted.
    pub fn accept(&mut self, immediate: bool)
        requires { unpicked_in immediate self.old < 2 ^ 16 - 1 }
        ensures { self.new ≡ unpicked_with immediate self.old }
    {
        if immediate {
            self.immediate += 1;
        } else {
            self.standard += 1;
        }
    }

    /// A job is picked, for the first time or again.
    pub fn pick(&mut self, immediate: bool, again: bool)
        ensures { self.new ≡ unpicked_without immediate again self.old }
    {
        if again {
            return;
        }
        if immediate {
            self.immediate = self.immediate.saturating_sub(1);
        } else {
            self.standard = self.standard.saturating_sub(1);
        }
    }
}
