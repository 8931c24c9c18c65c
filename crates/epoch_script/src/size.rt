//! How large a run of threads is.
ghost use Rattle.std.specs.Prelude.{◌≡◌, ◌≤◌, ◌*◌};

/// How large a run is.
#[derive(Clone, Copy)]
pub struct Size {
    /// How many threads there are, from 1 to 64.
    pub threads: u64,
    /// How many rounds each thread does, from 1 to 64.
    pub rounds: u64,
    pub ghost many: { (1 ≤ threads) × (threads ≤ 64) },
    pub ghost often: { (1 ≤ rounds) × (rounds ≤ 64) },
}

impl Size {
    /// Returns how many jobs the run takes: one for each round of each thread.
    pub fn jobs(self) -> u64
        ensures product { result ≡ self.threads * self.rounds }
        ensures few { result ≤ 4096 }
    {
        self.threads * self.rounds
    }
}
