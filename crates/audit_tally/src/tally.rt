ghost use Rattle.std.specs.Prelude.{◌≡◌, ◌<◌, ◌+◌, not, cond, Some, None};
ghost use Rattle.std.specs.Option.{is_some};

/// How many records were heard, and the first line whose record isn't consistent.
#[derive(Drop)]
pub struct Tally {
    pub records: u32,
    /// The line's number in the input, from 1.
    pub broken: Option<u32>,
}

impl Tally {
    /// Before the first record.
    pub fn new() -> Tally
        ensures { result ≡ record { records = 0; broken = None } }
    {
        Tally {
            records: 0,
            broken: None,
        }
    }

    /// Counts a record. It says whether the record is to be judged: after the first that isn't consistent they are counted alone.
    pub fn count(&mut self) -> bool
        requires { self.old.records < 1000000 }
        ensures goes_on { result ≡ not (is_some self.old.broken) }
        ensures counted { self.new ≡ record { records = self.old.records + 1; broken = self.old.broken } }
    {
        self.records += 1;
        self.broken.is_none()
    }

    /// The record of the line with this number was judged.
    pub fn judged(&mut self, number: u32, is_consistent: bool)
        ensures { self.new ≡ record { records = self.old.records; broken = cond is_consistent self.old.broken (Some number) } }
    {
        if !is_consistent {
            self.broken = Some(number);
        }
    }
}
