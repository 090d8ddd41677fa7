ghost use Rattle.std.specs.Prelude.{◌≡◌, ◌&&◌, nat_le, true, false};

/// Whether the records so far are consistent, each after those before it.
#[derive(Drop)]
pub struct Standing {
    /// The line of the last record.
    pub last: u32,
    pub sound: bool,
}

impl Standing {
    /// Before the first record.
    pub fn new() -> Standing
        ensures { result ≡ record { last = 0; sound = true } }
    {
        Standing {
            last: 0,
            sound: true,
        }
    }

    /// A record of this line comes. It says whether the record is to be judged: all before it are consistent, and its line isn't
    /// lower than the last one's. Until its verdict is told, nothing counts as consistent.
    pub fn take(&mut self, line: u32) -> bool
        ensures goes_on { result ≡ (self.old.sound && nat_le self.old.last line) }
        ensures open { self.new ≡ record { last = self.old.last; sound = false } }
    {
        let goes_on = self.sound && self.last <= line;
        self.sound = false;
        goes_on
    }

    /// The record of this line was judged. It says whether it and all before it are consistent.
    pub fn judged(&mut self, line: u32, may_come: bool) -> bool
        ensures says { result ≡ may_come }
        ensures known { self.new ≡ record { last = line; sound = may_come } }
    {
        self.last = line;
        self.sound = may_come;
        self.sound
    }
}
