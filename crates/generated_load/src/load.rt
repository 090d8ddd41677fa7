ghost use Rattle.std.specs.Prelude.{◌≡◌, ◌≤◌, ◌+◌, None, Ok, IfOk, IfSome, OnErr};
ghost use Rattle.generated_load.specs.Pieces.{events_of, first_left, moved, next_lines};

use crate::draws::next_draw;
use crate::events::add_event;
use locus_ids::NoMemory;
use rand_pcg::Pcg32;
use schedule_lines::Line;
use std::alloc::Global;
use std::marker::Model;

/// The stream of the load's numbers.
const STREAM: u64 = 54;

/// The events of a load that are still to come.
#[derive(Drop)]
pub struct Load {
    event: u32,
    left: u32,
    generator: Pcg32,
}

impl Model for Load {
    ghost use Rattle.std.specs.Prelude.{◌+◌, ◌≤◌};
    ghost use Rattle.generated_load.specs.Pieces.{LoadLeft};

    ghost Value = { LoadLeft };

    ghost view = { λ l. record { event = l.event; left = l.left; generator = l.generator } };

    ghost invariant = { λ l. l.event + l.left ≤ 2001 };
}

impl Load {
    /// The load of this number, with so many events.
    pub fn new(number: u64, events: u32) -> Load
        requires { events ≤ 2000 }
        ensures { result ≡ first_left number events }
    {
        Load {
            event: 1,
            left: events,
            generator: Pcg32::new(number, STREAM),
        }
    }

    /// The lines of the next event; none after the last. After `NoMemory` nothing is said of those that are left.
    pub fn next(&mut self, alloc: Global) -> Result<Option<Vec<Line>>, NoMemory>
        ensures none { result ≡ Ok None → (self.old.left ≡ 0) × (self.new ≡ self.old) }
        ensures lines { IfOk result (λ made. IfSome made (λ lines. (1 ≤ self.old.left) × (events_of lines.items ≡ next_lines self.old) × (self.new ≡ moved self.old))) }
    {
        if self.left == 0 {
            return Ok(None);
        }
        let draw = next_draw(&mut self.generator);
        let mut lines = Vec::new(alloc);
        add_event(alloc, self.event, &draw, &mut lines)?;
        self.event += 1;
        self.left -= 1;
        Ok(Some(lines))
    }
}
