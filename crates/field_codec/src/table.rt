ghost use Rattle.std.specs.Prelude.{◌≡◌, ◌<◌, ◌^◌, sum};

/// The widths in bytes of the fields of a record, in their order.
#[derive(Clone, Copy)]
pub struct Table<const L: usize> {
    pub widths: [u32; L],
}

impl<const L: usize> Table<L> {
    /// The width of all fields together.
    pub fn width(&self) -> u32
        requires { sum self.now.widths < 2 ^ 32 }
        ensures { result ≡ sum self.now.widths }
    {
        self.widths.iter().sum()
    }
}
