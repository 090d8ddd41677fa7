ghost use Rattle.std.specs.Prelude.{◌≡◌, IfOk};
ghost use Rattle.role_steps.specs.Versions.{kept, stamps_of, file_row};

use crate::css::Css;
use css_versions::stamps_of;
use locus_ids::{NoMemory, Stamps};

impl Css {
    /// The stamps of the kept versions of a file.
    pub fn kept(&self, ino: u16) -> Result<Stamps, NoMemory>
        ensures { IfOk result (λ made. made ≡ stamps_of (kept (file_row self.now ino))) }
    {
        match self.files.find(ino) {
            Some(file) => stamps_of(self.early.allocator(), file.kept()),
            None => Ok(Stamps::new(self.early.allocator())),
        }
    }
}
