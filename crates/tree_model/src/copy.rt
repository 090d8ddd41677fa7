use locus_ids::Stamp;

/// What a site has of a file of a group: its version now, and its version in an epoch, which stays what it was when the
/// site left.
#[derive(Clone, Copy)]
pub struct HeldCopy {
    pub site: u8,
    pub ino: u16,
    pub now: Stamp,
    pub held: Option<Stamp>,
}
