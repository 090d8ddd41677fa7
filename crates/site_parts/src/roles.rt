ghost use Rattle.std.specs.Prelude.{◌≡◌};
ghost use Rattle.site_parts.specs.Roles.{role_of};

use wire_messages::Body;

/// Which role of a site takes a packet of its epoch.
#[derive(Clone, Copy)]
pub enum Role {
    /// A synchronization site.
    Tables,
    /// The storage site.
    Store,
    /// The using site.
    Users,
    /// The site that pulls versions.
    Pulls,
    /// The site's place in its epoch.
    Epochs,
    /// What forms an epoch is no packet of one.
    Nobody,
}

/// Which role takes a packet of the epoch.
pub fn role_of(body: &Body) -> Role
    ensures { result ≡ role_of body.now }
{
    match body {
        Body::Report { .. } => Role::Tables,
        Body::ReportOk { .. } => Role::Epochs,
        Body::Open { .. } => Role::Tables,
        Body::OpenSs { .. } => Role::Store,
        Body::Opened { .. } => Role::Tables,
        Body::OpenDone { .. } => Role::Users,
        Body::Op { .. } => Role::Store,
        Body::OpDone { .. } => Role::Users,
        Body::ReadHeld { .. } => Role::Store,
        Body::AsHeld { .. } => Role::Users,
        Body::Close { .. } => Role::Store,
        Body::Closed { .. } => Role::Tables,
        Body::ClosedOk { .. } => Role::Store,
        Body::CloseDone { .. } => Role::Users,
        Body::Look { .. } => Role::Tables,
        Body::LookSs { .. } => Role::Store,
        Body::LookDone { .. } => Role::Users,
        Body::Notify { .. } => Role::Pulls,
        Body::Pull { .. } => Role::Store,
        Body::Page { .. } => Role::Pulls,
        Body::Have { .. } => Role::Tables,
        Body::Want { .. } => Role::Store,
        Body::Delta { .. } => Role::Pulls,
        _ => Role::Nobody,
    }
}
