ghost use Rattle.std.specs.Prelude.{◌≡◌, IfOk};
ghost use Rattle.role_steps.specs.Looks.{service_on, only_kept, whole_kept, served_by};
ghost use Rattle.role_steps.specs.Versions.{chosen_site, holders_of};
ghost use Rattle.locus_ids.specs.declared.refusal.Refusal.TheVariants.{NoStorage};
ghost use Rattle.css_core.specs.declared.service.Service.TheVariants.{Denied};
ghost use Rattle.css_core.specs.Lettered.{service_of};

use css_versions::{KnownFile, choose};
use locus_ids::{NoMemory, Refusal, SiteId, Stamp};
use role_steps::VersionRow;
use site_frame::SiteFrame;
use trace_book::What;

/// What a look is served.
pub enum Service {
    Denied { why: Refusal },
    /// This version, which this site has.
    Served { version: VersionRow, site: SiteId },
}

// Taken apart in one place: where a service is dropped, the prover sees one call.
impl Drop for Service {
    fn drop(self) {
        match self {
            Service::Denied { why: _ } => (),
            Service::Served {
                version: _,
                site: _,
            } => (),
        }
    }
}

fn no_storage() -> Service
    ensures { result ≡ Denied NoStorage }
{
    Service::Denied {
        why: Refusal::NoStorage,
    }
}

/// The only kept version, at a site that is chosen as a storage site is.
fn only_kept(frame: &SiteFrame, us: SiteId, file: &KnownFile) -> Result<Service, NoMemory>
    ensures { IfOk result (λ made. service_of made ≡ only_kept frame.now us file.now file.now.kept) }
{
    match file.kept() {
        [] => Ok(no_storage()),
        [version] => serve(file, version, us, frame.me),
        [first, second, ..] => Ok(Service::Denied {
            why: Refusal::Conflict {
                a: first.stamp,
                b: second.stamp,
            },
        }),
    }
}

/// The version at one of its holders: this one, else the synchronization site, else the lowest-numbered.
fn serve(
    file: &KnownFile,
    version: &VersionRow,
    us: SiteId,
    css: SiteId,
) -> Result<Service, NoMemory>
    ensures { IfOk result (λ made. service_of made ≡ served_by version.now (chosen_site us css (holders_of file.now version.now.stamp))) }
{
    let holders = file.holders(version.stamp)?;
    match choose(us, css, holders.as_slice()) {
        Some(site) => Ok(Service::Served {
            version: *version,
            site,
        }),
        None => Ok(no_storage()),
    }
}

/// For a whole content the asked version, if it is kept.
fn whole_kept(
    frame: &SiteFrame,
    file: &KnownFile,
    stamp: Stamp,
    kept: &[VersionRow],
) -> Result<Service, NoMemory>
    ensures { IfOk result (λ made. service_of made ≡ whole_kept frame.now file.now stamp kept.now) }
{
    match kept {
        [] => Ok(no_storage()),
        [first, later @ ..] => {
            if first.stamp == stamp {
                serve_asked(frame, file, first, stamp)
            } else {
                whole_kept(frame, file, stamp, later)
            }
        }
    }
}

/// The asked version, at the synchronization site where it holds it, else the lowest-numbered holder.
fn serve_asked(
    frame: &SiteFrame,
    file: &KnownFile,
    version: &VersionRow,
    stamp: Stamp,
) -> Result<Service, NoMemory>
    ensures { IfOk result (λ made. service_of made ≡ served_by version.now (chosen_site frame.now.me frame.now.me (holders_of file.now stamp))) }
{
    let holders = file.holders(stamp)?;
    match choose(frame.me, frame.me, holders.as_slice()) {
        Some(site) => Ok(Service::Served {
            version: *version,
            site,
        }),
        None => Ok(no_storage()),
    }
}

/// What a look at a known file is served.
pub fn service_on(
    frame: &SiteFrame,
    us: SiteId,
    file: &KnownFile,
    what: &What,
) -> Result<Service, NoMemory>
    ensures { IfOk result (λ made. service_of made ≡ service_on frame.now us file.now what.now) }
{
    match what {
        What::Whole { stamp } => whole_kept(frame, file, *stamp, file.kept()),
        _ => only_kept(frame, us, file),
    }
}
