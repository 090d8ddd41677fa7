use crate::cluster::{has_packs, is_mount_name, is_mounted, is_name, is_some_sites, is_whole};
use std::alloc::Global;
use trace_book::locus_ids::sizes::SITES;
use trace_book::locus_ids::{Bytes, Config, Mount, Mounts, NoMemory, Sites};

/// A line that says what the cluster is.
#[derive(Drop)]
pub enum HeaderLine {
    Sites { count: u8 },
    /// The sites that have a pack of the group.
    Group { group: u8, sites: Sites },
    /// The group stands on this name of the root directory.
    Mount { group: u8, name: Bytes },
}

/// What the header lines have said so far.
#[derive(Drop)]
pub struct Header {
    /// The cluster that they make.
    pub config: Config,
    /// Group 0 has its packs and every other group that has packs is mounted, so that event lines may follow.
    pub whole: bool,
}

impl Header {
    ghost use Rattle.std.specs.Prelude.{◌≡◌, true, OnOk, OnErr};
    ghost use Rattle.schedule_lines.specs.Cluster.{header_of, may_join, no_cluster, with_header};

    /// Before the first line. The names of mounts are kept with this allocator.
    pub fn new(alloc: Global) -> Header
        ensures { result ≡ header_of no_cluster }
    {
        Header {
            config: Config {
                sites: 0,
                packs: [Sites(0); 4],
                mounts: Mounts::new(alloc),
            },
            whole: false,
        }
    }

    /// The line may stand next among the header lines.
    pub fn may_take(&self, line: &HeaderLine) -> bool
        ensures { result ≡ may_join self.now.config line.now }
    {
        match line {
            HeaderLine::Sites { count } => {
                self.config.sites == 0 && 1 <= *count && *count <= SITES as u8
            }
            HeaderLine::Group { group, sites } => {
                *group <= 3
                    && !has_packs(&self.config, *group)
                    && is_some_sites(self.config.sites, sites.0)
            }
            HeaderLine::Mount { group, name } => {
                1 <= *group
                    && *group <= 3
                    && has_packs(&self.config, *group)
                    && !is_mounted(&self.config, *group)
                    && is_name(name.as_slice())
                    && !is_mount_name(&self.config, name.as_slice())
            }
        }
    }

    /// Goes on by a line that may stand next. After `NoMemory` all is as it was.
    pub fn take(&mut self, line: HeaderLine) -> Result<(), NoMemory>
        requires { may_join self.old.config line ≡ true }
        ensures ok { OnOk result (self.new ≡ header_of (with_header self.old.config line)) }
        ensures err { OnErr result (self.new ≡ self.old) }
    {
        match line {
            HeaderLine::Sites { count } => self.config.sites = count,
            HeaderLine::Group { group, sites } => self.config.packs[usize::from(group)] = sites,
            HeaderLine::Mount { group, name } => self.config.mounts.push(Mount { group, name })?,
        }
        self.whole = is_whole(&self.config);
        Ok(())
    }
}
