ghost use Rattle.std.specs.Prelude.{◌≡◌, ◌≤◌, true, IfOk, OnOk};
ghost use Rattle.audit_rules.specs.Consistent.{audited, nothing_audited};
ghost use Rattle.trace_audit.specs.Audits.{verdict_of};

use crate::judging::judge;
use crate::verdict::{Verdict, said_where};
use audit_rows::Told;
use audit_tally::Standing;
use locus_ids::{Config, NoMemory};
use std::alloc::Global;
use std::marker::Model;
use trace_book::Record;

/// An audit of a trace. Contracts see the cluster, and what is known of the records so far.
pub struct Audit {
    config: Config,
    told: Told,
    standing: Standing,
}

// Taken apart in one place: where an audit is dropped, the prover sees one call.
impl Drop for Audit {
    fn drop(self) {
        let Audit {
            config: _,
            told: _,
            standing: _,
        } = self;
    }
}

impl Model for Audit {
    ghost use Rattle.trace_audit.specs.Audits.{Auditing, IsKept, known_so};

    ghost Value = { Auditing };

    ghost view = { λ a. record { config = a.config; state = known_so a.standing.sound a.standing.last a.told } };

    ghost invariant = { λ a. IsKept a.standing.sound a.config a.told };
}

impl Audit {
    /// Before the first record. What is kept later comes from this allocator.
    pub fn new(alloc: Global, config: Config) -> Result<Audit, NoMemory>
        ensures { IfOk result (λ made. made ≡ record { config = config; state = nothing_audited config }) }
    {
        let told = Told::new(alloc, &config)?;
        Ok(Audit {
            config,
            told,
            standing: Standing::new(),
        })
    }

    /// Takes the next record, of this line, and says whether it and all before it are consistent. After `NoMemory` nothing is known.
    pub fn take(&mut self, line: u32, r: Record) -> Result<Verdict, NoMemory>
        ensures state { OnOk result (self.new ≡ record { config = self.old.config; state = audited self.old.config self.old.state line r }) }
        ensures verdict { IfOk result (λ says. says ≡ verdict_of self.new.state) }
    {
        if !self.standing.take(line) {
            drop(r);
            return Ok(Verdict::Broken);
        }
        let may_come = judge(&self.config, &mut self.told, r)?;
        Ok(said_where(self.standing.judged(line, may_come)))
    }
}
